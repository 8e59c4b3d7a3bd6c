//! The configurations that a rule only moves, as a struct of C.
ghost use Rattle.std.specs.Prelude.{◌≡◌, ◌<◌, ◌≤◌, pos, ◌+ℤ◌};
ghost use Rattle.c_structs.specs.MovedConfigs.{AreMoved, IsMovedCall};

use moved_configs::{WindowRows, least_moved_ring, moved_windows, place_of};
use word_image::{MOST_NODES, Rule};

/// The number of the fault that the window of cell 0 doesn't have the cell by which the configurations are moved.
const NO_PLACE: u8 = 23;

/// The configurations that a rule only moves, by a given number of cells: their windows, and the least ring.
#[repr(C)]
#[derive(Clone, Copy, Debug)]
pub struct MovedConfigs {
    /// The windows of these configurations: a row for each node, and bit a of the row of a node for the window that
    /// consists of the node and the letter a. The rows past the last node are 0.
    pub rows: WindowRows,
    /// The letters of the least ring. The numbers after them are 0.
    pub ring: [u8; MOST_NODES],
    /// The number of letters of the least ring, or 0 if the rule moves no configuration so.
    pub length: u8,
}

impl MovedConfigs {
    /// Returns the configurations that a rule only moves by `place` + o cells. Needs no memory.
    fn of(rule: &Rule, place: u8) -> MovedConfigs
        requires { place < rule.now.width }
        ensures { AreMoved rule.now (rule.now.offset +ℤ pos place) result }
    {
        let mut ring = [0; MOST_NODES];
        let mut length = 0;
        if let Some(found) = least_moved_ring(rule, place) {
            let letters = found.letters();
            ring[..letters.len()].copy_from_slice(letters);
            length = letters.len() as u8;
        }
        MovedConfigs {
            rows: moved_windows(rule, place),
            ring,
            length,
        }
    }
}

/// Finds the configurations that a rule only moves by `by` cells: cell i of the image has the letter of cell i + `by`.
/// Writes them to `moved` and returns 0. If the cell `by` isn't in the window of cell 0, returns 23 and leaves `moved`
/// as it was. Needs no memory.
pub fn write_moved(rule: &Rule, by: i8, moved: &mut MovedConfigs) -> u8
    ensures { IsMovedCall rule.now by moved.old result moved.new }
{
    rule.keeps_limits();
    match place_of(rule, by) {
        Some(place) => {
            *moved = MovedConfigs::of(rule, place);
            0
        }
        None => NO_PLACE,
    }
}
