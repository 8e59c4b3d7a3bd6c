//! The function that C calls for the configurations that a rule only moves.
ghost use Rattle.c_structs.specs.Reports.{rule_with};
ghost use Rattle.c_structs.specs.MovedConfigs.{IsMovedCall};

use c_structs::{MovedConfigs, fault_number, write_moved};
use word_image::Rule;

/// Finds the configurations that the rule with these states, this width, this offset and this table only moves by `by`
/// cells: cell i of the image has the letter of cell i + `by`. Writes their windows and the least ring to `moved`.
/// Needs no memory.
///
/// Returns 0, or the number of the first of these faults. After a fault `moved` stays as it was.
///
/// - 1 to 6: the rule has this fault.
/// - 23: the window of cell 0, which has the cells o to o + m - 1, doesn't have the cell `by`.
#[unsafe(no_mangle)]
pub extern "C" fn ca_moved(
    states: u8,
    width: u8,
    offset: i8,
    table: &[u8],
    by: i8,
    moved: &mut MovedConfigs,
) -> u8
    ensures { IsMovedCall (rule_with states width offset table.now) by moved.old result moved.new }
{
    match Rule::new(states, width, offset, table) {
        Ok(rule) => write_moved(&rule, by, moved),
        Err(fault) => fault_number(fault),
    }
}
