//! The windows of the configurations that a rule only moves.
ghost use Rattle.std.specs.Prelude.{◌≢◌, IfSome, IfNone, ◌≡◌, ℕ, ◌^◌, ◌<◌, ◌≤◌, ◌↔◌, IsTrue, length, slice_index, pos, ◌+ℤ◌};
ghost use Rattle.word_image.specs.LocalRules.{IsRule, node_count, most_nodes};
ghost use Rattle.word_image.specs.Graphs.{IsSetOf};
ghost use Rattle.moved_configs.specs.MovedWindows.{AreMovedWindows, TellMoved, AreLetterSets};
ghost use Rattle.moved_configs.specs.Trims.{Stays, AreWindowSets};

use crate::trims::{core, goes};
use word_image::{MOST_NODES, Rule, Side};

/// A set of windows: a row for each node, which is a word of m - 1 letters. Bit a of the row of a node stands for the
/// window that consists of the node and the letter a. The rows past the last node are empty.
pub type WindowRows = [u16; MOST_NODES];

/// Returns the place of the cell `by` in the window of cell 0, or None if the window doesn't have this cell.
pub fn place_of(rule: &Rule, by: i8) -> Option<u8>
    ensures place { IfSome result (λ p. p < rule.now.width) }
    ensures by { IfSome result (λ p. by ≡ rule.now.offset +ℤ pos p) }
    ensures none { IfNone result ((p : ℕ) → p < rule.now.width → by ≢ rule.now.offset +ℤ pos p) }
{
    let place = i16::from(by) - i16::from(rule.o());
    if 0 <= place && place < i16::from(rule.m()) {
        Some(place as u8)
    } else {
        None
    }
}

/// Returns the windows that occur in the configurations that the rule only moves by `place` + o cells: cell i of the
/// image has the letter of cell i + `place` + o. A configuration is moved so if and only if the result has all of its
/// windows.
pub fn moved_windows(rule: &Rule, place: u8) -> WindowRows
    requires { place < rule.now.width }
    ensures windows { AreMovedWindows rule.now (rule.now.offset +ℤ pos place) result }
    ensures exactly { TellMoved rule.now (rule.now.offset +ℤ pos place) result }
    ensures sets { AreLetterSets rule.now result }
{
    let nodes = core(rule, place);
    window_rows(rule, place, nodes)
}

/// Returns the kept windows that lead from a node of the set to a node of the set.
pub(crate) fn window_rows(rule: &Rule, place: u8, nodes: u16) -> WindowRows
    requires { place < rule.now.width }
    ensures rows { AreWindowSets rule.now place nodes result }
    ensures rule { IsRule rule.now }
{
    let mut rows = [0; MOST_NODES];
    for node in 0..rule.nodes() {
        rows[usize::from(node)] = letters_from(rule, place, nodes, node);
    }
    rows
}

/// Returns the letters on which a kept window leads from the node to a node of the set. If the node isn't in the set,
/// returns no letters.
fn letters_from(rule: &Rule, place: u8, nodes: u16, node: u8) -> u16
    requires place { place < rule.now.width }
    requires node { node < node_count rule.now }
    ensures letters { IsSetOf rule.now.states (Stays rule.now place nodes node) result }
    ensures rule { IsRule rule.now }
{
    let mut letters = 0;
    for letter in 0..rule.k() {
        if stays(rule, place, nodes, node, letter) {
            letters |= 1u16 << letter;
        }
    }
    letters
}

/// Returns whether the window of the node and the letter is kept, and leads from a node of the set to a node of the
/// set.
fn stays(rule: &Rule, place: u8, nodes: u16, node: u8, letter: u8) -> bool
    requires place { place < rule.now.width }
    requires node { node < node_count rule.now }
    requires few { node < most_nodes }
    requires letter { letter < rule.now.states }
    ensures { IsTrue result ↔ Stays rule.now place nodes node letter }
{
    nodes >> node & 1 == 1 && goes(rule, place, Side::Right, nodes, node, letter)
}
