//! Trims of sets of nodes. A node is a word of m - 1 letters, and a window of m letters leads from its first m - 1
//! letters to its last m - 1 letters. A window is kept if the rule gives for it the letter at a certain place of the
//! window.
ghost use Rattle.std.specs.Prelude.{◌≡◌, ◌^◌, ◌<◌, ◌≤◌, ◌↔◌, IsTrue};
ghost use Rattle.word_image.specs.LocalRules.{IsRule, node_count};
ghost use Rattle.word_image.specs.Graphs.{IsNodeSet};
ghost use Rattle.moved_configs.specs.Trims.{IsKept, Goes, GoesOn, IsTrimmed, IsCore};

use word_image::{Rule, Side, letter_of};

/// Returns the greatest set of nodes that a trim doesn't change: from each of its nodes a kept window leads to a node
/// of the set, and to each of its nodes one leads from a node of the set.
pub(crate) fn core(rule: &Rule, place: u8) -> u16
    requires { place < rule.now.width }
    ensures { IsCore rule.now place result }
{
    let mut nodes = rule.all_nodes();
    let mut kept = trimmed(rule, place, nodes);
    'trims: while kept != nodes {
        nodes = kept;
        kept = trimmed(rule, place, nodes);
    }
    nodes
}

/// Returns the nodes of the set that have a kept window to a node of the set, and one from a node of the set.
fn trimmed(rule: &Rule, place: u8, nodes: u16) -> u16
    requires { place < rule.now.width }
    ensures trimmed { IsTrimmed rule.now place nodes result }
    ensures fewer { result ≤ nodes }
    ensures rule { IsRule rule.now }
{
    nodes & (going_on(rule, place, Side::Right, nodes) & going_on(rule, place, Side::Left, nodes))
}

/// Returns the nodes from which a kept window leads to a node of the set: forward on the right side, and backward on
/// the left.
fn going_on(rule: &Rule, place: u8, side: Side, nodes: u16) -> u16
    requires { place < rule.now.width }
    ensures nodes { IsNodeSet rule.now (GoesOn side rule.now place nodes) result }
    ensures rule { IsRule rule.now }
{
    let mut found = 0;
    for node in 0..rule.nodes() {
        if goes_on(rule, place, side, nodes, node) {
            found |= 1u16 << node;
        }
    }
    found
}

/// Returns whether a kept window leads from the node to a node of the set.
fn goes_on(rule: &Rule, place: u8, side: Side, nodes: u16, node: u8) -> bool
    requires place { place < rule.now.width }
    requires node { node < node_count rule.now }
    ensures { IsTrue result ↔ GoesOn side rule.now place nodes node }
{
    for letter in 0..rule.k() {
        if goes(rule, place, side, nodes, node, letter) {
            return true;
        }
    }
    false
}

/// Returns whether the window of the node and the letter is kept, and leads from the node to a node of the set.
pub(crate) fn goes(rule: &Rule, place: u8, side: Side, nodes: u16, node: u8, letter: u8) -> bool
    requires place { place < rule.now.width }
    requires node { node < node_count rule.now }
    requires letter { letter < rule.now.states }
    ensures { IsTrue result ↔ Goes side rule.now place nodes node letter }
{
    let window = side.window_with(rule, node, letter);
    is_kept(rule, place, window) && nodes >> side.end_node(rule, window) & 1 == 1
}

/// Returns whether the rule gives for the window the letter at this place of the window.
fn is_kept(rule: &Rule, place: u8, window: u16) -> bool
    requires place { place < rule.now.width }
    requires window { window < rule.now.states ^ rule.now.width }
    ensures { IsTrue result ↔ IsKept rule.now place window }
{
    rule.at(window) == letter_of(rule.k(), rule.m(), window, place)
}
