//! The edges of the de Bruijn graph, stored as sets of nodes, and the step from a set of nodes along all edges with one
//! label.
//!
//! A node is a word of m - 1 letters, and an edge is a window of m letters. The label of an edge is the letter that the
//! rule gives for the window. A set of nodes is a number: its bit u is 1 if node u is in the set.

ghost use Rattle.std.specs.Prelude.{◌≡◌, ◌^◌, ◌<◌, ◌≤◌, ℕ, List, [], ◌∷◌, ◌++◌, length, slice_index, slice_index_or, IsBitSet};
ghost use Rattle.word_image.specs.LocalRules.{IsRule, most_states, most_nodes};
ghost use Rattle.word_image.specs.Graphs.{IsSetOf, HasBit};
ghost use Rattle.word_image.specs.Ranks.{IsLastSet};
ghost use Rattle.word_image.specs.Edges.{AreEdgeRows, IsStep};

use crate::local_rule::{MOST_NODES, MOST_STATES, Rule};
use crate::side::Side;

/// The entry `[label][u]` is the set of nodes to which the edges with this label lead from node u. There is room for 16
/// labels and 16 nodes. Entries past the last label or the last node are empty sets.
pub type EdgeRows = [[u16; MOST_NODES]; MOST_STATES];

/// Returns the edges of the rule's de Bruijn graph. On the right side they are the edges as they are. On the left side
/// each edge is reversed.
pub fn edge_rows(rule: &Rule, side: Side) -> EdgeRows
    ensures edges { AreEdgeRows side rule.now result }
    ensures tall { length result ≡ most_states }
    ensures wide { (label : ℕ) → label < most_states → length (slice_index_or result label []) ≡ most_nodes }
    ensures rule { IsRule rule.now }
{
    let mut ends = [[0; MOST_NODES]; MOST_STATES];
    for node in 0..rule.nodes() {
        for letter in 0..rule.k() {
            let window = side.window_with(rule, node, letter);
            let label = rule.at(window);
            let end = side.end_node(rule, window);
            ends[usize::from(label)][usize::from(node)] |= 1u16 << end;
        }
    }
    ends
}

/// Returns the nodes to which edges with the label `a` lead from the nodes of `set`. If `set` has the last nodes of all
/// preimages of a word, the result has the last nodes of all preimages of the word followed by `a`. The last node of a
/// word consists of its last m - 1 letters. `edges` are the rule's edges on the right side.
pub fn step(rule: &Rule, edges: &EdgeRows, set: u16, a: u8) -> u16
    requires edges { AreEdgeRows Side.Right rule.now edges.now }
    requires letter { a < rule.now.states }
    ensures step { IsStep rule.now set a result }
    ensures word { (w : List ℕ) → IsLastSet rule.now w set → IsLastSet rule.now (w ++ a ∷ []) result }
{
    union_of_rows(rule.nodes(), &edges[usize::from(a)], set)
}

/// Returns the union of the sets `rows[u]` for all nodes u of `set`. There are `nodes` nodes, at most 16.
pub fn union_of_rows(nodes: u8, rows: &[u16; MOST_NODES], set: u16) -> u16
    requires few { nodes ≤ most_nodes }
    requires within { (u : ℕ) → u < nodes → slice_index rows.now u < 2 ^ nodes }
    ensures { IsSetOf nodes (λ v. (u : ℕ) × (u < nodes) × (IsBitSet set u × HasBit rows.now u v)) result }
{
    let mut after = 0;
    for u in 0..nodes {
        if set >> u & 1 == 1 {
            after |= rows[usize::from(u)];
        }
    }
    after
}
