//! The test whether a rule is surjective by its reached pairs, which are stored as one set of nodes for each node.
//!
//! A first pair on the right consists of two different nodes that two different letters reach from the same node, along
//! edges with equal labels. A step from a pair follows two edges with equal labels, one from each node. A pair is
//! reached if steps lead to it from a first pair.
ghost use Rattle.std.specs.Prelude.{◌≡◌, ◌≢◌, ◌^◌, ◌<◌, ◌≤◌, ◌↔◌, ℕ, IsTrue, IsFalse, MatchOption, slice_index};
ghost use Rattle.word_image.specs.LocalRules.{node_count, most_nodes};
ghost use Rattle.word_image.specs.Graphs.{next, HasBit};
ghost use Rattle.word_image.specs.Words.{IsSurjective};
ghost use Rattle.tail_config.specs.Tails.{IsInjective, IsRightClosing, IsLeftClosing};
ghost use Rattle.eden_law.specs.ReachedRows.{LeadsApart, LeadsBeside, AreNodeRows, AreAdded, IsRowSearch};

use debruijn::Graph;
use word_image::MOST_NODES;

/// The rows of a set of pairs of nodes: row u is the set of the nodes v for which the pair (u, v) is in the set of
/// pairs. Bit v of a row stands for node v.
type Rows = [u16; MOST_NODES];

/// Returns whether the rule of this graph is surjective: whether no reached pair has two equal nodes. A rule that
/// isn't surjective is neither injective nor closing on a side. Needs no memory.
pub fn is_surjective(graph: &Graph) -> bool
    ensures surjective { IsTrue result ↔ IsSurjective graph.now }
    ensures injective { IsInjective graph.now → IsTrue result }
    ensures right { IsRightClosing graph.now → IsTrue result }
    ensures left { IsLeftClosing graph.now → IsTrue result }
{
    let mut found = [0; MOST_NODES];
    let mut followed = [0; MOST_NODES];
    for node in 0..graph.nodes() {
        add_firsts(graph, node, &mut found);
        if !follow_all(graph, &mut found, &mut followed) {
            return false;
        }
    }
    true
}

/// Adds to `found` the first pairs that begin at this node: the pairs to which two different letters lead from it,
/// along edges with equal labels.
fn add_firsts(graph: &Graph, node: u8, found: &mut Rows)
    requires node { node < node_count graph.now }
    requires rows { AreNodeRows graph.now found.old }
    ensures { AreAdded graph.now node (LeadsApart graph.now node) graph.now.states found.old found.new }
{
    for a in 0..graph.k() {
        let next = graph.next(node, a);
        let others = graph.ends(node, graph.label(node, a)) & !(1 << next);
        found[usize::from(next)] |= others;
    }
}

/// Follows the steps from the pairs in `found`, and adds the pairs that they reach, until all steps have been followed.
/// Then returns true. Stops and returns false if a step leads to a pair of two equal nodes.
fn follow_all(graph: &Graph, found: &mut Rows, followed: &mut Rows) -> bool
    requires { IsRowSearch graph.now found.old followed.old }
    ensures search { IsTrue result → IsRowSearch graph.now found.new followed.new }
    ensures all { IsTrue result → (u : ℕ) → u < node_count graph.now → slice_index followed.new u ≡ slice_index found.new u }
    ensures kept { IsTrue result → (u v : ℕ) → u < node_count graph.now → v < node_count graph.now → HasBit found.old u v → HasBit found.new u v }
    ensures meets { IsFalse result → ¬ IsSurjective graph.now }
{
    while let Some(node) = open_row(graph.nodes(), found, followed) {
        let row = found[usize::from(node)];
        if !add_steps(graph, node, row, found) {
            return false;
        }
        followed[usize::from(node)] = row;
    }
    true
}

/// Returns the first node u that has a pair (u, v) in `found` whose steps haven't been followed yet. Returns None if
/// there is no such node.
fn open_row(nodes: u8, found: &Rows, followed: &Rows) -> Option<u8>
    requires { nodes ≤ most_nodes }
    ensures { MatchOption result ((u : ℕ) → u < nodes → slice_index followed.now u ≡ slice_index found.now u) (λ u. (u < nodes) × (slice_index followed.now u ≢ slice_index found.now u)) }
{
    for node in 0..nodes {
        if followed[usize::from(node)] != found[usize::from(node)] {
            return Some(node);
        }
    }
    None
}

/// Follows the steps from the pairs of `node` with each node of `set`, and adds the pairs to which they lead. Stops and
/// returns false if one of these pairs has two equal nodes. Otherwise returns true.
fn add_steps(graph: &Graph, node: u8, set: u16, found: &mut Rows) -> bool
    requires node { node < node_count graph.now }
    requires set { set < 2 ^ node_count graph.now }
    requires rows { AreNodeRows graph.now found.old }
    ensures added { IsTrue result → AreAdded graph.now node (LeadsBeside graph.now node set) graph.now.states found.old found.new }
    ensures apart { IsTrue result → (a : ℕ) → a < graph.now.states → ¬ LeadsBeside graph.now node set a (next graph.now node a) }
    ensures meets { IsFalse result → (a : ℕ) × (a < graph.now.states) × LeadsBeside graph.now node set a (next graph.now node a) }
{
    for a in 0..graph.k() {
        let next = graph.next(node, a);
        let others = graph.step(set, graph.label(node, a));
        if others >> next & 1 == 1 {
            return false;
        }
        found[usize::from(next)] |= others;
    }
    true
}
