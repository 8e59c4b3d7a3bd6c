//! Relations between nodes, and the sets of nodes that they give. A node is a word of m - 1 letters, and a set of nodes
//! is a number: its bit u is 1 if node u is in the set.

ghost use Rattle.std.specs.Prelude.{◌≡◌, ◌+◌, ◌<◌, ◌≤◌, ℕ, [], get_or, IsBitSet};
ghost use Rattle.word_image.specs.LocalRules.{IsRule, IsWord, node_count, most_nodes};
ghost use Rattle.word_image.specs.Graphs.{IsNodeSet, AreSets, HasBit};
ghost use Rattle.word_image.specs.Edges.{IsEdge};
ghost use Rattle.word_image.specs.declared.side.Side.TheVariants.{Right};
ghost use Rattle.tail_preimage.specs.Walks.{HasWalk};
ghost use Rattle.tail_preimage.specs.Relations.{IsRelation, Steps};

use debruijn::Graph;
use word_image::MOST_NODES;

/// A relation between nodes. Row u is the set of the nodes to which node u is related. Zeros follow the rows of all
/// nodes.
pub type Relation = [u16; MOST_NODES];

/// Returns the relation that relates each node only to itself.
fn identity(graph: &Graph) -> Relation
    ensures relation { IsRelation graph.now (λ u v. u ≡ v) result }
    ensures rule { IsRule graph.now }
{
    let mut rows = [0; MOST_NODES];
    for u in 0..graph.nodes() {
        rows[usize::from(u)] = 1u16 << u;
    }
    rows
}

/// Returns the relation that relates each node to the nodes to which its edges with this label lead.
pub fn edges(graph: &Graph, label: u8) -> Relation
    requires { label < graph.now.states }
    ensures relation { IsRelation graph.now (IsEdge Right graph.now label) result }
    ensures rule { IsRule graph.now }
{
    graph.edges()[usize::from(label)]
}

/// Returns the nodes that the relation `rows` relates to some node of `set`.
pub fn sources(graph: &Graph, rows: &Relation, set: u16) -> u16
    ensures { IsNodeSet graph.now (λ u. (v : ℕ) × HasBit rows.now u v × IsBitSet set v) result }
{
    let mut before = 0;
    for u in 0..graph.nodes() {
        if rows[usize::from(u)] & set != 0 {
            before |= 1u16 << u;
        }
    }
    before
}

/// Returns the nodes that the relation `rows` relates to themselves.
pub fn returning(graph: &Graph, rows: &Relation) -> u16
    ensures { IsNodeSet graph.now (λ u. HasBit rows.now u u) result }
{
    let mut set = 0;
    for u in 0..graph.nodes() {
        if rows[usize::from(u)] >> u & 1 == 1 {
            set |= 1u16 << u;
        }
    }
    set
}

/// Returns the composition of two relations. It relates a node to the nodes that a step of the first relation and
/// then a step of the second relation reach.
fn joined(graph: &Graph, first: &Relation, second: &Relation) -> Relation
    requires { AreSets graph.now second.now }
    ensures { IsRelation graph.now (λ u v. (w : ℕ) × (w < node_count graph.now) × (HasBit first.now u w × HasBit second.now w v)) result }
{
    let mut rows = [0; MOST_NODES];
    for u in 0..graph.nodes() {
        rows[usize::from(u)] = graph.union_of_rows(second, first[usize::from(u)]);
    }
    rows
}

/// Returns the converse of a relation. The converse relates v to u if the relation relates u to v.
pub fn reversed(graph: &Graph, relation: &Relation) -> Relation
    ensures { IsRelation graph.now (λ u v. HasBit relation.now v u) result }
{
    let mut rows = [0; MOST_NODES];
    for u in 0..graph.nodes() {
        rows[usize::from(u)] = sources(graph, relation, 1u16 << u);
    }
    rows
}

/// Returns the relation of the walks along a word. It relates the first node of each walk whose labels spell the word
/// to the last node of the walk.
pub fn relation(graph: &Graph, word: &[u8]) -> Relation
    requires { IsWord graph.now.states word.now }
    ensures relation { IsRelation graph.now (HasWalk graph.now word.now) result }
    ensures rule { IsRule graph.now }
{
    let mut rows = identity(graph);
    for n in 0..word.len() {
        rows = joined(graph, &edges(graph, word[word.len() - 1 - n]), &rows);
    }
    rows
}

/// Returns 17 relations, one for each number of steps from 0 to 16. Each of them relates a node to the nodes that
/// this many steps of the given relation reach.
pub fn powers(graph: &Graph, step: &Relation) -> [Relation; MOST_NODES + 1]
    requires { AreSets graph.now step.now }
    ensures { (n : ℕ) → n ≤ most_nodes → IsRelation graph.now (Steps (HasBit step.now) n) (get_or result n []) }
{
    let mut all = [identity(graph); MOST_NODES + 1];
    for n in 0..MOST_NODES {
        all[n + 1] = joined(graph, step, &all[n]);
    }
    all
}
