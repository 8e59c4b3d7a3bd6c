//! The de Bruijn graph of a rule, stored in tables.
//!
//! A node is a word of m - 1 letters, and an edge is a window of m letters. Its label is the letter that the rule gives
//! for the window. Bit u of a set of nodes says whether node u is in the set.

ghost use Rattle.std.specs.Prelude.{◌≡◌, ◌<◌, ℕ, List, [], ◌∷◌, ◌++◌, IsBitSet};
ghost use Rattle.word_image.specs.LocalRules.{IsRule, node_count};

use std::marker::Model;
use word_image::{EdgeRows, MOST_NODES, Rule, Side, edge_rows, step, union_of_rows};

/// The de Bruijn graph of a rule. Contracts treat a value of this type as the rule. `of` fills tables once, and every
/// later step is looked up in them.
#[derive(Clone, Copy, Debug)]
pub struct Graph {
    // The rule of the graph. Its table has the labels of all edges: the label of the edge that leads from node u on
    // letter a is at place k u + a.
    rule: Rule,
    // For each label and node, the set of nodes to which the edges with that label lead from the node.
    ends: EdgeRows,
}

impl Model for Graph {
    ghost use Rattle.word_image.specs.LocalRules.{LocalRule, IsRule};
    ghost use Rattle.word_image.specs.Edges.{AreEdgeRows};
    ghost use Rattle.word_image.specs.declared.side.Side.TheVariants.{Right};
    ghost use Rattle.debruijn.specs.EdgeTables.{AreRowsOf16, edge_table, edge_table-one};

    ghost Value = { LocalRule };

    ghost view = { λ g. g.rule };

    ghost invariant = { λ g. IsRule g.rule × AreEdgeRows Right g.rule g.ends × AreRowsOf16 g.ends };

    ghost inverse = { λ r. record { rule = r; ends = edge_table Right r } };

    ghost inverse_ok = { λ g h i. record { rule = g.rule; ends = edge_table-one h.0 h.1 h.2 i } };
}

impl Graph {
    ghost use Rattle.word_image.specs.Graphs.{next, label, full_set, IsNodeSet, HasBit, AreSets};
    ghost use Rattle.word_image.specs.Ranks.{IsLastSet};
    ghost use Rattle.word_image.specs.Edges.{AreEdgeRows, IsEnds, IsStep};

    /// Makes the graph of this rule.
    pub fn of(rule: &Rule) -> Graph
        ensures { result ≡ rule.now }
    {
        Graph {
            rule: *rule,
            ends: edge_rows(rule, Side::Right),
        }
    }

    /// Returns the rule of the graph.
    pub fn rule(&self) -> &Rule
        ensures { result.now ≡ self.now }
    {
        &self.rule
    }

    /// Returns the number of states k. Letters and labels are the numbers below k.
    pub fn k(&self) -> u8
        ensures states { result ≡ self.now.states }
        ensures rule { IsRule self.now }
    {
        self.rule.k()
    }

    /// Returns the number of nodes N, from 2 to 16.
    pub fn nodes(&self) -> u8
        ensures nodes { result ≡ node_count self.now }
        ensures rule { IsRule self.now }
    {
        self.rule.nodes()
    }

    /// Returns the node to which the letter `a` leads from node `u`: the last m - 1 letters of `u` followed by `a`.
    pub fn next(&self, u: u8, a: u8) -> u8
        requires node { u < node_count self.now }
        requires letter { a < self.now.states }
        ensures node { result ≡ next self.now u a }
        ensures below { result < node_count self.now }
    {
        Side::Right.end_node(&self.rule, Side::Right.window_with(&self.rule, u, a))
    }

    /// Returns the label of the edge that leaves node `u` on the letter `a`: the letter that the rule gives for the
    /// window of `u` followed by `a`.
    pub fn label(&self, u: u8, a: u8) -> u8
        requires node { u < node_count self.now }
        requires letter { a < self.now.states }
        ensures label { result ≡ label self.now u a }
        ensures letter { result < self.now.states }
    {
        self.rule.at(Side::Right.window_with(&self.rule, u, a))
    }

    /// Returns the sets of nodes to which edges lead: for each label and each node, the ends of the edges with this
    /// label that leave this node.
    pub fn edges(&self) -> &EdgeRows
        ensures edges { AreEdgeRows Side.Right self.now result.now }
        ensures rule { IsRule self.now }
    {
        &self.ends
    }

    /// Returns the set of nodes to which edges with this label lead from node `u`. Bit v stands for node v.
    pub fn ends(&self, u: u8, label: u8) -> u16
        requires node { u < node_count self.now }
        requires label { label < self.now.states }
        ensures { IsEnds Side.Right self.now u label result }
    {
        self.edges()[usize::from(label)][usize::from(u)]
    }

    /// Returns the set of all nodes. Bit u stands for node u.
    pub fn full(&self) -> u16
        ensures set { result ≡ full_set self.now }
        ensures rule { IsRule self.now }
    {
        self.rule.all_nodes()
    }

    /// Returns the nodes to which edges with the label `a` lead from the nodes of `set`. If `set` has the last nodes of
    /// all preimages of a word, the result has the last nodes of all preimages of the word followed by `a`. The last
    /// node of a word consists of its last m - 1 letters.
    pub fn step(&self, set: u16, a: u8) -> u16
        requires { a < self.now.states }
        ensures step { IsStep self.now set a result }
        ensures word { (w : List ℕ) → IsLastSet self.now w set → IsLastSet self.now (w ++ a ∷ []) result }
    {
        step(&self.rule, &self.ends, set, a)
    }

    /// Returns the union of the sets `rows[u]` for all nodes u of `set`.
    pub fn union_of_rows(&self, rows: &[u16; MOST_NODES], set: u16) -> u16
        requires { AreSets self.now rows.now }
        ensures { IsNodeSet self.now (λ v. (u : ℕ) × (u < node_count self.now) × (IsBitSet set u × HasBit rows.now u v)) result }
    {
        union_of_rows(self.nodes(), rows, set)
    }
}
