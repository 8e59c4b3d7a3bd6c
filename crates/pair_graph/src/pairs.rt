//! The pairs of nodes of a rule, and the steps between the pairs.
//!
//! A node is a word of m - 1 letters. A step from the pair (u, v) follows two edges with equal labels: one from u on a
//! letter a, and one from v on a letter b.

ghost use Rattle.std.specs.Prelude.{◌≡◌, ◌+◌, ◌*◌, ◌<◌, ◌↔◌, ℕ, Some, IfSome};
ghost use Rattle.word_image.specs.LocalRules.{IsRule};
ghost use Rattle.word_image.specs.Graphs.{pair_count};

use debruijn::Graph;
use std::marker::Model;
use word_image::{EdgeRows, Rule, Side, edge_rows};

/// The pairs of nodes of a rule's de Bruijn graph. Contracts treat a value of this type as the rule. If there are N
/// nodes, the pair of u and v has the number u * N + v.
#[derive(Debug, Drop)]
pub struct Pairs {
    // The de Bruijn graph of the rule.
    graph: Graph,
    // For each label and node, the set of nodes from which the edges with that label lead to the node.
    starts: EdgeRows,
}

impl Model for Pairs {
    ghost use Rattle.std.specs.Prelude.{◌≡◌};
    ghost use Rattle.word_image.specs.LocalRules.{LocalRule};
    ghost use Rattle.word_image.specs.Edges.{AreEdgeRows};
    ghost use Rattle.word_image.specs.declared.side.Side.TheVariants.{Left};

    ghost Value = { LocalRule };

    ghost view = { λ p. p.graph };

    ghost invariant = { λ p. AreEdgeRows Left p.graph p.starts };
}

impl Pairs {
    ghost use Rattle.word_image.specs.Graphs.{follow, follow_on};
    ghost use Rattle.word_image.specs.MarkedPairs.{marked};
    ghost use Rattle.word_image.specs.BackSteps.{LeadsBack};
    ghost use Rattle.word_image.specs.Edges.{AreEdgeRows};

    /// Makes the pairs of nodes of this rule.
    pub fn of(rule: &Rule) -> Pairs
        ensures { result ≡ rule.now }
    {
        Pairs::from_graph(Graph::of(rule))
    }

    /// Makes the pairs of nodes of this graph.
    pub fn from_graph(graph: Graph) -> Pairs
        ensures { result ≡ graph }
    {
        let starts = edge_rows(graph.rule(), Side::Left);
        Pairs { graph, starts }
    }

    /// Returns the rule of the pairs.
    pub fn rule(&self) -> &Rule
        ensures { result.now ≡ self.now }
    {
        self.graph.rule()
    }

    /// Returns the de Bruijn graph of the rule.
    pub fn graph(&self) -> &Graph
        ensures { result.now ≡ self.now }
    {
        &self.graph
    }

    /// Returns the sets of nodes to which edges lead, for each label and each node. The edges are followed forward on
    /// the right side, and backward on the left.
    pub(crate) fn edges(&self, side: Side) -> &EdgeRows
        ensures { AreEdgeRows side self.now result.now }
    {
        match side {
            Side::Right => self.graph.edges(),
            Side::Left => &self.starts,
        }
    }

    /// Returns the number of pairs: N * N, from 4 to 256.
    pub fn count(&self) -> u16
        ensures count { result ≡ pair_count self.now }
        ensures rule { IsRule self.now }
    {
        self.rule().pairs()
    }

    /// Returns the number of the pair to which the letters `a` and `b` lead from pair `p`. The letter `a` follows an
    /// edge from the first node of `p`, and `b` an edge from the second. Returns None if the labels of the two edges
    /// differ.
    pub fn follow(&self, p: u16, a: u8, b: u8) -> Option<u16>
        requires pair { p < pair_count self.now }
        requires first { a < self.now.states }
        requires second { b < self.now.states }
        ensures pair { result ≡ follow self.now p a b }
        ensures below { IfSome result (λ q. q < pair_count self.now) }
    {
        self.rule().follow(Side::Right, p, a, b)
    }

    /// Follows a step backward from pair `q`, and returns the number of the pair p at which the step begins. The first
    /// node of p begins with the letter `a`, and the second with `b`. Returns None if the labels of the step's two
    /// edges differ.
    pub fn back(&self, q: u16, a: u8, b: u8) -> Option<u16>
        requires pair { q < pair_count self.now }
        requires first { a < self.now.states }
        requires second { b < self.now.states }
        ensures exactly { (p : ℕ) → (result ≡ Some p) ↔ LeadsBack self.now q a b p }
        ensures pair { result ≡ follow_on Side.Left self.now q a b }
    {
        self.rule().follow(Side::Left, q, a, b)
    }

    /// Returns the pair to which a step on the letters `a` and `b` leads from pair `p`: `follow(p, a, b)` on the
    /// right side, and `back(p, a, b)` on the left.
    pub(crate) fn step(&self, side: Side, p: u16, a: u8, b: u8) -> Option<u16>
        requires pair { p < pair_count self.now }
        requires first { a < self.now.states }
        requires second { b < self.now.states }
        ensures pair { result ≡ follow_on side self.now p a b }
        ensures below { IfSome result (λ q. q < pair_count self.now) }
    {
        self.rule().follow(side, p, a, b)
    }

    /// Returns the marked pair to which the letters `a` and `b` lead from the marked pair `t`. The pair p has the
    /// number p without the mark, and p + N * N with the mark. The step sets the mark if the letters differ, and it
    /// never removes the mark. Returns None if the labels of the two edges differ.
    pub fn marked(&self, t: u16, a: u8, b: u8) -> Option<u16>
        requires pair { t < 2 * pair_count self.now }
        requires first { a < self.now.states }
        requires second { b < self.now.states }
        ensures pair { result ≡ marked self.now t a b }
        ensures below { IfSome result (λ q. q < 2 * pair_count self.now) }
    {
        let count = self.count();
        let q = self.follow(t % count, a, b)?;
        if t >= count || a != b {
            Some(q + count)
        } else {
            Some(q)
        }
    }
}
