//! Sets of pairs of nodes, stored as rows of bits, and the trims of such sets.
//!
//! A node is a word of m - 1 letters. A step leads from a pair of nodes to another pair along two edges with equal
//! labels, one from each node. A trim of a set keeps the pairs from which some step leads to a pair of the set.

ghost use Rattle.std.specs.Prelude.{◌≡◌, ◌≢◌, ℕ, ◌+◌, ◌*◌, ◌<◌, ◌↔◌, true, length, replicate, IsBitSet, IsTrue};
ghost use Rattle.std.specs.Int.Bits.{bit_and};
ghost use Rattle.std.specs.Simd.Lanes.{zip2};
ghost use Rattle.word_image.specs.LocalRules.{IsRule, node_count, most_nodes, most_states};
ghost use Rattle.word_image.specs.Graphs.{pair_count};
ghost use Rattle.pair_graph.specs.PairSets.{holds, AreNodesKept, AreRows, GoesOn, IsTrimmedSet};

use crate::pairs::Pairs;
use std::marker::Model;
use std::simd::prelude::*;
use word_image::{EdgeRows, MOST_NODES, Rule, Side};

/// The rows of a set of pairs of nodes: row u is the set of the nodes v for which the pair (u, v) is in the set of
/// pairs. Bit v of a row stands for node v.
pub(crate) type Rows = [u16; MOST_NODES];

/// A set of pairs of nodes. Contracts treat it as a list with one truth value for each pair.
#[derive(Clone, Copy, Debug)]
pub struct PairSet {
    // The number of nodes of the rule.
    nodes: u8,
    // A row for each node, followed by zeros.
    rows: Rows,
}

impl Model for PairSet {
    ghost use Rattle.std.specs.Prelude.{List, Bool};
    ghost use Rattle.std.specs.Prelude.{length};
    ghost use Rattle.pair_graph.specs.PairSets.{truths, nodes_of, rows_of, AreRows};
    ghost use Rattle.std.proofs.Common.{ap, ◌∙◌};
    ghost use Rattle.pair_graph.specs.PairRows.{nodes_of-truths, rows_of-truths};

    ghost Value = { List Bool };

    ghost view = { λ s. truths s.nodes s.rows };

    ghost invariant = { λ s. AreRows s.nodes s.rows };

    ghost inverse = { λ l. record { nodes = nodes_of (length l); rows = rows_of (nodes_of (length l)) l } };

    ghost inverse_ok = { λ s h i. record {
      nodes = nodes_of-truths s.nodes s.rows h i;
      rows = (ap (λ n. rows_of n (truths s.nodes s.rows)) (nodes_of-truths s.nodes s.rows h) ∙ rows_of-truths s.nodes s.rows h) i;
    } };
}

impl PairSet {
    /// Returns the set of all pairs of nodes.
    pub fn all(pairs: &Pairs) -> PairSet
        ensures set { result ≡ replicate (pair_count pairs.now) true }
        ensures rule { IsRule pairs.now }
    {
        let graph = pairs.graph();
        let nodes = graph.nodes();
        let row = graph.full();
        let mut rows = [0; MOST_NODES];
        for u in 0..nodes {
            rows[usize::from(u)] = row;
        }
        PairSet { nodes, rows }
    }

    /// Returns whether the pair with the number `p` is in the set.
    pub fn holds(&self, p: u16) -> bool
        requires { p < length self.now }
        ensures { result ≡ holds self.now p }
    {
        let nodes = u16::from(self.nodes);
        self.rows[usize::from(p / nodes)] >> (p % nodes) & 1 == 1
    }

    /// Returns the set of the nodes v for which the pair (u, v) is in the set of pairs. Bit v stands for node v.
    pub fn row(&self, u: u8) -> u16
        requires { u < most_nodes }
        ensures { (n v : ℕ) → length self.now ≡ n * n → u < n → v < most_nodes → (IsBitSet result v ↔ ((v < n) × IsTrue (holds self.now (u * n + v)))) }
    {
        self.rows[usize::from(u)]
    }

    /// Returns whether both sets have the same pairs.
    pub fn same(&self, other: &PairSet) -> bool
        requires { length self.now ≡ length other.now }
        ensures { IsTrue result ↔ (self.now ≡ other.now) }
    {
        self.rows == other.rows
    }

    /// Returns the pairs of the set from which some step forward leads to a pair of the set.
    pub fn trim_forward(&self, pairs: &Pairs) -> PairSet
        requires { length self.now ≡ pair_count pairs.now }
        ensures { IsTrimmedSet Side.Right pairs.now self.now result }
    {
        self.trim(pairs, Side::Right)
    }

    /// Returns the pairs of the set from which some step backward leads to a pair of the set.
    pub fn trim_backward(&self, pairs: &Pairs) -> PairSet
        requires { length self.now ≡ pair_count pairs.now }
        ensures { IsTrimmedSet Side.Left pairs.now self.now result }
    {
        self.trim(pairs, Side::Left)
    }

    /// Returns the pairs of the set from which some step leads to a pair of the set. Steps go forward on the right
    /// side, and backward on the left.
    pub fn trim(&self, pairs: &Pairs, side: Side) -> PairSet
        requires { length self.now ≡ pair_count pairs.now }
        ensures { IsTrimmedSet side pairs.now self.now result }
    {
        PairSet {
            nodes: self.nodes,
            rows: trimmed(pairs.rule(), side, pairs.edges(side), &self.rows),
        }
    }

    /// Removes the pair with the number `p` from the set.
    pub(crate) fn remove(&mut self, p: u16)
        requires { p < length self.old }
        ensures count { length self.new ≡ length self.old }
        ensures pairs { (q : ℕ) → q < length self.old → (IsTrue (holds self.new q) ↔ (IsTrue (holds self.old q) × (q ≢ p))) }
    {
        let nodes = u16::from(self.nodes);
        self.rows[usize::from(p / nodes)] &= !(1 << (p % nodes));
    }
}

/// Returns the rows of the trimmed set. `rows` has the rows of the set before the trim. The trim keeps the pairs from
/// which some step leads to a pair of the set. Steps go forward on the right side, and backward on the left.
fn trimmed(rule: &Rule, side: Side, ends: &EdgeRows, rows: &Rows) -> Rows
    ensures kept { AreNodesKept (GoesOn side rule.now ends.now rows.now) rows.now (node_count rule.now) result }
    ensures rule { IsRule rule.now }
{
    let mut kept = [0; MOST_NODES];
    for u in 0..rule.nodes() {
        kept[usize::from(u)] = rows[usize::from(u)] & going_on(rule, side, ends, rows, u);
    }
    kept
}

/// Returns the set of the nodes v for which some step leads from the pair (u, v) to a pair of the set with these rows.
/// All sixteen nodes v are tested at once, each in its own lane.
fn going_on(rule: &Rule, side: Side, ends: &EdgeRows, rows: &Rows, u: u8) -> u16
    requires { u < node_count rule.now }
    ensures { (v : ℕ) → v < most_nodes → (IsBitSet result v ↔ GoesOn side rule.now ends.now rows.now u v) }
{
    let mut hits = u16x16::splat(0);
    for a in 0..rule.k() {
        let window = side.window_with(rule, u, a);
        let seconds = rows[usize::from(side.end_node(rule, window))];
        hits |= among(&ends[usize::from(rule.at(window))], seconds);
    }
    hits.simd_ne(u16x16::splat(0)).to_bitmask() as u16
}

/// Returns for each node v the nodes of `ends[v]` that are in `set`. Lane v of the result has these nodes.
fn among(ends: &[u16; MOST_NODES], set: u16) -> u16x16
    ensures lanes { result ≡ zip2 bit_and ends.now (replicate most_states set) }
    ensures wide { length ends.now ≡ most_states }
{
    u16x16::from_array(*ends) & u16x16::splat(set)
}
