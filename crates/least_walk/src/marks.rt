//! Sets of marked pairs, stored as rows of bits.
//!
//! A marked pair is a pair of nodes, with or without a mark. A step on two letters follows one edge from each node, and
//! the two edges have equal labels. The step sets the mark if the letters differ.

ghost use Rattle.std.specs.Prelude.{◌≡◌, ℕ, ◌+◌, ◌*◌, ◌<◌, ◌↔◌, IsTrue, IsBitSet, IfSome, Some};
ghost use Rattle.std.specs.Option.{option_map};
ghost use Rattle.word_image.specs.LocalRules.{LocalRule, IsRule, node_count, most_nodes};
ghost use Rattle.word_image.specs.Graphs.{next, pair_count, pair_of};
ghost use Rattle.word_image.specs.MarkedPairs.{marked};
ghost use Rattle.least_walk.specs.Marks.{ArePartsOf, HasPair, IsAdded, IsMarkedPair};

use pair_graph::Pairs;
use std::marker::Model;
use word_image::MOST_NODES;

/// A set of marked pairs, stored as rows. Row u is the set of the nodes v for which the set has the pair (u, v) without
/// the mark. Row 16 + u is the set of the nodes v for which it has the pair (u, v) with the mark. Contracts treat the
/// set as the list of its rows.
#[derive(Drop)]
pub struct Rows {
    rows: [u16; 2 * MOST_NODES],
}

impl Model for Rows {
    ghost use Rattle.std.specs.Prelude.{ℕ, List};

    ghost Value = { List ℕ };

    ghost view = { λ r. r.rows };
}

impl Rows {
    /// Returns the empty set of marked pairs.
    pub fn new() -> Rows
        ensures { (r : LocalRule) (t : ℕ) → ¬ HasPair r result t }
    {
        Rows {
            rows: [0; 2 * MOST_NODES],
        }
    }

    /// Returns whether the marked pair is in the set.
    pub fn has(&self, at: PairParts) -> bool
        requires row { most_nodes * at.mark + at.first < 2 * most_nodes }
        requires place { at.second < most_nodes }
        ensures { (r : LocalRule) → IsMarkedPair r at → (IsTrue result ↔ HasPair r self.now at.pair) }
    {
        self.rows[MOST_NODES * usize::from(at.mark) + usize::from(at.first)] >> at.second & 1 == 1
    }

    /// Adds a marked pair to the set.
    pub fn add(&mut self, at: PairParts)
        requires row { most_nodes * at.mark + at.first < 2 * most_nodes }
        requires place { at.second < most_nodes }
        ensures { (r : LocalRule) → IsRule r → IsMarkedPair r at → IsAdded r self.old at.pair self.new }
    {
        self.rows[MOST_NODES * usize::from(at.mark) + usize::from(at.first)] |= 1u16 << at.second;
    }

    /// Returns the second letters that can lead to a new marked pair. Bit b of the result stands for letter b. If bit b
    /// is 0, a step on `a` and b from the marked pair `from` leads only to a marked pair that is already in the rows.
    /// The letter `a` leads from the first node of `from` to `node`, and the letter 0 from its second node to `end`.
    pub fn fresh(&self, pairs: &Pairs, from: PairParts, a: u8, node: u8, end: u8) -> u16
        requires mark { from.mark < 2 }
        requires first { from.first < node_count pairs.now }
        requires second { from.second < node_count pairs.now }
        requires letter { a < pairs.now.states }
        requires node { node ≡ next pairs.now from.first a }
        requires end { end ≡ next pairs.now from.second 0 }
        requires rule { IsRule pairs.now }
        ensures { (t b q : ℕ) → ArePartsOf pairs.now from t → b < pairs.now.states → ¬ IsBitSet result b
            → marked pairs.now t a b ≡ Some q → HasPair pairs.now self.now q }
    {
        let graph = pairs.graph();
        let node = usize::from(node);
        let ends = graph.ends(from.second, graph.label(from.first, a));
        let with_mark = (ends & !self.rows[MOST_NODES + node]) >> end;
        if from.mark == 1 {
            return with_mark;
        }
        let without = (ends & !self.rows[node]) >> end;
        let same = 1u16 << a;
        with_mark & !same | without & same
    }
}

/// A marked pair: its number, its mark and its two nodes.
#[derive(Clone, Copy)]
pub struct PairParts {
    /// The number of the marked pair.
    pub pair: u16,
    /// The mark: 1 if the pair has the mark, and 0 if it doesn't.
    pub mark: u8,
    /// The first node of the pair.
    pub first: u8,
    /// The second node of the pair.
    pub second: u8,
}

/// Returns the marked pair with the number `t`, together with its mark and its nodes.
pub fn parts_of(pairs: &Pairs, t: u16) -> PairParts
    requires { t < 2 * pair_count pairs.now }
    ensures pair { result.pair ≡ t }
    ensures parts { ArePartsOf pairs.now result t }
    ensures marked { IsMarkedPair pairs.now result }
    ensures mark_below { result.mark < 2 }
    ensures rule { IsRule pairs.now }
{
    let count = pairs.count();
    let (first, second) = pairs.rule().nodes_of(t % count);
    PairParts {
        pair: t,
        mark: (t / count) as u8,
        first,
        second,
    }
}

/// Returns the marked pair of these two nodes with this mark, together with its number.
fn with_parts(pairs: &Pairs, mark: u8, first: u8, second: u8) -> PairParts
    requires mark { mark < 2 }
    requires first { first < node_count pairs.now }
    requires second { second < node_count pairs.now }
    ensures pair { result.pair ≡ mark * pair_count pairs.now + pair_of pairs.now first second }
    ensures marked { IsMarkedPair pairs.now result }
{
    PairParts {
        pair: u16::from(mark) * pairs.count() + pairs.rule().pair_of(first, second),
        mark,
        first,
        second,
    }
}

/// Returns the marked pair to which the letters `a` and `b` lead from a marked pair, with its number, its mark and its
/// nodes. Returns None if the labels of the two edges differ.
pub fn step_from(pairs: &Pairs, from: PairParts, a: u8, b: u8) -> Option<PairParts>
    requires rule { IsRule pairs.now }
    requires from { IsMarkedPair pairs.now from }
    requires first { a < pairs.now.states }
    requires second { b < pairs.now.states }
    ensures step { option_map (λ q. q.pair) result ≡ marked pairs.now from.pair a b }
    ensures marked { IfSome result (IsMarkedPair pairs.now) }
{
    let graph = pairs.graph();
    if graph.label(from.first, a) != graph.label(from.second, b) {
        return None;
    }
    let mark = if a == b { from.mark } else { 1 };
    Some(with_parts(
        pairs,
        mark,
        graph.next(from.first, a),
        graph.next(from.second, b),
    ))
}
