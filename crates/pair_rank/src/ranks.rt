//! The forward and backward ranks of all pairs of nodes of a rule.
//!
//! A node is a word of m - 1 letters. The forward rank of two nodes is the greatest number of steps of two walks with
//! equal labels that begin at the nodes. The backward rank is this number for walks that end at them. The nodes are
//! endless forward, or backward, if there is no greatest number.

ghost use Rattle.std.specs.Prelude.{◌≡◌, ℕ, ◌+◌, ◌*◌, ◌<◌, ◌≤◌, IfSome, MatchOption};
ghost use Rattle.pair_rank.specs.Sides.{most_rank};
ghost use Rattle.word_image.specs.LocalRules.{LocalRule, IsRule, node_count};
ghost use Rattle.word_image.specs.Graphs.{pair_count};
ghost use Rattle.word_image.specs.Ranks.{BeginTogether, EndTogether, IsRank, IsEndless};
ghost use Rattle.word_image.specs.Sides.{Together};

use crate::endless::Endless;
use crate::rounds::{RankTable, exact_ranks};
use pair_graph::Pairs;
use std::marker::Model;
use word_image::{MOST_NODES, Rule, Side};

/// The forward and backward ranks of all pairs of nodes of a rule. Contracts treat a value of this type as the rule.
#[derive(Drop)]
pub struct Ranks {
    // The endless pairs of the rule.
    endless: Endless,
    // The forward rank of each pair of nodes.
    forward: RankTable,
    // The backward rank of each pair of nodes.
    backward: RankTable,
}

impl Model for Ranks {
    ghost use Rattle.word_image.specs.LocalRules.{LocalRule, IsRule};
    ghost use Rattle.pair_rank.specs.Sides.{AreRanks};
    ghost use Rattle.word_image.specs.declared.side.Side.TheVariants.{Right, Left};

    ghost Value = { LocalRule };

    ghost view = { λ r. r.endless };

    ghost invariant = { λ r. IsRule r.endless × AreRanks Right r.endless r.forward × AreRanks Left r.endless r.backward };
}

impl Ranks {
    /// Finds the ranks of this rule.
    pub fn of(rule: &Rule) -> Ranks
        ensures { result ≡ rule.now }
    {
        Ranks::from_pairs(&Pairs::of(rule))
    }

    /// Finds the ranks of the rule of these pairs.
    pub fn from_pairs(pairs: &Pairs) -> Ranks
        ensures { result ≡ pairs.now }
    {
        let (forward, begins) = exact_ranks(pairs, Side::Right);
        let (backward, ends) = exact_ranks(pairs, Side::Left);
        Ranks {
            endless: Endless {
                rule: *pairs.rule(),
                forward: begins,
                backward: ends,
            },
            forward,
            backward,
        }
    }

    /// Returns the rule that has these ranks.
    pub fn rule(&self) -> &Rule
        ensures value { result.now ≡ self.now }
        ensures rule { IsRule self.now }
    {
        self.endless.rule()
    }

    /// Returns the endless pairs of the rule.
    pub fn endless(&self) -> &Endless
        ensures { result.now ≡ self.now }
    {
        &self.endless
    }

    /// Returns the forward rank of two nodes on the right side, and the backward rank on the left. None means that
    /// the nodes are endless.
    pub fn rank(&self, side: Side, u: u8, v: u8) -> Option<u16>
        requires first { u < node_count self.now }
        requires second { v < node_count self.now }
        ensures rank { MatchOption result (IsEndless (Together side self.now u v)) (IsRank (Together side self.now u v)) }
        ensures most { IfSome result (λ n. n ≤ most_rank) }
    {
        match side {
            Side::Right => self.forward(u, v),
            Side::Left => self.backward(u, v),
        }
    }

    /// Returns the forward rank of two nodes: the greatest n for which two words of n + m - 1 letters with the same
    /// image begin with u and v. Returns None if there are such words for every n.
    pub fn forward(&self, u: u8, v: u8) -> Option<u16>
        requires first { u < node_count self.now }
        requires second { v < node_count self.now }
        ensures rank { MatchOption result (IsEndless (BeginTogether self.now u v)) (IsRank (BeginTogether self.now u v)) }
        ensures most { IfSome result (λ n. n ≤ most_rank) }
    {
        self.forward[MOST_NODES * usize::from(u) + usize::from(v)]
    }

    /// Returns the backward rank of two nodes: the greatest n for which two words of n + m - 1 letters with the same
    /// image end with u and v. Returns None if there are such words for every n.
    pub fn backward(&self, u: u8, v: u8) -> Option<u16>
        requires first { u < node_count self.now }
        requires second { v < node_count self.now }
        ensures rank { MatchOption result (IsEndless (EndTogether self.now u v)) (IsRank (EndTogether self.now u v)) }
        ensures most { IfSome result (λ n. n ≤ most_rank) }
    {
        self.backward[MOST_NODES * usize::from(u) + usize::from(v)]
    }
}

/// Law: if there are N nodes, each finite rank of two nodes is less than N (N - 1) / 2, so at most 119. There are three
/// reasons. Each number below a finite rank is the rank of some pair of nodes. The pairs (u, v) and (v, u) have the
/// same rank. The pair (u, u) has no finite rank.
pub fn ranks_are_few()
    ensures few { (side : Side) (r : LocalRule) (u v n : ℕ) → IsRule r → IsRank (Together side r u v) n → 2 * (n + 1) + node_count r ≤ pair_count r }
    ensures most { (side : Side) (r : LocalRule) (u v n : ℕ) → IsRule r → IsRank (Together side r u v) n → n ≤ most_rank }
{}
