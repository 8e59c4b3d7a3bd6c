//! The endless pairs of a rule, which have no finite rank. A node is a word of m - 1 letters.

ghost use Rattle.std.specs.Prelude.{◌≡◌, ◌<◌, ◌↔◌, ℕ, IsBitSet};
ghost use Rattle.word_image.specs.LocalRules.{IsRule, node_count, most_nodes};
ghost use Rattle.word_image.specs.Ranks.{BeginTogether, EndTogether, IsEndless};

use crate::rounds::endless_pairs;
use pair_graph::{PairSet, Pairs};
use std::marker::Model;
use word_image::{Rule, Side};

/// The endless pairs of nodes of a rule, forward and backward. Two nodes are endless forward if for each n two walks of
/// n steps with equal labels begin at the nodes. They are endless backward if for each n two such walks end at the
/// nodes. Contracts treat a value of this type as the rule.
#[derive(Debug, Drop)]
pub struct Endless {
    // The rule of the pairs.
    pub(crate) rule: Rule,
    // The pairs that are endless forward.
    pub(crate) forward: PairSet,
    // The pairs that are endless backward.
    pub(crate) backward: PairSet,
}

impl Model for Endless {
    ghost use Rattle.word_image.specs.LocalRules.{LocalRule, IsRule};
    ghost use Rattle.pair_rank.specs.Sides.{AreEndless};
    ghost use Rattle.word_image.specs.declared.side.Side.TheVariants.{Right, Left};

    ghost Value = { LocalRule };

    ghost view = { λ e. e.rule };

    ghost invariant = { λ e. IsRule e.rule × AreEndless Right e.rule e.forward × AreEndless Left e.rule e.backward };
}

impl Endless {
    /// Finds the endless pairs of nodes of a rule.
    pub fn from_pairs(pairs: &Pairs) -> Endless
        ensures { result ≡ pairs.now }
    {
        Endless {
            rule: *pairs.rule(),
            forward: endless_pairs(pairs, Side::Right),
            backward: endless_pairs(pairs, Side::Left),
        }
    }

    /// Returns the rule of the pairs.
    pub fn rule(&self) -> &Rule
        ensures value { result.now ≡ self.now }
        ensures rule { IsRule self.now }
    {
        &self.rule
    }

    /// Returns the set of the nodes v for which u and v are endless forward: for every n two words of n + m - 1
    /// letters with the same image begin with u and v. Bit v stands for node v.
    pub fn forward(&self, u: u8) -> u16
        requires { u < node_count self.now }
        ensures { (v : ℕ) → v < most_nodes → (IsBitSet result v ↔ IsEndless (BeginTogether self.now u v)) }
    {
        self.forward.row(u)
    }

    /// Returns the set of the nodes v for which u and v are endless backward: for every n two words of n + m - 1
    /// letters with the same image end with u and v. Bit v stands for node v.
    pub fn backward(&self, u: u8) -> u16
        requires { u < node_count self.now }
        ensures { (v : ℕ) → v < most_nodes → (IsBitSet result v ↔ IsEndless (EndTogether self.now u v)) }
    {
        self.backward.row(u)
    }
}
