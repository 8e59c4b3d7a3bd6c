//! The type `Report`: the verdicts of a rule, each with the least evidence for it. A `ReportRoom` lends the words of the
//! evidence.
ghost use Rattle.std.specs.Prelude.{◌≡◌, ◌↔◌, length, slice_index, IsTrue};
ghost use Rattle.tail_config.specs.Tails.{IsOpen};
ghost use Rattle.cert_values.specs.Evidence.{says_open};
ghost use Rattle.certificate_laws.specs.LeastEvidence.{IsLeastEvidence};
ghost use Rattle.rule_verdicts.specs.Reports.{AreOver, evidence_of, side_in};

use crate::parts::{first_orphan, injectivity_of, window_or_twins_over};
use crate::report_room::ReportRoom;
use closing_test::LentClosing;
use flux_conserve::{Keeping, conserve};
use pair_graph::Pairs;
use pair_rank::Ranks;
use short_words::{LentWord, ShortPair};
use word_image::{Rule, Weights};

/// The evidence that a rule is injective, or that it isn't.
#[derive(Debug, Drop)]
pub enum Injectivity<'r> {
    /// The rule is injective, since n letters of an image determine the letter at place c of each preimage. This is the
    /// least such window.
    Window { n: u16, c: u16 },
    /// The rule isn't injective. These are its least twins: two different words of the same length, at most 512
    /// letters, whose rings have the same image.
    Twins(&'r ShortPair),
}

/// The verdicts of a rule, each with the least evidence for it.
#[derive(Drop)]
pub struct Report<'r> {
    /// The rule that the verdicts are about.
    pub rule: Rule,
    /// The weight of each letter.
    pub weights: Weights,
    /// The least word without a preimage, at most 65,535 letters, or None if the rule is surjective.
    pub orphan: Option<LentWord<'r>>,
    /// A window if the rule is injective, and twins if it isn't.
    pub injective: Injectivity<'r>,
    /// The least look-ahead if the rule is right-closing, and the least normal right split if it isn't.
    pub right: LentClosing<'r>,
    /// The least look-ahead if the rule is left-closing, and the least normal left split if it isn't.
    pub left: LentClosing<'r>,
    /// The flux that is 0 at node 0 if each ring keeps its sum of weights, and otherwise the least ring that doesn't.
    pub conserving: Keeping,
}

impl Report<'_> {
    /// Returns whether the rule is open, which means that it closes on both sides.
    pub fn is_open(&self) -> bool
        ensures { result ≡ says_open (side_in self.now.right) (side_in self.now.left) }
    {
        matches!(
            (&self.right, &self.left),
            (LentClosing::Ahead(_), LentClosing::Ahead(_))
        )
    }
}

/// Decides all questions about a rule under these weights of its letters, and finds the least evidence. The room lends
/// the words of the evidence.
pub fn least_report<'r>(room: &'r mut ReportRoom, rule: &Rule, weights: &Weights) -> Report<'r>
    requires { length weights.now ≡ rule.now.states }
    ensures least { IsLeastEvidence (slice_index weights.now) rule.now (evidence_of result) }
    ensures weights { result.weights ≡ weights.now }
    ensures open_ { IsTrue (says_open (side_in result.right) (side_in result.left)) ↔ IsOpen rule.now }
{
    let pairs = Pairs::of(rule);
    let ranks = Ranks::from_pairs(&pairs);
    report_of_pairs(room, &pairs, &ranks, weights)
}

/// Finds the report of the rule with these pairs of nodes. `ranks` are the ranks of the pairs.
pub(crate) fn report_of_pairs<'r>(
    room: &'r mut ReportRoom,
    pairs: &Pairs,
    ranks: &Ranks,
    weights: &Weights,
) -> Report<'r>
    requires ranks { ranks.now ≡ pairs.now }
    requires weights { length weights.now ≡ pairs.now.states }
    ensures least { IsLeastEvidence (slice_index weights.now) pairs.now (evidence_of result) }
    ensures weights { result.weights ≡ weights.now }
    ensures right { AreOver pairs.now.states result.right }
    ensures left { AreOver pairs.now.states result.left }
{
    let rule = pairs.rule();
    rule.keeps_limits();
    let ReportRoom {
        search,
        twins,
        walker,
        right,
        left,
    } = room;
    Report {
        rule: *rule,
        weights: *weights,
        orphan: first_orphan(search, pairs.graph()),
        injective: injectivity_of(twins, window_or_twins_over(pairs, ranks, walker)),
        right: right.right(pairs, ranks, walker),
        left: left.left(pairs, ranks, walker),
        conserving: conserve(rule, weights),
    }
}
