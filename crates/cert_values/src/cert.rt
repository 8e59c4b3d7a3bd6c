//! The type `Cert`: a certificate whose parts are within their limits.
//!
//! A certificate claims bounds of ranks. The forward rank of a pair of nodes is the greatest length of two walks with
//! equal labels that begin at its nodes. The backward rank is the same for two walks that end at its nodes.
use crate::cert_version::CertVersion;
use crate::parts::{InjectivePart, SidePart, SumPart, SurjectivePart};
use std::marker::Model;
use word_image::{RankRow, Rule, Weights};

/// A certificate of a rule: its answers with their evidence. Each part is within its limits, but what the certificate
/// says needn't be true.
#[derive(Debug, Drop)]
pub struct Cert {
    /// The version of the certificate. It says which conditions the certificate must meet.
    pub version: CertVersion,
    /// The rule of the certificate.
    pub rule: Rule,
    /// The evidence that the rule is surjective, or that it isn't: sets of nodes, pairs of nodes, or a word over the
    /// letters of the rule.
    pub surjective: SurjectivePart,
    /// The evidence that the rule is injective: a window (n, c), which says that n letters of an image determine the
    /// letter at place c of each preimage. Here 1 ≤ n and c ≤ n + m - 2, if the rule has width m. Or the evidence that
    /// the rule isn't injective: two words.
    pub injective: InjectivePart,
    /// The evidence that the rule closes on the right, or that it doesn't: a look-ahead of at least 1, or two
    /// configurations over the letters of the rule.
    pub right: SidePart,
    /// The evidence that the rule closes on the left, or that it doesn't: a look-ahead of at least 1, or two
    /// configurations over the letters of the rule.
    pub left: SidePart,
    /// The evidence that the rule conserves the sum of weights, or that it doesn't: a flux with a number from
    /// -1,000,000 to 1,000,000 for each node, or a word.
    pub conserving: SumPart,
    /// The weight of each letter in a sum. In version 1 each letter weighs its own value.
    pub weights: Weights,
    /// The forward claim for each pair of nodes: the forward rank of the pair is at most this number. None claims
    /// nothing.
    pub forward: RankRow,
    /// The backward claim for each pair of nodes: the backward rank of the pair is at most this number. None claims
    /// nothing.
    pub backward: RankRow,
}

impl Model for Cert {
    ghost use Rattle.cert_values.specs.Certificates.{Certificate};

    ghost Value = { Certificate };

    ghost use Rattle.cert_values.specs.Parts.{certificate_of, IsOver, IsShaped};

    ghost view = { certificate_of };

    ghost invariant = { λ c. IsOver (c.rule).states c.right
        × IsOver (c.rule).states c.left
        × IsShaped (certificate_of c) };
}
