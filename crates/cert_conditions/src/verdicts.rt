//! The type `Verdicts`: the verdicts of a certificate.

ghost use Rattle.std.specs.Prelude.{◌≡◌};
ghost use Rattle.cert_conditions.specs.Accepted.{verdicts_of, is_open};

use cert_values::{Cert, InjectivePart, SidePart, SumPart, SurjectivePart};
use word_image::{Rule, Weights};

/// The verdicts of a certificate about its rule. If the certificate is accepted, they are true.
#[derive(Clone, Copy, Debug, PartialEq, Eq)]
pub struct Verdicts {
    /// The rule that the verdicts are about.
    pub rule: Rule,
    /// The weight of each letter.
    pub weights: Weights,
    /// Whether every word has a preimage.
    pub surjective: bool,
    /// Whether no two different configurations share an image.
    pub injective: bool,
    /// Whether the rule is right-closing: no two different configurations that agree far to the left share an image.
    pub right: bool,
    /// Whether the rule is left-closing: no two different configurations that agree far to the right share an image.
    pub left: bool,
    /// Whether every ring keeps the sum of its letters' weights.
    pub conserving: bool,
}

impl Verdicts {
    /// Returns the verdicts of a certificate. A verdict is yes if its evidence is sets, pairs, a window, a look-ahead
    /// or a flux.
    pub fn of(cert: &Cert) -> Verdicts
        ensures { result ≡ verdicts_of cert.now }
    {
        Verdicts {
            rule: cert.rule,
            weights: cert.weights,
            surjective: !matches!(&cert.surjective, SurjectivePart::Orphan(_)),
            injective: matches!(&cert.injective, InjectivePart::Window { .. }),
            right: matches!(&cert.right, SidePart::Ahead(_)),
            left: matches!(&cert.left, SidePart::Ahead(_)),
            conserving: matches!(&cert.conserving, SumPart::Flux(_)),
        }
    }

    /// Returns whether the rule is open: whether it closes on both sides.
    pub fn is_open(&self) -> bool
        ensures { result ≡ is_open self.now }
    {
        self.right && self.left
    }
}
