//! The degree of a surjective rule, and its multipliers.
ghost use Rattle.std.specs.Prelude.{ℕ, List, MatchOption};
ghost use Rattle.word_image.specs.Words.{IsSurjective};
ghost use Rattle.welch_index.specs.Fewest.{IsFewestLast, IsFewestFirst};
ghost use Rattle.welch_index.specs.Degrees.{AreDegreeAndMultipliers};

use word_image::Rule;

/// The degree of a surjective rule and its two multipliers. The product of these three numbers is k^(m - 1).
#[derive(Clone, Copy, Debug, PartialEq, Eq)]
pub struct Degree {
    /// The degree: the least number of nodes at a cut between two words. It is the number of preimages of each
    /// configuration if the rule is open.
    pub degree: u8,
    /// The right multiplier: the greatest number of ends of walks that begin at one node and spell one word.
    pub right_multiplier: u8,
    /// The left multiplier: the right multiplier of the mirrored rule.
    pub left_multiplier: u8,
}

/// Returns the degree and the multipliers of a rule, or None if the rule isn't surjective. `right` is the fewest last
/// nodes that a word has, and `left` is the fewest first nodes that a word has.
pub fn degree_from_counts(rule: &Rule, right: u8, left: u8) -> Option<Degree>
    requires right { (nodes : ℕ) × (w : List ℕ) × IsFewestLast rule.now right nodes w }
    requires left { (nodes : ℕ) × (w : List ℕ) × IsFewestFirst rule.now left nodes w }
    ensures { MatchOption result (¬ IsSurjective rule.now) (λ d. IsSurjective rule.now × AreDegreeAndMultipliers rule.now d.degree d.right_multiplier d.left_multiplier) }
{
    if right == 0 {
        return None;
    }
    let nodes = rule.nodes();
    Some(Degree {
        degree: right / (nodes / left),
        right_multiplier: nodes / left,
        left_multiplier: nodes / right,
    })
}
