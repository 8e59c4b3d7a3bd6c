//! Counts, for each property, the rules that have it, one rule after another.
ghost use Rattle.std.specs.Prelude.{◌<◌, List, [], ◌∷◌, ◌++◌, length};
ghost use Rattle.word_image.specs.LocalRules.{LocalRule, IsRule};
ghost use Rattle.rule_verdicts.specs.Truths.{AreTruths};
ghost use Rattle.ca_questions.specs.Counts.{AreCounts};
ghost use Rattle.ca_questions.specs.Values.{counts_of};

use ca_questions::Counts;
use rule_verdicts::Truths;

/// Returns the counts for an empty list of rules.
pub fn no_rules() -> Counts
    ensures { AreCounts [] (counts_of result) }
{
    Counts {
        rules: 0,
        surjective: 0,
        injective: 0,
        right: 0,
        left: 0,
        open: 0,
        conserving: 0,
    }
}

/// Adds a rule with these verdicts to the counts.
pub fn add(counts: &mut Counts, truths: &Truths)
    requires { (rules : List LocalRule) × AreCounts rules (counts_of counts.old) × (length rules < 4096) }
    ensures { (rules : List LocalRule) (r : LocalRule) → AreCounts rules (counts_of counts.old) → IsRule r → AreTruths r truths.now → AreCounts (rules ++ r ∷ []) (counts_of counts.new) }
{
    counts.rules += 1;
    counts.surjective += u16::from(truths.surjective);
    counts.injective += u16::from(truths.injective);
    counts.right += u16::from(truths.right);
    counts.left += u16::from(truths.left);
    counts.open += u16::from(truths.is_open());
    counts.conserving += u16::from(truths.conserving);
}
