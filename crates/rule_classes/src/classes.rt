//! The function `class_of`, which finds the least rule in the class of a rule. The class consists of all rules that you
//! get from the rule, or from the mirrored rule, by new names for the letters. All of them have offset 0.
ghost use Rattle.std.specs.Prelude.{◌≡◌, ◌≤◌, ◌↔◌, Bool, IfOk, IsOk};
ghost use Rattle.word_image.specs.LocalRules.{LocalRule, IsRule};
ghost use Rattle.rule_classes.specs.Classes.{IsLeastOfClass};
ghost use Rattle.rule_classes.specs.ClassVerdicts.{HaveOneVerdict};

use crate::best::Best;
use crate::colourings::Colouring;
use crate::search::least_of;
use word_image::Rule;

/// The greatest number of states of a rule for which `class_of` searches the class.
pub const MOST_COLOURS: usize = 6;

/// The least rule in the class of a rule, and whether it comes from the mirrored rule.
#[derive(Clone, Copy, Debug)]
pub struct ClassPlace {
    /// The rule of the class with the least Wolfram number.
    pub least: Rule,
    /// Whether only the mirrored rule leads to the least rule: no renaming of the letters of the rule's own table
    /// gives it.
    pub mirrored: bool,
}

/// Why `class_of` doesn't search the class of a rule.
#[derive(Clone, Copy, Debug, PartialEq, Eq)]
pub enum ClassFault {
    /// The rule has more than 6 states.
    Colours,
}

/// Returns the rule with the least Wolfram number in the class of a rule, and whether it only comes from the mirrored
/// rule. Returns `Colours` if the rule has 7 states or more. The least rule has the same verdicts as the given rule.
/// But if it comes from the mirrored rule, right and left are exchanged.
pub fn class_of(rule: &Rule) -> Result<ClassPlace, ClassFault>
    ensures accepted { IsOk result ↔ (rule.now.states ≤ 6) }
    ensures least { IfOk result (λ place. IsLeastOfClass rule.now place.mirrored place.least) }
    ensures verdicts { IfOk result (λ place. HaveOneVerdict rule.now place.mirrored place.least) }
{
    let k = rule.k();
    if usize::from(k) > MOST_COLOURS {
        return Err(ClassFault::Colours);
    }
    let mut best = Best::own(rule);
    let own = best.colouring;
    least_of(rule, own, 0, k, &mut best);
    least_of(rule, Colouring::unchanged(true), 0, k, &mut best);
    Ok(ClassPlace {
        least: best.rule(rule),
        mirrored: best.colouring.mirrored,
    })
}

/// Law: the result of `class_of` is unique: the least rule of a class, and whether it only comes from the mirrored
/// rule.
pub fn one_least_of_class()
    ensures rule { (r g h : LocalRule) (a b : Bool) → IsRule r → IsLeastOfClass r a g → IsLeastOfClass r b h → g ≡ h }
    ensures mirrored { (r g h : LocalRule) (a b : Bool) → IsRule r → IsLeastOfClass r a g → IsLeastOfClass r b h → a ≡ b }
{}
