//! The verdicts of a rule, as a struct of C.
ghost use Rattle.std.specs.Prelude.{◌≡◌, ◌&&◌, Some};
ghost use Rattle.rule_verdicts.specs.Truths.{AreTruths};
ghost use Rattle.c_structs.specs.Verdicts.{AreNone, fault_code, truths_in};

use rule_verdicts::Truths;
use word_image::{Rule, RuleFault};

/// The verdicts on a rule, or the number of a fault if there is no rule.
#[repr(C)]
#[derive(Clone, Copy, Debug, PartialEq, Eq)]
pub struct RuleVerdicts {
    /// This is 0 if the input gives a rule. Otherwise it is the number of the first fault of the input, and all fields
    /// below are `false`.
    pub fault: u8,
    /// Whether every word has a preimage.
    pub surjective: bool,
    /// Whether no two different configurations share an image.
    pub injective: bool,
    /// Whether the rule is right-closing: no two different configurations that agree far to the left share an image.
    pub right: bool,
    /// Whether the rule is left-closing: no two different configurations that agree far to the right share an image.
    pub left: bool,
    /// Whether the rule is right-closing and left-closing.
    pub is_open: bool,
    /// Whether every ring keeps the sum of its letters.
    pub conserving: bool,
}

impl RuleVerdicts {
    /// Returns the verdicts on a rule. Needs no memory.
    pub fn of(rule: &Rule) -> RuleVerdicts
        ensures fault { result.fault ≡ 0 }
        ensures are_true { AreTruths rule.now (truths_in result) }
        ensures both { result.is_open ≡ (result.right && result.left) }
    {
        let truths = Truths::of(rule);
        RuleVerdicts {
            fault: 0,
            surjective: truths.surjective,
            injective: truths.injective,
            right: truths.right,
            left: truths.left,
            is_open: truths.is_open(),
            conserving: truths.conserving,
        }
    }

    /// Returns the struct that has the number of this fault, and in which all verdicts are `false`.
    pub fn none(fault: RuleFault) -> RuleVerdicts
        ensures fault { result.fault ≡ fault_code (Some fault) }
        ensures none { AreNone result }
    {
        RuleVerdicts {
            fault: fault_number(fault),
            surjective: false,
            injective: false,
            right: false,
            left: false,
            is_open: false,
            conserving: false,
        }
    }
}

/// Returns the number, from 1 to 6, by which C knows this fault of a rule.
pub fn fault_number(fault: RuleFault) -> u8
    ensures { result ≡ fault_code (Some fault) }
{
    match fault {
        RuleFault::States => 1,
        RuleFault::Width => 2,
        RuleFault::Nodes => 3,
        RuleFault::Offset => 4,
        RuleFault::Length => 5,
        RuleFault::Letter(_) => 6,
    }
}
