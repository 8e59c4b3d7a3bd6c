//! The function `widen`, which adds cells at the right end of the window. The new rule ignores them.
ghost use Rattle.std.specs.Prelude.{◌≡◌, ◌≤◌, IfOk};
ghost use Rattle.std.specs.Result.{result_err};
ghost use Rattle.word_image.specs.LocalRules.{IsShape};
ghost use Rattle.rule_algebra.specs.Algebra.{IsWidened};
ghost use Rattle.rule_algebra.specs.AlgebraFaults.{widen_fault};
ghost use Rattle.rule_algebra.specs.Tables.{widened};

use crate::fault::{AlgebraFault, check_limits};
use word_image::Rule;

/// Returns the rule at width m, with ignored cells on the right. The image of every configuration stays the same.
///
/// Returns `Width` if m is below the rule's width or above 5. Otherwise returns `Nodes` if there are more than 16 words
/// of m - 1 letters, and otherwise `Offset` if the last cell is too far to the right.
pub fn widen(rule: &Rule, m: u8) -> Result<Rule, AlgebraFault>
    ensures fault { result_err result ≡ widen_fault rule.now m }
    ensures widened { IfOk result (IsWidened rule.now m) }
{
    if m < rule.m() {
        return Err(AlgebraFault::Width);
    }
    check_limits(rule.k(), m, i16::from(rule.o()))?;
    Ok(widened_rule(rule, m))
}

/// Returns the rule at the width m, with ignored cells on the right. The new shape must be within the limits of rules.
fn widened_rule(rule: &Rule, m: u8) -> Rule
    requires wider { rule.now.width ≤ m }
    requires shape { IsShape rule.now.states m rule.now.offset }
    ensures { result ≡ widened rule.now m }
{
    let ignored = u16::from(rule.k()).pow(u32::from(m - rule.m()));
    Rule::from_fn(rule.k(), m, rule.o(), |window| rule.at(window / ignored))
}
