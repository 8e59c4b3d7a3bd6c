//! The function `compose`, which makes one rule of two rules that are applied one after the other.
ghost use Rattle.std.specs.Prelude.{◌≡◌, ◌≤◌, ◌+◌, ◌-◌, ◌<◌, ◌^◌, IfOk, slice_index};
ghost use Rattle.std.specs.Result.{result_err};
ghost use Rattle.word_image.specs.LocalRules.{IsRule, value, word_of, most_windows};
ghost use Rattle.word_image.specs.Words.{image};
ghost use Rattle.rule_algebra.specs.Algebra.{IsComposed};
ghost use Rattle.rule_algebra.specs.MadeImages.{ComposesCells};
ghost use Rattle.rule_algebra.specs.AlgebraFaults.{compose_fault};
ghost use Rattle.rule_algebra.specs.Tables.{composed};

use crate::fault::{AlgebraFault, check_limits};
use word_image::{Rule, value_by};

/// Returns the composition of two rules: its image is the second rule's image of the first rule's image. Its width is
/// the sum of the two widths minus 1, and its offset is the sum of the two offsets.
///
/// Returns `States` if the rules have different numbers of states. Otherwise, if the composition breaks a limit of
/// accepted rules, returns the first of `Width`, `Nodes` and `Offset` that applies.
pub fn compose(first: &Rule, second: &Rule) -> Result<Rule, AlgebraFault>
    ensures fault { result_err result ≡ compose_fault first.now second.now }
    ensures composed { IfOk result (IsComposed first.now second.now) }
    ensures cells { IfOk result (ComposesCells first.now second.now) }
{
    check_composed(first, second)?;
    Ok(composed_rule(first, second))
}

/// Returns the offset of the composition of two rules, or the first fault of `compose`.
fn check_composed(first: &Rule, second: &Rule) -> Result<i8, AlgebraFault>
    ensures fault { result_err result ≡ compose_fault first.now second.now }
    ensures rules { IsRule first.now × IsRule second.now }
{
    if first.k() != second.k() {
        return Err(AlgebraFault::States);
    }
    let m = first.m() + second.m() - 1;
    check_limits(first.k(), m, i16::from(first.o()) + i16::from(second.o()))
}

/// Returns the composition of two rules, which must be within the limits of accepted rules.
fn composed_rule(first: &Rule, second: &Rule) -> Rule
    requires { compose_fault first.now second.now ≡ None }
    ensures { result ≡ composed first.now second.now }
{
    let (m, n) = (first.m(), second.m());
    let o = first.o() + second.o();
    Rule::from_fn(
        first.k(),
        m + n - 1,
        o,
        |window| second.at(image_value(first, n, window)),
    )
}

/// Returns the value of the image of a window. `window` is the value of the window, and its image has `n` letters.
fn image_value(rule: &Rule, n: u8, window: u16) -> u16
    requires some { 1 ≤ n }
    requires fits { rule.now.states ^ (rule.now.width + n - 1) ≤ most_windows }
    requires window { window < rule.now.states ^ (rule.now.width + n - 1) }
    ensures value { result ≡ value rule.now.states (image rule.now
        (word_of rule.now.states (rule.now.width + n - 1) window)) }
    ensures within { result < rule.now.states ^ n }
{
    value_by(rule.k(), n, |start| image_letter(rule, n, window, start))
}

/// Returns the letter at place `start` of the image of a window. `window` is the value of the window, and its image has
/// `n` letters.
fn image_letter(rule: &Rule, n: u8, window: u16, start: u8) -> u8
    requires fits { rule.now.states ^ (rule.now.width + n - 1) ≤ most_windows }
    requires window { window < rule.now.states ^ (rule.now.width + n - 1) }
    requires start { start < n }
    ensures { result ≡ slice_index (image rule.now (word_of rule.now.states (rule.now.width + n - 1) window)) start }
{
    let behind = u16::from(rule.k()).pow(u32::from(n - 1 - start));
    rule.at(window / behind % rule.size())
}
