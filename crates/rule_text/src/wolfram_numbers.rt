//! Makes a rule from a shape and a Wolfram number. The shape is the number of states, the width and the offset.
ghost use Rattle.std.specs.Prelude.{◌≡◌, ◌^◌, ◌<◌};
ghost use Rattle.std.specs.Option.{SomeIff, option_map};
ghost use Rattle.std.specs.Result.{result_err};
ghost use Rattle.word_image.specs.LocalRules.{IsShape};
ghost use Rattle.word_image.specs.RuleFaults.{shape_fault};
ghost use Rattle.rule_text.specs.RuleTexts.{by_number, as_text_fault, rule_of};
ghost use Rattle.rule_text.specs.TextReadings.{IsReading};

use crate::digits::write_number;
use crate::text_fault::{TextFault, as_text_fault};
use word_image::{MOST_ENTRIES, Rule};

/// The greatest number of states of a rule that can be given by its Wolfram number.
pub const MOST_NUMBERED_STATES: u8 = 6;

/// Checks whether a rule can have k states, width m and offset o. Returns the first of `States`, `Width`, `Nodes` and
/// `Offset` that applies, if any.
pub fn check_shape(k: u8, m: u8, o: i8) -> Result<(), TextFault>
    ensures { result_err result ≡ option_map (as_text_fault 0) (shape_fault k m o) }
{
    match word_image::check_shape(k, m, o) {
        Ok(()) => Ok(()),
        Err(fault) => Err(as_text_fault(fault, 0)),
    }
}

/// Returns the rule with k states, width m and offset o that has this Wolfram number. If there is none, returns the
/// first fault: a fault of the shape; then `Kind` if k is 7 or more, since such rules have no texts with a Wolfram number;
/// then `Number` if the number is at least `k^(k^m)`.
pub fn numbered(k: u8, m: u8, o: i8, number: u128) -> Result<Rule, TextFault>
    ensures { IsReading (by_number k m o number) result }
{
    check_shape(k, m, o)?;
    if k > MOST_NUMBERED_STATES {
        return Err(TextFault::Kind);
    }
    rule_of_number(k, m, o, number).ok_or(TextFault::Number)
}

/// Returns the rule of an accepted shape with this Wolfram number, or None if no table of this shape has the number.
pub fn rule_of_number(k: u8, m: u8, o: i8, number: u128) -> Option<Rule>
    requires { IsShape k m o }
    ensures { SomeIff result (number < k ^ (k ^ m)) (rule_of (by_number k m o number)) }
{
    let size = usize::from(k).pow(u32::from(m));
    let mut table = [0; MOST_ENTRIES];
    let table = &mut table[..size];
    if !write_number(table, k, number) {
        return None;
    }
    match Rule::new(k, m, o, table) {
        Ok(rule) => Some(rule),
        Err(_) => unreachable!(),
    }
}
