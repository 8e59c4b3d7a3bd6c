//! Reads a rule from its text. Most texts have a head and digits: `2:3:-1:t` is the head of the table text
//! `2:3:-1:t01110110`, and `2:3:-1:w` is the head of `2:3:-1:w110`. The shape is the number of states, the width and
//! the offset.
ghost use Rattle.std.specs.Prelude.{◌≡◌, ◌+◌, ◌^◌, ◌<◌, IfOk, IfErr, All, map};
ghost use Rattle.word_image.specs.LocalRules.{LocalRule, IsShape};
ghost use Rattle.rule_text.specs.declared.text_fault.TextFault.{TextFault};
ghost use Rattle.word_image.specs.Digits.{IsHexDigit, letter_at};
ghost use Rattle.rule_text.specs.RuleTexts.{IsRuleText, IsTextFault, IsDecimal, Table, Number, decimal_value};
ghost use Rattle.rule_text.specs.TextReadings.{IsReading};
ghost use Rattle.rule_text.specs.Heads.{IsEntries, said_of, said_with};

use crate::decimals::decimal_number;
use crate::digits::{first_stop, write_letters};
use crate::head::{Head, Kind, read_head};
use crate::text_fault::{TextFault, as_text_fault};
use crate::wolfram_numbers::{MOST_NUMBERED_STATES, rule_of_number};
use word_image::{MOST_ENTRIES, Rule, check_shape};

/// Returns the rule of a text. If the text isn't the text of an accepted rule, returns its first fault, in the order
/// of `TextFault`.
pub fn parse(text: &[u8]) -> Result<Rule, TextFault>
    ensures rule { IfOk result (λ r. IsRuleText text.now r) }
    ensures fault { IfErr result (λ f. IsTextFault text.now f) }
    ensures every_rule { (r : LocalRule) → IsRuleText text.now r → result ≡ Ok r }
    ensures every_fault { (f : TextFault) → IsTextFault text.now f → result ≡ Err f }
{
    let head = read_head(text)?;
    let digits = &text[head.place..];
    if let Some(stop) = first_stop(head.kind, digits) {
        let place = head.place + stop;
        return Err(TextFault::Form(place));
    }
    accept(&head, digits)
}

/// Returns the rule of a text with this head and these digits, or the text's first fault. The digits must be
/// hexadecimal after a head with `t`, and 1 to 39 decimal digits after a head with `w`.
fn accept(head: &Head, digits: &[u8]) -> Result<Rule, TextFault>
    requires entries { IsEntries head.now.kind digits.now }
    requires place { head.now.place + 2 ^ 16 < 2 ^ 64 }
    ensures { IsReading (said_of head.now digits.now) result }
{
    if let Err(fault) = check_shape(head.k, head.m, head.o) {
        return Err(as_text_fault(fault, head.place));
    }
    match head.kind {
        Kind::Table => accept_table(head, digits),
        Kind::Number => accept_number(head, digits),
    }
}

/// Returns the rule whose shape is in the head and whose table has the letters of these hexadecimal digits, or the
/// first fault of the digits. The shape must be an accepted one.
fn accept_table(head: &Head, digits: &[u8]) -> Result<Rule, TextFault>
    requires shape { IsShape head.now.k head.now.m head.now.o }
    requires digits { All IsHexDigit digits.now }
    requires place { head.now.place + 2 ^ 16 < 2 ^ 64 }
    ensures { IsReading (said_with head.now (Table (map letter_at digits.now))) result }
{
    let size = usize::from(head.k).pow(u32::from(head.m));
    if digits.len() != size {
        return Err(TextFault::Length);
    }
    let mut table = [0; MOST_ENTRIES];
    let table = &mut table[..size];
    write_letters(table, digits);
    match Rule::new(head.k, head.m, head.o, table) {
        Ok(rule) => Ok(rule),
        Err(fault) => Err(as_text_fault(fault, head.place)),
    }
}

/// Returns the rule whose shape is in the head and whose Wolfram number these decimal digits write, or the first fault.
/// The shape must be an accepted one. A text that is only a number, such as `110`, counts as having the head
/// `2:3:-1:w`.
fn accept_number(head: &Head, digits: &[u8]) -> Result<Rule, TextFault>
    requires shape { IsShape head.now.k head.now.m head.now.o }
    requires digits { IsDecimal 1 39 digits.now }
    ensures { IsReading (said_with head.now (Number (decimal_value digits.now))) result }
{
    if head.k > MOST_NUMBERED_STATES {
        return Err(TextFault::Kind);
    }
    let Some(number) = decimal_number(digits) else {
        return Err(TextFault::Number);
    };
    rule_of_number(head.k, head.m, head.o, number).ok_or(TextFault::Number)
}
