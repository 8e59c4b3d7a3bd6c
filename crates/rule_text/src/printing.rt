//! Prints a rule, and computes its Wolfram number.
ghost use Rattle.std.specs.Prelude.{◌≡◌, ◌<◌, IfOk};
ghost use Rattle.std.specs.Option.{SomeIff};
ghost use Rattle.word_image.specs.LocalRules.{LocalRule, IsRule, wolfram_number};
ghost use Rattle.rule_text.specs.RuleTexts.{IsRuleText};
ghost use Rattle.rule_text.specs.PrintedRules.{printed_rule};

use std::alloc::{AllocError, Global};
use word_image::{Rule, digit};

/// Returns the text of a rule in the table form, for example `2:3:-1:t01110110`. It has lower-case digits, numbers
/// without leading zeros, and a minus sign if the offset is negative. The only error is lack of memory.
pub fn print(alloc: Global, rule: &Rule) -> Result<Vec<u8>, AllocError>
    ensures { IfOk result (λ text. text.items ≡ printed_rule rule.now) }
{
    let head = format!(in alloc; "{}:{}:{}:t", rule.k(), rule.m(), rule.o())?;
    let mut text = head.into_bytes();
    for value in 0..rule.size() {
        text.push(digit(rule.at(value)))?;
    }
    Ok(text)
}

/// Law: the printed text of each accepted rule is a text of this rule.
pub fn printed_text_is_read()
    ensures { (r : LocalRule) → IsRule r → IsRuleText (printed_rule r) r }
{}

/// Returns the Wolfram number of a rule: the sum over all windows of the letter times k to the power of the window's
/// value. Returns None if the rule has 7 states or more.
pub fn number(rule: &Rule) -> Option<u128>
    ensures { SomeIff result (rule.now.states < 7) (wolfram_number rule.now) }
{
    if rule.k() >= 7 {
        return None;
    }
    let mut number = 0;
    for value in (0..rule.size()).rev() {
        number = number * u128::from(rule.k()) + u128::from(rule.at(value));
    }
    Some(number)
}
