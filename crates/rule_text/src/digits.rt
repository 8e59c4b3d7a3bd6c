//! Checks and reads the digits of a table and of a Wolfram number.
ghost use Rattle.std.specs.Prelude.{◌≡◌, ◌*◌, ◌/◌, ◌%◌, ◌^◌, ◌<◌, ◌≤◌, All, IfSome, IfNone, IsTrue, ◌↔◌, length, map, reverse};
ghost use Rattle.std.specs.Bool.{OnTrue};
ghost use Rattle.word_image.specs.LocalRules.{word_of};
ghost use Rattle.word_image.specs.Grammars.{IsFormFault};
ghost use Rattle.word_image.specs.Digits.{IsHexDigit, letter_at};
ghost use Rattle.rule_text.specs.RuleTexts.{IsDecimal};
ghost use Rattle.rule_text.specs.Heads.{IsEntries};

use crate::head::Kind;
use word_image::letter;

/// The greatest number of decimal digits of a Wolfram number in a text.
const MOST_DIGITS: usize = 39;

/// Returns the first place at which the digits break the form of their kind, or None if they keep this form. A table
/// has hexadecimal digits. A number has 1 to 39 decimal digits.
pub fn first_stop(kind: Kind, digits: &[u8]) -> Option<usize>
    ensures some { IfSome result (λ place. IsFormFault (IsEntries kind) digits.now place) }
    ensures none { IfNone result (IsEntries kind digits.now) }
{
    match kind {
        Kind::Table => hex_stop(digits),
        Kind::Number => decimal_stop(digits),
    }
}

/// Returns the place of the first byte that isn't a hexadecimal digit, or None if there is no such byte.
fn hex_stop(digits: &[u8]) -> Option<usize>
    ensures some { IfSome result (λ place. IsFormFault (All IsHexDigit) digits.now place) }
    ensures none { IfNone result (All IsHexDigit digits.now) }
{
    for (place, byte) in digits.iter().enumerate() {
        if letter(*byte).is_none() {
            return Some(place);
        }
    }
    None
}

/// Returns the first place at which a text breaks the form of 1 to 39 decimal digits, or None if it keeps this form.
/// The place is 0 if the text is empty, and 39 if the text begins with 40 digits.
fn decimal_stop(digits: &[u8]) -> Option<usize>
    ensures some { IfSome result (λ place. IsFormFault (IsDecimal 1 39) digits.now place) }
    ensures none { IfNone result (IsDecimal 1 39 digits.now) }
{
    for (place, byte) in digits.iter().enumerate() {
        if place == MOST_DIGITS || !byte.is_ascii_digit() {
            return Some(place);
        }
    }
    if digits.is_empty() { Some(0) } else { None }
}

/// Writes the letters of hexadecimal digits into a table of the same length. Any other byte counts as the letter 0.
pub fn write_letters(table: &mut [u8], digits: &[u8])
    requires { length table.old ≡ length digits.now }
    ensures { table.new ≡ map letter_at digits.now }
{
    for (place, byte) in digits.iter().enumerate() {
        table[place] = letter(*byte).unwrap_or(0);
    }
}

/// Writes the digits of a number in base k into a table, beginning with the least significant digit. Returns whether
/// the table has room for all digits of the number.
pub fn write_number(table: &mut [u8], k: u8, number: u128) -> bool
    requires { 2 ≤ k }
    ensures fits { IsTrue result ↔ (number < k ^ length table.old) }
    ensures letters { OnTrue result (table.new ≡ reverse (word_of k (length table.old) number)) }
{
    let mut rest = number;
    for letter in table.iter_mut() {
        *letter = (rest % u128::from(k)) as u8;
        rest /= u128::from(k);
    }
    rest == 0
}
