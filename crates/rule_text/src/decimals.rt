//! Reads decimal numbers and offsets.
ghost use Rattle.std.specs.Prelude.{◌≡◌, ℕ, ℤ, ◌+◌, ◌*◌, ◌^◌, ◌<◌, All, IfSome, IsTrue, ◌↔◌};
ghost use Rattle.std.specs.Option.{SomeIff};
ghost use Rattle.rule_text.specs.RuleTexts.{IsDigit, IsDecimal, IsOffset, decimal_value};
ghost use Rattle.rule_text.specs.Heads.{signed};

use crate::parts::minus;

/// Returns whether a text consists of 1 to `most` decimal digits.
pub fn is_decimal(text: &[u8], most: usize) -> bool
    ensures { IsTrue result ↔ IsDecimal 1 most text.now }
{
    !text.is_empty() && text.len() <= most && text.iter().all(|byte| byte.is_ascii_digit())
}

/// Returns the number that decimal digits write, or None if the number is `2^128` or more.
pub fn decimal_number(digits: &[u8]) -> Option<u128>
    requires { All IsDigit digits.now }
    ensures { SomeIff result (decimal_value digits.now < 2 ^ 128) (decimal_value digits.now) }
{
    let mut number = Some(0);
    for byte in digits {
        number = with_digit(number, *byte - b'0');
    }
    number
}

/// Returns ten times `number` plus `digit`. In the argument and in the result, None stands for a number of `2^128` or
/// more.
fn with_digit(number: Option<u128>, digit: u8) -> Option<u128>
    ensures { (n : ℕ) → SomeIff number (n < 2 ^ 128) n
        → SomeIff result (n * 10 + digit < 2 ^ 128) (n * 10 + digit) }
{
    number?.checked_mul(10)?.checked_add(u128::from(digit))
}

/// Reads an offset: one or two decimal digits, which may have a minus sign before them. Returns None for any other
/// text.
pub fn decimal_offset(text: &[u8]) -> Option<i8>
    ensures offset { IfSome result (λ o. IsOffset text.now o) }
    ensures every { (o : ℤ) → IsOffset text.now o → result ≡ Some o }
{
    let (minus, start) = minus(text, 0);
    let digits = &text[start..];
    if !is_decimal(digits, 2) {
        return None;
    }
    let number = decimal_number(digits)? as u8;
    Some(with_sign(minus, number))
}

/// Returns the number, or its negative if `minus` is true. The number is below 100.
pub fn with_sign(minus: bool, number: u8) -> i8
    requires { number < 100 }
    ensures { result ≡ signed minus number }
{
    let number = number as i8;
    if minus { -number } else { number }
}
