//! Functions that read words and configurations, which are strings.
ghost use Rattle.std.specs.Prelude.{◌≡◌, ℕ, ◌<◌, ◌≤◌, List, Some, IfOk, IfErr, IfSome, IfNone};
ghost use Rattle.serde_json.specs.View.{view};
ghost use Rattle.word_image.specs.LocalRules.{most_states};
ghost use Rattle.word_image.specs.Digits.{hex_value};
ghost use Rattle.tail_config.specs.Tails.{TailConfig};
ghost use Rattle.cert_format.specs.Readings.{IsLetters, IsWordValue, IsWordsValue, IsTailValue, IsTailsValue};

use crate::items::pair;
use crate::misread::Misread;
use serde_json::Value;
use std::alloc::Global;
use tail_config::{Tail, TailTextFault, parse};
use word_image::{Word, letter};

/// Reads a string of hexadecimal digits as a word of letters below k. Returns the error `Shape` for any other value.
pub fn word(alloc: Global, k: u8, value: &Value) -> Result<Word, Misread>
    ensures word { IfOk result (IsWordValue k (view value.now)) }
    ensures none { IfErr result (λ e. e ≡ Misread.Shape
        → (w : List ℕ) → ¬ IsWordValue k (view value.now) w) }
{
    let Some(text) = value.as_str() else {
        return Err(Misread::Shape);
    };
    Ok(Word::of(letters(alloc, k, text.as_bytes())?))
}

/// Reads hexadecimal digits as letters below k. Returns the error `Shape` if a byte isn't the digit of such a letter.
fn letters(alloc: Global, k: u8, digits: &[u8]) -> Result<Vec<u8>, Misread>
    ensures letters { IfOk result (λ v. IsLetters k digits.now v.items) }
    ensures none { IfErr result (λ e. e ≡ Misread.Shape
        → (w : List ℕ) → ¬ IsLetters k digits.now w) }
{
    let mut word = Vec::with_capacity(alloc, digits.len())?;
    for digit in digits {
        let Some(letter) = letter_below(k, *digit) else {
            return Err(Misread::Shape);
        };
        word.push(letter)?;
    }
    Ok(word)
}

/// Reads a hexadecimal digit as a letter below k. Returns None for other bytes.
fn letter_below(k: u8, digit: u8) -> Option<u8>
    ensures some { IfSome result (λ a. (hex_value digit ≡ Some a) × (a < k)) }
    ensures none { IfNone result ((a : ℕ) → hex_value digit ≡ Some a → ¬ (a < k)) }
{
    match letter(digit) {
        Some(letter) if letter < k => Some(letter),
        _ => None,
    }
}

/// Reads an array of two strings as two words of letters below k. Returns the error `Shape` for any other value.
pub fn words(alloc: Global, k: u8, value: &Value) -> Result<(Word, Word), Misread>
    ensures words { IfOk result (λ p. IsWordsValue k (view value.now) p.0 p.1) }
    ensures none { IfErr result (λ e. e ≡ Misread.Shape
        → (x y : List ℕ) → ¬ IsWordsValue k (view value.now) x y) }
{
    let Some((first, second)) = pair(value) else {
        return Err(Misread::Shape);
    };
    let x = word(alloc, k, first)?;
    let y = word(alloc, k, second)?;
    Ok((x, y))
}

/// Reads a string as the text of a configuration over the letters below k. k is from 2 to 16. Returns the error `Shape`
/// for any other value.
pub fn tail(alloc: Global, k: u8, value: &Value) -> Result<Tail, Misread>
    requires least { 2 ≤ k }
    requires most { k ≤ most_states }
    ensures states { IfOk result (λ t. t.states ≡ k) }
    ensures tail { IfOk result (λ t. IsTailValue k (view value.now) t.config) }
    ensures none { IfErr result (λ e. e ≡ Misread.Shape
        → (t : TailConfig) → ¬ IsTailValue k (view value.now) t) }
{
    let Some(text) = value.as_str() else {
        return Err(Misread::Shape);
    };
    match parse(alloc, k, text.as_bytes()) {
        Ok(tail) => Ok(tail),
        Err(TailTextFault::Memory(fault)) => Err(Misread::Memory(fault)),
        Err(_) => Err(Misread::Shape),
    }
}

/// Reads an array of two strings as two configurations over the letters below k. Returns the error `Shape` for any
/// other value.
pub fn tails(alloc: Global, k: u8, value: &Value) -> Result<(Tail, Tail), Misread>
    requires least { 2 ≤ k }
    requires most { k ≤ most_states }
    ensures states { IfOk result (λ p. (p.0.states ≡ k) × (p.1.states ≡ k)) }
    ensures tails { IfOk result (λ p. IsTailsValue k (view value.now) p.0.config p.1.config) }
    ensures none { IfErr result (λ e. e ≡ Misread.Shape
        → (x y : TailConfig) → ¬ IsTailsValue k (view value.now) x y) }
{
    let Some((first, second)) = pair(value) else {
        return Err(Misread::Shape);
    };
    let x = tail(alloc, k, first)?;
    let y = tail(alloc, k, second)?;
    Ok((x, y))
}
