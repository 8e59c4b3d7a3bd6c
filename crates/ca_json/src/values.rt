//! JSON values that occur in several replies.
ghost use Rattle.std.specs.Prelude.{◌≡◌, IfOk};
ghost use Rattle.serde_json.specs.View.{view};
ghost use Rattle.word_image.specs.LocalRules.{IsWord};
ghost use Rattle.tail_config.specs.TailValues.{config_of};
ghost use Rattle.cert_values.specs.WrittenTexts as written;
ghost use Rattle.ca_questions.specs.Writable.{HasDigits};
ghost use Rattle.ca_json.specs.Values as values;

use cert_writing::word_value;
use serde_json::{Value, json};
use short_words::LentWord;
use std::alloc::{AllocError, Global};

/// Returns an object with one member, which has this key and this value.
pub fn tagged(alloc: Global, key: &str, value: Value) -> Result<Value, AllocError>
    ensures { IfOk result (λ v. view v ≡ values.tagged key.now (view value)) }
{
    json!(in alloc; {(key): value})
}

/// Returns a word as a string of hexadecimal digits, or null if there is no word.
pub fn word_or_null(alloc: Global, word: &Option<LentWord>) -> Result<Value, AllocError>
    requires { HasDigits word.now }
    ensures { IfOk result (λ v. view v ≡ values.word_or_null word.now) }
{
    match word {
        None => Ok(Value::Null),
        Some(word) => word_value(alloc, word.as_slice()),
    }
}

/// Returns the decimal digits of a number as a string, or null if there is no number.
pub fn number_or_null(alloc: Global, number: Option<u128>) -> Result<Value, AllocError>
    ensures { IfOk result (λ v. view v ≡ values.number_or_null number) }
{
    match number {
        None => Ok(Value::Null),
        Some(number) => Ok(Value::from(format!(in alloc; "{number}")?)),
    }
}

/// Returns the array of two words, whose letters are below 16.
pub fn pair_value(alloc: Global, x: &[u8], y: &[u8]) -> Result<Value, AllocError>
    requires first { IsWord 16 x.now }
    requires second { IsWord 16 y.now }
    ensures { IfOk result (λ v. view v ≡ values.two (written.word_value x.now) (written.word_value y.now)) }
{
    let x = word_value(alloc, x)?;
    let y = word_value(alloc, y)?;
    json!(in alloc; [x, y])
}

/// Returns the object with the three parts of a configuration, whose letters are below 16.
pub fn tail_value(
    alloc: Global,
    left: &[u8],
    middle: &[u8],
    right: &[u8],
) -> Result<Value, AllocError>
    requires left { IsWord 16 left.now }
    requires middle { IsWord 16 middle.now }
    requires right { IsWord 16 right.now }
    ensures { IfOk result (λ v. view v ≡ values.tail_json (config_of left.now middle.now right.now)) }
{
    let left = word_value(alloc, left)?;
    let middle = word_value(alloc, middle)?;
    let right = word_value(alloc, right)?;
    json!(in alloc; {"left": left, "middle": middle, "right": right})
}
