//! Reads and writes letters and words as hexadecimal digits.
ghost use Rattle.std.specs.Prelude.{◌≡◌, ◌<◌, map, IfOk};
ghost use Rattle.word_image.specs.LocalRules.{IsWord, most_states};
ghost use Rattle.word_image.specs.Digits.{lower_digit, hex_value, letter_at, word_text};

use std::alloc::{AllocError, Global};

/// Returns the lower-case hexadecimal digit, in ASCII, of a letter below 16.
pub fn digit(letter: u8) -> u8
    requires { letter < most_states }
    ensures { result ≡ lower_digit letter }
{
    if letter < 10 {
        b'0' + letter
    } else {
        b'a' + (letter - 10)
    }
}

/// Returns the value of a hexadecimal digit of either case, or None if the byte isn't one.
pub fn letter(byte: u8) -> Option<u8>
    ensures { result ≡ hex_value byte }
{
    match byte {
        b'0'..=b'9' => Some(byte - b'0'),
        b'A'..=b'F' => Some(byte - b'A' + 10),
        b'a'..=b'f' => Some(byte - b'a' + 10),
        _ => None,
    }
}

/// Returns the letters of hexadecimal digits. A byte that isn't such a digit counts as the letter 0. The only error
/// is lack of memory.
pub fn text_word(alloc: Global, digits: &[u8]) -> Result<Vec<u8>, AllocError>
    ensures { IfOk result (λ word. word.items ≡ map letter_at digits.now) }
{
    digits
        .iter()
        .map(|byte| letter(*byte).unwrap_or(0))
        .collect(alloc)
}

/// Returns the text of a word: one lower-case hexadecimal digit for each letter. The letters are below 16. The only
/// error is lack of memory.
pub fn word_text(alloc: Global, word: &[u8]) -> Result<Vec<u8>, AllocError>
    requires { IsWord most_states word.now }
    ensures { IfOk result (λ text. text.items ≡ word_text word.now) }
{
    let mut text = Vec::with_capacity(alloc, word.len())?;
    for letter in word {
        text.push(digit(*letter))?;
    }
    Ok(text)
}
