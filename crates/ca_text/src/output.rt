//! The type `Output`, which has the bytes of a text.
ghost use Rattle.std.specs.Prelude.{◌≡◌, [], ◌++◌, ◌+◌, ◌≤◌, length, codes, vec_len, vec_capacity, IfOk};
ghost use Rattle.std.specs.Fmt.{decimal};
ghost use Rattle.word_image.specs.LocalRules.{IsWord};
ghost use Rattle.word_image.specs.Digits.{word_text};
ghost use Rattle.rule_text.specs.PrintedRules.{head, offset_text, printed_rule};
ghost use Rattle.tail_config.specs.TailTexts as tail;
ghost use Rattle.ca_text.specs.Reports.{line};
ghost use Rattle.ca_text.specs.Rooms.{AppendsAtMost, IsAppended, most_text};

use crate::decimals::{MOST_DIGITS, write_decimal};
use std::alloc::{AllocError, Global};
use std::marker::Model;
use tail_config::LentTail;
use word_image::{Rule, digit};

/// The number of bytes for which an output has room when it is made. The longest text of an automaton has fewer.
pub const MOST_TEXT: usize = 6_291_600;

/// The bytes of a text. In contracts it is the list of these bytes.
///
/// It has room for [`MOST_TEXT`] bytes from the start. So to append to it can only fail if the text is then longer.
#[derive(Debug, Drop)]
pub struct Output {
    bytes: Vec<u8>,
}

impl Model for Output {
    ghost use Rattle.std.specs.Prelude.{ℕ, List, ◌≤◌, vec_capacity};
    ghost use Rattle.ca_text.specs.Rooms.{most_text};

    ghost Value = { List ℕ };

    ghost view = { λ o. o.bytes.items };

    ghost invariant = { λ o. most_text ≤ vec_capacity o.bytes };
}

impl Output {
    /// Makes an empty output, with its room. The only error is lack of memory.
    pub fn new(alloc: Global) -> Result<Output, AllocError>
        ensures { IfOk result (λ output. output ≡ []) }
    {
        let bytes = Vec::with_capacity(alloc, MOST_TEXT)?;
        Ok(Output { bytes })
    }

    /// Removes all bytes, and keeps the room.
    pub fn clear(&mut self)
        ensures { self.new ≡ [] }
    {
        self.bytes.clear();
    }

    /// Appends these bytes.
    pub fn push(&mut self, bytes: &[u8]) -> Result<(), AllocError>
        ensures { IsAppended result self.old self.new bytes.now }
    {
        self.bytes.extend_from_slice(bytes)
    }

    /// Appends the digits of a word.
    pub fn push_word(&mut self, word: &[u8]) -> Result<(), AllocError>
        requires { IsWord 16 word.now }
        ensures appended { IsAppended result self.old self.new (word_text word.now) }
        ensures few { AppendsAtMost (length word.now) result self.old self.new }
    {
        self.bytes.reserve(word.len())?;
        write_digits(&mut self.bytes, word);
        Ok(())
    }

    /// Appends the decimal digits of a number.
    pub fn push_number(&mut self, number: u128) -> Result<(), AllocError>
        ensures appended { IsAppended result self.old self.new (decimal number) }
        ensures few { AppendsAtMost 39 result self.old self.new }
    {
        let mut bytes = [0; MOST_DIGITS];
        let first = write_decimal(number, &mut bytes, MOST_DIGITS);
        self.push(&bytes[first..])
    }

    /// Appends the decimal digits of an integer, with a minus sign if it is negative.
    pub fn push_offset(&mut self, offset: i64) -> Result<(), AllocError>
        ensures appended { IsAppended result self.old self.new (offset_text offset) }
        ensures few { AppendsAtMost 40 result self.old self.new }
    {
        if offset < 0 {
            self.push(b"-")?;
        }
        self.push_number(u128::from(offset.unsigned_abs()))
    }

    /// Appends the text of a rule.
    pub fn push_rule(&mut self, rule: &Rule) -> Result<(), AllocError>
        ensures appended { IsAppended result self.old self.new (printed_rule rule.now) }
        ensures few { AppendsAtMost 400 result self.old self.new }
    {
        rule.keeps_limits();
        self.push_head(rule)?;
        self.push_word(rule.table())
    }

    /// Appends the text of a rule up to its table.
    fn push_head(&mut self, rule: &Rule) -> Result<(), AllocError>
        ensures appended { IsAppended result self.old self.new (head (decimal rule.now.states) (decimal rule.now.width) (offset_text rule.now.offset) (codes "t")) }
        ensures few { AppendsAtMost 130 result self.old self.new }
    {
        self.push_number_then(u128::from(rule.k()), b":")?;
        self.push_number_then(u128::from(rule.m()), b":")?;
        self.push_offset(i64::from(rule.o()))?;
        self.push(b":t")
    }

    /// Appends the decimal digits of a number, and these bytes.
    pub fn push_number_then(&mut self, number: u128, bytes: &[u8]) -> Result<(), AllocError>
        ensures appended { IsAppended result self.old self.new (decimal number ++ bytes.now) }
        ensures few { AppendsAtMost (39 + length bytes.now) result self.old self.new }
    {
        self.push_number(number)?;
        self.push(bytes)
    }

    /// Appends the text of a configuration.
    pub fn push_tail(&mut self, config: &LentTail) -> Result<(), AllocError>
        ensures appended { IsAppended result self.old self.new (tail.printed config.now.config) }
        ensures few { AppendsAtMost 3074 result self.old self.new }
    {
        self.push_parts(config.left(), config.middle(), config.right())
    }

    /// Appends the digits of the three parts of a configuration, with bars between them.
    pub fn push_parts(&mut self, left: &[u8], middle: &[u8], right: &[u8]) -> Result<(), AllocError>
        requires left { IsWord 16 left.now }
        requires middle { IsWord 16 middle.now }
        requires right { IsWord 16 right.now }
        ensures appended { IsAppended result self.old self.new (word_text left.now ++ codes "|" ++ word_text middle.now ++ codes "|" ++ word_text right.now) }
        ensures few { AppendsAtMost (length left.now + length middle.now + length right.now + 2) result self.old self.new }
    {
        self.push_word(left)?;
        self.push(b"|")?;
        self.push_word(middle)?;
        self.push(b"|")?;
        self.push_word(right)
    }

    /// Appends a line with this text.
    pub fn push_line(&mut self, text: &str) -> Result<(), AllocError>
        ensures { IsAppended result self.old self.new (line text.now) }
    {
        self.push(text.as_bytes())?;
        self.push(b"\n")
    }

    /// Appends a line with this text and a number.
    pub fn push_line_with_number(&mut self, text: &str, number: u128) -> Result<(), AllocError>
        ensures appended { IsAppended result self.old self.new (line (text.now ++ decimal number)) }
        ensures few { AppendsAtMost (40 + length text.now) result self.old self.new }
    {
        self.push(text.as_bytes())?;
        self.push_number(number)?;
        self.push(b"\n")
    }

    /// Appends this text and two numbers, with a blank between them.
    pub fn push_numbers(&mut self, text: &str, n: u16, c: u16) -> Result<(), AllocError>
        ensures appended { IsAppended result self.old self.new (text.now ++ decimal n ++ codes " " ++ decimal c) }
        ensures few { AppendsAtMost (80 + length text.now) result self.old self.new }
    {
        self.push(text.as_bytes())?;
        self.push_number_then(u128::from(n), b" ")?;
        self.push_number(u128::from(c))
    }

    /// Appends a line with this text and two numbers, with a blank between them.
    pub fn push_line_with_numbers(&mut self, text: &str, n: u16, c: u16) -> Result<(), AllocError>
        ensures appended { IsAppended result self.old self.new (line (text.now ++ decimal n ++ codes " " ++ decimal c)) }
        ensures few { AppendsAtMost (81 + length text.now) result self.old self.new }
    {
        self.push_numbers(text, n, c)?;
        self.push(b"\n")
    }

    /// Appends a line with this text and the digits of a word.
    pub fn push_line_with_word(&mut self, text: &str, word: &[u8]) -> Result<(), AllocError>
        requires { IsWord 16 word.now }
        ensures appended { IsAppended result self.old self.new (line (text.now ++ word_text word.now)) }
        ensures few { AppendsAtMost (1 + length text.now + length word.now) result self.old self.new }
    {
        self.push(text.as_bytes())?;
        self.push_word(word)?;
        self.push(b"\n")
    }

    /// Appends a line with this text and the digits of two words, with a blank between them.
    pub fn push_line_with_words(&mut self, text: &str, x: &[u8], y: &[u8]) -> Result<(), AllocError>
        requires first { IsWord 16 x.now }
        requires second { IsWord 16 y.now }
        ensures appended { IsAppended result self.old self.new (line (text.now ++ word_text x.now ++ codes " " ++ word_text y.now)) }
        ensures few { AppendsAtMost (2 + length text.now + length x.now + length y.now) result self.old self.new }
    {
        self.push(text.as_bytes())?;
        self.push_word(x)?;
        self.push(b" ")?;
        self.push_word(y)?;
        self.push(b"\n")
    }

    /// Returns the bytes of the output so far.
    pub fn as_slice(&self) -> &[u8]
        ensures { result.now ≡ self.now }
    {
        &self.bytes
    }
}

/// Appends the digits of a word to bytes that have room for them.
fn write_digits(bytes: &mut Vec<u8>, word: &[u8])
    requires word { IsWord 16 word.now }
    requires room { vec_len bytes.old + length word.now ≤ vec_capacity bytes.old }
    ensures digits { bytes.new.items ≡ bytes.old.items ++ word_text word.now }
    ensures capacity { vec_capacity bytes.new ≡ vec_capacity bytes.old }
{
    for letter in word {
        bytes.push_reserved(digit(*letter));
    }
}
