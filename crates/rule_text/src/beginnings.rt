//! Reads the beginning of a rule's table text, for example `2:3:-1:t01`. The part `2:3:-1:t` is its head: the number of
//! states, the width, the offset, and `t` for a table. The first three are the shape.
ghost use Rattle.std.specs.Prelude.{◌≡◌, ◌+◌, ◌-◌, ◌^◌, ◌<◌, ◌≤◌, ◌++◌, IfOk, IfErr, All, map, length, take, replicate};
ghost use Rattle.word_image.specs.LocalRules.{IsShape, most_windows};
ghost use Rattle.word_image.specs.Digits.{IsHexDigit, letter_at};
ghost use Rattle.rule_text.specs.RuleTexts.{Table};
ghost use Rattle.rule_text.specs.Heads.{IsEntries, said_of, said_with};
ghost use Rattle.rule_text.specs.Beginnings.{IsBeginning, IsBeginningFault, IsBeginningOf, filled};

use crate::digits::{first_stop, write_letters};
use crate::head::{Head, Kind, read_head};
use crate::text_fault::{TextFault, as_text_fault};
use word_image::{MOST_ENTRIES, Rule, check_shape};

/// The beginning of a table text. For example, `2:3:-1:t01` stands for all rules with 2 states, width 3 and offset -1
/// whose table begins with 0 1.
#[derive(Clone, Copy, Debug)]
pub struct Beginning {
    /// The rule whose table has the given letters, followed by zeros.
    pub rule: Rule,
    /// The number of given letters, at most as many as there are windows.
    pub given: u16,
}

/// Reads the beginning of a table text: a head, and at most as many digits as there are windows. Returns the first
/// fault if the text isn't such a beginning. The faults are those of a rule's text, with two differences. `Length`
/// means that there are more digits than windows. `Kind` means that the text gives a number instead of a table.
pub fn parse_beginning(text: &[u8]) -> Result<Beginning, TextFault>
    ensures beginning { IfOk result (λ b. IsBeginning text.now b) }
    ensures fault { IfErr result (λ f. IsBeginningFault text.now f) }
{
    let head = read_head(text)?;
    let digits = &text[head.place..];
    if let Some(stop) = first_stop(head.kind, digits) {
        let place = head.place + stop;
        return Err(TextFault::Form(place));
    }
    begin(&head, digits)
}

/// Returns the beginning of a table text with this head and these digits, or the first fault of the text. The digits
/// must be hexadecimal after a head with `t`, and decimal after a head with `w`.
fn begin(head: &Head, digits: &[u8]) -> Result<Beginning, TextFault>
    requires entries { IsEntries head.now.kind digits.now }
    requires place { head.now.place + 2 ^ 16 < 2 ^ 64 }
    ensures { IsBeginningOf (said_of head.now digits.now) result }
{
    if let Err(fault) = check_shape(head.k, head.m, head.o) {
        return Err(as_text_fault(fault, head.place));
    }
    match head.kind {
        Kind::Table => begin_table(head, digits),
        Kind::Number => Err(TextFault::Kind),
    }
}

/// Returns the beginning of a table text with this head and these digits, or the first fault of the digits. The head
/// must have the kind `Table` and an accepted shape.
fn begin_table(head: &Head, digits: &[u8]) -> Result<Beginning, TextFault>
    requires shape { IsShape head.now.k head.now.m head.now.o }
    requires digits { All IsHexDigit digits.now }
    requires place { head.now.place + 2 ^ 16 < 2 ^ 64 }
    ensures { IsBeginningOf (said_with head.now (Table (map letter_at digits.now))) result }
{
    let size = usize::from(head.k).pow(u32::from(head.m));
    if digits.len() > size {
        return Err(TextFault::Length);
    }
    let table = filled(digits);
    match Rule::new(head.k, head.m, head.o, &table[..size]) {
        Ok(rule) => Ok(Beginning {
            rule,
            given: digits.len() as u16,
        }),
        Err(fault) => Err(as_text_fault(fault, head.place)),
    }
}

/// Returns the letters of hexadecimal digits, followed by zeros.
fn filled(digits: &[u8]) -> [u8; MOST_ENTRIES]
    requires { length digits.now ≤ most_windows }
    ensures { result ≡ map letter_at digits.now ++ replicate (most_windows - length digits.now) 0 }
{
    let mut table = [0; MOST_ENTRIES];
    write_letters(&mut table[..digits.len()], digits);
    table
}
