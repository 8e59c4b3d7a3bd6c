//! Reads and prints the texts of Tails. A Tail is a configuration with a left period, a middle and a right period. Its
//! text is `L|M|R`, where each part consists of hexadecimal digits, one for each letter.
ghost use Rattle.std.specs.Prelude.{◌≡◌, ◌≤◌, ◌⊎◌, ◌↔◌, IsTrue, length, map, nat_le, position, alloc_error, IfOk, IfErr};
ghost use Rattle.std.specs.Result.{result_err};
ghost use Rattle.word_image.specs.LocalRules.{most_states};
ghost use Rattle.word_image.specs.Digits.{letter_at};
ghost use Rattle.word_image.specs.Grammars.{IsFormFault};
ghost use Rattle.tail_config.specs.Tails.{TailConfig};
ghost use Rattle.tail_config.specs.TailTexts.{IsShortTail, printed};
ghost use Rattle.tail_config.specs.TailFaults.{letter_fault, tail_fault, HasForm, IsTailText};
ghost use Rattle.tail_config.specs.TailValues.{TailOver, IsAcceptedTail};
ghost use Rattle.tail_config.specs.TailTextFaults.{IsTailTextFault, IsDigitsEnd, IsBarAfter, LacksBar, IsFormAt, IsCut, letters_of};

use crate::faults::{Part, TailFault, check_lengths};
use crate::tail::Tail;
use std::alloc::{AllocError, Global};
use word_image::{letter, text_word, word_text};

/// Why a text doesn't describe a Tail.
#[derive(Clone, Copy, Debug, PartialEq, Eq)]
pub enum TailTextFault {
    /// The text doesn't have the form `L|M|R`. The number is the length of the text's longest prefix that can be
    /// continued to a text of this form.
    Form(usize),
    /// The text has the form `L|M|R`, but its parts don't form a Tail.
    Tail(TailFault),
    /// There is not enough memory.
    Memory(AllocError),
}

/// The digits of the three parts of a text.
#[derive(Drop)]
pub(crate) struct SplitText<'a> {
    /// The digits of the left period.
    pub left: &'a [u8],
    /// The digits of the middle.
    pub middle: &'a [u8],
    /// The digits of the right period.
    pub right: &'a [u8],
}

/// Returns whether a text has the form `L|M|R`, where L, M and R consist of hexadecimal digits of either case. Each of
/// the three parts may be empty.
pub fn has_form(text: &[u8]) -> bool
    ensures { IsTrue result ↔ HasForm text.now }
{
    match split(text) {
        Ok(_) => true,
        Err(_) => false,
    }
}

/// Reads a Tail over the letters below k. The number k is from 2 to 16. If the text doesn't describe a Tail, returns
/// its first fault, in the order of `TailTextFault`. Returns `Memory` only if there is not enough memory.
pub fn parse(alloc: Global, k: u8, text: &[u8]) -> Result<Tail, TailTextFault>
    requires least { 2 ≤ k }
    requires most { k ≤ most_states }
    ensures tail { IfOk result (λ t. (t.states ≡ k) × IsTailText k text.now t.config) }
    ensures fault { IfErr result (λ f.
        (f ≡ TailTextFault.Memory alloc_error) ⊎ IsTailTextFault k text.now f) }
    ensures every_tail { (t : TailConfig) → IsTailText k text.now t
        → (result ≡ Ok (record { states = k; config = t }))
        ⊎ (result ≡ Err (TailTextFault.Memory alloc_error)) }
    ensures every_fault { (f : TailTextFault) → IsTailTextFault k text.now f → result ≡ Err f }
{
    let parts = accepted_parts(k, text)?;
    tail_of(alloc, k, &parts).map_err(TailTextFault::Memory)
}

/// Returns the text of a Tail, in lower case. The only error is lack of memory.
pub fn print(alloc: Global, tail: &Tail) -> Result<Vec<u8>, AllocError>
    ensures { IfOk result (λ text. text.items ≡ printed tail.now.config) }
{
    let mut text = word_text(alloc, tail.left())?;
    text.push(b'|')?;
    text.extend_from_slice(&word_text(alloc, tail.middle())?)?;
    text.push(b'|')?;
    text.extend_from_slice(&word_text(alloc, tail.right())?)?;
    Ok(text)
}

/// Law: the printed text of each Tail is a text of this Tail.
pub fn printed_text_is_read()
    ensures { (t : TailOver) → IsAcceptedTail t → IsTailText t.states (printed t.config) t.config }
{}

/// Returns the digits of the parts of a text that describes a Tail over the letters below k. If it doesn't, returns its
/// first fault.
pub(crate) fn accepted_parts(k: u8, text: &[u8]) -> Result<SplitText<'_>, TailTextFault>
    ensures parts { IfOk result (λ p. IsTailText k text.now (letters_of p.left.now p.middle.now p.right.now)) }
    ensures fault { IfErr result (IsTailTextFault k text.now) }
{
    let parts = split(text)?;
    match check_digits(k, &parts) {
        Ok(()) => Ok(parts),
        Err(fault) => Err(TailTextFault::Tail(fault)),
    }
}

/// Splits a text at its two bars into the digits of its three parts. Returns `Form` if the text doesn't have the form
/// `L|M|R`.
fn split(text: &[u8]) -> Result<SplitText<'_>, TailTextFault>
    ensures parts { IfOk result (λ p. IsCut text.now p.left.now p.middle.now p.right.now) }
    ensures fault { IfErr result (λ f. IsFormAt f (IsFormFault HasForm text.now)) }
{
    let first = bar_after(text, 0)?;
    let second = bar_after(text, first + 1)?;
    let end = digits_end(text, second + 1);
    if end < text.len() {
        return Err(TailTextFault::Form(end));
    }
    Ok(SplitText {
        left: &text[..first],
        middle: &text[first + 1..second],
        right: &text[second + 1..],
    })
}

/// Returns the place of the bar `|` after the digits that begin at `start`. Returns `Form` if no bar follows these
/// digits.
fn bar_after(text: &[u8], start: usize) -> Result<usize, TailTextFault>
    requires { start ≤ length text.now }
    ensures bar { IfOk result (IsBarAfter text.now start) }
    ensures fault { IfErr result (λ f. IsFormAt f (LacksBar text.now start)) }
{
    let end = digits_end(text, start);
    if text.get(end) == Some(&b'|') {
        Ok(end)
    } else {
        Err(TailTextFault::Form(end))
    }
}

/// Returns the end of the digits that begin at `start`: the place of the next byte that isn't a hexadecimal digit.
fn digits_end(text: &[u8], start: usize) -> usize
    requires { start ≤ length text.now }
    ensures { IsDigitsEnd text.now start result }
{
    for place in start..text.len() {
        if letter(text[place]).is_none() {
            return place;
        }
    }
    text.len()
}

/// Checks whether these digits are the parts of a Tail over the letters below k. If they aren't, returns the first
/// fault.
fn check_digits(k: u8, parts: &SplitText) -> Result<(), TailFault>
    ensures { let p = parts.now in
        result_err result ≡ tail_fault k (letters_of p.left.now p.middle.now p.right.now) }
{
    check_lengths(parts.left, parts.middle, parts.right)?;
    check_row(k, Part::Left, parts.left)?;
    check_row(k, Part::Middle, parts.middle)?;
    check_row(k, Part::Right, parts.right)
}

/// Checks that all letters of a row of digits are below k. Otherwise returns `Letter` for the first letter that
/// isn't.
fn check_row(k: u8, part: Part, digits: &[u8]) -> Result<(), TailFault>
    ensures { result_err result ≡ letter_fault k part (map letter_at digits.now) }
{
    match first_foreign(k, digits) {
        Some(place) => Err(TailFault::Letter(part, place)),
        None => Ok(()),
    }
}

/// Returns the place of the first digit whose letter isn't below k, or None if there is no such digit.
fn first_foreign(k: u8, digits: &[u8]) -> Option<usize>
    ensures { result ≡ position (λ b. nat_le k (letter_at b)) digits.now }
{
    digits
        .iter()
        .position(|byte| letter(*byte).unwrap_or(0) >= k)
}

/// Makes the Tail whose parts these digits write. The only error is lack of memory.
fn tail_of(alloc: Global, k: u8, parts: &SplitText) -> Result<Tail, AllocError>
    requires least { 2 ≤ k }
    requires most { k ≤ most_states }
    requires parts { let p = parts.now in
        IsShortTail k (letters_of p.left.now p.middle.now p.right.now) }
    ensures { let p = parts.now in IfOk result (λ t.
        t ≡ record { states = k; config = letters_of p.left.now p.middle.now p.right.now }) }
{
    let left = text_word(alloc, parts.left)?;
    let middle = text_word(alloc, parts.middle)?;
    let right = text_word(alloc, parts.right)?;
    match Tail::new(k, left, middle, right) {
        Ok(tail) => Ok(tail),
        Err(_) => unreachable!(),
    }
}
