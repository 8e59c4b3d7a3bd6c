//! The type `TailRoom`, the parts of a configuration with periodic tails in memory that is allocated once.

ghost use Rattle.std.specs.Prelude.{◌≡◌, ◌+◌, ◌≤◌, ◌++◌, length, map, vec_len, vec_capacity, MatchResult};
ghost use Rattle.word_image.specs.LocalRules.{most_states};
ghost use Rattle.word_image.specs.Digits.{letter_at};
ghost use Rattle.tail_config.specs.Tails.{mirror_of};
ghost use Rattle.tail_config.specs.TailTexts.{IsShortTail};
ghost use Rattle.tail_config.specs.TailFaults.{IsTailText};
ghost use Rattle.tail_config.specs.TailTextFaults.{IsTailTextFault, letters_of};
ghost use Rattle.tail_config.specs.TailValues.{config_of};

use crate::faults::MOST_LETTERS;
use crate::lent_tail::LentTail;
use crate::texts::{SplitText, TailTextFault, accepted_parts};
use std::alloc::{AllocError, Global};
use std::marker::Model;
use word_image::letter;

/// The number of letters of three parts.
const ROOM: usize = 3 * MOST_LETTERS;

/// Memory, allocated once, for the parts of one configuration after another. In contracts a `TailRoom` is the
/// configuration that it has now.
#[derive(Debug, Drop)]
pub struct TailRoom {
    // The letters of the left period, the middle and the right period, with capacity for three parts of 1,024 letters.
    letters: Vec<u8>,
    // The number of letters of the left period.
    left: usize,
    // The number of letters of the middle.
    middle: usize,
}

impl Model for TailRoom {
    ghost use Rattle.std.specs.Prelude.{◌+◌, ◌≤◌, length, vec_capacity};
    ghost use Rattle.tail_config.specs.Tails.{TailConfig};
    ghost use Rattle.tail_config.specs.TailValues.{config_in};
    ghost use Rattle.tail_config.specs.declared.tail_room.TheConstants.{ROOM};

    ghost Value = { TailConfig };

    ghost view = { λ r. config_in r.letters.items r.left r.middle };

    ghost invariant = { λ r. (ROOM ≤ vec_capacity r.letters) × (r.left + r.middle ≤ length r.letters.items) };
}

impl TailRoom {
    /// Allocates memory for three parts of 1,024 letters each. The only error is lack of memory.
    pub fn new(alloc: Global) -> Result<TailRoom, AllocError> {
        Ok(TailRoom {
            letters: Vec::with_capacity(alloc, ROOM)?,
            left: 0,
            middle: 0,
        })
    }

    /// Takes these letters as the left period, the middle and the right period. Each part has at most 1,024 letters.
    pub fn set(&mut self, left: &[u8], middle: &[u8], right: &[u8])
        requires left { length left.now ≤ MOST_LETTERS }
        requires middle { length middle.now ≤ MOST_LETTERS }
        requires right { length right.now ≤ MOST_LETTERS }
        ensures { self.new ≡ config_of left.now middle.now right.now }
    {
        self.letters.clear();
        append(&mut self.letters, left);
        append(&mut self.letters, middle);
        append(&mut self.letters, right);
        self.left = left.len();
        self.middle = middle.len();
    }

    /// Reverses the configuration, as `Tail::mirror` does.
    pub fn mirror(&mut self)
        ensures { self.new ≡ mirror_of self.old }
    {
        self.letters.reverse();
        self.left = self.letters.len() - self.left - self.middle;
    }

    /// Lends the configuration. Its letters must be below k, and both periods must have at least one letter. The number
    /// k is from 2 to 16.
    pub fn tail(&self, k: u8) -> LentTail<'_>
        requires least { 2 ≤ k }
        requires most { k ≤ most_states }
        requires short { IsShortTail k self.now }
        ensures { result ≡ record { states = k; config = self.now } }
    {
        let (left, rest) = self.letters.split_at(self.left);
        let (middle, right) = rest.split_at(self.middle);
        LentTail::of(k, left, middle, right)
    }

    /// Reads a configuration over the letters below k, and lends it. The number k is from 2 to 16. If the text doesn't
    /// describe a configuration, returns its first fault, in the order of `TailTextFault`.
    pub fn parse(&mut self, k: u8, text: &[u8]) -> Result<LentTail<'_>, TailTextFault>
        requires least { 2 ≤ k }
        requires most { k ≤ most_states }
        ensures { MatchResult result (λ t. (t.states ≡ k) × IsTailText k text.now t.config) (IsTailTextFault k text.now) }
    {
        let parts = accepted_parts(k, text)?;
        self.set_digits(&parts);
        Ok(self.tail(k))
    }

    /// Takes the letters of these digits as the parts. Each part has at most 1,024 letters.
    fn set_digits(&mut self, parts: &SplitText)
        requires left { length parts.now.left.now ≤ MOST_LETTERS }
        requires middle { length parts.now.middle.now ≤ MOST_LETTERS }
        requires right { length parts.now.right.now ≤ MOST_LETTERS }
        ensures { let p = parts.now in self.new ≡ letters_of p.left.now p.middle.now p.right.now }
    {
        self.letters.clear();
        append_digits(&mut self.letters, parts.left);
        append_digits(&mut self.letters, parts.middle);
        append_digits(&mut self.letters, parts.right);
        self.left = parts.left.len();
        self.middle = parts.middle.len();
    }
}

/// Appends these letters to a list that has capacity for them.
fn append(list: &mut Vec<u8>, letters: &[u8])
    requires { vec_len list.old + length letters.now ≤ vec_capacity list.old }
    ensures letters { list.new.items ≡ list.old.items ++ letters.now }
    ensures capacity { vec_capacity list.old ≤ vec_capacity list.new }
{
    match list.extend_from_slice(letters) {
        Ok(()) => (),
        Err(_) => unreachable!(),
    }
}

/// Appends the letters of these hexadecimal digits to a list that has capacity for them.
fn append_digits(list: &mut Vec<u8>, digits: &[u8])
    requires { vec_len list.old + length digits.now ≤ vec_capacity list.old }
    ensures letters { list.new.items ≡ list.old.items ++ map letter_at digits.now }
    ensures capacity { vec_capacity list.old ≤ vec_capacity list.new }
{
    for byte in digits {
        list.push_reserved(letter(*byte).unwrap_or(0));
    }
}
