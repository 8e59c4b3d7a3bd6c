//! The type `LentTail`, a configuration with periodic tails whose parts stand in another place.

ghost use Rattle.std.specs.Prelude.{◌≡◌, ◌≤◌, IfOk};
ghost use Rattle.word_image.specs.LocalRules.{most_states};
ghost use Rattle.tail_config.specs.TailTexts.{IsShortTail};
ghost use Rattle.tail_config.specs.TailValues.{IsAcceptedTail, config_of};

use crate::tail::Tail;
use std::alloc::{AllocError, Global};
use std::marker::Model;

/// A configuration over the letters below k: a left period, a middle and a right period, which stand in another place,
/// for example in a `TailRoom`. Each part has at most 1,024 letters. Contracts treat it as they treat a `Tail`.
#[derive(Debug, Drop)]
pub struct LentTail<'r> {
    // The number of letters, from 2 to 16.
    k: u8,
    // The left period, which has at least one letter.
    left: &'r [u8],
    // The middle, whose first letter is at place 0.
    middle: &'r [u8],
    // The right period, which has at least one letter.
    right: &'r [u8],
}

impl<'r> Model for LentTail<'r> {
    ghost use Rattle.tail_config.specs.TailValues.{TailOver, IsAcceptedTail, config_of};

    ghost Value = { TailOver };

    ghost view = { λ t.
        record { states = t.k; config = config_of t.left.now t.middle.now t.right.now } };

    ghost invariant = { λ t.
        IsAcceptedTail (record { states = t.k; config = config_of t.left.now t.middle.now t.right.now }) };
}

impl<'r> LentTail<'r> {
    /// Makes the configuration with these parts over the letters below k. The number k is from 2 to 16. Each part has
    /// at most 1,024 letters, and both periods have at least one.
    pub fn of(k: u8, left: &'r [u8], middle: &'r [u8], right: &'r [u8]) -> LentTail<'r>
        requires least { 2 ≤ k }
        requires most { k ≤ most_states }
        requires short { IsShortTail k (config_of left.now middle.now right.now) }
        ensures { result ≡ record { states = k; config = config_of left.now middle.now right.now } }
    {
        LentTail {
            k,
            left,
            middle,
            right,
        }
    }

    /// Returns the number of letters k, from 2 to 16.
    pub fn k(&self) -> u8
        ensures states { result ≡ self.now.states }
        ensures tail { IsAcceptedTail self.now }
    {
        self.k
    }

    /// Returns the left period, which has at least one letter.
    pub fn left(&self) -> &[u8]
        ensures left { result.now ≡ self.now.config.left }
        ensures tail { IsAcceptedTail self.now }
    {
        self.left
    }

    /// Returns the middle, which begins at place 0.
    pub fn middle(&self) -> &[u8]
        ensures middle { result.now ≡ self.now.config.middle }
        ensures tail { IsAcceptedTail self.now }
    {
        self.middle
    }

    /// Returns the right period, which has at least one letter.
    pub fn right(&self) -> &[u8]
        ensures right { result.now ≡ self.now.config.right }
        ensures tail { IsAcceptedTail self.now }
    {
        self.right
    }

    /// Copies the configuration into memory of its own. The only error is lack of memory.
    pub fn to_tail(&self, alloc: Global) -> Result<Tail, AllocError>
        ensures { IfOk result (λ tail. tail ≡ self.now) }
    {
        let left = self.left.to_vec(alloc)?;
        let middle = self.middle.to_vec(alloc)?;
        let right = self.right.to_vec(alloc)?;
        match Tail::new(self.k, left, middle, right) {
            Ok(tail) => Ok(tail),
            Err(_) => unreachable!(),
        }
    }
}
