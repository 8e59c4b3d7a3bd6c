//! A Tail, its cells, the cells of its image, and its mirror image.
//!
//! A Tail is a configuration with a left period, a middle that begins at place 0, and a right period. Copies of the
//! left period fill the places before the middle, and copies of the right period fill the places after it.
ghost use Rattle.std.specs.Prelude.{◌≡◌, ◌^◌, ◌<◌, ◌≤◌, ◌↔◌, IfOk, IfErr, IsOk, length, unsigned_abs, ℤ, pos, ◌+ℤ◌, ◌-ℤ◌, ◌<ℤ◌};
ghost use Rattle.std.specs.Option.{option_map};
ghost use Rattle.std.specs.Result.{result_err};
ghost use Rattle.word_image.specs.LocalRules.{LocalRule, IsRule, mirrored, most_states};
ghost use Rattle.tail_config.specs.Tails.{TailConfig, IsTail, cell, cells, image_cell, mirror_of};
ghost use Rattle.tail_config.specs.TailTexts.{IsShortTail};
ghost use Rattle.tail_config.specs.TailValues.{IsAcceptedTail, config_of};
ghost use Rattle.tail_config.specs.TailFaults.{tail_fault};

use crate::faults::{TailRefusal, check_parts};
use crate::lent_tail::LentTail;
use std::marker::Model;
use word_image::{MOST_WIDTH, Rule};

/// A configuration over the letters below k: a left period, a middle and a right period. Each of the three parts has at
/// most 1,024 letters.
#[derive(Debug, Drop)]
pub struct Tail {
    // The number of letters, from 2 to 16.
    k: u8,
    // The left period, which has at least one letter. Its last letter is at place -1.
    left: Vec<u8>,
    // The middle. Its first letter is at place 0.
    middle: Vec<u8>,
    // The right period, which has at least one letter. Its first letter is at the place where the middle ends.
    right: Vec<u8>,
}

impl Model for Tail {
    ghost use Rattle.tail_config.specs.TailValues.{TailOver, IsAcceptedTail, config_of};

    ghost Value = { TailOver };

    ghost view = { λ t.
        record { states = t.k; config = config_of t.left.items t.middle.items t.right.items } };

    ghost invariant = { λ t.
        IsAcceptedTail (record { states = t.k; config = config_of t.left.items t.middle.items t.right.items }) };
}

impl Tail {
    /// Makes the Tail with these parts over the letters below k. The number k is from 2 to 16. If the parts don't form
    /// a Tail, returns the first fault, in the order of `TailFault`, together with the parts.
    pub fn new(k: u8, left: Vec<u8>, middle: Vec<u8>, right: Vec<u8>) -> Result<Tail, TailRefusal>
        requires least { 2 ≤ k }
        requires most { k ≤ most_states }
        ensures tail { IfOk result (λ t.
            t ≡ record { states = k; config = config_of left.items middle.items right.items }) }
        ensures accepted { IsOk result
            ↔ IsShortTail k (config_of left.items middle.items right.items) }

        ensures fault { option_map (λ r. r.fault) (result_err result)
            ≡ tail_fault k (config_of left.items middle.items right.items) }
        ensures handed_back { IfErr result (λ r.
            (r.left ≡ left) × (r.middle ≡ middle) × (r.right ≡ right)) }
    {
        match check_parts(k, &left, &middle, &right) {
            Ok(()) => Ok(Tail {
                k,
                left,
                middle,
                right,
            }),
            Err(fault) => Err(TailRefusal {
                fault,
                left,
                middle,
                right,
            }),
        }
    }

    /// Returns the number of letters k, from 2 to 16.
    pub fn k(&self) -> u8
        ensures states { result ≡ self.now.states }
        ensures tail { IsAcceptedTail self.now }
    {
        self.k
    }

    /// Returns the left period, which has at least one letter.
    pub fn left(&self) -> &[u8]
        ensures left { result.now ≡ self.now.config.left }
        ensures tail { IsAcceptedTail self.now }
    {
        &self.left
    }

    /// Returns the middle, which begins at place 0.
    pub fn middle(&self) -> &[u8]
        ensures middle { result.now ≡ self.now.config.middle }
        ensures tail { IsAcceptedTail self.now }
    {
        &self.middle
    }

    /// Returns the right period, which has at least one letter.
    pub fn right(&self) -> &[u8]
        ensures right { result.now ≡ self.now.config.right }
        ensures tail { IsAcceptedTail self.now }
    {
        &self.right
    }

    /// Lends the configuration without a copy of its parts.
    pub fn lend(&self) -> LentTail<'_>
        ensures { result ≡ self.now }
    {
        LentTail::of(self.k, &self.left, &self.middle, &self.right)
    }

    /// Returns the letter at the place `i`.
    pub fn cell(&self, i: i64) -> u8
        ensures cell { result ≡ cell self.now.config i }
        ensures letter { result < self.now.states }
    {
        if i < 0 {
            let back = (-1 - i) as usize % self.left.len();
            return self.left[self.left.len() - 1 - back];
        }
        let place = i as usize;
        match self.middle.get(place) {
            Some(letter) => *letter,
            None => self.right[(place - self.middle.len()) % self.right.len()],
        }
    }

    /// Returns the letter at the place `i` of the Tail's image under a rule. The rule and the Tail must have the same
    /// number of letters, and the absolute value of `i` must be at most `2^61`.
    pub fn image_cell(&self, rule: &Rule, i: i64) -> u8
        requires place { unsigned_abs i ≤ 2 ^ 61 }
        requires one_k { rule.now.states ≡ self.now.states }
        ensures cell { result ≡ image_cell rule.now self.now.config i }
        ensures letter { result < self.now.states }
    {
        prove!(rule.k() == self.k);
        let mut window = [0; MOST_WIDTH];
        let window = &mut window[..usize::from(rule.m())];
        self.write_cells(i + i64::from(rule.o()), window);
        rule.apply(window)
    }

    /// Fills the row with the letters of the Tail, beginning with the letter at the place `start`.
    fn write_cells(&self, start: i64, row: &mut [u8])
        requires { (start +ℤ pos (length row.old)) <ℤ pos (2 ^ 63) }
        ensures { row.new ≡ cells self.now.config start (length row.old) }
    {
        for (j, letter) in row.iter_mut().enumerate() {
            *letter = self.cell(start + j as i64);
        }
    }

    /// Returns the reversed Tail. Its left period is the reversed right period, and its right period is the reversed
    /// left period. Its middle is the reversed middle, and begins at place 0, too.
    pub fn mirror(self) -> Tail
        ensures states { result.states ≡ self.states }
        ensures config { result.config ≡ mirror_of self.config }
    {
        let Tail {
            k,
            mut left,
            mut middle,
            mut right,
        } = self;
        left.reverse();
        middle.reverse();
        right.reverse();
        Tail {
            k,
            left: right,
            middle,
            right: left,
        }
    }
}

/// Law: suppose that the middle of a Tail has s + 1 letters. The image of the reversed Tail under the mirrored rule
/// has at place i the same letter as the image of the Tail under the rule at place s - i.
pub fn mirrored_image_cell()
    ensures { (r : LocalRule) (t : TailConfig) (i : ℤ) → IsRule r → IsTail r.states t
        → image_cell (mirrored r) (mirror_of t) i
        ≡ image_cell r t (pos (length t.middle) -ℤ pos 1 -ℤ i) }
{}
