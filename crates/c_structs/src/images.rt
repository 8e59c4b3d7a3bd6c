//! Writes letters of the image of a configuration, for a call from C.
ghost use Rattle.std.specs.Prelude.{◌≡◌, ◌^◌, ◌+◌, ◌-◌, ◌≤◌, ◌<◌, ◌↔◌, IsTrue, List, [], ℕ, length, unsigned_abs, pos, neg_ℤ, ◌+ℤ◌, ◌<ℤ◌};
ghost use Rattle.word_image.specs.LocalRules.{LocalRule, IsRule, IsWord};
ghost use Rattle.word_image.specs.Rings.{ring_image};
ghost use Rattle.word_image.specs.Words.{image};
ghost use Rattle.tail_config.specs.Configs.{run};
ghost use Rattle.tail_config.specs.Tails.{IsTail, cell, cells, image_cell};
ghost use Rattle.tail_config.specs.TailValues.{config_of};
ghost use Rattle.c_structs.specs.Images.{AreWithinReach, HavePeriods, IsImageCall};

use std::marker::Model;
use word_image::{MOST_WIDTH, Rule};

/// The number of the fault that a period of the configuration has no letter.
const NO_PERIOD: u8 = 19;

/// The number of the fault that a letter of the configuration isn't below the number of states of the rule.
const NO_LETTER: u8 = 20;

/// The number of the fault that the first place is more than 2^61 away from place 0, or that the call asks for more
/// than 2^61 letters.
const FAR: u8 = 21;

/// The greatest distance of the first place from place 0, and the greatest number of letters.
const REACH: u64 = 1 << 61;

/// The three parts of a configuration, each of any length.
#[derive(Debug, Drop)]
pub struct TailParts<'a> {
    /// The left period. Its last letter is at place -1.
    pub left: &'a [u8],
    /// The middle. Its first letter is at place 0.
    pub middle: &'a [u8],
    /// The right period. Its first letter is at the place after the middle.
    pub right: &'a [u8],
}

impl<'a> Model for TailParts<'a> {
    ghost use Rattle.tail_config.specs.Tails.{TailConfig};
    ghost use Rattle.tail_config.specs.TailValues.{config_of};

    ghost Value = { TailConfig };

    ghost view = { λ p. config_of p.left.now p.middle.now p.right.now };
}

impl<'a> TailParts<'a> {
    /// Returns whether each of the two periods has a letter.
    fn have_periods(&self) -> bool
        ensures { IsTrue result ↔ HavePeriods self.now }
    {
        !self.left.is_empty() && !self.right.is_empty()
    }

    /// Returns whether each letter of the configuration is below k.
    fn are_over(&self, k: u8) -> bool
        requires { HavePeriods self.now }
        ensures { IsTrue result ↔ IsTail k self.now }
    {
        are_letters(k, self.left) && are_letters(k, self.middle) && are_letters(k, self.right)
    }

    /// Returns the letter of the configuration at place `i`.
    fn cell(&self, i: i64) -> u8
        requires periods { HavePeriods self.now }
        ensures { result ≡ cell self.now i }
    {
        if i < 0 {
            let back = (-1 - i) as usize % self.left.len();
            return self.left[self.left.len() - 1 - back];
        }
        let place = i as usize;
        match self.middle.get(place) {
            Some(letter) => *letter,
            None => self.right[(place - self.middle.len()) % self.right.len()],
        }
    }

    /// Fills `row` with letters of the configuration, starting with the letter at place `start`.
    fn write_cells(&self, start: i64, row: &mut [u8])
        requires periods { HavePeriods self.now }
        requires places { (start +ℤ pos (length row.old)) <ℤ pos (2 ^ 63) }
        ensures { row.new ≡ cells self.now start (length row.old) }
    {
        for (j, letter) in row.iter_mut().enumerate() {
            *letter = self.cell(start + j as i64);
        }
    }

    /// Returns the letter of the image of the configuration at place `i`.
    fn image_cell(&self, rule: &Rule, i: i64) -> u8
        requires config { IsTail rule.now.states self.now }
        requires place { unsigned_abs i ≤ 2 ^ 62 }
        ensures { result ≡ image_cell rule.now self.now i }
    {
        let mut window = [0; MOST_WIDTH];
        let window = &mut window[..usize::from(rule.m())];
        self.write_cells(i + i64::from(rule.o()), window);
        rule.apply(window)
    }

    /// Fills `letters` with letters of the image of the configuration, starting with the letter at place `first`.
    fn write_letters(&self, rule: &Rule, first: i64, letters: &mut [u8])
        requires config { IsTail rule.now.states self.now }
        requires place { unsigned_abs first ≤ 2 ^ 61 }
        requires count { length letters.old ≤ 2 ^ 61 }
        ensures { letters.new ≡ run (image_cell rule.now self.now) first (length letters.old) }
    {
        for (j, letter) in letters.iter_mut().enumerate() {
            *letter = self.image_cell(rule, first + j as i64);
        }
    }
}

/// Returns whether all letters of a word are below k.
fn are_letters(k: u8, word: &[u8]) -> bool
    ensures { IsTrue result ↔ IsWord k word.now }
{
    word.iter().all(|letter| *letter < k)
}

/// Returns whether the first place is at most 2^61 away from place 0, and the number of letters is at most 2^61.
fn are_within_reach(first: i64, count: usize) -> bool
    ensures { IsTrue result ↔ AreWithinReach first count }
{
    first.unsigned_abs() <= REACH && count as u64 <= REACH
}

/// Fills `letters` with letters of the image of a configuration, starting with the letter at place `first`, and returns
/// 0. If a part of the configuration or a place has a fault, returns the number of the first fault and leaves the
/// letters as they were. Needs no memory.
pub fn write_image(rule: &Rule, parts: &TailParts, first: i64, letters: &mut [u8]) -> u8
    ensures { IsImageCall rule.now parts.now first letters.old result letters.new }
{
    let k = rule.k();
    if !parts.have_periods() {
        return NO_PERIOD;
    }
    if !parts.are_over(k) {
        return NO_LETTER;
    }
    if !are_within_reach(first, letters.len()) {
        return FAR;
    }
    parts.write_letters(rule, first, letters);
    0
}

/// Law: the image of a ring is a part of the image of the configuration that repeats the ring in both directions. This
/// part begins at place 0 and has as many letters as the ring.
pub fn image_of_ring()
    ensures { (r : LocalRule) (p : List ℕ)
        → run (image_cell r (config_of p [] p)) (pos 0) (length p) ≡ ring_image r p }
{}

/// Law: the image of a word is a part of the image of each configuration whose middle is the word. It has the letters
/// at those places whose windows lie in the middle.
pub fn image_of_word()
    ensures { (r : LocalRule) (left w right : List ℕ) → IsRule r → r.width ≤ length w + 1
        → run (image_cell r (config_of left w right)) (neg_ℤ r.offset) (length w - (r.width - 1)) ≡ image r w }
{}
