//! Weights: one number for each letter.
ghost use Rattle.std.specs.Prelude.{◌≡◌, ◌<◌, ◌≤◌, ◌↔◌, length, slice_index, IfOk, IsOk, IsTrue};
ghost use Rattle.word_image.specs.LocalRules.{most_states};
ghost use Rattle.word_image.specs.Weights.{own_weights};

use crate::local_rule::MOST_STATES;
use std::marker::Model;

/// Why a list of numbers isn't accepted as weights.
#[derive(Clone, Copy, Debug, PartialEq, Eq)]
pub enum WeightFault {
    /// The list doesn't have one number for each letter.
    Length,
}

/// A weight from 0 to 255 for each of the k letters. There are from 2 to 16 letters. Contracts treat a value of this
/// type as the list of the weights.
#[derive(Clone, Copy, Debug, PartialEq, Eq)]
pub struct Weights {
    // The number of letters that have a weight.
    k: u8,
    // The weight of each letter, followed by zeros.
    numbers: [u8; MOST_STATES],
}

impl Model for Weights {
    ghost use Rattle.std.specs.Prelude.{◌≡◌, ◌≤◌, ◌-◌, ℕ, List, length, take, drop, replicate};
    ghost use Rattle.word_image.specs.LocalRules.{most_states};
    ghost use Rattle.word_image.specs.Storage.{in_row, in_row-take};

    ghost Value = { List ℕ };

    ghost view = { λ w. take w.k w.numbers };

    ghost invariant = { λ w. (2 ≤ w.k) × (w.k ≤ most_states) × (length (take w.k w.numbers) ≡ w.k) × (drop w.k w.numbers ≡ replicate (most_states - w.k) 0) };

    ghost inverse = { λ v. record { k = length v; numbers = in_row most_states v } };

    ghost inverse_ok = { λ w h i. record {
      k = h.2 i;
      numbers = in_row-take most_states w.k w.numbers h.2 h.3 i;
    } };
}

impl Weights {
    /// Makes the weights that this list gives to the k letters. Returns `Length` if the list doesn't have exactly k
    /// numbers. There are from 2 to 16 letters.
    pub fn new(k: u8, list: &[u8]) -> Result<Weights, WeightFault>
        requires least { 2 ≤ k }
        requires most { k ≤ most_states }
        ensures weights { IfOk result (λ w. w ≡ list.now) }
        ensures accepted { IsOk result ↔ (length list.now ≡ k) }
    {
        if list.len() != usize::from(k) {
            return Err(WeightFault::Length);
        }
        let mut numbers = [0; MOST_STATES];
        numbers[..list.len()].copy_from_slice(list);
        Ok(Weights { k, numbers })
    }

    /// Returns the weights under which each of the k letters weighs its own value.
    pub fn own(k: u8) -> Weights
        requires least { 2 ≤ k }
        requires most { k ≤ most_states }
        ensures weights { result ≡ own_weights k }
        ensures letters { length result ≡ k }
    {
        let mut numbers = [0; MOST_STATES];
        for letter in 0..k {
            numbers[usize::from(letter)] = letter;
        }
        Weights { k, numbers }
    }

    /// Returns the number of letters, from 2 to 16.
    pub fn k(&self) -> u8
        ensures states { result ≡ length self.now }
        ensures least { 2 ≤ result }
        ensures most { result ≤ most_states }
    {
        self.k
    }

    /// Returns the weight of a letter below k.
    pub fn at(&self, letter: u8) -> u8
        requires { letter < length self.now }
        ensures { result ≡ slice_index self.now letter }
    {
        self.numbers[usize::from(letter)]
    }

    /// Returns whether each letter weighs its own value.
    pub fn is_own(&self) -> bool
        ensures { IsTrue result ↔ (self.now ≡ own_weights (length self.now)) }
    {
        for letter in 0..self.k() {
            if self.at(letter) != letter {
                return false;
            }
        }
        true
    }

    /// Returns the weights, beginning with the weight of letter 0.
    pub fn as_slice(&self) -> &[u8]
        ensures weights { result.now ≡ self.now }
        ensures most { length result.now ≤ most_states }
    {
        &self.numbers[..usize::from(self.k)]
    }
}
