//! Finds the least ring that doesn't keep its sum. A ring is a word that is read in a circle. It keeps its sum if the
//! letters of its image have the same sum of weights as its own letters.
ghost use Rattle.std.specs.Prelude.{◌≡◌, ℕ, ◌+◌, ◌-◌, ◌*◌, ◌^◌, ◌<◌, ◌≤◌, length, slice_index, IfSome, IfNone};
ghost use Rattle.word_image.specs.LocalRules.{IsRule, IsWord, value};
ghost use Rattle.word_image.specs.Rings.{IsConserving, IsLeastLossyRing};
ghost use Rattle.flux_conserve.specs.LeastRings.{IsFirstLossyRing, KeepSumAt};

use std::marker::Model;
use word_image::{Rule, Weights, keeps_sum};

/// The greatest possible length of the least ring that doesn't keep its sum: 2m - 1 letters at width 5.
pub const LONGEST_RING: usize = 9;

/// A ring of 1 to 9 letters. Contracts treat it as the list of its letters.
#[derive(Debug, Drop)]
pub struct SmallRing {
    // The number of letters of the ring.
    count: u8,
    // The letters of the ring, followed by any numbers.
    letters: [u8; LONGEST_RING],
}

impl Model for SmallRing {
    ghost use Rattle.std.specs.Prelude.{ℕ, ◌≤◌, List, take};

    ghost Value = { List ℕ };

    ghost view = { λ r. take r.count r.letters };

    ghost invariant = { λ r. (1 ≤ r.count) × (r.count ≤ 9) };
}

impl SmallRing {
    /// Returns the letters of the ring from left to right, at most 9.
    pub fn letters(&self) -> &[u8]
        ensures letters { result.now ≡ self.now }
        ensures some { 1 ≤ length result.now }
        ensures short { length result.now ≤ 9 }
    {
        &self.letters[..usize::from(self.count)]
    }
}

/// Returns the least ring, in the order of words, that doesn't keep its sum. There must be such a ring: the rule isn't
/// conserving. The least ring has at most 2m - 1 letters.
pub(crate) fn first_lossy_ring(rule: &Rule, weights: &Weights) -> SmallRing
    requires letters { length weights.now ≡ rule.now.states }
    requires lossy { ¬ IsConserving (slice_index weights.now) rule.now }
    ensures least { IsLeastLossyRing (slice_index weights.now) rule.now result }
    ensures short { length result ≤ 2 * rule.now.width - 1 }
{
    for count in 1..2 * rule.m() {
        if let Some(ring) = first_lossy_of(rule, weights, count) {
            return ring;
        }
    }
    unreachable!()
}

/// Returns the least ring of `count` letters that doesn't keep its sum, or None if all these rings keep their sums.
pub(crate) fn first_lossy_of(rule: &Rule, weights: &Weights, count: u8) -> Option<SmallRing>
    requires letters { length weights.now ≡ rule.now.states }
    requires some { 1 ≤ count }
    requires short { count ≤ 9 }
    ensures first { IfSome result (IsFirstLossyRing (slice_index weights.now) rule.now count) }
    ensures none { IfNone result (KeepSumAt (slice_index weights.now) rule.now count) }
    ensures rule { IsRule rule.now }
{
    let k = rule.k();
    let long = usize::from(count);
    let mut letters = [0; LONGEST_RING];
    for _ in 0..u64::from(k).pow(u32::from(count)) {
        if !keeps_sum(rule, weights, &letters[..long]) {
            return Some(SmallRing { count, letters });
        }
        advance(k, &mut letters[..long]);
    }
    None
}

/// Replaces the word by the next word of the same length in dictionary order, or the last word by the first.
fn advance(k: u8, word: &mut [u8])
    requires { IsWord k word.old }
    ensures word { IsWord k word.new }
    ensures next { value k word.old + 1 < k ^ length word.old → value k word.new ≡ value k word.old + 1 }
{
    let mut place = word.len();
    while place > 0 {
        place -= 1;
        if word[place] + 1 < k {
            word[place] += 1;
            return;
        }
        word[place] = 0;
    }
}
