//! Computes the image of a ring, and tests whether a ring and its image have the same sum of weights. A ring is a word
//! that is read in a circle.
ghost use Rattle.std.specs.Prelude.{◌≡◌, ◌^◌, ◌<◌, ◌↔◌, length, pos, slice_index, alloc_error, IfOk, IfSome, IfNone, IsOkUnless, IsTrue};
ghost use Rattle.std.specs.Int.{int_rem_euclid};
ghost use Rattle.word_image.specs.LocalRules.{IsRule, local_map};
ghost use Rattle.word_image.specs.Rings.{IsRing, KeepsSum, ring_letters, ring_image};
ghost use Rattle.word_image.specs.RingFaults.{ring_fault};

use crate::local_rule::{MOST_WIDTH, Rule, first_foreign};
use crate::weights::Weights;
use std::alloc::{AllocError, Global};

/// Why a ring has no image.
#[derive(Clone, Copy, Debug, PartialEq, Eq)]
pub enum RingFault {
    /// The letter at this place isn't below k. It is the first such letter.
    Letter(usize),
    /// The ring has no letter.
    Empty,
    /// There is not enough memory.
    Memory(AllocError),
}

/// Returns the image of a ring, which is a ring of the same length. At each place it has the letter that the rule gives
/// for the window of this place. The window may go around the ring. The ring must have at least one letter, and all its
/// letters must be below k.
///
/// Returns `Letter` if some letter isn't below k, and `Empty` if the ring has no letter. Returns `Memory` only if the
/// ring has an image.
pub fn ring_image(alloc: Global, rule: &Rule, ring: &[u8]) -> Result<Vec<u8>, RingFault>
    ensures image { IfOk result (λ v. v.items ≡ ring_image rule.now ring.now) }
    ensures refused { IfSome (ring_fault rule.now ring.now) (λ fault. result ≡ Err fault) }
    ensures accepted { IfNone (ring_fault rule.now ring.now) (IsOkUnless result (RingFault.Memory alloc_error)) }
{
    if let Some(place) = first_foreign(rule.k(), ring) {
        return Err(RingFault::Letter(place));
    }
    if ring.is_empty() {
        return Err(RingFault::Empty);
    }
    new_letters(alloc, rule, ring).map_err(RingFault::Memory)
}

/// Returns the image of a ring that has at least one letter, all below k. The only error is lack of memory.
fn new_letters(alloc: Global, rule: &Rule, ring: &[u8]) -> Result<Vec<u8>, AllocError>
    requires rule { IsRule rule.now }
    requires ring { IsRing rule.now.states ring.now }
    ensures { IfOk result (λ v. v.items ≡ ring_image rule.now ring.now) }
{
    let count = ring.len();
    let first = first_place(rule, count);
    let mut letters = Vec::with_capacity(alloc, count)?;
    for place in 0..count {
        letters.push(ring_apply(rule, ring, (first + place) % count))?;
    }
    Ok(letters)
}

/// Returns the place at which the window of place 0 begins on a ring with `count` letters: the offset modulo `count`.
pub fn first_place(rule: &Rule, count: usize) -> usize
    requires some { 0 < count }
    requires fits { count < 2 ^ 63 }
    ensures { pos result ≡ int_rem_euclid rule.now.offset (pos count) }
{
    i64::from(rule.o()).rem_euclid(count as i64) as usize
}

/// Returns the letter that the rule gives for the window that begins at place `first` of a ring. The window may go
/// around the ring.
pub fn ring_apply(rule: &Rule, ring: &[u8], first: usize) -> u8
    requires ring { IsRing rule.now.states ring.now }
    requires first { first < length ring.now }
    ensures value { result ≡ local_map rule.now (ring_letters ring.now (pos first) rule.now.width) }
    ensures letter { result < rule.now.states }
{
    let width = usize::from(rule.m());
    let mut window = [0; MOST_WIDTH];
    for i in 0..width {
        window[i] = ring[(first + i) % ring.len()];
    }
    rule.apply(&window[..width])
}

/// Returns whether the letters of a ring have the same sum of weights as the letters of its image.
pub fn keeps_sum(rule: &Rule, weights: &Weights, ring: &[u8]) -> bool
    requires letters { length weights.now ≡ rule.now.states }
    requires ring { IsRing rule.now.states ring.now }
    ensures { IsTrue result ↔ KeepsSum (slice_index weights.now) rule.now ring.now }
{
    let mut before = 0u128;
    let mut after = 0u128;
    for place in 0..ring.len() {
        before += u128::from(weights.at(ring[place]));
        after += u128::from(weights.at(ring_apply(rule, ring, place)));
    }
    before == after
}
