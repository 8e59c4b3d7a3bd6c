//! Short rings: their images, and the words that begin at their places. A ring is a word that is read in a circle.
ghost use Rattle.std.specs.Prelude.{◌≡◌, ◌^◌, ◌<◌, ◌≤◌, length, take, pos};
ghost use Rattle.word_image.specs.LocalRules.{IsRule, value, word_of};
ghost use Rattle.word_image.specs.Rings.{IsRing, ring_letters, ring_image};
ghost use Rattle.kept_sums.specs.Sums.{blocks};
ghost use Rattle.kept_sums.specs.Stages.{IsCondition};

use word_image::{Rule, first_place, ring_apply};

/// The greatest length of a ring that the search tests: 2 (m + range) - 3 at width 5 and range 4.
pub const LONGEST: usize = 15;

/// Returns two lists: the values of the words of `range` letters that begin at the places of the ring's image, and the
/// values of the words that begin at the places of the ring itself. Both lists are followed by any numbers.
pub(crate) fn words(rule: &Rule, range: u8, ring: &[u8]) -> ([u8; LONGEST], [u8; LONGEST])
    requires ring { IsRing rule.now.states ring.now }
    requires short { length ring.now ≤ 15 }
    requires few { rule.now.states ^ range ≤ 16 }
    ensures rule { IsRule rule.now }
    ensures condition { IsCondition rule.now range ring.now (take (length ring.now) result.0) (take (length ring.now) result.1) }
{
    let image = image_letters(rule, ring);
    let before = blocks(rule.k(), range, ring);
    let after = blocks(rule.k(), range, &image[..ring.len()]);
    (after, before)
}

/// Returns the values of the words of `range` letters that begin at the places of a ring. The numbers after them are 0.
fn blocks(k: u8, range: u8, ring: &[u8]) -> [u8; LONGEST]
    requires ring { IsRing k ring.now }
    requires short { length ring.now ≤ 15 }
    requires some { 2 ≤ k }
    requires few { k ^ range ≤ 16 }
    ensures { take (length ring.now) result ≡ blocks k range ring.now }
{
    let mut values = [0; LONGEST];
    for place in 0..ring.len() {
        values[place] = block(k, range, ring, place);
    }
    values
}

/// Returns the value of the word of `range` letters that begins at this place of a ring.
fn block(k: u8, range: u8, ring: &[u8], place: usize) -> u8
    requires ring { IsRing k ring.now }
    requires short { length ring.now ≤ 15 }
    requires some { 2 ≤ k }
    requires few { k ^ range ≤ 16 }
    requires place { place < length ring.now }
    ensures { result ≡ value k (ring_letters ring.now (pos place) range) }
{
    let mut word = 0;
    for i in 0..range {
        word = word * k + ring[(place + usize::from(i)) % ring.len()];
    }
    word
}

/// Returns the letters of the image of a ring. The numbers after them are 0.
fn image_letters(rule: &Rule, ring: &[u8]) -> [u8; LONGEST]
    requires ring { IsRing rule.now.states ring.now }
    requires short { length ring.now ≤ 15 }
    ensures { take (length ring.now) result ≡ ring_image rule.now ring.now }
{
    let count = ring.len();
    let first = first_place(rule, count);
    let mut letters = [0; LONGEST];
    for place in 0..count {
        letters[place] = ring_apply(rule, ring, (first + place) % count);
    }
    letters
}

/// Returns the word of `count` letters with this value, followed by zeros.
pub(crate) fn word_with(k: u8, count: u8, value: u64) -> [u8; LONGEST]
    requires some { 1 ≤ k }
    requires few { k ≤ 16 }
    requires short { count ≤ 15 }
    requires value { value < k ^ count }
    ensures { take count result ≡ word_of k count value }
{
    let base = u64::from(k);
    let mut letters = [0; LONGEST];
    let mut power = base.pow(u32::from(count));
    let mut rest = value;
    for place in 0..usize::from(count) {
        power /= base;
        letters[place] = (rest / power) as u8;
        rest %= power;
    }
    letters
}
