//! Finds all sums that a rule keeps.
//!
//! A row gives a weight to each word of `range` letters. The sum on a ring adds up the weights of the words that begin
//! at its places. A rule keeps the sum if it is the same on each ring and on the ring's image. The search begins with a
//! row for each word. Whenever a ring doesn't keep the sums of all rows, the rows are changed, and one of them is
//! replaced by the ring.
ghost use Rattle.std.specs.Prelude.{◌≡◌, ◌≢◌, ℕ, ◌+◌, ◌-◌, ◌*◌, ◌^◌, ◌<◌, ◌≤◌, length, take, set, true, pos, ◌<ℤ◌};
ghost use Rattle.word_image.specs.Rings.{IsRing};
ghost use Rattle.kept_sums.specs.Rows.{IsUnit};
ghost use Rattle.kept_sums.specs.Sums.{IsKept};
ghost use Rattle.kept_sums.specs.Spans.{entry, gain_at, AreSmall, AreShort, IsNarrowed, FitNarrowed};
ghost use Rattle.kept_sums.specs.Stages.{IsStage, IsAfterRing, IsAfterRings, AreKeptSums};

use crate::fluxes::is_kept;
use crate::rings::{LONGEST, word_with, words};
use crate::rows::{MOST_WORDS, Row, gain};
use crate::steps::{Rows, last_gain, narrow};
use word_image::Rule;

/// The sums that a rule keeps. Each word that doesn't begin with the letter 0 has either a row of weights or a ring.
#[repr(C)]
#[derive(Clone, Copy, Debug)]
pub struct KeptSums {
    /// The rows. A row is at the place of the first word to which it gives a weight other than 0. All other places have
    /// rows of zeros.
    pub rows: Rows,
    /// For each word the length of its ring, or 0 if the word has no ring. The ring shows that the word has no row.
    pub counts: [u8; MOST_WORDS],
    /// For each word the letters of its ring. The numbers after them don't matter.
    pub rings: [[u8; LONGEST]; MOST_WORDS],
}

/// Returns the state of the search before any ring is tested. Each word that doesn't begin with the letter 0 has a row,
/// which gives the weight 1 to this word and 0 to all others.
fn start(rule: &Rule, range: u8) -> KeptSums
    requires some { 1 ≤ range }
    requires few { rule.now.states ^ range ≤ 16 }
    ensures stage { IsStage rule.now range result.rows result.counts result.rings }
{
    let k = rule.k();
    let first = k.pow(u32::from(range) - 1);
    let size = k.pow(u32::from(range));
    let mut rows = [[0; MOST_WORDS]; MOST_WORDS];
    for place in first..size {
        rows[usize::from(place)] = unit(place);
    }
    KeptSums {
        rows,
        counts: [0; MOST_WORDS],
        rings: [[0; LONGEST]; MOST_WORDS],
    }
}

/// Returns the row with the weight 1 at this place and 0 at all others.
fn unit(place: u8) -> Row
    requires { place < 16 }
    ensures { IsUnit place result }
{
    let mut row = [0; MOST_WORDS];
    row[usize::from(place)] = 1;
    row
}

/// Changes the rows so that the rule keeps their sums on this ring. If it didn't keep all of them before, one row
/// becomes 0 and the ring is stored in its place. Most rings change nothing. So the function changes `sums` in place: a
/// copy would cost more than the ring.
fn narrow_by_ring(rule: &Rule, range: u8, sums: &mut KeptSums, letters: &[u8; LONGEST], count: u8)
    requires few { rule.now.states ^ range ≤ 16 }
    requires stage { IsStage rule.now range sums.old.rows sums.old.counts sums.old.rings }
    requires ring { IsRing rule.now.states (take count letters.now) }
    requires some { 1 ≤ count }
    requires letter { 1 ≤ range }
    requires most { count ≤ 15 }
    requires short { count + 3 ≤ 2 * (rule.now.width + range) }
    ensures { IsAfterRing rule.now range sums.old.rows (take count letters.now) sums.new.rows sums.new.counts sums.new.rings }
{
    let ring = &letters[..usize::from(count)];
    let (after, before) = words(rule, range, ring);
    let (after, before) = (&after[..ring.len()], &before[..ring.len()]);
    let Some(pivot) = last_gain(&sums.rows, after, before) else {
        return;
    };
    sums.counts[usize::from(pivot)] = count;
    sums.rings[usize::from(pivot)] = *letters;
    // The pivot needs a positive gain. If its gain is negative, the two lists of words change places.
    if gain(&sums.rows[usize::from(pivot)], after, before) > 0 {
        narrow(&mut sums.rows, pivot, after, before)
    } else {
        narrow(&mut sums.rows, pivot, before, after)
    }
}

/// Returns the state of the search after all rings of `count` letters have been tested. The rule keeps the sums of the
/// new rows on these rings.
fn narrowed_by_rings(rule: &Rule, range: u8, sums: KeptSums, count: u8) -> KeptSums
    requires few { rule.now.states ^ range ≤ 16 }
    requires stage { IsStage rule.now range sums.rows sums.counts sums.rings }
    requires some { 1 ≤ count }
    requires letter { 1 ≤ range }
    requires most { count ≤ 15 }
    requires short { count + 3 ≤ 2 * (rule.now.width + range) }
    ensures { IsAfterRings rule.now range sums.rows count result.rows result.counts result.rings }
{
    let k = rule.k();
    let mut sums = sums;
    for number in 0..u64::from(k).pow(u32::from(count)) {
        let letters = word_with(k, count, number);
        narrow_by_ring(rule, range, &mut sums, &letters, count);
    }
    sums
}

/// Returns whether the rule keeps the sum of each row i that has a number other than 0 at place i.
fn are_kept(rule: &Rule, range: u8, rows: &Rows) -> bool
    requires some { 1 ≤ range }
    requires few { rule.now.states ^ range ≤ 16 }
    requires small { AreSmall rows.now }
    ensures { result ≡ true → (i : ℕ) → i < 16 → entry rows.now i i ≢ pos 0 → IsKept range (entry rows.now i) rule.now }
{
    for place in 0..MOST_WORDS {
        if rows[place][place] != 0 && !is_kept(rule, range, &rows[place]) {
            return false;
        }
    }
    true
}

/// Returns all sums of integer weights of words of `range` letters that a rule keeps on every ring. There are at most
/// 16 words of this length.
#[tactic(auto, using(crate::proofs::laws::Ranges::short))]
pub fn kept_sums(rule: &Rule, range: u8) -> KeptSums
    requires some { 1 ≤ range }
    requires few { rule.now.states ^ range ≤ 16 }
    ensures { AreKeptSums rule.now range result.rows result.counts result.rings }
{
    let mut sums = start(rule, range);
    for count in 1..2 * (rule.m() + range) - 2 {
        if are_kept(rule, range, &sums.rows) {
            return sums;
        }
        sums = narrowed_by_rings(rule, range, sums, count);
    }
    sums
}
