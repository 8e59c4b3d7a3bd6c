//! Computes from the ranks of pairs of nodes how many letters of the image are needed to tell two nodes apart.
//!
//! A node is a word of m - 1 letters. The window (n, c) is determined if words of n + m - 1 letters with the same image
//! have the same letter at place c. Their image has n letters. The forward rank of two nodes is the greatest n for
//! which two words with equal images of n letters begin with the nodes. The backward rank is this number for words that
//! end with them. If there is no greatest number, the nodes are endless.
ghost use Rattle.std.specs.Prelude.{◌≡◌, ℕ, ◌+◌, ◌-◌, ◌<◌, ◌≤◌, ◌↔◌, Option, IfSome};
ghost use Rattle.word_image.specs.LocalRules.{IsRule, node_count};
ghost use Rattle.word_image.specs.Graphs.{pair_of, pair_count};
ghost use Rattle.word_image.specs.Ranks.{EndTogether, IsRank};
ghost use Rattle.word_image.specs.Sides.{Together};
ghost use Rattle.word_image.specs.Windows.{IsDetermined};
ghost use Rattle.inverse_window.specs.Starts.{HoldsFrom, HasBegun, later};
ghost use Rattle.inverse_window.specs.FirstWindows.{PairDiffersAt, PairEnds, IsPast, IsPastOf, NoneHolds, AreStarts, most_start};

use pair_rank::Ranks;
use word_image::{Rule, Side};

/// The number of whole numbers from 0 to 120, which is one more than the greatest possible rank.
const ROWS: usize = 121;

/// Returns the least n for which the window (n, n + place) is determined, or None if there is none. The letter at place
/// n + `place` of a word of n + m - 1 letters is the letter at `place` of its last node. Windows (n, n + place) with
/// greater n are determined, too.
pub(crate) fn start_past(rule: &Rule, ranks: &Ranks, place: u8) -> Option<u16>
    requires of_rule { ranks.now ≡ rule.now }
    requires place { place < rule.now.width - 1 }
    ensures start { HoldsFrom result (λ n. IsDetermined rule.now n (n + place)) }
    ensures most { IfSome result (λ n. n ≤ most_start) }
{
    let mut start = Some(0);
    for u in 0..rule.nodes() {
        start = start_of(rule, ranks, u, place, start);
    }
    start
}

/// Returns the greater of `start` and the least n for one node u. For this n, no two words with equal images of n
/// letters end with u and with a node that has another letter at `place`. Returns None if there is no such n or if
/// `start` is None.
fn start_of(rule: &Rule, ranks: &Ranks, u: u8, place: u8, start: Option<u16>) -> Option<u16>
    requires of_rule { ranks.now ≡ rule.now }
    requires place { place < rule.now.width - 1 }
    requires node { u < node_count rule.now }
    requires start { HoldsFrom start (NoneHolds (pair_of rule.now u 0) (PairDiffersAt rule.now place) (PairEnds rule.now)) }
    requires most { IfSome start (λ n. n ≤ most_start) }
    ensures start { HoldsFrom result (NoneHolds (pair_of rule.now (u + 1) 0) (PairDiffersAt rule.now place) (PairEnds rule.now)) }
    ensures most { IfSome result (λ n. n ≤ most_start) }
{
    let letter = rule.node_letter(u, place);
    let mut start = start;
    for v in 0..rule.nodes() {
        if rule.node_letter(v, place) != letter {
            start = later(start, apart(ranks, Side::Left, u, v));
        }
    }
    start
}

/// Returns one more than the greatest finite backward rank, or 0 if no rank is finite. If two words with equal images
/// of this length end with two nodes, these nodes are endless backward.
pub(crate) fn past_ranks(ranks: &Ranks) -> u16
    ensures past { IsPast ranks.now (node_count ranks.now) result }
    ensures most { result ≤ most_start }
{
    let mut past = 0;
    for u in 0..ranks.rule().nodes() {
        past = past_ranks_of(ranks, u, past);
    }
    past
}

/// Returns the greater of `least` and one more than the greatest finite backward rank of `u` and another node. If no
/// rank is finite, returns `least`.
fn past_ranks_of(ranks: &Ranks, u: u8, least: u16) -> u16
    requires node { u < node_count ranks.now }
    requires least { least ≤ most_start }
    ensures past { IsPastOf ranks.now u (node_count ranks.now) result }
    ensures least { least ≤ result }
    ensures most { result ≤ most_start }
{
    let mut past = least;
    for v in 0..ranks.rule().nodes() {
        if let Some(rank) = ranks.backward(u, v) {
            if rank >= past {
                past = rank + 1;
            }
        }
    }
    past
}

/// Returns a number n for each backward rank b. Take the pairs of nodes that have the backward rank b and differ in
/// their first letter. Then n is the least length for which no two words with equal images of n letters begin with the
/// nodes of such a pair. None means that there is no such length. The number for endless pairs is at the place `past`,
/// which is greater than all finite ranks.
pub(crate) fn starts_by_rank(rule: &Rule, ranks: &Ranks, past: u16) -> [Option<u16>; ROWS]
    requires of_rule { ranks.now ≡ rule.now }
    requires past { IsPast rule.now (node_count rule.now) past }
    requires most { past ≤ most_start }
    ensures starts { AreStarts rule.now past (pair_count rule.now) result }
    ensures rule { IsRule rule.now }
{
    let mut starts = [Some(0); ROWS];
    for u in 0..rule.nodes() {
        add_starts(rule, ranks, u, past, &mut starts);
    }
    starts
}

/// Adds the pairs whose first node is `u` to the result of `starts_by_rank`. Before the call, `starts` has the result
/// for the pairs whose first node is less than `u`.
fn add_starts(rule: &Rule, ranks: &Ranks, u: u8, past: u16, starts: &mut [Option<u16>; ROWS])
    requires rule { IsRule rule.now }
    requires of_rule { ranks.now ≡ rule.now }
    requires past { IsPast rule.now (node_count rule.now) past }
    requires node { u < node_count rule.now }
    requires starts { AreStarts rule.now past (pair_of rule.now u 0) starts.old }
    ensures starts { AreStarts rule.now past (pair_of rule.now (u + 1) 0) starts.new }
{
    let letter = rule.node_letter(u, 0);
    for v in 0..rule.nodes() {
        if rule.node_letter(v, 0) != letter {
            let b = usize::from(ends_for(ranks, u, v, past));
            starts[b] = later(starts[b], apart(ranks, Side::Right, u, v));
        }
    }
}

/// Returns the greater of two numbers, or None if one of them is None. If one fact holds for every number from `a` on,
/// and another fact from `b` on, both hold from the result on. None stands for a fact that never holds.
pub(crate) fn later(a: Option<u16>, b: Option<u16>) -> Option<u16>
    ensures both { (n : ℕ) → HasBegun result n ↔ (HasBegun a n × HasBegun b n) }
    ensures later { result ≡ later a b }
{
    Some(a?.max(b?))
}

/// Returns the least n for which no two walks of n steps with equal labels lead from u and v. Walks go forward on the
/// right side and backward on the left. Returns None if there are such walks for every n. The result is one more than
/// the rank of the two nodes.
fn apart(ranks: &Ranks, side: Side, u: u8, v: u8) -> Option<u16>
    requires rule { IsRule ranks.now }
    requires first { u < node_count ranks.now }
    requires second { v < node_count ranks.now }
    ensures start { HoldsFrom result (λ n. ¬ Together side ranks.now u v n) }
    ensures most { IfSome result (λ n. n ≤ most_start) }
{
    Some(ranks.rank(side, u, v)? + 1)
}

/// Returns the backward rank of two nodes, or `past` if the nodes are endless backward.
fn ends_for(ranks: &Ranks, u: u8, v: u8, past: u16) -> u16
    requires rule { IsRule ranks.now }
    requires first { u < node_count ranks.now }
    requires second { v < node_count ranks.now }
    requires past { IsPastOf ranks.now u (node_count ranks.now) past }
    ensures rank { IsRank (λ n. (n ≤ past) × EndTogether ranks.now u v n) result }
    ensures most { result ≤ past }
{
    ranks.backward(u, v).unwrap_or(past)
}
