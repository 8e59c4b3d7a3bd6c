//! Checks a list of pairs of nodes, which proves that a rule is surjective. A step leads from a pair to a pair along
//! two edges with equal labels. Two edges with equal labels that leave one node by different letters lead to the two
//! nodes of a first pair on the right.

ghost use Rattle.std.specs.Prelude.{◌≢◌, ◌<◌, ℕ, List, length, slice_index, All, IsTrue, ◌↔◌, MatchOption};
ghost use Rattle.word_image.specs.Graphs.{first_of, second_of, follow, pair_count};
ghost use Rattle.cert_conditions.specs.Breaches.{EachBelow, IsFirstBreach};
ghost use Rattle.cert_conditions.specs.Pairs.{FirstIsListed, StepIsListed, StepsAreListed, IsFirstLeaving};
ghost use Rattle.cert_check.specs.Rows.{AreMarked};
ghost use Rattle.cert_check.specs.Checks.{IsChecked, FirstBreach};

use crate::aheads::is_first;
use crate::marks::Marks;
use cert_conditions::{Condition, Refusal};
use cert_values::{Cert, SurjectivePart};
use word_image::{Rule, Side};

/// Checks that each first pair on the right is listed. Otherwise returns a refusal with the least first pair that
/// isn't listed.
pub fn firsts_listed(cert: &Cert) -> Result<(), Refusal>
    ensures { IsChecked cert.now Condition.FirstsListed result }
{
    match &cert.surjective {
        SurjectivePart::Pairs(pairs) => match first_missing(&cert.rule, pairs.as_slice()) {
            Some(pair) => Err(Refusal::NoFirst(pair)),
            None => Ok(()),
        },
        SurjectivePart::Sets(_) | SurjectivePart::Orphan(_) => Ok(()),
    }
}

/// Checks that no listed pair has two equal nodes. Otherwise returns a refusal with the place of the first pair with
/// two equal nodes.
pub fn off_diagonal(cert: &Cert) -> Result<(), Refusal>
    ensures { IsChecked cert.now Condition.OffDiagonal result }
{
    match &cert.surjective {
        SurjectivePart::Pairs(pairs) => match first_diagonal(&cert.rule, pairs.as_slice()) {
            Some(place) => Err(Refusal::Diagonal(place)),
            None => Ok(()),
        },
        SurjectivePart::Sets(_) | SurjectivePart::Orphan(_) => Ok(()),
    }
}

/// Checks that each step from a listed pair leads to a listed pair. Otherwise returns a refusal with the place of the
/// first listed pair from which a step leads to an unlisted pair, and with the two letters of the first such step.
pub fn pairs_closed(cert: &Cert) -> Result<(), Refusal>
    ensures { IsChecked cert.now Condition.PairsClosed result }
{
    match &cert.surjective {
        SurjectivePart::Pairs(pairs) => match first_leaving(&cert.rule, pairs.as_slice()) {
            Some((place, (a, b))) => Err(Refusal::Leaves(place, a, b)),
            None => Ok(()),
        },
        SurjectivePart::Sets(_) | SurjectivePart::Orphan(_) => Ok(()),
    }
}

/// Returns the least first pair on the right that isn't listed, or None if all of them are listed.
fn first_missing(rule: &Rule, pairs: &[u16]) -> Option<u16>
    ensures { FirstBreach (pair_count rule.now) (FirstIsListed rule.now pairs.now) result }
{
    let listed = Marks::of(pairs);
    for pair in 0..rule.pairs() {
        if is_first(rule, Side::Right, pair) && !listed.has(pair) {
            return Some(pair);
        }
    }
    None
}

/// Returns the place of the first listed pair with two equal nodes, or None if there is no such pair.
fn first_diagonal(rule: &Rule, pairs: &[u16]) -> Option<usize>
    requires { All (λ p. p < pair_count rule.now) pairs.now }
    ensures { FirstBreach (length pairs.now)
        (λ i. first_of rule.now (slice_index pairs.now i) ≢ second_of rule.now (slice_index pairs.now i)) result }
{
    pairs.iter().position(|pair| {
        let (u, v) = rule.nodes_of(*pair);
        u == v
    })
}

/// Returns the place of the first listed pair from which a step leads to an unlisted pair, and the two letters of the
/// first such step. Returns None if there is no such pair.
fn first_leaving(rule: &Rule, pairs: &[u16]) -> Option<(usize, (u8, u8))>
    requires { All (λ p. p < pair_count rule.now) pairs.now }
    ensures { MatchOption result
        (EachBelow (length pairs.now) (λ i. StepsAreListed rule.now pairs.now (slice_index pairs.now i)))
        (λ (i, letters). IsFirstBreach (length pairs.now) (λ i. StepsAreListed rule.now pairs.now (slice_index pairs.now i)) i
        × IsFirstLeaving rule.now pairs.now (slice_index pairs.now i) letters.0 letters.1) }
{
    let listed = Marks::of(pairs);
    let mut closed = Marks::new();
    for (place, pair) in pairs.iter().enumerate() {
        if closed.has(*pair) {
            continue;
        }
        if let Some(letters) = first_step_out(rule, &listed, *pair) {
            return Some((place, letters));
        }
        closed.mark(*pair);
    }
    None
}

/// Returns the first two letters (a, b) that lead from a pair to an unlisted pair: the least a, and the least b for
/// this a. Returns None if there are no such letters. `listed` marks the listed pairs.
fn first_step_out(rule: &Rule, listed: &Marks, pair: u16) -> Option<(u8, u8)>
    requires { pair < pair_count rule.now }
    ensures { (pairs : List ℕ) → AreMarked listed.now.rows pairs → MatchOption result
        (StepsAreListed rule.now pairs pair)
        (λ (a, b). IsFirstLeaving rule.now pairs pair a b) }
{
    for a in 0..rule.k() {
        if let Some(b) = first_letter_out(rule, listed, pair, a) {
            return Some((a, b));
        }
    }
    None
}

/// Returns the least `b` for which the letters `a` and `b` lead from a pair to an unlisted pair, or None if there is
/// none. `listed` marks the listed pairs.
fn first_letter_out(rule: &Rule, listed: &Marks, pair: u16, a: u8) -> Option<u8>
    requires pair { pair < pair_count rule.now }
    requires letter { a < rule.now.states }
    ensures { (pairs : List ℕ) → AreMarked listed.now.rows pairs
        → FirstBreach rule.now.states (StepIsListed rule.now pairs pair a) result }
{
    for b in 0..rule.k() {
        if !leads_within(rule, listed, pair, a, b) {
            return Some(b);
        }
    }
    None
}

/// Returns whether the pair to which two letters lead from a pair is listed. Returns true if the two letters lead to no
/// pair. `listed` marks the listed pairs.
fn leads_within(rule: &Rule, listed: &Marks, pair: u16, a: u8, b: u8) -> bool
    requires pair { pair < pair_count rule.now }
    requires first { a < rule.now.states }
    requires second { b < rule.now.states }
    ensures { (pairs : List ℕ) → AreMarked listed.now.rows pairs
        → IsTrue result ↔ StepIsListed rule.now pairs pair a b }
{
    match rule.follow(Side::Right, pair, a, b) {
        Some(next) => listed.has(next),
        None => true,
    }
}
