//! Checks a look-ahead by the claims of a certificate. A claim is an upper bound of the rank of a pair of nodes. Two
//! edges with equal labels that leave one node by different letters lead to the two nodes of a first pair on the right.
//! First pairs on the left are the mirror image.

ghost use Rattle.std.specs.Prelude.{◌≡◌, ◌↔◌, ◌<◌, ◌≤◌, ℕ, length, IsTrue};
ghost use Rattle.word_image.specs.Graphs.{first_of, second_of, pair_count};
ghost use Rattle.cert_check.specs.Checks.{IsChecked, FirstBreach};
ghost use Rattle.word_image.specs.Ends.{label_at};
ghost use Rattle.word_image.specs.FirstPairs.{IsFirstOf};
ghost use Rattle.cert_values.specs.Certificates.{IsSideShape};
ghost use Rattle.cert_values.specs.Parts.{side_of, IsOver};
ghost use Rattle.cert_conditions.specs.Sides.{evidence_on};
ghost use Rattle.cert_check.specs.SideWindows.{rest_of};
ghost use Rattle.cert_conditions.specs.Claims.{IsAheadPair};

use crate::claims::{claims_below, claims_on};
use cert_conditions::{Condition, Refusal};
use cert_values::{Cert, SidePart};
use word_image::{Rule, Side};

/// Checks that each first pair on this side has a claim that is less than the look-ahead minus 1. Passes if the
/// certificate has no look-ahead on this side. Otherwise returns a refusal with the least first pair without such a
/// claim.
pub fn side_ahead(cert: &Cert, side: Side) -> Result<(), Refusal>
    ensures { IsChecked cert.now (Condition.SideAhead side) result }
{
    let SidePart::Ahead(n) = part_on(cert, side) else {
        return Ok(());
    };
    match first_too_far(&cert.rule, side, claims_on(cert, side), *n) {
        Some(pair) => Err(Refusal::Ahead(side, pair)),
        None => Ok(()),
    }
}

/// Returns the evidence of the certificate for closing on this side.
pub fn part_on(cert: &Cert, side: Side) -> &SidePart
    ensures part { side_of result.now ≡ evidence_on cert.now side }
    ensures shape { IsSideShape cert.now.rule (side_of result.now) }
    ensures over { IsOver cert.now.rule.states result.now }
{
    match side {
        Side::Right => &cert.right,
        Side::Left => &cert.left,
    }
}

/// Returns the least first pair on this side that has no claim below n - 1, or None if each first pair has such a
/// claim.
fn first_too_far(rule: &Rule, side: Side, claims: &[Option<u16>], n: u16) -> Option<u16>
    requires row { length claims.now ≡ pair_count rule.now }
    requires some { 1 ≤ n }
    ensures { FirstBreach (pair_count rule.now) (IsAheadPair (IsFirstOf side rule.now) claims.now n) result }
{
    for pair in 0..rule.pairs() {
        if is_first(rule, side, pair) && !claims_below(claims, pair, n - 1) {
            return Some(pair);
        }
    }
    None
}

/// Returns whether a pair is a first pair on this side. It is one if its nodes differ only in the letter at their end
/// on this side, and if some letter, added to both nodes at their other end, gives two windows with equal labels.
pub fn is_first(rule: &Rule, side: Side, pair: u16) -> bool
    requires { pair < pair_count rule.now }
    ensures { IsTrue result ↔ IsFirstOf side rule.now pair }
{
    let (u, v) = rule.nodes_of(pair);
    if u == v || rest_of(rule, side, u) != rest_of(rule, side, v) {
        return false;
    }
    share_a_label(rule, side.other(), pair)
}

/// Returns a node without the letter at its end on this side.
fn rest_of(rule: &Rule, side: Side, node: u8) -> u8
    ensures { result ≡ rest_of side rule.now node }
{
    let k = rule.k();
    match side {
        Side::Right => node / k,
        Side::Left => node % k.pow(u32::from(rule.m()) - 2),
    }
}

/// Returns whether some letter, added to both nodes of a pair at their end on this side, gives two windows with equal
/// labels.
fn share_a_label(rule: &Rule, side: Side, pair: u16) -> bool
    requires { pair < pair_count rule.now }
    ensures { IsTrue result ↔ ((a : ℕ) × (a < rule.now.states)
        × (label_at side rule.now (first_of rule.now pair) a ≡ label_at side rule.now (second_of rule.now pair) a)) }
{
    for letter in 0..rule.k() {
        if rule.follow(side, pair, letter, letter).is_some() {
            return true;
        }
    }
    false
}
