//! Checks that claims become smaller along each step. A claim is an upper bound of the rank of a pair of nodes. A step
//! leads from a pair to a pair along two edges with equal labels.

ghost use Rattle.std.specs.Prelude.{◌≡◌, ◌↔◌, ◌<◌, length, IsTrue};
ghost use Rattle.word_image.specs.Graphs.{pair_count};
ghost use Rattle.cert_conditions.specs.Sides.{claims_on};
ghost use Rattle.cert_conditions.specs.Breaches.{EachBelow};
ghost use Rattle.cert_check.specs.Checks.{IsChecked, FirstBreach};
ghost use Rattle.cert_conditions.specs.Claims.{claim, IsBelow, Falls};
ghost use Rattle.cert_check.specs.SideWindows.{FallsBy};

use cert_conditions::{Condition, Refusal};
use cert_values::Cert;
use word_image::{Rule, Side};

/// Checks that each pair with a claim on this side leads only to pairs with lesser claims. Otherwise returns a
/// refusal with the first pair that leads to a pair without a lesser claim.
pub fn side_claims(cert: &Cert, side: Side) -> Result<(), Refusal>
    ensures { IsChecked cert.now (Condition.SideClaims side) result }
{
    match first_rise(&cert.rule, claims_on(cert, side), side) {
        Some(pair) => Err(Refusal::Rank(side, pair)),
        None => Ok(()),
    }
}

/// Returns the claims of this side: the forward claims on the right, the backward claims on the left.
pub fn claims_on(cert: &Cert, side: Side) -> &[Option<u16>]
    ensures row { result.now ≡ claims_on cert.now side }
    ensures each { length result.now ≡ pair_count cert.now.rule }
{
    match side {
        Side::Right => cert.forward.as_slice(),
        Side::Left => cert.backward.as_slice(),
    }
}

/// Returns the first pair with a claim that leads to a pair without a lesser claim, or None if there is no such pair.
fn first_rise(rule: &Rule, claims: &[Option<u16>], side: Side) -> Option<u16>
    requires { length claims.now ≡ pair_count rule.now }
    ensures { FirstBreach (pair_count rule.now) (Falls side rule.now claims.now) result }
{
    for pair in 0..rule.pairs() {
        if !falls(rule, claims, side, pair) {
            return Some(pair);
        }
    }
    None
}

/// Returns whether a pair has no claim, or each pair to which it leads on this side has a lesser claim.
fn falls(rule: &Rule, claims: &[Option<u16>], side: Side, pair: u16) -> bool
    requires row { length claims.now ≡ pair_count rule.now }
    requires pair { pair < pair_count rule.now }
    ensures { IsTrue result ↔ Falls side rule.now claims.now pair }
{
    let Some(most) = claims[usize::from(pair)] else {
        return true;
    };
    for a in 0..rule.k() {
        if !falls_along(rule, claims, side, pair, a, most) {
            return false;
        }
    }
    true
}

/// Returns whether each pair to which the first letter a and any second letter lead from this pair has a claim below
/// `most`.
fn falls_along(rule: &Rule, claims: &[Option<u16>], side: Side, pair: u16, a: u8, most: u16) -> bool
    requires row { length claims.now ≡ pair_count rule.now }
    requires pair { pair < pair_count rule.now }
    requires letter { a < rule.now.states }
    ensures { IsTrue result ↔ EachBelow rule.now.states (FallsBy side rule.now claims.now pair most a) }
{
    for b in 0..rule.k() {
        if !falls_by(rule, claims, side, pair, a, b, most) {
            return false;
        }
    }
    true
}

/// Returns whether the pair to which two letters lead from this pair has a claim below `most`. Returns true if the
/// two letters lead to no pair.
fn falls_by(
    rule: &Rule,
    claims: &[Option<u16>],
    side: Side,
    pair: u16,
    a: u8,
    b: u8,
    most: u16,
) -> bool
    requires row { length claims.now ≡ pair_count rule.now }
    requires pair { pair < pair_count rule.now }
    requires first { a < rule.now.states }
    requires second { b < rule.now.states }
    ensures { IsTrue result ↔ FallsBy side rule.now claims.now pair most a b }
{
    match rule.follow(side, pair, a, b) {
        Some(next) => claims_below(claims, next, most),
        None => true,
    }
}

/// Returns whether a pair has a claim below `most`.
pub fn claims_below(claims: &[Option<u16>], pair: u16, most: u16) -> bool
    requires { pair < length claims.now }
    ensures { IsTrue result ↔ IsBelow claims.now pair most }
{
    match claims[usize::from(pair)] {
        Some(claim) => claim < most,
        None => false,
    }
}
