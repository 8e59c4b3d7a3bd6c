//! Checks twins: two different words of the same length whose rings have the same image.

ghost use Rattle.std.specs.Prelude.{◌≡◌, ◌≢◌, ◌↔◌, ◌≤◌, length, IsTrue, MatchOption};
ghost use Rattle.word_image.specs.LocalRules.{IsWord};
ghost use Rattle.word_image.specs.Rings.{IsRing, ring_image};
ghost use Rattle.cert_conditions.specs.Refusals.{IsTwinsBreach};
ghost use Rattle.cert_check.specs.Checks.{IsChecked};

use cert_conditions::{Condition, Refusal, TwinCause};
use cert_values::{Cert, InjectivePart};
use word_image::{Rule, ring_apply};

/// Checks that the twins have the same length of at least 1, are different, and have rings with the same image.
/// Otherwise returns a refusal that names the first of these three conditions that isn't met.
pub fn twins_alike(cert: &Cert) -> Result<(), Refusal>
    ensures { IsChecked cert.now Condition.TwinsAlike result }
{
    let InjectivePart::Twins { x, y } = &cert.injective else {
        return Ok(());
    };
    match lacks(&cert.rule, x.as_slice(), y.as_slice()) {
        Some(cause) => Err(Refusal::Twins(cause)),
        None => Ok(()),
    }
}

/// Returns the first reason why two words aren't twins, or None if they are twins.
fn lacks(rule: &Rule, x: &[u8], y: &[u8]) -> Option<TwinCause>
    requires first { IsWord rule.now.states x.now }
    requires second { IsWord rule.now.states y.now }
    ensures { MatchOption result
        (((length x.now ≡ length y.now) × (1 ≤ length x.now)) × (x.now ≢ y.now) × (ring_image rule.now x.now ≡ ring_image rule.now y.now))
        (IsTwinsBreach rule.now x.now y.now) }
{
    if x.len() != y.len() || x.is_empty() {
        return Some(TwinCause::Length);
    }
    if x == y {
        return Some(TwinCause::Same);
    }
    if !have_one_image(rule, x, y) {
        return Some(TwinCause::Image);
    }
    None
}

/// Returns whether two rings of the same length have the same image. This is so if at each place the rule gives the
/// same letter for the windows of both rings.
fn have_one_image(rule: &Rule, x: &[u8], y: &[u8]) -> bool
    requires first { IsRing rule.now.states x.now }
    requires second { IsRing rule.now.states y.now }
    requires one_length { length x.now ≡ length y.now }
    ensures { IsTrue result ↔ (ring_image rule.now x.now ≡ ring_image rule.now y.now) }
{
    for place in 0..x.len() {
        if ring_apply(rule, x, place) != ring_apply(rule, y, place) {
            return false;
        }
    }
    true
}
