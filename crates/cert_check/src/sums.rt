//! Checks a flux, or a ring whose image has another sum of weights. A flux has a number for each node. It balances at a
//! window if the weight of the window's image minus the weight of the window's first letter is the number of its first
//! node minus the number of its last node.

ghost use Rattle.std.specs.Prelude.{◌≡◌, ◌↔◌, ◌^◌, ◌<◌, length, slice_index, IsTrue};
ghost use Rattle.word_image.specs.LocalRules.{node_count, word_of};
ghost use Rattle.cert_check.specs.Checks.{IsChecked, FirstBreach};
ghost use Rattle.cert_conditions.specs.Sums.{Flows};

use cert_conditions::{Condition, Refusal};
use cert_values::{Cert, SumPart};
use word_image::{Rule, Side, Weights, keeps_sum};

/// Checks that the flux balances at each window. Otherwise returns a refusal with the least window at which it
/// doesn't balance.
pub fn flux_flows(cert: &Cert) -> Result<(), Refusal>
    ensures { IsChecked cert.now Condition.FluxFlows result }
{
    let SumPart::Flux(flux) = &cert.conserving else {
        return Ok(());
    };
    match first_unbalanced(&cert.rule, &cert.weights, flux.as_slice()) {
        Some(window) => Err(Refusal::Flux(window)),
        None => Ok(()),
    }
}

/// Checks that the ring has at least one letter, and that its image has another sum. Otherwise returns the refusal
/// `Ring`.
pub fn ring_lossy(cert: &Cert) -> Result<(), Refusal>
    ensures { IsChecked cert.now Condition.RingLossy result }
{
    let SumPart::Ring(ring) = &cert.conserving else {
        return Ok(());
    };
    let ring = ring.as_slice();
    if ring.is_empty() || keeps_sum(&cert.rule, &cert.weights, ring) {
        return Err(Refusal::Ring);
    }
    Ok(())
}

/// Returns the value of the first window at which the flux doesn't balance, or None if it balances at all windows.
fn first_unbalanced(rule: &Rule, weights: &Weights, flux: &[i32]) -> Option<u16>
    requires letters { length weights.now ≡ rule.now.states }
    requires nodes { length flux.now ≡ node_count rule.now }
    ensures { FirstBreach (rule.now.states ^ rule.now.width) (λ v. Flows (slice_index weights.now) rule.now flux.now (word_of rule.now.states rule.now.width v)) result }
{
    for window in 0..rule.size() {
        if !flows(rule, weights, flux, window) {
            return Some(window);
        }
    }
    None
}

/// Returns whether the flux balances at the window with this value.
fn flows(rule: &Rule, weights: &Weights, flux: &[i32], window: u16) -> bool
    requires letters { length weights.now ≡ rule.now.states }
    requires nodes { length flux.now ≡ node_count rule.now }
    requires window { window < rule.now.states ^ rule.now.width }
    ensures { IsTrue result ↔ Flows (slice_index weights.now) rule.now flux.now (word_of rule.now.states rule.now.width window) }
{
    let gain = i64::from(weights.at(rule.at(window)))
        - i64::from(weights.at(Side::Left.end_letter(rule, window)));
    let first = i64::from(flux[usize::from(Side::Left.end_node(rule, window))]);
    let last = i64::from(flux[usize::from(Side::Right.end_node(rule, window))]);
    gain == first - last
}
