//! Checks a window (n, c) by the claims of a certificate: n letters of an image must determine the letter at place c of
//! each preimage. A claim is an upper bound of the rank of a pair of nodes. The rank says how long two walks from the
//! nodes, or to them, can have equal labels.

ghost use Rattle.std.specs.Prelude.{◌≡◌, ◌↔◌, ◌+◌, ◌-◌, ◌<◌, ◌≤◌, length, IsTrue};
ghost use Rattle.word_image.specs.Graphs.{pair_count};
ghost use Rattle.cert_check.specs.Checks.{IsChecked, FirstBreach};
ghost use Rattle.cert_conditions.specs.Claims.{IsWindowPair};

use crate::claims::{claims_below, claims_on};
use cert_conditions::{Condition, Refusal};
use cert_values::{Cert, InjectivePart};
use word_image::{Rule, Side};

/// Checks that by the claims the letters of an image determine the letter at place c. Otherwise returns a refusal with
/// the first pair of nodes that have different letters at this place, but that two preimages can have as far as the
/// claims say.
pub fn window_claims(cert: &Cert) -> Result<(), Refusal>
    ensures { IsChecked cert.now Condition.WindowClaims result }
{
    let InjectivePart::Window { n, c } = &cert.injective else {
        return Ok(());
    };
    let (forward, backward) = (claims_on(cert, Side::Right), claims_on(cert, Side::Left));
    match first_not_told(&cert.rule, forward, backward, *n, *c) {
        Some(pair) => Err(Refusal::Window(pair)),
        None => Ok(()),
    }
}

/// Returns the first pair of nodes that the claims don't exclude and whose nodes have different letters at the place
/// that the window (n, c) determines. Returns None if there is no such pair.
fn first_not_told(
    rule: &Rule,
    forward: &[Option<u16>],
    backward: &[Option<u16>],
    n: u16,
    c: u16,
) -> Option<u16>
    requires forward { length forward.now ≡ pair_count rule.now }
    requires backward { length backward.now ≡ pair_count rule.now }
    requires inside { c ≤ n + rule.now.width - 2 }
    ensures { FirstBreach (pair_count rule.now) (IsWindowPair rule.now forward.now backward.now n c) result }
{
    for pair in 0..rule.pairs() {
        if !is_told(rule, forward, backward, n, c, pair) {
            return Some(pair);
        }
    }
    None
}

/// Returns whether the claims exclude this pair of nodes, or its nodes have the same letter at the place that the
/// window (n, c) determines.
///
/// Let j = min(c, n). Suppose that two words of n + m - 1 letters have the same image, and that the two nodes begin at
/// place j of these words. Then the letters at place c of the words are the letters at place c - j of the nodes. The
/// letters up to the end of the nodes have an image of j letters. The letters from the nodes on have an image of n - j
/// letters. So there are no such words if the backward claim of the pair is below j, or its forward claim is below n -
/// j.
fn is_told(
    rule: &Rule,
    forward: &[Option<u16>],
    backward: &[Option<u16>],
    n: u16,
    c: u16,
    pair: u16,
) -> bool
    requires forward { length forward.now ≡ pair_count rule.now }
    requires backward { length backward.now ≡ pair_count rule.now }
    requires inside { c ≤ n + rule.now.width - 2 }
    requires pair { pair < pair_count rule.now }
    ensures { IsTrue result ↔ IsWindowPair rule.now forward.now backward.now n c pair }
{
    let j = c.min(n);
    let (first, second) = rule.nodes_of(pair);
    let place = (c - j) as u8;
    rule.node_letter(first, place) == rule.node_letter(second, place)
        || claims_below(backward, pair, j)
        || claims_below(forward, pair, n - j)
}
