//! Decides whether a rule is conserving, with evidence. A rule is conserving if every ring has the same sum of weights
//! as its image. A flux proves it: a number for each node, which is a word of m - 1 letters.
ghost use Rattle.std.specs.Prelude.{◌≡◌, ◌↔◌, length, slice_index, IsTrue};
ghost use Rattle.word_image.specs.Rings.{IsConserving};
ghost use Rattle.flux_conserve.specs.Keepings.{IsShown, IsShort, has_flux};

use crate::flows::{is_flux, walk_flows};
use crate::rings::{SmallRing, first_lossy_of, first_lossy_ring};
use word_image::{MOST_NODES, Rule, Weights};

/// The evidence that a rule is conserving, or that it isn't.
#[derive(Debug, Drop)]
pub enum Keeping {
    /// The rule is conserving, and this is the flux that is 0 at node 0. The numbers of the nodes are followed by
    /// zeros.
    Flux([i32; MOST_NODES]),
    /// The rule isn't conserving, and this is the least ring, in the order of words, whose image has another sum.
    Ring(SmallRing),
}

/// Returns the flux that is 0 at node 0 if the rule is conserving under these weights of its letters. Otherwise returns
/// the least ring whose image has another sum. This ring has at most 2m - 1 letters.
pub fn conserve(rule: &Rule, weights: &Weights) -> Keeping
    requires { length weights.now ≡ rule.now.states }
    ensures conserving { IsTrue (has_flux result) ↔ IsConserving (slice_index weights.now) rule.now }
    ensures shown { IsShown (slice_index weights.now) rule.now result }
    ensures short { IsShort rule.now result }
{
    // Most rules change the sum of a ring of one letter.
    if let Some(ring) = first_lossy_of(rule, weights, 1) {
        return Keeping::Ring(ring);
    }
    let flows = walk_flows(rule, weights);
    if is_flux(rule, weights, &flows[..usize::from(rule.nodes())]) {
        Keeping::Flux(flows)
    } else {
        Keeping::Ring(first_lossy_ring(rule, weights))
    }
}
