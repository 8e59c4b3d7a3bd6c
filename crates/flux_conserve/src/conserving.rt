//! The test whether a rule is conserving, without evidence. A flux, which is a number for each word of m - 1 letters,
//! would prove that every ring keeps its sum.
ghost use Rattle.std.specs.Prelude.{◌≡◌, ◌↔◌, length, slice_index, IsTrue};
ghost use Rattle.word_image.specs.Rings.{IsConserving};

use crate::flows::walks_flow;
use word_image::{Rule, Weights};

/// Returns whether every ring has the same sum as its image under these weights of the letters. Stops at the first
/// window that shows that the rule has no flux. Needs no memory.
pub fn is_conserving(rule: &Rule, weights: &Weights) -> bool
    requires { length weights.now ≡ rule.now.states }
    ensures { IsTrue result ↔ IsConserving (slice_index weights.now) rule.now }
{
    for window in 0..rule.size() {
        if !walks_flow(rule, weights, window) {
            return false;
        }
    }
    true
}
