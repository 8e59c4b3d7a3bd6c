//! The test whether a rule is injective, without the window that shows it.
//!
//! Two nodes are endless forward if walks of every length with equal labels begin at them, and endless backward if such
//! walks end at them. A node is a word of m - 1 letters.
ghost use Rattle.std.specs.Prelude.{◌≢◌, ◌<◌, ◌↔◌, ℕ, IsTrue};
ghost use Rattle.word_image.specs.LocalRules.{IsRule, node_count};
ghost use Rattle.tail_config.specs.Tails.{IsInjective};
ghost use Rattle.inverse_window.specs.BothWays.{GoOnBothWays};

use pair_rank::Endless;

/// Returns whether a rule is injective: whether no two different nodes are endless both forward and backward. Takes
/// time **O(N)** in operations on rows, and no memory.
pub fn is_injective(endless: &Endless) -> bool
    ensures injective { IsTrue result ↔ IsInjective endless.now }
    ensures rule { IsRule endless.now }
{
    for u in 0..endless.rule().nodes() {
        if has_other(endless, u) {
            return false;
        }
    }
    true
}

/// Returns whether `u` and some other node are endless both forward and backward.
fn has_other(endless: &Endless, u: u8) -> bool
    requires rule { IsRule endless.now }
    requires node { u < node_count endless.now }
    ensures { IsTrue result ↔ ((v : ℕ) × (u ≢ v) × GoOnBothWays endless.now u v) }
{
    endless.forward(u) & endless.backward(u) & !(1 << u) != 0
}
