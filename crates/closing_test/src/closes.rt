//! The tests whether a rule closes on a side, without the look-ahead or the split that shows it.
//!
//! A node is a word of m - 1 letters. A first pair on the right consists of two nodes that two different letters reach
//! from the same node, along edges with equal labels. A pair is endless if walks of every length with equal labels
//! begin at its nodes. On the left side, edges are followed backward.

ghost use Rattle.std.specs.Prelude.{◌^◌, ◌<◌, ◌↔◌, ℕ, IsBitSet, IsTrue};
ghost use Rattle.word_image.specs.LocalRules.{node_count, most_nodes};
ghost use Rattle.word_image.specs.Ranks.{IsEndless};
ghost use Rattle.tail_config.specs.Tails.{IsRightClosing, IsLeftClosing};
ghost use Rattle.word_image.specs.Sides.{Together};
ghost use Rattle.tail_laws.specs.Closing.{IsClosing};
ghost use Rattle.closing_test.specs.EndlessFirsts.{IsEndlessAt, IsEndlessWith};

use crate::ends::first_nodes;
use pair_rank::Endless;
use word_image::Side;

/// Returns whether a rule is right-closing: whether no first pair on the right is endless. Takes time **O(k·k^m)**
/// and no memory.
pub fn is_right_closing(endless: &Endless) -> bool
    ensures { IsTrue result ↔ IsRightClosing endless.now }
{
    closes(Side::Right, endless)
}

/// Returns whether a rule is left-closing: whether no first pair on the left is endless. Takes time **O(k·k^m)** and
/// no memory.
pub fn is_left_closing(endless: &Endless) -> bool
    ensures { IsTrue result ↔ IsLeftClosing endless.now }
{
    closes(Side::Left, endless)
}

/// Returns whether the rule closes on this side: whether no first pair on this side is endless.
fn closes(side: Side, endless: &Endless) -> bool
    ensures { IsTrue result ↔ IsClosing side endless.now }
{
    for window in 0..endless.rule().size() {
        if is_endless_at(side, endless, window) {
            return false;
        }
    }
    true
}

/// Returns whether this window and some other window end with an endless first pair. The two windows must have equal
/// labels and differ only in the letter at their end on this side. The pair consists of their nodes at this end.
fn is_endless_at(side: Side, endless: &Endless, window: u16) -> bool
    requires { window < endless.now.states ^ endless.now.width }
    ensures { IsTrue result ↔ IsEndlessAt side endless.now window }
{
    for letter in 0..endless.rule().k() {
        if is_endless_with(side, endless, window, letter) {
            return true;
        }
    }
    false
}

/// Returns whether this window and a second window end with an endless first pair. The second window has `letter` at
/// its end on this side, and otherwise the same letters.
fn is_endless_with(side: Side, endless: &Endless, window: u16, letter: u8) -> bool
    requires window { window < endless.now.states ^ endless.now.width }
    requires letter { letter < endless.now.states }
    ensures { IsTrue result ↔ IsEndlessWith side endless.now window letter }
{
    let Some((u, v)) = first_nodes(side, endless.rule(), window, letter) else {
        return false;
    };
    endless_nodes(side, endless, u) >> v & 1 == 1
}

/// Returns the set of the nodes v for which the pair (u, v) is endless on this side: forward on the right, backward on
/// the left. Bit v stands for node v.
fn endless_nodes(side: Side, endless: &Endless, u: u8) -> u16
    requires { u < node_count endless.now }
    ensures { (v : ℕ) → v < most_nodes → (IsBitSet result v ↔ IsEndless (Together side endless.now u v)) }
{
    match side {
        Side::Right => endless.forward(u),
        Side::Left => endless.backward(u),
    }
}
