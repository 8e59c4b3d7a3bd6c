//! First pairs, found from two windows that differ only in the letter at their end on one side. A first pair on the
//! right consists of two nodes that two different letters reach from the same node, along edges with equal labels. On
//! the left side the edges are followed backward.

ghost use Rattle.std.specs.Prelude.{◌≡◌, ◌^◌, ◌<◌, MatchOption};
ghost use Rattle.word_image.specs.LocalRules.{IsRule};
ghost use Rattle.pair_laws.specs.FirstWindows.{AreFirst, with_end};
ghost use Rattle.closing_test.specs.Sides.{IsFound};

use word_image::{Rule, Side};

/// Returns the first pair of two windows: the node at the end of `window`, and the node at the end of the window that
/// has `letter` at its end instead. Returns None if the two windows are equal or have different labels.
pub fn first_nodes(side: Side, rule: &Rule, window: u16, letter: u8) -> Option<(u8, u8)>
    requires window { window < rule.now.states ^ rule.now.width }
    requires letter { letter < rule.now.states }
    ensures found { MatchOption result (¬ AreFirst side rule.now window letter) (λ nodes. IsFound side rule.now window letter nodes.0 nodes.1) }
    ensures rule { IsRule rule.now }
{
    let other = with_end(side, rule, window, letter);
    let node = side.end_node(rule, window);
    if other == window || rule.at(other) != rule.at(window) {
        return None;
    }
    Some((node, side.end_node(rule, other)))
}

/// Returns the window that has `letter` at its end on this side and otherwise the letters of `window`.
fn with_end(side: Side, rule: &Rule, window: u16, letter: u8) -> u16
    requires window { window < rule.now.states ^ rule.now.width }
    requires letter { letter < rule.now.states }
    ensures value { result ≡ with_end side rule.now window letter }
    ensures window { result < rule.now.states ^ rule.now.width }
{
    side.window_with(rule, side.other().end_node(rule, window), letter)
}
