//! Tests whether fixed letters lead along the walks of pairs of nodes that hints have found. Fixed letters lead from a
//! pair of nodes to another pair along two windows with the same fixed letter. A node is a word of m - 1 letters.
ghost use Rattle.std.specs.Prelude.{◌≡◌, ◌<◌, ◌↔◌, IsTrue, slice_index};
ghost use Rattle.word_image.specs.Graphs.{pair_count, first_of, second_of};
ghost use Rattle.rule_lists.specs.EndlessPairs.{FixedLeadsOn, IsFixedStep};
ghost use Rattle.rule_lists.specs.FixedWalks.{IsFixedCycle, ComesAfterFirst};

use crate::letters::{FixedLetters, are_one};
use crate::reach::Links;
use word_image::{Rule, Side};

/// Returns true only if the fixed letters lead to this pair from a node with itself, first to two different nodes.
/// Follows the links `before` from the pair backward, and tests each step. If a link is wrong, the result may be false.
pub(crate) fn comes_after_first(
    side: Side,
    shape: &Rule,
    letters: &FixedLetters,
    before: &Links,
    pair: u16,
) -> bool
    requires { pair < pair_count shape.now }
    ensures { IsTrue result → ComesAfterFirst side shape.now letters.now pair }
{
    let mut at = pair;
    for _ in 0..shape.pairs() {
        let from = u16::from(before[usize::from(at)]);
        if !leads_on(side, shape, letters, from, at) {
            return false;
        }
        if has_one_node(shape, from) {
            return !has_one_node(shape, at);
        }
        at = from;
    }
    false
}

/// Returns true only if the fixed letters lead from this pair around a cycle back to the pair. Follows the links
/// `after`, and tests each step. If a link is wrong, the result may be false.
pub(crate) fn is_cycle(
    side: Side,
    shape: &Rule,
    letters: &FixedLetters,
    after: &Links,
    pair: u16,
) -> bool
    requires { pair < pair_count shape.now }
    ensures { IsTrue result → IsFixedCycle shape.now letters.now pair }
{
    let mut at = pair;
    for _ in 0..shape.pairs() {
        let next = u16::from(after[usize::from(at)]);
        if !leads_on(side, shape, letters, at, next) {
            return false;
        }
        if next == pair {
            return true;
        }
        at = next;
    }
    false
}

/// Returns whether the pair with this number has two equal nodes.
pub(crate) fn has_one_node(shape: &Rule, pair: u16) -> bool
    requires { pair < pair_count shape.now }
    ensures { IsTrue result ↔ (first_of shape.now pair ≡ second_of shape.now pair) }
{
    let (u, v) = shape.nodes_of(pair);
    u == v
}

/// Returns whether fixed letters lead in one step from the pair `from` to the pair `to`. Steps go forward on the right
/// side and backward on the left. Returns false if `from` or `to` isn't the number of a pair.
fn leads_on(side: Side, shape: &Rule, letters: &FixedLetters, from: u16, to: u16) -> bool
    ensures from { IsTrue result → from < pair_count shape.now }
    ensures to { IsTrue result → to < pair_count shape.now }
    ensures leads { IsTrue result → FixedLeadsOn side shape.now letters.now from to }
{
    if from >= shape.pairs() {
        return false;
    }
    if to >= shape.pairs() {
        return false;
    }
    match side {
        Side::Right => is_step(shape, letters, from, to),
        Side::Left => is_step(shape, letters, to, from),
    }
}

/// Returns whether a step forward leads from the pair `from` to the pair `to`, along two windows with equal fixed
/// letters.
fn is_step(shape: &Rule, letters: &FixedLetters, from: u16, to: u16) -> bool
    requires from { from < pair_count shape.now }
    requires to { to < pair_count shape.now }
    ensures { IsTrue result → IsFixedStep shape.now letters.now from to }
{
    let (u, v) = shape.nodes_of(from);
    let (x, y) = shape.nodes_of(to);
    let a = x % shape.k();
    let b = y % shape.k();
    let first = Side::Right.window_with(shape, u, a);
    let second = Side::Right.window_with(shape, v, b);
    if !are_one(shape.k(), letters, first, second) {
        return false;
    }
    let next = shape.pair_of(
        Side::Right.end_node(shape, first),
        Side::Right.end_node(shape, second),
    );
    next == to
}
