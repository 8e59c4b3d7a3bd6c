//! Tests whether known letters of a table rule out a property, whatever the other letters are.
//!
//! A search fills tables window by window, in a given order. The letters so far are called known. Some letters of the
//! table are fixed in advance. A rule is listed if it has the property and all fixed letters. A node is a word of m - 1
//! letters. Known letters lead from a pair of nodes to another pair along two windows with the same known letter. A
//! hint is a walk of such pairs, stored as links from pair to pair. It may be wrong, so this file tests it.
ghost use Rattle.std.specs.Prelude.{◌≡◌, ◌≢◌, ◌^◌, ◌<◌, ◌≤◌, ℕ, IsTrue, ◌-◌, length, slice_index};
ghost use Rattle.word_image.specs.LocalRules.{IsRule, most_windows};
ghost use Rattle.rule_lists.specs.Searches.{AreEntries, IsStartRuledOut, IsOrdered, size_of};
ghost use Rattle.rule_lists.specs.Listed.{IsKnownLetter};
ghost use Rattle.rule_lists.specs.RuledOut.{RulesOut, RulesOutClosing};
ghost use Rattle.rule_lists.specs.Completions.{RulesOutSurjective};
ghost use Rattle.rule_lists.specs.declared.properties.Property.TheVariants.{Open, Injective};

use crate::asked::Asked;
use crate::hints::{Hint, Hints};
use crate::letters::FixedLetters;
use crate::properties::Property;
use crate::sums::rules_out_conserving;
use crate::tables::Table;
use crate::walks::{comes_after_first, has_one_node, is_cycle};
use word_image::{Rule, Side};

/// Returns true only if no listed rule has the letters of the table at the first n windows of the order. Even if there
/// is no such rule, the result may be false. The hints must already have all of these letters except the last one.
pub(crate) fn rules_out_start(asked: &Asked, entries: &Table, n: u16, hints: &mut Hints) -> bool
    requires order { IsOrdered asked.now }
    requires table { AreEntries asked.now entries.now }
    requires within { n ≤ size_of asked.now }
    ensures { IsTrue result → IsStartRuledOut asked.now entries.now n }
{
    if has_other(asked, entries, n) {
        return true;
    }
    if !hints.push(asked, entries, n, true) {
        return false;
    }
    let letters = known_letters(asked.fixed, asked.order, entries, n);
    rules_out(asked.property, asked.shape, &letters, hints.last())
}

/// Returns whether the last of the first n windows of the order has a fixed letter, and the table has another letter
/// there.
fn has_other(asked: &Asked, entries: &Table, n: u16) -> bool
    requires within { n ≤ length asked.now.order.now }
    ensures rule { IsRule asked.now.shape.now }
    ensures some { IsTrue result → 0 < n }
    ensures fixed { IsTrue result → slice_index asked.now.fixed.now (slice_index asked.now.order.now (n - 1)) < asked.now.shape.now.states }
    ensures other { IsTrue result → slice_index asked.now.fixed.now (slice_index asked.now.order.now (n - 1)) ≢ slice_index entries.now (slice_index asked.now.order.now (n - 1)) }
{
    let k = asked.shape.k();
    if n == 0 {
        return false;
    }
    let window = usize::from(asked.order[usize::from(n - 1)]);
    let letter = asked.fixed[window];
    letter < k && letter != entries[window]
}

/// Returns the letters of the table at the first n windows of the order, and the fixed letters at all other windows.
fn known_letters(fixed: &FixedLetters, order: &[u8], entries: &Table, n: u16) -> FixedLetters
    requires { n ≤ length order.now }
    ensures { (v : ℕ) → v < most_windows → IsKnownLetter fixed.now order.now entries.now n v (slice_index result v) }
{
    let mut letters = *fixed;
    for place in 0..n {
        let window = usize::from(order[usize::from(place)]);
        letters[window] = entries[window];
    }
    letters
}

/// Tests a hint. Returns true only if no rule with these letters has the property.
fn rules_out(property: Property, shape: &Rule, letters: &FixedLetters, hint: &Hint) -> bool
    ensures { IsTrue result → RulesOut property shape.now.states shape.now.width letters.now }
{
    match property {
        Property::Surjective => rules_out_surjective(shape, letters, hint),
        Property::Injective => rules_out_injective(shape, letters, hint),
        Property::RightClosing => rules_out_closing(Side::Right, shape, letters, hint),
        Property::LeftClosing => rules_out_closing(Side::Left, shape, letters, hint),
        Property::Open => rules_out_open(shape, letters, hint),
        Property::Conserving => rules_out_conserving(shape, letters),
    }
}

/// Returns whether a hint shows that no rule with these letters is surjective. Its links must show that the letters
/// lead from a node with itself, first by two different letters, to a pair of two equal nodes.
fn rules_out_surjective(shape: &Rule, letters: &FixedLetters, hint: &Hint) -> bool
    ensures { IsTrue result → RulesOutSurjective shape.now.states shape.now.width letters.now }
{
    let pair = hint.pair();
    if pair >= shape.pairs() {
        return false;
    }
    if !has_one_node(shape, pair) {
        return false;
    }
    comes_after_first(Side::Right, shape, letters, hint.predecessors(), pair)
}

/// Returns whether a hint shows that no rule with these letters is injective. It can do so in two ways. It shows that
/// no rule with these letters is surjective. Or its links show that the letters lead from a pair of two different nodes
/// around a cycle back to this pair.
fn rules_out_injective(shape: &Rule, letters: &FixedLetters, hint: &Hint) -> bool
    ensures { IsTrue result → RulesOut Injective shape.now.states shape.now.width letters.now }
{
    if rules_out_surjective(shape, letters, hint) {
        return true;
    }
    let pair = hint.pair();
    if pair >= shape.pairs() {
        return false;
    }
    if has_one_node(shape, pair) {
        return false;
    }
    is_cycle(Side::Right, shape, letters, hint.successors(), pair)
}

/// Returns whether a hint shows that no rule with these letters closes on this side. Its links must show two things
/// about its pair. The letters lead to the pair from a node with itself, first by two different letters. The pair has
/// two equal nodes, or the letters lead from it around a cycle back to it.
fn rules_out_closing(side: Side, shape: &Rule, letters: &FixedLetters, hint: &Hint) -> bool
    ensures { IsTrue result → RulesOutClosing side shape.now.states shape.now.width letters.now }
{
    let pair = hint.pair();
    if pair >= shape.pairs() {
        return false;
    }
    if !comes_after_first(side, shape, letters, hint.predecessors(), pair) {
        return false;
    }
    if has_one_node(shape, pair) {
        return true;
    }
    is_cycle(side, shape, letters, hint.successors(), pair)
}

/// Returns whether a hint shows that no rule with these letters is open. It must show that no such rule closes on the
/// side of the hint.
fn rules_out_open(shape: &Rule, letters: &FixedLetters, hint: &Hint) -> bool
    ensures { IsTrue result → RulesOut Open shape.now.states shape.now.width letters.now }
{
    match hint.side {
        Side::Right => rules_out_closing(Side::Right, shape, letters, hint),
        Side::Left => rules_out_closing(Side::Left, shape, letters, hint),
    }
}
