//! The search for the least rule that colourings make from a rule, that is, the rule with the least Wolfram number.
//!
//! A colouring gives each letter a new name, which is called its colour, and says whether the rule is mirrored first. A
//! colour is free as long as the search hasn't chosen a letter for it. The tables are compared from the greatest window
//! down, since the entry for this window counts most in a Wolfram number.
ghost use Rattle.std.specs.Prelude.{◌≡◌, ◌⊎◌, ◌<◌, ◌≤◌, ◌+◌, ◌*◌, IfSome, IsNone, IsTrue, IsFalse};
ghost use Rattle.word_image.specs.LocalRules.{IsRule, node_count};
ghost use Rattle.rule_classes.specs.Best.{IsBest};
ghost use Rattle.rule_classes.specs.Colourings.{AgreeFrom, Completes, IsChosen, IsColouring, IsLeastColouring, recoloured_number};
ghost use Rattle.rule_classes.specs.declared.colourings.Colouring.{Colouring};

use crate::best::Best;
use crate::colourings::Colouring;
use word_image::{Rule, Side};

/// Tries all colourings that have the same letters as `colouring` at the colours that aren't free. The colours from
/// `low` to `high - 1` are free. If one of these colourings makes a rule that is less than the best rule, replaces the
/// best rule by the least such rule. The search chooses a letter for the greatest and for the least free colour in
/// turn. It leaves a branch as soon as none of its rules can be less than the best one.
pub fn least_of(rule: &Rule, colouring: Colouring, low: u8, high: u8, best: &mut Best)
    requires states { rule.now.states ≤ 6 }
    requires colouring { IsColouring rule.now.states colouring }
    requires best { IsBest rule.now best.old }
    requires free { low ≤ high }
    requires high { high ≤ rule.now.states }
    ensures best { IsBest rule.now best.new }
    ensures least { IsLeastColouring rule.now colouring low high best.old.colouring best.new.colouring }
{
    let k = rule.k();
    if high - low <= 1 {
        take_lesser(rule, colouring, best);
        return;
    }
    if !may_be_less(rule, &colouring, low, high, best) {
        return;
    }
    for colour in low..high {
        if low + high == k {
            let next = colouring.exchanged(k, high - 1, colour);
            least_of(rule, next, low, high - 1, best);
        } else {
            let next = colouring.exchanged(k, low, colour);
            least_of(rule, next, low + 1, high, best);
        }
    }
}

/// Replaces the best rule by the rule of this colouring if that rule is less.
fn take_lesser(rule: &Rule, colouring: Colouring, best: &mut Best)
    requires rule { IsRule rule.now }
    requires states { rule.now.states ≤ 6 }
    requires colouring { IsColouring rule.now.states colouring }
    requires best { IsBest rule.now best.old }
    ensures best { IsBest rule.now best.new }
    ensures least { IsLeastColouring rule.now colouring 0 0 best.old.colouring best.new.colouring }
{
    if colouring != best.colouring && is_less(rule, &colouring, best) {
        best.take(rule, colouring);
    }
}

/// Returns false only if no colouring with the same letters at the chosen colours makes a rule that is less than the
/// best one. Compares only windows whose letters are all known: at each place except the last they have the greatest
/// colour, and at the last place a colour from `high` on.
fn may_be_less(rule: &Rule, colouring: &Colouring, low: u8, high: u8, best: &Best) -> bool
    requires states { rule.now.states ≤ 6 }
    requires colouring { IsColouring rule.now.states colouring.now }
    requires best { IsBest rule.now best.now }
    requires high { high ≤ rule.now.states }
    ensures no_less { IsFalse result → (d : Colouring) → Completes rule.now.states colouring.now low high d →
        recoloured_number rule.now best.now.colouring ≤ recoloured_number rule.now d }
    ensures rule { IsRule rule.now }
{
    if high == rule.k() {
        return true;
    }
    match compare_row(rule, colouring, low, high, best, rule.nodes() - 1, high) {
        Some(less) => less,
        None => true,
    }
}

/// Returns whether a colouring makes a rule that is less than the best one.
fn is_less(rule: &Rule, colouring: &Colouring, best: &Best) -> bool
    requires rule { IsRule rule.now }
    requires states { rule.now.states ≤ 6 }
    requires colouring { IsColouring rule.now.states colouring.now }
    requires best { IsBest rule.now best.now }
    ensures less { IsTrue result → recoloured_number rule.now colouring.now < recoloured_number rule.now best.now.colouring }
    ensures no_less { IsFalse result → recoloured_number rule.now best.now.colouring ≤ recoloured_number rule.now colouring.now }
{
    for node in (0..rule.nodes()).rev() {
        if let Some(less) = compare_row(rule, colouring, 0, 0, best, node, 0) {
            return less;
        }
    }
    false
}

/// Compares the tables of a colouring and of the best colouring for the windows that begin with `node`. The last letter
/// of these windows goes from k - 1 down to `first`. At the first difference, returns whether the colouring may make
/// the lesser rule. Returns None if there is no difference. If an entry has a free colour, its final colour isn't
/// known, but it is at least the least free colour.
fn compare_row(
    rule: &Rule,
    colouring: &Colouring,
    low: u8,
    high: u8,
    best: &Best,
    node: u8,
    first: u8,
) -> Option<bool>
    requires states { rule.now.states ≤ 6 }
    requires colouring { IsColouring rule.now.states colouring.now }
    requires best { IsBest rule.now best.now }
    requires high { high ≤ rule.now.states }
    requires node { node < node_count rule.now }
    requires first { first ≤ rule.now.states }
    requires known { (low ≡ high) ⊎ ((node + 1 ≡ node_count rule.now) × (high ≤ first)) }
    requires agree { AgreeFrom rule.now colouring.now low high best.now.colouring ((node + 1) * rule.now.states) }
    ensures same { IsNone result → AgreeFrom rule.now colouring.now low high best.now.colouring (node * rule.now.states + first) }
    ensures less { IfSome result (λ less. IsTrue less → low ≡ high →
        recoloured_number rule.now colouring.now < recoloured_number rule.now best.now.colouring) }
    ensures no_less { IfSome result (λ less. IsFalse less → (d : Colouring) → Completes rule.now.states colouring.now low high d →
        recoloured_number rule.now best.now.colouring ≤ recoloured_number rule.now d) }
{
    let k = rule.k();
    let back = colouring.old_window(rule, u16::from(node));
    let row = colouring.row(rule, back);
    for letter in (first..k).rev() {
        let window = Side::Right.window_with(rule, node, letter);
        let (_, colour) = colouring.read(rule, row, letter);
        let other = best.entries[usize::from(window)];
        if is_free(low, high, colour) {
            return Some(low <= other);
        }
        if colour != other {
            return Some(colour < other);
        }
    }
    None
}

/// Returns whether a colour is free: whether it is at least `low` and below `high`.
fn is_free(low: u8, high: u8, colour: u8) -> bool
    ensures free { IsTrue result → (low ≤ colour) × (colour < high) }
    ensures chosen { IsFalse result → IsChosen low high colour }
{
    low <= colour && colour < high
}
