//! Finds the least twins of a rule: two different words of the same length whose rings have the same image.
//!
//! Twins spell a walk of pairs of nodes. The marked graph has each pair of nodes without a mark and with it. A step of
//! a walk sets the mark if its two letters differ.
ghost use Rattle.std.specs.Prelude.{◌≡◌, ◌≤◌, ◌↔◌, ℕ, List, length, IfOk, IfSome, IsNone, MatchOption};
ghost use Rattle.least_walk.specs.Queues.{most_steps};
ghost use Rattle.word_image.specs.LocalRules.{IsRule};
ghost use Rattle.word_image.specs.Graphs.{pair_count};
ghost use Rattle.word_image.specs.Rings.{IsTwins, IsLeastTwins};
ghost use Rattle.tail_config.specs.Tails.{IsInjective};
ghost use Rattle.tail_laws.specs.FirstLists.{IsFirstFound};
ghost use Rattle.tail_laws.specs.Turns.{IsTurn};

use least_walk::{MOST_STEPS, Walker, earlier, spelled};
use pair_graph::Pairs;
use short_words::{ShortPair, ShortWord};
use std::alloc::{AllocError, Global};
use word_image::{Rule, Word};

/// Twins: two different words of the same length whose rings have the same image.
#[derive(Debug, Drop)]
pub struct TwinPair {
    /// The first of the two words.
    pub x: Word,
    /// The second of the two words.
    pub y: Word,
}

/// Returns the least twins of a rule, or None if there are none, which means that the rule is injective. Each word
/// has at most 512 letters. The only error is lack of memory.
pub fn twins(
    alloc: Global,
    rule: &Rule,
    walker: &mut Walker,
) -> Result<Option<TwinPair>, AllocError>
    ensures injective { IfOk result (λ found. IsNone found ↔ IsInjective rule.now) }
    ensures least { IfOk result (λ found. MatchOption found ((x y : List ℕ) → ¬ IsTwins rule.now x y) (λ pair. IsLeastTwins rule.now pair.x pair.y)) }
    ensures most { IfOk result (λ found. IfSome found (λ pair. (length pair.x ≤ most_steps) × (length pair.y ≤ most_steps))) }
{
    match least_twins(&Pairs::of(rule), walker) {
        Some(ShortPair { x, y }) => Ok(Some(TwinPair {
            x: Word::of(x.to_vec(alloc)?),
            y: Word::of(y.to_vec(alloc)?),
        })),
        None => Ok(None),
    }
}

/// Returns the least twins of the rule of these pairs, or None if there are none, which means that the rule is
/// injective. Each word has at most 512 letters.
pub fn least_twins(pairs: &Pairs, walker: &mut Walker) -> Option<ShortPair>
    ensures injective { IsNone result ↔ IsInjective pairs.now }
    ensures least { MatchOption result ((x y : List ℕ) → ¬ IsTwins pairs.now x y) (λ pair. IsLeastTwins pairs.now pair.x pair.y) }
    ensures most { IfSome result (λ pair. (length pair.x ≤ most_steps) × (length pair.y ≤ most_steps)) }
{
    match first_turn(pairs, walker) {
        Some(steps) => Some(spelled(steps.as_slice())),
        None => None,
    }
}

/// Returns the least walk in the marked graph that leads from a pair without the mark to the same pair with the mark.
/// The walk spells the least twins. Returns None if there is no such walk.
fn first_turn(pairs: &Pairs, walker: &mut Walker) -> Option<ShortWord>
    ensures turn { IsFirstFound (IsTurn pairs.now) (pair_count pairs.now) result }
    ensures rule { IsRule pairs.now }
{
    let count = pairs.count();
    let mut first = None;
    for p in 0..count {
        let most = most_steps(&first);
        if let Some(turn) = walker.walk_within(pairs, p, p + count, most) {
            first = Some(earlier(first, ShortWord::of(turn)));
        }
    }
    first
}

/// Returns the greatest number of steps of a walk that can be less than `first`, the least walk so far.
fn most_steps(first: &Option<ShortWord>) -> usize
    ensures { MatchOption first.now (result ≡ most_steps) (λ steps. result ≡ length steps) }
{
    match first {
        Some(steps) => steps.len(),
        None => MOST_STEPS,
    }
}
