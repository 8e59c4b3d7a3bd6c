//! Walks as lists of pairs of letters, which are stored as bytes: the pair (a, b) is the number 16 a + b. Each pair of
//! letters is a step of the walk.

ghost use Rattle.std.specs.Prelude.{◌≡◌, ◌≤◌, ◌/◌, ◌%◌, length, map, MatchOption, if◌then◌else◌};
ghost use Rattle.std.specs.Ordering.{is_lt};
ghost use Rattle.word_image.specs.LocalRules.{most_states};
ghost use Rattle.word_image.specs.Words.{word_cmp};

use short_words::{MOST_LETTERS, ShortPair, ShortWord};

/// Returns the two words that the steps of a walk spell: the word of the first letters of its pairs, and the word of
/// the second letters. The walk has at most 520 steps.
pub fn spelled(steps: &[u8]) -> ShortPair
    requires { length steps.now ≤ MOST_LETTERS }
    ensures first { result.x ≡ map (λ step. step / most_states) steps.now }
    ensures second { result.y ≡ map (λ step. step % most_states) steps.now }
{
    let mut x = ShortWord::new();
    let mut y = ShortWord::new();
    for step in steps {
        x.push(*step / 16);
        y.push(*step % 16);
    }
    ShortPair { x, y }
}

/// Returns the lesser of the walks `first` and `other`, or `other` if there is no `first`. Shorter walks are less, and
/// walks of equal length are in dictionary order.
pub fn earlier(first: Option<ShortWord>, other: ShortWord) -> ShortWord
    ensures { MatchOption first (result ≡ other) (λ old. result ≡ (if is_lt (word_cmp other old) then other else old)) }
{
    match first {
        Some(steps) if !is_before(other.as_slice(), steps.as_slice()) => steps,
        _ => other,
    }
}

/// Returns whether the walk `steps` is less than the walk `other`: shorter, or of equal length and first in dictionary
/// order.
fn is_before(steps: &[u8], other: &[u8]) -> bool
    ensures { result ≡ is_lt (word_cmp steps.now other.now) }
{
    steps
        .len()
        .cmp(&other.len())
        .then_with(|| steps.cmp(other))
        .is_lt()
}
