//! Finds the least look-aheads of a rule.
//!
//! A number n is a right look-ahead if m - 1 letters of a word and the next n letters of its image determine the next
//! letter of the word. A first pair consists of two nodes that two different letters reach from the same node, along
//! edges with equal labels. Its rank is the greatest length of two walks with equal labels that begin at its nodes. A
//! pair without a greatest length is endless. On the left side everything is mirrored.

ghost use Rattle.std.specs.Prelude.{◌≡◌, ◌^◌, ◌<◌, ◌≤◌, ◌↔◌, ℕ, IsSome, IfSome, IfNone, MatchOption};
ghost use Rattle.word_image.specs.LocalRules.{IsRule, mirrored};
ghost use Rattle.word_image.specs.Words.{IsSurjective};
ghost use Rattle.word_image.specs.Windows.{IsRightAhead, IsLeastRightAhead};
ghost use Rattle.tail_config.specs.Tails.{IsRightClosing, IsLeftClosing};
ghost use Rattle.word_image.specs.Sides.{PairGoes, seen_from, IsLeftAhead};
ghost use Rattle.pair_laws.specs.FirstWindows.{HasEndlessFirst};
ghost use Rattle.tail_laws.specs.Closing.{IsClosing};
ghost use Rattle.closing_test.specs.Closing.{most_ahead};
ghost use Rattle.closing_test.specs.LeastAheads.{IsLeastFor, IsFirstAt, IsFirstWith};

use crate::ends::first_nodes;
use pair_rank::Ranks;
use word_image::{Rule, Side};

/// Returns the least right look-ahead, at most 121, or None if there is none, which means that the rule isn't
/// right-closing. `ranks` must be the ranks of the rule. Every rule that has a look-ahead is surjective.
pub fn ahead_right(rule: &Rule, ranks: &Ranks) -> Option<u16>
    requires { ranks.now ≡ rule.now }
    ensures closing { IsSome result ↔ IsRightClosing rule.now }
    ensures surjective { IsSome result → IsSurjective rule.now }
    ensures least { IfSome result (IsLeastRightAhead rule.now) }
    ensures none { IfNone result ((n : ℕ) → ¬ IsRightAhead rule.now n) }
    ensures most { IfSome result (λ n. n ≤ most_ahead) }
    ensures rule { IsRule rule.now }
{
    least_ahead(Side::Right, rule, ranks)
}

/// Returns the least left look-ahead, at most 121, or None if there is none, which means that the rule isn't
/// left-closing. The least left look-ahead is the least right look-ahead of the mirrored rule. `ranks` must be the
/// ranks of the rule. Every rule that has a look-ahead is surjective.
pub fn ahead_left(rule: &Rule, ranks: &Ranks) -> Option<u16>
    requires { ranks.now ≡ rule.now }
    ensures closing { IsSome result ↔ IsLeftClosing rule.now }
    ensures surjective { IsSome result → IsSurjective rule.now }
    ensures least { IfSome result (IsLeastRightAhead (mirrored rule.now)) }
    ensures none { IfNone result ((n : ℕ) → ¬ IsLeftAhead rule.now n) }
    ensures most { IfSome result (λ n. n ≤ most_ahead) }
    ensures rule { IsRule rule.now }
{
    least_ahead(Side::Left, rule, ranks)
}

/// Returns the least look-ahead on a side: 2 more than the greatest rank of a first pair, or 1 if there is no first
/// pair. Returns None if some first pair is endless.
fn least_ahead(side: Side, rule: &Rule, ranks: &Ranks) -> Option<u16>
    requires { ranks.now ≡ rule.now }
    ensures closing { IsSome result ↔ IsClosing side rule.now }
    ensures least { IfSome result (IsLeastRightAhead (seen_from side rule.now)) }
    ensures none { IfNone result ((n : ℕ) → ¬ IsRightAhead (seen_from side rule.now) n) }
    ensures most { IfSome result (λ n. n ≤ most_ahead) }
    ensures rule { IsRule rule.now }
{
    let mut ahead = 1;
    for window in 0..rule.size() {
        ahead = ahead.max(ahead_at(side, rule, ranks, window)?);
    }
    Some(ahead)
}

/// Returns 2 more than the greatest rank of a first pair that this window forms with another window. The nodes of the
/// pair are the ends of the two windows. Returns 1 if there is no such pair, and None if such a pair is endless.
fn ahead_at(side: Side, rule: &Rule, ranks: &Ranks, window: u16) -> Option<u16>
    requires ranks { ranks.now ≡ rule.now }
    requires window { window < rule.now.states ^ rule.now.width }
    ensures least { MatchOption result (HasEndlessFirst side rule.now) (IsLeastFor (IsFirstAt side rule.now window) (PairGoes side rule.now)) }
    ensures most { IfSome result (λ n. n ≤ most_ahead) }
{
    let mut ahead = 1;
    for letter in 0..rule.k() {
        ahead = ahead.max(ahead_with(side, rule, ranks, window, letter)?);
    }
    Some(ahead)
}

/// Returns 2 more than the rank of the first pair that this window forms with the window that has `letter` at its end.
/// Returns 1 if they don't form a first pair, and None if the pair is endless.
fn ahead_with(side: Side, rule: &Rule, ranks: &Ranks, window: u16, letter: u8) -> Option<u16>
    requires ranks { ranks.now ≡ rule.now }
    requires window { window < rule.now.states ^ rule.now.width }
    requires letter { letter < rule.now.states }
    ensures least { MatchOption result (HasEndlessFirst side rule.now) (IsLeastFor (IsFirstWith side rule.now window letter) (PairGoes side rule.now)) }
    ensures most { IfSome result (λ n. n ≤ most_ahead) }
{
    let Some((u, v)) = first_nodes(side, rule, window, letter) else {
        return Some(1);
    };
    let rank = ranks.rank(side, u, v)?;
    Some(rank + 2)
}
