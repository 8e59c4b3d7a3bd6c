//! Finds the least determined window of a rule. The window (n, c) is determined if words of n + m - 1 letters with the
//! same image have the same letter at place c. Their image has n letters.
ghost use Rattle.std.specs.Prelude.{◌≡◌, ◌+◌, ◌<◌, ◌≤◌, ◌↔◌, ℕ, IfSome, IsSome, MatchOption};
ghost use Rattle.std.specs.Option.{option_map};
ghost use Rattle.word_image.specs.Windows.{IsDetermined, IsLeastDetermined};
ghost use Rattle.word_image.specs.Words.{IsSurjective};
ghost use Rattle.tail_config.specs.Tails.{IsInjective};
ghost use Rattle.inverse_window.specs.FirstWindows.{IsEarlier, IsFirstWindowOf, most_window, most_start};

use crate::starts::{later, past_ranks, start_past, starts_by_rank};
use crate::verdicts::is_injective;
use pair_rank::Ranks;
use word_image::Rule;

/// A window of an inverse map: n letters of the image, and the letter of the word that they determine. Windows are
/// ordered by n, then by c.
#[derive(Clone, Copy, Debug, PartialEq, Eq, PartialOrd, Ord)]
pub struct WindowAt {
    /// The number of letters of the image that determine the letter of the word.
    pub n: u16,
    /// The place of the letter among the n + m - 1 letters of the word.
    pub c: u16,
}

/// Returns the least determined window of a rule, or None if there is none. There is none if and only if the rule isn't
/// injective. A rule that has a determined window is also surjective. The n of the window is at most 240. Needs no
/// memory.
pub fn window(rule: &Rule, ranks: &Ranks) -> Option<WindowAt>
    requires of_rule { ranks.now ≡ rule.now }
    ensures injective { IsSome result ↔ IsInjective rule.now }
    ensures surjective { IsSome result → IsSurjective rule.now }
    ensures least { MatchOption result ((n c : ℕ) → ¬ IsDetermined rule.now n c) (λ w. IsLeastDetermined rule.now w.n w.c) }
    ensures most { IfSome result (λ w. w.n ≤ most_window) }
{
    if !is_injective(ranks.endless()) {
        return None;
    }
    let mut first = first_within(rule, ranks);
    for place in 1..rule.m() - 1 {
        let start = start_past(rule, ranks, place);
        first = earlier(first, window_past(place, start));
    }
    first
}

/// Returns the least determined window (n, c) with c ≤ n, or None if there is none.
fn first_within(rule: &Rule, ranks: &Ranks) -> Option<WindowAt>
    requires of_rule { ranks.now ≡ rule.now }
    ensures first { IsFirstWindowOf rule.now (λ n c. c < n + 1) result }
    ensures most { IfSome result (λ w. w.n ≤ most_window) }
{
    let past = past_ranks(ranks);
    let starts = starts_by_rank(rule, ranks, past);
    let mut start = Some(0);
    let mut first = None;
    for c in (0..=past).rev() {
        start = later(start, starts[usize::from(c)]);
        first = earlier(first, window_within(c, start));
    }
    first
}

/// Returns the window (c + start, c). Of its c + `start` letters of the image, c letters come before the place c, and
/// `start` letters begin there. Returns None if `start` is None.
fn window_within(c: u16, start: Option<u16>) -> Option<WindowAt>
    requires place { c ≤ most_start }
    requires most { IfSome start (λ n. n ≤ most_start) }
    ensures window { result ≡ option_map (λ n. record { n = c + n; c = c }) start }
    ensures most { IfSome result (λ w. w.n ≤ most_window) }
{
    Some(WindowAt { n: c + start?, c })
}

/// Returns the window (n, n + place) for n = `start`. The letter that this window determines is the letter at `place`
/// of the word's last m - 1 letters. Returns None if `start` is None.
fn window_past(place: u8, start: Option<u16>) -> Option<WindowAt>
    requires most { IfSome start (λ n. n ≤ most_start) }
    ensures window { result ≡ option_map (λ n. record { n = n; c = n + place }) start }
    ensures most { IfSome result (λ w. w.n ≤ most_window) }
{
    let n = start?;
    Some(WindowAt {
        n,
        c: n + u16::from(place),
    })
}

/// Returns the lesser of two windows. If only one of them exists, returns this one. Returns None if both are None.
fn earlier(a: Option<WindowAt>, b: Option<WindowAt>) -> Option<WindowAt>
    ensures { IsEarlier a b result }
{
    match (a, b) {
        (Some(a), Some(b)) => Some(a.min(b)),
        (a, b) => a.or(b),
    }
}
