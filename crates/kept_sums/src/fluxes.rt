//! Finds the flux that shows that a rule keeps a sum of weights of words.
//!
//! There is a weight for each word of `range` letters. A window here has m + range - 1 letters. Its gain is the weight
//! of its image minus the weight of its first `range` letters. A flux has a number for each word of m + range - 2
//! letters. The gain of each window is the number of its first m + range - 2 letters minus the number of its last
//! m + range - 2 letters.
ghost use Rattle.std.specs.Prelude.{◌≡◌, ℕ, ◌+◌, ◌-◌, ◌*◌, ◌^◌, ◌<◌, ◌≤◌, ◌↔◌, slice_index, ℤ, pos, ◌-ℤ◌, IfSome, IsSome, IsTrue};
ghost use Rattle.std.specs.Int.RustNames.{unsigned_abs};
ghost use Rattle.word_image.specs.LocalRules.{value, word_of};
ghost use Rattle.word_image.specs.Words.{image};
ghost use Rattle.kept_sums.specs.Sums.{IsKept};
ghost use Rattle.kept_sums.specs.Rows.{at, IsSmall};
ghost use Rattle.kept_sums.specs.Fluxes.{IsFluxList, AreGains, IsFlowBy, window_gain};

use crate::rows::Row;
use word_image::{Rule, value_by};

/// The greatest number of words of m + range - 2 letters. For example, two states have 128 words of seven letters.
pub const MOST_FLOWS: usize = 128;

/// The greatest number of windows of m + range - 1 letters.
const MOST_WINDOWS: usize = 256;

/// The number of each word of m + range - 2 letters, at the word's value. Zeros follow the numbers of the words.
pub type Flux = [i64; MOST_FLOWS];

/// The gain of each window of m + range - 1 letters, at the window's value. Zeros follow the gains of the windows.
type Gains = [i64; MOST_WINDOWS];

/// Returns the flux of these weights of words of `range` letters (Hattori and Takesue 1991). It is the flux that is 0
/// for the word of zeros. Returns None if the rule doesn't keep the sum of the weights. The weights are from -2^56 to
/// 2^56.
#[tactic(auto, using(crate::proofs::laws::Ranges::short))]
pub fn flux(rule: &Rule, range: u8, weights: &Row) -> Option<Flux>
    requires some { 1 ≤ range }
    requires few { rule.now.states ^ range ≤ 16 }
    requires small { IsSmall weights.now }
    ensures flux { IfSome result (IsFluxList range (at weights.now) rule.now) }
    ensures kept { IsSome result ↔ IsKept range (at weights.now) rule.now }
{
    let k = u16::from(rule.k());
    let letters = rule.m() + range - 2;
    let gains = gains(rule, range, weights);
    let flux = numbers(k, letters, &gains);
    if flow_by(k, letters, &gains, &flux) {
        Some(flux)
    } else {
        None
    }
}

/// Returns whether each ring has the same sum of these weights of words of `range` letters as its image.
pub(crate) fn is_kept(rule: &Rule, range: u8, weights: &Row) -> bool
    requires some { 1 ≤ range }
    requires few { rule.now.states ^ range ≤ 16 }
    requires small { IsSmall weights.now }
    ensures { IsTrue result ↔ IsKept range (at weights.now) rule.now }
{
    flux(rule, range, weights).is_some()
}

/// Returns the gain of each window of m + range - 1 letters, at the window's value.
#[tactic(auto, using(crate::proofs::laws::Ranges::short))]
fn gains(rule: &Rule, range: u8, weights: &Row) -> Gains
    requires some { 1 ≤ range }
    requires few { rule.now.states ^ range ≤ 16 }
    requires small { IsSmall weights.now }
    ensures { AreGains rule.now range (at weights.now) result }
{
    let k = u16::from(rule.k());
    let letters = u32::from(rule.m() + range - 1);
    let mut gains = [0; MOST_WINDOWS];
    for window in 0..k.pow(letters) {
        gains[usize::from(window)] = gain(rule, range, weights, window);
    }
    gains
}

/// Returns the gain of a window of m + range - 1 letters: the weight of its image minus the weight of its first
/// `range` letters. The image has `range` letters.
fn gain(rule: &Rule, range: u8, weights: &Row, window: u16) -> i64
    requires some { 1 ≤ range }
    requires few { rule.now.states ^ range ≤ 16 }
    requires small { IsSmall weights.now }
    requires window { window < rule.now.states ^ (rule.now.width + range - 1) }
    ensures gain { result ≡ window_gain rule.now range (at weights.now) (word_of rule.now.states (rule.now.width + range - 1) window) }
    ensures most { unsigned_abs result ≤ 2 ^ 57 }
{
    let after = image_value(rule, range, window);
    let before = window / u16::from(rule.nodes());
    weights[usize::from(after)] - weights[usize::from(before)]
}

/// Returns the value of the image of a window of m + range - 1 letters. The image has `range` letters.
fn image_value(rule: &Rule, range: u8, window: u16) -> u16
    requires some { 1 ≤ range }
    requires few { rule.now.states ^ range ≤ 16 }
    requires window { window < rule.now.states ^ (rule.now.width + range - 1) }
    ensures value { result ≡ value rule.now.states (image rule.now (word_of rule.now.states (rule.now.width + range - 1) window)) }
    ensures few { result < 16 }
{
    value_by(
        rule.k(),
        range,
        |start| image_letter(rule, range, window, start),
    )
}

/// Returns the letter at place `start` of the image of a window of m + range - 1 letters. The image has `range`
/// letters.
fn image_letter(rule: &Rule, range: u8, window: u16, start: u8) -> u8
    requires few { rule.now.states ^ range ≤ 16 }
    requires window { window < rule.now.states ^ (rule.now.width + range - 1) }
    requires start { start < range }
    ensures { result ≡ slice_index (image rule.now
        (word_of rule.now.states (rule.now.width + range - 1) window)) start }
{
    let behind = u16::from(rule.k()).pow(u32::from(range - 1 - start));
    rule.at(window / behind % rule.size())
}

/// Returns the numbers of the flux, if there is one, that is 0 for the word of zeros. The flux has a number for each
/// word of `letters` letters: the negative of the sum of the gains along the walk from the word of zeros to this word.
fn numbers(k: u16, letters: u8, gains: &Gains) -> Flux
    requires states { 2 ≤ k }
    requires few { k ^ (letters + 1) ≤ 256 }
    requires short { letters ≤ 7 }
    requires bounds { (v : ℕ) → v < 256 → unsigned_abs (at gains.now v) ≤ 2 ^ 57 }
    ensures numbers { (phi : ℕ → ℤ) → IsFlowBy k letters (at gains.now) phi → (v : ℕ) → v < k ^ letters → at result v ≡ phi v -ℤ phi 0 }
    ensures bounds { (v : ℕ) → v < 128 → unsigned_abs (at result v) ≤ 7 * 2 ^ 57 }
    ensures first { at result 0 ≡ pos 0 }
    ensures ends { (v : ℕ) → k ^ letters ≤ v → v < 128 → at result v ≡ pos 0 }
{
    let mut flux = [0; MOST_FLOWS];
    // The window of a 0 and a word has the value of this word. It leads from the word with the value word / k to the
    // word.
    for word in 1..k.pow(u32::from(letters)) {
        flux[usize::from(word)] = flux[usize::from(word / k)] - gains[usize::from(word)];
    }
    flux
}

/// Returns whether these numbers are a flux: whether the gain of each window is the number of its first letters minus
/// the number of its last letters. There is a number for each word of `letters` letters, and a window has one letter
/// more.
fn flow_by(k: u16, letters: u8, gains: &Gains, flux: &Flux) -> bool
    requires states { 2 ≤ k }
    requires few { k ^ (letters + 1) ≤ 256 }
    requires gains { (v : ℕ) → v < 256 → unsigned_abs (at gains.now v) ≤ 2 ^ 57 }
    requires flux { (v : ℕ) → v < 128 → unsigned_abs (at flux.now v) ≤ 7 * 2 ^ 57 }
    ensures { IsTrue result ↔ IsFlowBy k letters (at gains.now) (at flux.now) }
{
    let words = k.pow(u32::from(letters));
    for window in 0..words * k {
        let first = flux[usize::from(window / k)];
        let last = flux[usize::from(window % words)];
        if gains[usize::from(window)] != first - last {
            return false;
        }
    }
    true
}
