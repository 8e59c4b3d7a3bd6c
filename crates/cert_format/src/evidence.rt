//! Functions that read evidence about each property of a rule from a JSON object. The error `Shape` means that the
//! value isn't such evidence. The only other error is lack of memory.
ghost use Rattle.std.specs.Prelude.{◌≡◌, ℕ, ◌+◌, ◌≤◌, ◌↔◌, List, Option, ℤ, length, All, IfOk, IfErr, IfSome, IfNone, IsTrue};
ghost use Rattle.serde_json.specs.View.{view};
ghost use Rattle.word_image.specs.Graphs.{pair_count};
ghost use Rattle.cert_values.specs.Evidence.{SurjectiveEvidence, InjectiveEvidence, SideEvidence, SumEvidence};
ghost use Rattle.cert_values.specs.Parts.{surjective_of, injective_of, side_of, sum_of, IsOver};
ghost use Rattle.cert_format.specs.Readings.{AreNumbers, IsWindowFor, IsAhead, IsFluxFor, IsWeightsFor, IsRowFor, IsSurjectiveFor, IsInjectiveFor, IsSideFor, IsSumFor, AreRanksFor};

use crate::items::{Item, array, array_of};
use crate::members::{only, only_both};
use crate::misread::Misread;
use crate::words::{tails, word, words};
use cert_values::{CertVersion, InjectivePart, SidePart, SumPart, SurjectivePart};
use serde_json::Value;
use std::alloc::Global;
use word_image::{FluxRow, RankRow, Rule, SetList, Weights};

/// Reads the evidence about surjectivity: `{"sets":[..]}` or `{"orphan":".."}`, or `{"pairs":[..]}` if this version may
/// list pairs. Returns the error `Shape` for any other value.
pub fn surjective(
    alloc: Global,
    version: CertVersion,
    rule: &Rule,
    value: &Value,
) -> Result<SurjectivePart, Misread>
    ensures part { IfOk result (λ p. IsSurjectiveFor version rule.now (view value.now) (surjective_of p)) }
    ensures none { IfErr result (λ f. f ≡ Misread.Shape
        → (e : SurjectiveEvidence) → ¬ IsSurjectiveFor version rule.now (view value.now) e) }
{
    if let Some(listed) = only(value, "sets") {
        let sets = numbers(alloc, rule.all_nodes(), listed)?;
        return Ok(SurjectivePart::Sets(sets));
    }
    if version.lists_pairs() {
        if let Some(listed) = only(value, "pairs") {
            let pairs = numbers(alloc, last_pair(rule), listed)?;
            return Ok(SurjectivePart::Pairs(pairs));
        }
    }
    let Some(orphan) = only(value, "orphan") else {
        return Err(Misread::Shape);
    };
    Ok(SurjectivePart::Orphan(word(alloc, rule.k(), orphan)?))
}

/// Returns the greatest number of a pair of nodes of a rule.
fn last_pair(rule: &Rule) -> u16
    ensures { result + 1 ≡ pair_count rule.now }
{
    rule.pairs() - 1
}

/// Reads an array of numbers that are at most `most`. Returns the error `Shape` for any other value.
fn numbers(alloc: Global, most: u16, value: &Value) -> Result<SetList, Misread>
    ensures numbers { IfOk result (AreNumbers most (view value.now)) }
    ensures none { IfErr result (λ f. f ≡ Misread.Shape
        → (ns : List ℕ) → ¬ AreNumbers most (view value.now) ns) }
{
    let numbers: Vec<u16> = array(alloc, value)?;
    if !are_within(most, &numbers) {
        return Err(Misread::Shape);
    }
    Ok(SetList::of(numbers))
}

/// Returns whether all numbers are at most `most`.
fn are_within(most: u16, numbers: &[u16]) -> bool
    ensures { IsTrue result ↔ All (λ n. n ≤ most) numbers.now }
{
    numbers.iter().all(|number| *number <= most)
}

/// Reads the evidence about injectivity: `{"c":C,"n":N}` or `{"twins":["..",".."]}`. Returns the error `Shape` for any
/// other value.
pub fn injective(alloc: Global, rule: &Rule, value: &Value) -> Result<InjectivePart, Misread>
    ensures part { IfOk result (λ p. IsInjectiveFor rule.now (view value.now) (injective_of p)) }
    ensures none { IfErr result (λ f. f ≡ Misread.Shape
        → (e : InjectiveEvidence) → ¬ IsInjectiveFor rule.now (view value.now) e) }
{
    if let Some((place, length)) = only_both(value, "c", "n") {
        let Some((n, c)) = window(rule, length, place) else {
            return Err(Misread::Shape);
        };
        return Ok(InjectivePart::Window { n, c });
    }
    let Some(twins) = only(value, "twins") else {
        return Err(Misread::Shape);
    };
    let (x, y) = words(alloc, rule.k(), twins)?;
    Ok(InjectivePart::Twins { x, y })
}

/// Reads the two numbers of a window: n, which is at least 1, and a place c among the n + m - 1 letters of a preimage
/// of n letters. Returns None for other values.
fn window(rule: &Rule, length: &Value, place: &Value) -> Option<(u16, u16)>
    ensures some { IfSome result (λ w.
        IsWindowFor rule.now (view length.now) (view place.now) w.0 w.1) }
    ensures none { IfNone result ((n c : ℕ)
        → ¬ IsWindowFor rule.now (view length.now) (view place.now) n c) }
{
    let n = u16::read(length)?;
    let c = u16::read(place)?;
    if n == 0 || u32::from(c) > u32::from(n) + u32::from(rule.m()) - 2 {
        return None;
    }
    Some((n, c))
}

/// Reads the evidence about closing on a side: `{"ahead":A}` or `{"split":["..",".."]}`. Returns the error `Shape` for
/// any other value.
pub fn side(alloc: Global, rule: &Rule, value: &Value) -> Result<SidePart, Misread>
    ensures states { IfOk result (IsOver (rule.now).states) }
    ensures part { IfOk result (λ p. IsSideFor rule.now (view value.now) (side_of p)) }
    ensures none { IfErr result (λ f. f ≡ Misread.Shape
        → (e : SideEvidence) → ¬ IsSideFor rule.now (view value.now) e) }
{
    if let Some(distance) = only(value, "ahead") {
        let Some(n) = ahead(distance) else {
            return Err(Misread::Shape);
        };
        return Ok(SidePart::Ahead(n));
    }
    let Some(split) = only(value, "split") else {
        return Err(Misread::Shape);
    };
    let (x, y) = tails(alloc, rule.k(), split)?;
    Ok(SidePart::Split(x, y))
}

/// Reads a look-ahead, which is a number of at least 1. Returns None for other values.
fn ahead(value: &Value) -> Option<u16>
    ensures some { IfSome result (IsAhead (view value.now)) }
    ensures none { IfNone result ((n : ℕ) → ¬ IsAhead (view value.now) n) }
{
    let n = u16::read(value)?;
    if n == 0 {
        return None;
    }
    Some(n)
}

/// Reads the evidence about conservation of the sum: `{"flux":[..]}` or `{"ring":".."}`. Returns the error `Shape` for
/// any other value.
pub fn conserving(alloc: Global, rule: &Rule, value: &Value) -> Result<SumPart, Misread>
    ensures part { IfOk result (λ p. IsSumFor rule.now (view value.now) (sum_of p)) }
    ensures none { IfErr result (λ f. f ≡ Misread.Shape
        → (e : SumEvidence) → ¬ IsSumFor rule.now (view value.now) e) }
{
    if let Some(flows) = only(value, "flux") {
        return Ok(SumPart::Flux(flux(alloc, rule, flows)?));
    }
    let Some(ring) = only(value, "ring") else {
        return Err(Misread::Shape);
    };
    Ok(SumPart::Ring(word(alloc, rule.k(), ring)?))
}

/// Reads a flux, which is an array with a number for each node of a rule. Returns the error `Shape` for any other
/// value.
fn flux(alloc: Global, rule: &Rule, value: &Value) -> Result<FluxRow, Misread>
    ensures flux { IfOk result (IsFluxFor rule.now (view value.now)) }
    ensures none { IfErr result (λ f. f ≡ Misread.Shape
        → (phi : List ℤ) → ¬ IsFluxFor rule.now (view value.now) phi) }
{
    let flows = array_of(alloc, usize::from(rule.nodes()), value)?;
    Ok(FluxRow::of(flows))
}

/// Reads an array with a weight for each letter of a rule. Returns the error `Shape` for any other value.
pub fn weights(alloc: Global, rule: &Rule, value: &Value) -> Result<Weights, Misread>
    ensures weights { IfOk result (IsWeightsFor rule.now (view value.now)) }
    ensures none { IfErr result (λ f. f ≡ Misread.Shape
        → (weights : List ℕ) → ¬ IsWeightsFor rule.now (view value.now) weights) }
{
    let numbers: Vec<u8> = array(alloc, value)?;
    match Weights::new(rule.k(), &numbers) {
        Ok(weights) => Ok(weights),
        Err(_) => Err(Misread::Shape),
    }
}

/// Reads the claims, which are bounds of ranks: `{"backward":[..],"forward":[..]}`. Returns the forward claims first.
/// Returns the error `Shape` for any other value.
pub fn ranks(alloc: Global, rule: &Rule, value: &Value) -> Result<(RankRow, RankRow), Misread>
    ensures rows { IfOk result (λ p. AreRanksFor rule.now (view value.now) p.0 p.1) }
    ensures none { IfErr result (λ f. f ≡ Misread.Shape → (forward backward : List (Option ℕ))
        → ¬ AreRanksFor rule.now (view value.now) forward backward) }
{
    let Some((backward, forward)) = only_both(value, "backward", "forward") else {
        return Err(Misread::Shape);
    };
    let backward = row(alloc, rule, backward)?;
    let forward = row(alloc, rule, forward)?;
    Ok((forward, backward))
}

/// Reads an array with a claim for each pair of nodes of a rule: a number, or null if nothing is claimed. Returns the
/// error `Shape` for any other value.
fn row(alloc: Global, rule: &Rule, value: &Value) -> Result<RankRow, Misread>
    ensures row { IfOk result (IsRowFor rule.now (view value.now)) }
    ensures none { IfErr result (λ f. f ≡ Misread.Shape
        → (row : List (Option ℕ)) → ¬ IsRowFor rule.now (view value.now) row) }
{
    let claims = array_of(alloc, usize::from(rule.pairs()), value)?;
    Ok(RankRow::of(claims))
}
