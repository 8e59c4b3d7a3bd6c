//! Checks a list of sets of nodes, which proves that a rule is surjective. A step on a letter leads from a set of nodes
//! to the set of all nodes that edges with this label reach from it. In version 1 of certificates, each step from a
//! listed set must lead to a listed set. In versions 2 and 3, it must lead to a set that contains a listed set.

ghost use Rattle.std.specs.Prelude.{◌≢◌, ◌<◌, ℕ, List, length, slice_index, MatchOption, ◌↔◌, IsTrue};
ghost use Rattle.word_image.specs.Graphs.{full_set};
ghost use Rattle.word_image.specs.Edges.{AreEdgeRows};
ghost use Rattle.cert_conditions.specs.Breaches.{EachBelow, IsFirstBreach};
ghost use Rattle.cert_conditions.specs.Sets.{HasPart, IsKept, StepIsKept};
ghost use Rattle.cert_check.specs.Rows.{AreKept};
ghost use Rattle.cert_check.specs.Checks.{IsChecked, FirstBreach};

use crate::marks::Marks;
use cert_conditions::{Condition, Refusal};
use cert_values::{Cert, CertVersion, SurjectivePart};
use word_image::{EdgeRows, Rule, Side, edge_rows, step};

/// The greatest number of listed sets for which each step is compared with each listed set. If there are more, it takes
/// less time to mark once, for all 65,536 sets, which of them a step may reach.
const FEW: usize = 256;

/// Checks that the set of all nodes is listed. Otherwise returns the refusal `NoFull`.
pub fn full_listed(cert: &Cert) -> Result<(), Refusal>
    ensures { IsChecked cert.now Condition.FullListed result }
{
    match &cert.surjective {
        SurjectivePart::Sets(sets) => {
            if sets.as_slice().contains(&cert.rule.all_nodes()) {
                Ok(())
            } else {
                Err(Refusal::NoFull)
            }
        }
        SurjectivePart::Pairs(_) | SurjectivePart::Orphan(_) => Ok(()),
    }
}

/// Checks that no listed set is empty. Otherwise returns a refusal with the place of the first empty set.
pub fn none_empty(cert: &Cert) -> Result<(), Refusal>
    ensures { IsChecked cert.now Condition.NoneEmpty result }
{
    match &cert.surjective {
        SurjectivePart::Sets(sets) => match first_empty(sets.as_slice()) {
            Some(place) => Err(Refusal::EmptySet(place)),
            None => Ok(()),
        },
        SurjectivePart::Pairs(_) | SurjectivePart::Orphan(_) => Ok(()),
    }
}

/// Checks that each step from a listed set leads to a set that the version allows: a listed set, or in versions 2 and 3
/// a set that contains a listed set. Otherwise returns a refusal: the place of the first listed set that has a step to any
/// other set, and the first letter of such a step.
pub fn closed(cert: &Cert) -> Result<(), Refusal>
    ensures { IsChecked cert.now Condition.Closed result }
{
    match &cert.surjective {
        SurjectivePart::Sets(sets) => {
            let edges = edge_rows(&cert.rule, Side::Right);
            match first_open(cert.version, &cert.rule, &edges, sets.as_slice()) {
                Some((place, letter)) => Err(Refusal::NotClosed(place, letter)),
                None => Ok(()),
            }
        }
        SurjectivePart::Pairs(_) | SurjectivePart::Orphan(_) => Ok(()),
    }
}

/// Returns the place of the first empty set of a list, or None if no set is empty.
fn first_empty(sets: &[u16]) -> Option<usize>
    ensures { FirstBreach (length sets.now) (λ i. slice_index sets.now i ≢ 0) result }
{
    sets.iter().position(|set| *set == 0)
}

/// Returns the place of the first listed set with a step to a set that the version doesn't allow, and the first letter
/// of such a step. Returns None if there is no such set.
fn first_open(
    version: CertVersion,
    rule: &Rule,
    edges: &EdgeRows,
    sets: &[u16],
) -> Option<(usize, u8)>
    requires { AreEdgeRows Side.Right rule.now edges.now }
    ensures { MatchOption result
        (EachBelow (length sets.now) (λ i. EachBelow rule.now.states (StepIsKept version rule.now sets.now (slice_index sets.now i))))
        (λ (i, a). IsFirstBreach (length sets.now) (λ i. EachBelow rule.now.states (StepIsKept version rule.now sets.now (slice_index sets.now i))) i
        × IsFirstBreach rule.now.states (StepIsKept version rule.now sets.now (slice_index sets.now i)) a) }
{
    if sets.len() <= FEW {
        return first_open_of_few(version, rule, edges, sets);
    }
    let kept = Marks::kept(version, rule.all_nodes(), sets);
    let mut closed = Marks::new();
    for (place, set) in sets.iter().enumerate() {
        if closed.has(*set) {
            continue;
        }
        if let Some(letter) = first_not_kept(rule, edges, &kept, *set) {
            return Some((place, letter));
        }
        closed.mark(*set);
    }
    None
}

/// Returns the first letter on which a step leads from a set to an unmarked set, or None if there is no such letter.
fn first_not_kept(rule: &Rule, edges: &EdgeRows, kept: &Marks, set: u16) -> Option<u8>
    requires { AreEdgeRows Side.Right rule.now edges.now }
    ensures { (version : CertVersion) (sets : List ℕ) → AreKept version (full_set rule.now) sets kept.now.rows → FirstBreach rule.now.states (StepIsKept version rule.now sets set) result }
{
    for letter in 0..rule.k() {
        if !kept.has(step(rule, edges, set, letter)) {
            return Some(letter);
        }
    }
    None
}

/// Returns the place of the first listed set with a step that breaks the condition, and the letter of this step, or
/// None if there is no such step. It compares each step with each listed set, so the list must be short.
fn first_open_of_few(
    version: CertVersion,
    rule: &Rule,
    edges: &EdgeRows,
    sets: &[u16],
) -> Option<(usize, u8)>
    requires { AreEdgeRows Side.Right rule.now edges.now }
    ensures { MatchOption result
        (EachBelow (length sets.now) (λ i. EachBelow rule.now.states (StepIsKept version rule.now sets.now (slice_index sets.now i))))
        (λ (i, a). IsFirstBreach (length sets.now) (λ i. EachBelow rule.now.states (StepIsKept version rule.now sets.now (slice_index sets.now i))) i
        × IsFirstBreach rule.now.states (StepIsKept version rule.now sets.now (slice_index sets.now i)) a) }
{
    for (place, set) in sets.iter().enumerate() {
        if let Some(letter) = first_outside(version, rule, edges, sets, *set) {
            return Some((place, letter));
        }
    }
    None
}

/// Returns the first letter on which a step leads from a set to a set that the version doesn't allow, or None if there
/// is none.
fn first_outside(
    version: CertVersion,
    rule: &Rule,
    edges: &EdgeRows,
    sets: &[u16],
    set: u16,
) -> Option<u8>
    requires { AreEdgeRows Side.Right rule.now edges.now }
    ensures { FirstBreach rule.now.states (StepIsKept version rule.now sets.now set) result }
{
    for letter in 0..rule.k() {
        if !is_kept(version, sets, step(rule, edges, set, letter)) {
            return Some(letter);
        }
    }
    None
}

/// Returns whether the version allows that a step leads to this set: the set is listed, or in versions 2 and 3 contains
/// a listed set.
fn is_kept(version: CertVersion, sets: &[u16], set: u16) -> bool
    ensures { IsTrue result ↔ IsKept version sets.now set }
{
    match version {
        CertVersion::One => sets.contains(&set),
        CertVersion::Two | CertVersion::Three => has_part(sets, set),
    }
}

/// Returns whether a set contains a listed set.
fn has_part(sets: &[u16], set: u16) -> bool
    ensures { IsTrue result ↔ HasPart sets.now set }
{
    sets.iter().any(|part| *part & set == *part)
}
