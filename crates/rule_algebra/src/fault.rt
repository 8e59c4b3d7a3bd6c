//! The type `AlgebraFault`, and the tests whether a new rule is within the limits of accepted rules.
ghost use Rattle.std.specs.Prelude.{◌≡◌, ◌≤◌, IfOk};
ghost use Rattle.std.specs.Result.{result_err};
ghost use Rattle.word_image.specs.LocalRules.{most_states};
ghost use Rattle.rule_algebra.specs.AlgebraFaults.{offset_fault, limit_fault};
ghost use Rattle.rule_algebra.specs.FaultTexts.{algebra_text};

use word_image::{GREATEST_PLACE, LEAST_PLACE, MOST_NODES, MOST_WIDTH};

/// Why a function of this crate can't make the new rule. It returns the first of these faults that applies.
#[derive(Clone, Copy, Debug, PartialEq, Eq)]
pub enum AlgebraFault {
    /// The two rules have different numbers of states.
    States,
    /// The list of new names isn't a permutation of the k letters.
    NotPermutation,
    /// The width of the new rule would be above 5, or below the width of the given rule.
    Width,
    /// The new rule would have more than 16 words of m - 1 letters.
    Nodes,
    /// The window of the new rule would reach further than 16 cells to the left or to the right.
    Offset,
}

/// Checks the window of a rule with width m and offset o. Returns the offset if the window reaches at most 16 cells to
/// the left and to the right of its cell. Otherwise returns `Offset`.
pub(crate) fn check_offset(m: u8, o: i16) -> Result<i8, AlgebraFault>
    requires { 1 ≤ m }
    ensures fault { result_err result ≡ offset_fault m o }
    ensures offset { IfOk result (λ p. p ≡ o) }
{
    if o < i16::from(LEAST_PLACE) || o > i16::from(GREATEST_PLACE) + 1 - i16::from(m) {
        return Err(AlgebraFault::Offset);
    }
    Ok(o as i8)
}

/// Returns the offset o if a rule of k states may have the width m and this offset. Otherwise returns the first of
/// `Width`, `Nodes` and `Offset` that applies.
pub(crate) fn check_limits(k: u8, m: u8, o: i16) -> Result<i8, AlgebraFault>
    requires states { k ≤ most_states }
    requires width { 1 ≤ m }
    ensures fault { result_err result ≡ limit_fault k m o }
    ensures offset { IfOk result (λ p. p ≡ o) }
{
    if usize::from(m) > MOST_WIDTH {
        return Err(AlgebraFault::Width);
    }
    if u32::from(k).pow(u32::from(m - 1)) > MOST_NODES as u32 {
        return Err(AlgebraFault::Nodes);
    }
    check_offset(m, o)
}

/// Returns the word that texts use for a fault.
pub fn algebra_name(fault: AlgebraFault) -> &'static str
    ensures { result.now ≡ algebra_text fault }
{
    match fault {
        AlgebraFault::States => "states",
        AlgebraFault::NotPermutation => "permutation",
        AlgebraFault::Width => "width",
        AlgebraFault::Nodes => "nodes",
        AlgebraFault::Offset => "offset",
    }
}
