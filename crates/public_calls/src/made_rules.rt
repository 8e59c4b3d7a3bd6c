//! Functions that call the public functions of `rule_algebra`, `inverse_table` and `rule_classes`, and that name
//! their faults.

ghost use Rattle.std.specs.Prelude.{◌≤◌, ◌+◌, ◌-◌};
ghost use Rattle.inverse_table.specs.MapLimits.{longest_window};

use inverse_table::{InvFault, InverseMap};
use inverse_window::WindowAt;
use rule_algebra::AlgebraFault;
use rule_classes::{ClassFault, ClassPlace, LiftFault};
use std::alloc::{AllocError, Global};
use word_image::{Rule, RuleFault, Word};

/// Returns three rules that are made of a rule: shifted by `by` cells, with new names for its letters, and widened to
/// the width m. Returns the first fault if one of them can't be made.
pub fn changed(rule: &Rule, by: i8, colours: &[u8], m: u8) -> Result<[Rule; 3], AlgebraFault> {
    let shifted = rule_algebra::shift(rule, by)?;
    let permuted = rule_algebra::permute(rule, colours)?;
    let widened = rule_algebra::widen(rule, m)?;
    Ok([shifted, permuted, widened])
}

/// Returns the composition of two rules: the second rule after the first.
pub fn compose(first: &Rule, second: &Rule) -> Result<Rule, AlgebraFault> {
    rule_algebra::compose(first, second)
}

/// Returns a rule without the cells at its ends that it ignores.
pub fn trim(rule: &Rule) -> Rule {
    rule_algebra::trim(rule)
}

/// Returns the inverse map of a rule over a window, or the reason why there is none.
pub fn inverse(alloc: Global, rule: &Rule, at: WindowAt) -> Result<InverseMap, InvFault>
    requires some { 1 ≤ at.n }
    requires most { at.n ≤ longest_window }
    requires inside { at.c ≤ at.n + rule.now.width - 2 }
{
    inverse_table::table(alloc, rule, at)
}

/// Returns the number of letters of an inverse map, how many letters it reads, its offset and its letters.
pub fn map(map: &InverseMap) -> (u8, u16, i32, &[u8]) {
    (map.k(), map.n(), map.offset(), map.table())
}

/// Returns an inverse map as a rule, or the limit of rules that it breaks.
pub fn map_rule(map: &InverseMap) -> Result<Rule, RuleFault> {
    inverse_table::as_rule(map)
}

/// Returns the rule with the least Wolfram number in the class of a rule, and whether the mirrored rule is needed to
/// get it.
pub fn class(rule: &Rule) -> Result<(Rule, bool), ClassFault> {
    let ClassPlace { least, mirrored } = rule_classes::class_of(rule)?;
    Ok((least, mirrored))
}

/// Returns the second-order lift of a rule, and the rule that undoes the lift.
pub fn lifts(rule: &Rule) -> Result<[Rule; 2], LiftFault> {
    Ok([rule_classes::lift(rule)?, rule_classes::unlift(rule)?])
}

/// Returns each kind of fault of the rules that can't be made: of shifts and other changes, of lifts, and of classes.
pub fn faults() -> ([AlgebraFault; 5], [LiftFault; 3], ClassFault) {
    (
        [
            AlgebraFault::States,
            AlgebraFault::NotPermutation,
            AlgebraFault::Width,
            AlgebraFault::Nodes,
            AlgebraFault::Offset,
        ],
        [LiftFault::States, LiftFault::Nodes, LiftFault::Centre],
        ClassFault::Colours,
    )
}

/// Returns an example of each fault with which `table` can refuse to compute an inverse map.
pub fn map_faults(x: Word, y: Word) -> [InvFault; 3] {
    [
        InvFault::Wide,
        InvFault::NotDetermined { x, y },
        InvFault::Memory(AllocError),
    ]
}
