//! The function `shift`, which moves the window of a rule.
ghost use Rattle.std.specs.Prelude.{◌≡◌, IfOk};
ghost use Rattle.std.specs.Result.{result_err};
ghost use Rattle.rule_algebra.specs.Algebra.{shifted};
ghost use Rattle.rule_algebra.specs.MadeImages.{ShiftsImages};
ghost use Rattle.rule_algebra.specs.AlgebraFaults.{shift_fault};

use crate::fault::{AlgebraFault, check_offset};
use crate::parts::rule_of_parts;
use word_image::Rule;

/// Returns the rule with the same table whose offset is greater by `by`. Its image cell i is the old image cell
/// i + `by`. Returns `Offset` if the window would reach further than 16 cells to the left or to the right.
pub fn shift(rule: &Rule, by: i8) -> Result<Rule, AlgebraFault>
    ensures fault { result_err result ≡ shift_fault rule.now by }
    ensures shifted { IfOk result (λ g. g ≡ shifted rule.now by) }
    ensures images { IfOk result (ShiftsImages rule.now by) }
{
    let o = check_offset(rule.m(), i16::from(rule.o()) + i16::from(by))?;
    Ok(rule_of_parts(rule.k(), rule.m(), o, rule.table()))
}
