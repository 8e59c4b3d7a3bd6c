//! Answers to questions for a rule that is made from one or two rules.
ghost use Rattle.std.specs.Prelude.{◌≡◌};
ghost use Rattle.word_image.specs.LocalRules.{IsRule};
ghost use Rattle.ca_questions.specs.Questions.{Question};
ghost use Rattle.ca_questions.specs.Findings.{IsFinding};
ghost use Rattle.ca_questions.specs.Values.{Settles, finding_of};

use ca_questions::{Cause, Finding};
use word_image::Rule;

/// Returns the mirrored rule as a finding, the answer to the question what the mirrored rule is.
pub fn reflect(rule: &Rule) -> Finding<'static>
    ensures { IsFinding (Question.Reflect rule.now) (finding_of result) }
{
    rule_finding(rule.reflect())
}

/// Returns the rule without the cells at both ends of its window that it ignores. The width stays at least 2.
pub fn trim(rule: &Rule) -> Finding<'static>
    ensures { IsFinding (Question.Trim rule.now) (finding_of result) }
{
    rule_finding(rule_algebra::trim(rule))
}

/// Returns the rule whose window is `by` cells further to the right, or the cause why there is no such rule.
pub fn shift(rule: &Rule, by: i8) -> Result<Finding<'static>, Cause>
    ensures { Settles (Question.Shift rule.now by) result }
{
    match rule_algebra::shift(rule, by) {
        Ok(shifted) => Ok(rule_finding(shifted)),
        Err(fault) => Err(Cause::Algebra(fault)),
    }
}

/// Returns the same map as a rule of this width, which ignores the cells that were added on the right. Returns the
/// cause if there is no such rule.
pub fn widen(rule: &Rule, width: u8) -> Result<Finding<'static>, Cause>
    ensures { Settles (Question.Widen rule.now width) result }
{
    match rule_algebra::widen(rule, width) {
        Ok(widened) => Ok(rule_finding(widened)),
        Err(fault) => Err(Cause::Algebra(fault)),
    }
}

/// Returns the rule with new names for its letters. Letter a gets the name at place a of `letters`. Returns the cause
/// if the names aren't a permutation of the letters.
pub fn permute(rule: &Rule, letters: &[u8]) -> Result<Finding<'static>, Cause>
    ensures { Settles (Question.Permute rule.now letters.now) result }
{
    match rule_algebra::permute(rule, letters) {
        Ok(permuted) => Ok(rule_finding(permuted)),
        Err(fault) => Err(Cause::Algebra(fault)),
    }
}

/// Returns the composition of two rules, the second rule after the first, or the cause why there is no such rule.
pub fn compose(first: &Rule, second: &Rule) -> Result<Finding<'static>, Cause>
    ensures { Settles (Question.Compose first.now second.now) result }
{
    match rule_algebra::compose(first, second) {
        Ok(composed) => Ok(rule_finding(composed)),
        Err(fault) => Err(Cause::Algebra(fault)),
    }
}

/// Makes an answer of this rule.
pub fn rule_finding(rule: Rule) -> Finding<'static>
    ensures made { result ≡ Finding.Rule rule }
    ensures accepted { IsRule rule }
{
    rule.keeps_limits();
    Finding::Rule(rule)
}
