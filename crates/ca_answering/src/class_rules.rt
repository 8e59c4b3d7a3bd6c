//! Answers about the least rule of a class, and about second-order lifts.
ghost use Rattle.ca_questions.specs.Questions.{Question};
ghost use Rattle.ca_questions.specs.Values.{Settles};

use crate::algebra::rule_finding;
use ca_questions::{Cause, Finding};
use rule_classes::{ClassFault, class_of};
use word_image::Rule;

/// Returns the rule with the least Wolfram number in the class of a rule, or the cause `Colours` if the rule has 7
/// states or more.
pub fn least(rule: &Rule) -> Result<Finding<'static>, Cause>
    ensures { Settles (Question.Least rule.now) result }
{
    match class_of(rule) {
        Ok(place) => Ok(rule_finding(place.least)),
        Err(ClassFault::Colours) => Err(Cause::Colours),
    }
}

/// Returns the second-order lift of a rule, whose letters are pairs of letters, or the cause why there is no lift.
/// The lift is injective.
pub fn lift(rule: &Rule) -> Result<Finding<'static>, Cause>
    ensures { Settles (Question.Lift rule.now) result }
{
    match rule_classes::lift(rule) {
        Ok(lifted) => Ok(rule_finding(lifted)),
        Err(fault) => Err(Cause::Lift(fault)),
    }
}

/// Returns the rule that undoes the second-order lift, or the cause why there is no lift.
pub fn unlift(rule: &Rule) -> Result<Finding<'static>, Cause>
    ensures { Settles (Question.Unlift rule.now) result }
{
    match rule_classes::unlift(rule) {
        Ok(unlifted) => Ok(rule_finding(unlifted)),
        Err(fault) => Err(Cause::Lift(fault)),
    }
}
