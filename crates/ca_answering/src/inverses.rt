//! The answer to the question for the inverse of a rule.
ghost use Rattle.std.specs.Prelude.{◌≤◌};
ghost use Rattle.word_image.specs.Windows.{IsLeastDetermined};
ghost use Rattle.tail_config.specs.Tails.{IsInjective};
ghost use Rattle.inverse_table.specs.MapLimits.{longest_window};
ghost use Rattle.ca_questions.specs.Questions.{Question};
ghost use Rattle.ca_questions.specs.Findings.{IsMapRule};
ghost use Rattle.ca_questions.specs.Values.{Settles};

use crate::room::{AnswerRoom, Numbers};
use ca_questions::{Cause, Finding, Inverse};
use inverse_table::{LentMap, NoMap, TableRoom};
use inverse_window::WindowAt;
use rule_verdicts::window_or_twins;
use word_image::Rule;

/// Returns the inverse map of a rule, which reads as few letters of an image as possible. Returns the cause if the rule
/// isn't injective, or if its inverse reads too many letters.
pub fn inverse<'r>(room: &'r mut AnswerRoom, rule: &Rule) -> Result<Finding<'r>, Cause>
    ensures { Settles (Question.Inverse rule.now) result }
{
    match window_or_twins(&mut room.reports, rule) {
        Ok(at) => inverse_over(&mut room.tables, &mut room.numbers, rule, at),
        Err(twins) => Err(Cause::Twins(twins)),
    }
}

/// Returns the inverse map of an injective rule. `at` is its least determined window (n, c): n letters of an image
/// determine the letter at place c of each preimage. Returns the cause if the map reads too many letters.
fn inverse_over<'r>(
    room: &'r mut TableRoom,
    numbers: &mut Numbers,
    rule: &Rule,
    at: WindowAt,
) -> Result<Finding<'r>, Cause>
    requires injective { IsInjective rule.now }
    requires least { IsLeastDetermined rule.now at.n at.c }
    requires most { at.n ≤ longest_window }
    ensures { Settles (Question.Inverse rule.now) result }
{
    match room.table(&mut numbers.list, rule, at) {
        Ok(map) => {
            let rule = map_rule(&map);
            Ok(Finding::Inverse(Inverse {
                n: at.n,
                c: at.c,
                map,
                rule,
            }))
        }
        Err(NoMap::Wide) => Err(Cause::Wide(at.n)),
        Err(NoMap::NotDetermined { .. }) => unreachable!(),
    }
}

/// Returns an inverse map as a rule, or None if it breaks a limit of rules.
fn map_rule(map: &LentMap) -> Option<Rule>
    ensures { IsMapRule map.now result }
{
    match map.as_rule() {
        Ok(rule) => Some(rule),
        Err(_) => None,
    }
}
