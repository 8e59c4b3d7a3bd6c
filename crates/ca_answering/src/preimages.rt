//! The answer to the question for a preimage of a configuration.
ghost use Rattle.std.specs.Prelude.{◌≡◌};
ghost use Rattle.ca_questions.specs.Questions.{Question};
ghost use Rattle.ca_questions.specs.Findings.{IsFinding};
ghost use Rattle.ca_questions.specs.Values.{finding_of};

use ca_questions::Finding;
use tail_config::LentTail;
use tail_preimage::PreimageRoom;
use word_image::Rule;

/// Returns the first preimage of this configuration, among those with periodic tails. If there is none, returns the
/// first part of this configuration that is an orphan.
pub fn preimage<'r>(room: &'r mut PreimageRoom, rule: &Rule, tail: &LentTail) -> Finding<'r>
    requires { rule.now.states ≡ tail.now.states }
    ensures { IsFinding (Question.Preimage rule.now tail.now.config) (finding_of result) }
{
    // This call brings the fact that the parts of a configuration have no fault, which is a part of its contract.
    let _letters = tail.k();
    Finding::Preimage(room.preimage(rule, tail))
}
