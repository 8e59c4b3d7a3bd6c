//! The function `answer`, which answers questions of all kinds. It calls the function for the kind of the question.
ghost use Rattle.std.specs.Prelude.{◌≡◌, option_copied};
ghost use Rattle.ca_questions.specs.QuestionValues.{IsWhole, question_of};
ghost use Rattle.ca_questions.specs.Questions as questions;
ghost use Rattle.ca_questions.specs.Values.{Answers, Settles};

use crate::algebra::{compose, permute, reflect, shift, trim, widen};
use crate::class_rules::{least, lift, unlift};
use crate::inverses::inverse;
use crate::languages::{erase, language, same};
use crate::preimages::preimage;
use crate::reports::{certificate, number, orphan, report};
use crate::room::AnswerRoom;
use crate::summaries::{classes, sample, survey};
use ca_questions::{Cause, Finding, Question, ShortList, Stop};
use std::alloc::Global;

/// Returns the answer to a question, or the reason why there is none: a cause, or lack of memory. The answer lends its
/// long lists from the room. Only a certificate and the number of classes need other memory.
pub fn answer<'r>(
    alloc: Global,
    room: &'r mut AnswerRoom,
    question: &Question,
) -> Result<Finding<'r>, Stop>
    requires { IsWhole question.now }
    ensures { Answers (question_of question.now) result }
{
    match question {
        Question::Report(rule, weights) => {
            settled(report(&mut room.reports, rule, named_weights(weights)))
        }
        Question::Certify(version, rule, weights) => {
            certificate(
                alloc,
                &mut room.reports,
                *version,
                rule,
                named_weights(weights),
            )
        }
        Question::Orphan(rule) => Ok(orphan(&mut room.reports, rule)),
        Question::Number(rule) => Ok(number(rule)),
        Question::Reflect(rule) => Ok(reflect(rule)),
        Question::Trim(rule) => Ok(trim(rule)),
        Question::Shift(rule, by) => settled(shift(rule, *by)),
        Question::Widen(rule, width) => settled(widen(rule, *width)),
        Question::Permute(rule, letters) => settled(permute(rule, letters.as_slice())),
        Question::Compose(first, second) => settled(compose(first, second)),
        Question::Least(rule) => settled(least(rule)),
        Question::Lift(rule) => settled(lift(rule)),
        Question::Unlift(rule) => settled(unlift(rule)),
        Question::Inverse(rule) => settled(inverse(room, rule)),
        Question::Language(rule) => Ok(language(room, rule)),
        Question::Same(first, second) => settled(same(&mut room.separations, first, second)),
        Question::Erase(rule) => Ok(erase(&mut room.walks, rule)),
        Question::Preimage(rule, tail) => Ok(preimage(&mut room.preimages, rule, tail)),
        Question::Survey(rules) => Ok(survey(*rules)),
        Question::Sample(rules) => Ok(sample(*rules)),
        Question::Classes(rules) => Ok(classes(alloc, *rules)?),
    }
}

/// Turns the result of a function that needs no memory into the result of `answer`.
///
/// The function isn't inlined, since otherwise LLVM takes 40 seconds more to compile `answer`.
#[inline(never)]
fn settled(found: Result<Finding<'_>, Cause>) -> Result<Finding<'_>, Stop>
    ensures { (q : questions.Question) → Settles q found.entry → Answers q result }
{
    match found {
        Ok(found) => Ok(found),
        Err(cause) => Err(Stop::NotFit(cause)),
    }
}

/// Returns the named weights as a slice, or None if no weights are named.
fn named_weights(weights: &Option<ShortList>) -> Option<&[u8]>
    ensures { option_copied result ≡ weights.now }
{
    match weights {
        Some(list) => Some(list.as_slice()),
        None => None,
    }
}
