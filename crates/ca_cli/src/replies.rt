//! The function `reply`, which returns the reply to the words of a command line, as a value and not as text.
ghost use Rattle.std.specs.Prelude.{◌≡◌, ℕ, List, Option, IfOk, MatchResult, map};
ghost use Rattle.ca_commands.specs.Asking.{Ask, IsWordFault, NeedMemory};
ghost use Rattle.ca_commands.specs.Commands.{IsCommand, check_command};
ghost use Rattle.ca_questions.specs.Questions.{Question};
ghost use Rattle.ca_questions.specs.Values.{Answers, reply_of};
ghost use Rattle.ca_cli.specs.Readings.{IsReadFor, Reading};
ghost use Rattle.ca_cli.specs.RightAnswers.{IsReplyTo};
ghost use Rattle.ca_cli.specs.Statuses.{reply_status};

use crate::checks::judge_input;
use ca_answering::{AnswerRoom, answer};
use ca_commands::{WordFault, is_check, question};
use ca_io::{InputFault, Source};
use ca_questions::{Cause, Finding, Reply, Stop};
use std::alloc::{AllocError, Global};
use std::convert::AsStr;
use tail_config::TailRoom;

/// Returns the reply to these words and to the bytes that the source has left, which only `check` reads. The reply lends
/// its long lists from the room, and `tails` has memory for a configuration among the words. Returns an error if a read
/// fails, or if there is no memory.
pub fn reply<'r, W: AsStr, S: Source>(
    alloc: Global,
    tails: &mut TailRoom,
    room: &'r mut AnswerRoom,
    words: &[W],
    source: &mut S,
) -> Result<Reply<'r>, InputFault>
    ensures reply { IfOk result (λ reply.
        IsReplyTo (map W.text words.now) (S.left source.old) (reply_of reply)) }

    ensures unread { ¬ IsCommand (map W.text words.now) check_command → source.new ≡ source.old }
    ensures read { IsCommand (map W.text words.now) check_command →
        IfOk result (λ reply. IsReadFor (reply_status (reply_of reply)) (S.left source.old) (S.left source.new)) }
    ensures failed { result ≡ Err InputFault.Failed → IsCommand (map W.text words.now) check_command }
    ensures memory { (e : AllocError) → result ≡ Err (InputFault.Memory e) → NeedMemory (map W.text words.now) }
    ensures reading { Reading (result ≡ Err InputFault.Failed)
        (S.left source.old) (S.left source.new) (S.faults source.old) (S.faults source.new) }
{
    if is_check(words) {
        return judge_input(alloc, source);
    }
    match question(tails, words) {
        Ok(question) => Ok(reply_for(answer(alloc, room, &question))?),
        Err(fault) => Ok(given_up(fault)),
    }
}

/// Returns the reply for an answer to a question, or for the cause why the question has none. If there is no memory,
/// returns this as the error.
fn reply_for(found: Result<Finding<'_>, Stop>) -> Result<Reply<'_>, AllocError>
    ensures { (words : List (List ℕ)) (input : Option (List ℕ)) (q : Question) → Ask words q → Answers q found.entry →
        MatchResult result (λ reply. IsReplyTo words input (reply_of reply)) (λ _. NeedMemory words) }
{
    match found {
        Ok(found) => Ok(Reply::Found(found)),
        Err(Stop::NotFit(cause)) => Ok(Reply::NotFit(cause)),
        Err(Stop::Memory(fault)) => Err(fault),
    }
}

/// Returns the reply to words of which no question is made, because of this fault.
fn given_up(fault: WordFault) -> Reply<'static>
    ensures { (words : List (List ℕ)) (input : Option (List ℕ)) → IsWordFault words fault → IsReplyTo words input (reply_of result) }
{
    match fault {
        WordFault::Usage => Reply::Usage,
        WordFault::RuleFault(operand, fault) => Reply::RuleFault(operand, fault),
        WordFault::Tail(fault) => Reply::NotFit(Cause::Tail(fault)),
    }
}
