//! The command `check`, which judges a certificate.
ghost use Rattle.std.specs.Prelude.{◌≡◌, ◌≢◌, alloc_error, IfOk, MatchResult};
ghost use Rattle.ca_commands.specs.declared.names.Name.TheVariants as name;
ghost use Rattle.ca_commands.specs.Commands.{Command};
ghost use Rattle.ca_questions.specs.declared.reply.Reply.TheVariants as said;
ghost use Rattle.ca_questions.specs.Values.{reply_of};
ghost use Rattle.ca_cli.specs.Readings.{IsReadFor, Reading};
ghost use Rattle.ca_cli.specs.RightAnswers.{IsReply};
ghost use Rattle.ca_cli.specs.Statuses.{reply_status};

use ca_io::{InputFault, Source, read_up_to};
use ca_questions::Reply;
use cert_check::judge;
use cert_conditions::Refusal;
use std::alloc::Global;

/// The greatest number of bytes that the judge accepts as an input.
const LONGEST_INPUT: usize = 4_194_304;

/// Returns the reply of the command `check`: the verdicts of the certificate in the input, the reason why the judge
/// refuses the input, or that the input is too long. If the input is too long, it reads only one byte more than the
/// judge accepts. Returns an error if a read fails, or if there is no memory.
pub fn judge_input<S: Source>(alloc: Global, source: &mut S) -> Result<Reply<'static>, InputFault>
    ensures reply { IfOk result (λ reply. (c : Command) → c.name ≡ name.Check → IsReply (S.left source.old) c (reply_of reply)) }
    ensures read { IfOk result (λ reply. IsReadFor (reply_status (reply_of reply)) (S.left source.old) (S.left source.new)) }
    ensures reading { Reading (result ≡ Err InputFault.Failed)
        (S.left source.old) (S.left source.new) (S.faults source.old) (S.faults source.new) }
{
    let bytes = read_up_to(alloc, source, LONGEST_INPUT + 1)?;
    if bytes.len() > LONGEST_INPUT {
        return Ok(Reply::TooLong);
    }
    match judge(alloc, &bytes) {
        Ok(verdicts) => Ok(Reply::Accepted(verdicts)),
        Err(refusal) => refused(refusal),
    }
}

/// Returns the reply for an input that the judge refuses. If the refusal is lack of memory, returns this as the error.
fn refused(refusal: Refusal) -> Result<Reply<'static>, InputFault>
    ensures { MatchResult result
        (λ reply. (reply ≡ said.Refused refusal) × (refusal ≢ Refusal.Memory alloc_error))
        (λ fault. (fault ≡ InputFault.Memory alloc_error) × (refusal ≡ Refusal.Memory alloc_error)) }
{
    match refusal {
        Refusal::Memory(fault) => Err(InputFault::Memory(fault)),
        refusal => Ok(Reply::Refused(refusal)),
    }
}
