//! The functions `write_reply` and `reply_text`, which write the text of a reply.
ghost use Rattle.std.specs.Prelude.{◌≡◌, ◌++◌, ◌+◌, ◌≤◌, length, IfOk, IsOk, OnOk};
ghost use Rattle.ca_questions.specs.Values.{reply_of};
ghost use Rattle.ca_questions.specs.Writable.{IsWritableReply};
ghost use Rattle.ca_text.specs.Replies as texts;
ghost use Rattle.ca_text.specs.Rooms.{AppendsAtMost, FitsRoom, IsShortReply, IsSmallReply, most_text};

use crate::faults::{write_cause, write_operand_fault};
use crate::output::Output;
use crate::texts::write_finding;
use crate::verdicts::{write_accepted, write_refused};
use ca_questions::Reply;
use std::alloc::{AllocError, Global};

/// Appends the text of a reply: the text of a finding, the lines of an accepted certificate, or one line for any other
/// reply. The only error is lack of memory. It doesn't come if the output has room for the text, except for replies to
/// `certify`, `brief` and `check`.
pub fn write_reply(alloc: Global, output: &mut Output, reply: &Reply) -> Result<(), AllocError>
    requires { IsWritableReply (reply_of reply.now) }
    ensures appended { OnOk result (output.new ≡ output.old ++ texts.reply_text (reply_of reply.now)) }
    ensures fits { IsShortReply (reply_of reply.now) → length output.old + length (texts.reply_text (reply_of reply.now)) ≤ most_text → IsOk result }
    ensures few { FitsRoom (reply_of reply.now) → AppendsAtMost most_text result output.old output.new }
    ensures small { IsSmallReply (reply_of reply.now) → AppendsAtMost 500 result output.old output.new }
{
    match reply {
        Reply::Found(found) => write_finding(alloc, output, found),
        Reply::NotFit(cause) => write_cause(output, cause),
        Reply::RuleFault(operand, fault) => write_operand_fault(output, *operand, *fault),
        Reply::Accepted(verdicts) => write_accepted(output, verdicts),
        Reply::Refused(refusal) => write_refused(output, *refusal),
        Reply::TooLong => output.push_line("too long"),
        Reply::Usage => output.push_line("usage error"),
    }
}

/// Returns the text of a reply in an output of its own. The only error is lack of memory.
pub fn reply_text(alloc: Global, reply: &Reply) -> Result<Output, AllocError>
    requires { IsWritableReply (reply_of reply.now) }
    ensures { IfOk result (λ output. output ≡ texts.reply_text (reply_of reply.now)) }
{
    let mut output = Output::new(alloc)?;
    write_reply(alloc, &mut output, reply)?;
    Ok(output)
}
