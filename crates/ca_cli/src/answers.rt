//! The answer of the program to its words: a status and an output. The whole output is in memory before the first
//! write.
ghost use Rattle.std.specs.Prelude.{◌≡◌, IfOk, map};
ghost use Rattle.ca_commands.specs.Asking.{NeedMemory};
ghost use Rattle.ca_commands.specs.Commands.{IsCommand, check_command};
ghost use Rattle.ca_cli.specs.Readings.{IsReadFor, Reading};
ghost use Rattle.ca_cli.specs.RightAnswers.{IsAnswer};

use crate::replies::reply;
use crate::room::CommandRoom;
use crate::status::Status;
use crate::theorems::{right_replies_are_writable, right_replies_fit};
use ca_io::{InputFault, Source};
use ca_text::write_reply;
use std::alloc::AllocError;
use std::convert::AsStr;

/// Writes to the room's output the answer to these words and to the bytes that the source has left, which only `check`
/// reads, and returns its status. Returns an error if a read fails, or if there is no memory. What the output had
/// before is gone. The room serves one answer after another.
pub fn answer_to<W: AsStr, S: Source>(
    room: &mut CommandRoom,
    words: &[W],
    source: &mut S,
) -> Result<Status, InputFault>
    ensures answer { IfOk result (λ status.
        IsAnswer (map W.text words.now) (S.left source.old) status room.new.output) }

    ensures unread { ¬ IsCommand (map W.text words.now) check_command → source.new ≡ source.old }
    ensures read { IsCommand (map W.text words.now) check_command →
        IfOk result (λ status. IsReadFor status (S.left source.old) (S.left source.new)) }
    ensures failed { result ≡ Err InputFault.Failed → IsCommand (map W.text words.now) check_command }
    ensures memory { (e : AllocError) → result ≡ Err (InputFault.Memory e) → NeedMemory (map W.text words.now) }
    ensures reading { Reading (result ≡ Err InputFault.Failed)
        (S.left source.old) (S.left source.new) (S.faults source.old) (S.faults source.new) }
{
    let reply = reply(
        room.alloc,
        &mut room.tails,
        &mut room.answers,
        words,
        source,
    )?;
    right_replies_are_writable();
    right_replies_fit();
    room.output.clear();
    write_reply(room.alloc, &mut room.output, &reply)?;
    Ok(Status::of(&reply))
}
