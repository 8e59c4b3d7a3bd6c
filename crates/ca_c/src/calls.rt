//! Runs a command over bytes in memory. The words of the command line are in one block, each followed by a 0 byte.
ghost use Rattle.std.specs.Prelude.{◌≡◌, ◌≢◌, ◌++◌, ◌↔◌, ◌≤◌, Err, Some, length, drop, map, IfOk, IsTrue, IsFalse};
ghost use Rattle.ca_commands.specs.Asking.{NeedMemory};
ghost use Rattle.ca_json.specs.Replies.{json_text};
ghost use Rattle.ca_c.specs.Calls.{IsAnswerBy, IsHandedBack, MayLackMemory, bytes_in};

use crate::blocks::FirstWords;
use crate::sources::SliceSource;
use ca_cli::{CommandRoom, Status, answer_to, reply, right_replies_are_writable};
use ca_io::InputFault;
use ca_json::reply_json;
use std::alloc::{AllocError, Global};

/// The code if a word of the block isn't UTF-8, or if the last word has no 0 byte after it.
pub const NO_WORDS: u8 = 9;

/// The code if the buffer of the caller is too short for the output.
pub const SHORT: u8 = 10;

/// The form in which a call gets a reply: printed lines or JSON.
#[derive(Clone, Copy, Debug, PartialEq, Eq)]
pub enum Form {
    /// The lines that the program prints.
    Text,
    /// One object of JSON.
    Json,
}

/// Runs the command in a block of words over an input with the memory of a room, and returns its code. Writes the length
/// of the reply to `output_length`. If the buffer `output` has room for the reply, writes the reply to its beginning.
pub fn hand_back(
    form: Form,
    room: &mut CommandRoom,
    words: &[u8],
    input: &[u8],
    output: &mut [u8],
    output_length: &mut usize,
) -> u8
    ensures handed_back { IsHandedBack (bytes_in form) words.now input.now output.old result output_length.new output.new }
    ensures no_fault { (result ≢ 6) × (result ≢ 7) }
    ensures memory { result ≡ 8 → form ≡ Form.Text → MayLackMemory words.now }
{
    *output_length = 0;
    let Some(words) = FirstWords::of(words) else {
        return NO_WORDS;
    };
    let Ok(status) = answer_in(form, room, words.as_slice(), input) else {
        return Status::Memory.code();
    };
    let bytes = room.output.as_slice();
    *output_length = bytes.len();
    if put(bytes, output) {
        status.code()
    } else {
        SHORT
    }
}

/// Does what [`hand_back`] does, over a room for this call only.
pub fn hand_back_once(
    alloc: Global,
    form: Form,
    words: &[u8],
    input: &[u8],
    output: &mut [u8],
    output_length: &mut usize,
) -> u8
    ensures handed_back { IsHandedBack (bytes_in form) words.now input.now output.old result output_length.new output.new }
    ensures no_fault { (result ≢ 6) × (result ≢ 7) }
{
    let Ok(mut room) = CommandRoom::new(alloc) else {
        *output_length = 0;
        return Status::Memory.code();
    };
    hand_back(form, &mut room, words, input, output, output_length)
}

/// Answers these words over an input in this form, writes the answer to the room's output, and returns its status. For
/// printed lines, only `check` and the questions whose answers need other memory can lack it.
fn answer_in(
    form: Form,
    room: &mut CommandRoom,
    words: &[&str],
    input: &[u8],
) -> Result<Status, AllocError>
    ensures answer { IfOk result (λ status. IsAnswerBy (bytes_in form) (map (λ word. word.now) words.now) input.now status room.new.output) }
    ensures memory { (e : AllocError) → result ≡ Err e → form ≡ Form.Text → NeedMemory (map (λ word. word.now) words.now) }
{
    let mut source = SliceSource::new(input);
    match form {
        Form::Text => match answer_to(room, words, &mut source) {
            Ok(status) => Ok(status),
            Err(InputFault::Memory(fault)) => Err(fault),
            Err(InputFault::Failed) => Err(AllocError),
        },
        Form::Json => json_answer(room, words, &mut source),
    }
}

/// Answers these words in JSON, writes the answer to the room's output, and returns its status.
fn json_answer(
    room: &mut CommandRoom,
    words: &[&str],
    source: &mut SliceSource,
) -> Result<Status, AllocError>
    ensures { IfOk result (λ status. IsAnswerBy json_text (map (λ word. word.now) words.now) source.old.rest.now status room.new.output) }
{
    let Ok(reply) = reply(
        room.alloc,
        &mut room.tails,
        &mut room.answers,
        words,
        source,
    ) else {
        return Err(AllocError);
    };
    right_replies_are_writable();
    let json = reply_json(room.alloc, &reply)?;
    room.output.clear();
    room.output.push(json.as_bytes())?;
    Ok(Status::of(&reply))
}

/// Writes bytes to the beginning of a buffer, and returns whether the buffer has room for all of them. If it doesn't,
/// the buffer stays as it was.
pub fn put(bytes: &[u8], buffer: &mut [u8]) -> bool
    ensures room { IsTrue result ↔ (length bytes.now ≤ length buffer.old) }
    ensures whole { IsTrue result → buffer.new ≡ bytes.now ++ drop (length bytes.now) buffer.old }
    ensures kept { IsFalse result → buffer.new ≡ buffer.old }
{
    if bytes.len() > buffer.len() {
        return false;
    }
    buffer[..bytes.len()].copy_from_slice(bytes);
    true
}
