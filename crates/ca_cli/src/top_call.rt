//! The functions `run` and `run_in`, which carry out a command from its words to its output.
ghost use Rattle.std.specs.Prelude.{◌≡◌, ◌≢◌, ℕ, ◌+◌, ◌<◌, List, length, take, map, is_some, string_bytes};
ghost use Rattle.std.specs.Io.KnownBytes.{Appends};
ghost use Rattle.ca_io.specs.Faults.{Rose};
ghost use Rattle.ca_commands.specs.Asking.{NeedMemory};
ghost use Rattle.ca_commands.specs.Commands.{IsCommand, check_command};
ghost use Rattle.ca_cli.specs.Inputs.{most_input};
ghost use Rattle.ca_cli.specs.Readings.{IsReadFor, TakesAtMost};
ghost use Rattle.ca_cli.specs.RightAnswers.{IsAnswer};
ghost use Rattle.ca_cli.specs.Statuses.{IsAnswered};

use crate::answers::answer_to;
use crate::room::CommandRoom;
use crate::status::Status;
use ca_io::{Failed, InputFault, Sink, Source, write_all};
use std::alloc::Global;

/// Carries out the command in `words`, writes its output to the sink, and returns its status. `words` are the words
/// of the command line without the program's name. Only `check` reads from the source: to its end, or one byte more
/// than the judge accepts.
///
/// Returns `ReadFault` if a read fails, and `Memory` if there is no memory. In both cases nothing was written.
/// Returns `WriteFault`, instead of the status of the output, if a write of the output fails.
pub fn run<S: Source, T: Sink>(
    alloc: Global,
    words: &[String],
    source: &mut S,
    sink: &mut T,
) -> Status
    // Each status except ReadFault, WriteFault and Memory is right for the words and for the bytes that the source
    // had left. A sink that tells its bytes took exactly an output that is right with this status.
    ensures answer { IsAnswered result → (out : List ℕ)
        × IsAnswer (map string_bytes words.now) (S.left source.old) result out
        × Appends (T.taken sink.old) (T.taken sink.new) out }

    // The sink has counted a write that failed. If the sink tells its bytes, it took a part of a right output, but
    // not all of it.
    ensures write_counted { result ≡ Status.WriteFault →
        Rose (T.faults sink.old) (T.faults sink.new) }
    ensures write_part { result ≡ Status.WriteFault → (status : Status) × (out : List ℕ) × (n : ℕ)
        × IsAnswer (map string_bytes words.now) (S.left source.old) status out × (n < length out)
        × Appends (T.taken sink.old) (T.taken sink.new) (take n out) }

    // Only `check` reads, and the source has counted a read that failed.
    ensures read_counted { result ≡ Status.ReadFault →
        IsCommand (map string_bytes words.now) check_command
        × Rose (S.faults source.old) (S.faults source.new) }

    // If a read failed, or if there was no memory, nothing was written.
    ensures read_fault { result ≡ Status.ReadFault → sink.new ≡ sink.old }
    ensures memory { result ≡ Status.Memory → sink.new ≡ sink.old }

    // `check` reads the whole input if it is judged. If the input is too long, `check` reads one byte more than the
    // judge accepts. If the words aren't `check`, the source doesn't change.
    ensures unread { ¬ IsCommand (map string_bytes words.now) check_command → source.new ≡ source.old }
    ensures read { IsCommand (map string_bytes words.now) check_command →
        IsReadFor result (S.left source.old) (S.left source.new) }
    ensures most { TakesAtMost (most_input + 1) (S.left source.old) (S.left source.new) }

    // Only ReadFault changes the source's count of faults, and only WriteFault changes the sink's count of faults. So if
    // no count changes and none is at its greatest value, the answer is right, or there was no memory.
    ensures source_faults { result ≢ Status.ReadFault → S.faults source.new ≡ S.faults source.old }
    ensures sink_faults { result ≢ Status.WriteFault → T.faults sink.new ≡ T.faults sink.old }

    // A source or a sink that tells its bytes still tells them afterwards, and one that doesn't tell them still
    // doesn't.
    ensures source_telling { is_some (S.left source.new) ≡ is_some (S.left source.old) }
    ensures sink_telling { is_some (T.taken sink.new) ≡ is_some (T.taken sink.old) }
{
    let Ok(mut room) = CommandRoom::new(alloc) else {
        return Status::Memory;
    };
    run_in(&mut room, words, source, sink)
}

/// Does what [`run`] does, but over a room, which may have served other calls before. Returns `Memory` only for the
/// commands `certify`, `brief`, `classes` and `check`, and only if no operand is refused and WEIGHTS, if it is given, has
/// one weight for each letter.
pub fn run_in<S: Source, T: Sink>(
    room: &mut CommandRoom,
    words: &[String],
    source: &mut S,
    sink: &mut T,
) -> Status
    // The room's memory is enough for the replies to all other words.
    ensures room { result ≡ Status.Memory → NeedMemory (map string_bytes words.now) }

    // These clauses are those of `run`.
    ensures answer { IsAnswered result → (out : List ℕ)
        × IsAnswer (map string_bytes words.now) (S.left source.old) result out
        × Appends (T.taken sink.old) (T.taken sink.new) out }
    ensures write_counted { result ≡ Status.WriteFault →
        Rose (T.faults sink.old) (T.faults sink.new) }
    ensures write_part { result ≡ Status.WriteFault → (status : Status) × (out : List ℕ) × (n : ℕ)
        × IsAnswer (map string_bytes words.now) (S.left source.old) status out × (n < length out)
        × Appends (T.taken sink.old) (T.taken sink.new) (take n out) }
    ensures read_counted { result ≡ Status.ReadFault →
        IsCommand (map string_bytes words.now) check_command
        × Rose (S.faults source.old) (S.faults source.new) }
    ensures read_fault { result ≡ Status.ReadFault → sink.new ≡ sink.old }
    ensures memory { result ≡ Status.Memory → sink.new ≡ sink.old }
    ensures unread { ¬ IsCommand (map string_bytes words.now) check_command → source.new ≡ source.old }
    ensures read { IsCommand (map string_bytes words.now) check_command →
        IsReadFor result (S.left source.old) (S.left source.new) }
    ensures most { TakesAtMost (most_input + 1) (S.left source.old) (S.left source.new) }
    ensures source_faults { result ≢ Status.ReadFault → S.faults source.new ≡ S.faults source.old }
    ensures sink_faults { result ≢ Status.WriteFault → T.faults sink.new ≡ T.faults sink.old }
    ensures source_telling { is_some (S.left source.new) ≡ is_some (S.left source.old) }
    ensures sink_telling { is_some (T.taken sink.new) ≡ is_some (T.taken sink.old) }
{
    match answer_to(room, words, source) {
        Ok(status) => match write_all(sink, room.output.as_slice()) {
            Ok(()) => status,
            Err(Failed) => Status::WriteFault,
        },
        Err(InputFault::Failed) => Status::ReadFault,
        Err(InputFault::Memory(_)) => Status::Memory,
    }
}
