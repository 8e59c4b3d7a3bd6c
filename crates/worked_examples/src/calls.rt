//! The functions `call` and `sink`, with which the tests call the program.
ghost use Rattle.std.specs.Prelude.{◌≤◌};

use ca_cli::{Status, run};
use ca_io::{MemSink, Source};
use std::alloc::{AllocError, Global};

/// The result of a call: its status, and the sink with the bytes that it has taken.
#[derive(Drop)]
pub struct Outcome {
    pub status: Status,
    pub output: MemSink,
}

/// Runs the program on the words of this command line, which blanks separate, with this source and this sink.
pub fn call<S: Source>(
    alloc: Global,
    line: &str,
    source: &mut S,
    sink: MemSink,
) -> Result<Outcome, AllocError> {
    let mut words = Vec::new(alloc);
    for word in line.split(' ') {
        words.push(String::from_str(alloc, word)?)?;
    }
    let mut output = sink;
    let status = run(alloc, &words, source, &mut output);
    Ok(Outcome { status, output })
}

/// Makes a sink that takes `room` bytes in total and at most `piece` bytes in a call. Its calls with the numbers in
/// `failing` fail.
pub fn sink(
    alloc: Global,
    room: usize,
    piece: usize,
    failing: Vec<u64>,
) -> Result<MemSink, AllocError>
    requires { 1 ≤ piece }
{
    MemSink::with_room(alloc, room, piece, failing).map_err(|refusal| refusal.fault)
}
