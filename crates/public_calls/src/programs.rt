//! Functions that call the public functions of `ca_cli`.

use ca_cli::Status;
use ca_io::{Sink, Source};
use std::alloc::Global;

/// Runs the program on these words, and returns its status and the exit code of the status.
pub fn run<S: Source, T: Sink>(
    alloc: Global,
    words: &[String],
    source: &mut S,
    sink: &mut T,
) -> (Status, u8) {
    let status = ca_cli::run(alloc, words, source, sink);
    let code = status.code();
    (status, code)
}

/// Returns all statuses of the program.
pub fn statuses() -> [Status; 9] {
    [
        Status::Done,
        Status::Refused,
        Status::Usage,
        Status::RuleFault,
        Status::NotFit,
        Status::TooLong,
        Status::ReadFault,
        Status::WriteFault,
        Status::Memory,
    ]
}
