//! The program. It passes the words of the command line and the standard output to `list_run::run`, and exits with
//! the code of the status that `run` returns.
#![tactic(auto)]

use ca_io::{StdSink, words};
use list_run::{Status, run};
use std::io::ErrorKind;
use std::process::ExitCode;

/// The exit code if the system can't pass the words of the command line, for example if a word isn't UTF-8.
const NO_WORDS: u8 = 9;

fn main(rt: HostRuntime) -> ExitCode {
    match words(&rt) {
        Ok(words) => {
            let mut sink = StdSink::new(rt.stdout());
            let status = run(rt.alloc(), &words, &mut sink);
            ExitCode::from(status.code())
        }
        Err(fault) if fault.kind() == ErrorKind::OutOfMemory => {
            ExitCode::from(Status::Memory.code())
        }
        Err(_) => ExitCode::from(NO_WORDS),
    }
}
