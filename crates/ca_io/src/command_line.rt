//! The words of the command line.

use std::rt::Env;
use std::{env, io};

/// Returns the words of the command line without the name of the program. The kind of the error is `OutOfMemory` if there
/// is no memory. It is another one if the system can't pass the words, for example if a word isn't UTF-8. Contracts say
/// nothing about the words, since no contract says what the system passes.
pub fn words(rt: &(impl Env + AllocGlobal)) -> io::Result<Vec<String>> {
    Ok(env::args(rt)?.skip(1).collect(rt.alloc())?)
}
