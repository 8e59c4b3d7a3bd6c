//! Sources of bytes and sinks for bytes: the traits [`Source`] and [`Sink`], and types that have them.
//!
//! A source *tells* its bytes if contracts can name the bytes that the source has left. A sink *tells* its bytes if
//! contracts can name the bytes that the sink has taken. A [`PlainSource`], a [`MemSource`] and a [`MemSink`] tell
//! their bytes. A [`StdSource`] reads from a reader of the standard library, and a [`StdSink`] writes to a writer of
//! this library. These two don't tell their bytes. Nor does a [`NullSink`], which drops them.
//!
//! Each source and each sink counts its *faults*, which are the calls that failed. A call returns [`Failed`] only if
//! it has raised this count, or if the count is at its greatest value, `2^64 - 1`. So a caller with both a source and
//! a sink knows which of them failed. If a call of a source or a sink that tells its bytes fails, it moves no byte.
//!
//! [`write_all`] writes a whole output to a sink. If it returns `Failed`, a sink that tells its bytes has taken a
//! part of the output, but not all of it. [`read_up_to`] reads a whole input, up to a limit. [`words`] returns the words
//! of the command line.
//!
//! For example, let a `MemSink` have room for 3 bytes, take 1 byte in each call, and fail at its call 1. The calls have
//! the numbers 0 to 4, and write `ab`, `cd`, `ef`, `g` and `h`. They return 1, `Failed`, 1, 1 and `Failed`. The last
//! call fails because the room is full. The sink has taken `aeg` and has counted two faults. The test
//! `mem_sink_fails_at_listed_calls_and_without_room` of worked_examples makes these calls.
//!
//! A call takes **O(n)** time for the n bytes that it moves. A call of a `MemSink` or a `MemSource` takes **O(f)**
//! more for its list of f failing calls. Only [`MemSink::with_room`], [`read_up_to`] and [`words`] need memory.
#![tactic(auto)]

mod command_line;
mod input;
mod mem_sink;
mod mem_source;
mod null_sink;
mod plain_source;
mod sinks;
mod sources;
mod standard;

// The programs of this repository use these.
pub use command_line::words;
pub use input::{InputFault, read_up_to};
pub use sinks::{Sink, write_all};
pub use sources::{Failed, Source};
pub use standard::{StdSink, StdSource};

// For other programs in Rattle. No program of this repository uses these.
pub use mem_sink::{MemSink, RoomRefusal};
pub use mem_source::MemSource;
pub use null_sink::NullSink;
pub use plain_source::PlainSource;
