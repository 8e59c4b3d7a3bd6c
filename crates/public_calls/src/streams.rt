//! Functions that call the public functions of `ca_io`, and that make each kind of source and sink.

ghost use Rattle.std.specs.Prelude.{◌<◌, ◌≤◌, length};

use ca_io::{
    Failed, MemSink, MemSource, NullSink, PlainSource, RoomRefusal, Sink, Source, StdSink,
    StdSource,
};
use std::alloc::{AllocError, Global};
use std::io::{Read, Write};

/// Makes a source in memory whose calls with the numbers in `failing` fail.
pub fn mem_source(bytes: Vec<u8>, piece: usize, failing: Vec<u64>) -> MemSource
    requires { 1 ≤ piece }
{
    MemSource::new(bytes, piece, failing)
}

/// Makes a sink in memory whose calls with the numbers in `failing` fail. If there is no memory, returns the error
/// and gives the list `failing` back.
pub fn mem_sink(
    alloc: Global,
    room: usize,
    piece: usize,
    failing: Vec<u64>,
) -> Result<MemSink, (AllocError, Vec<u64>)>
    requires { 1 ≤ piece }
{
    match MemSink::with_room(alloc, room, piece, failing) {
        Ok(sink) => Ok(sink),
        Err(RoomRefusal { fault, failing }) => Err((fault, failing)),
    }
}

/// Returns the bytes that a sink in memory has taken.
pub fn taken(sink: &MemSink) -> &[u8] {
    sink.bytes()
}

/// Makes a source that never fails, and a sink that drops all bytes.
pub fn plain(bytes: Vec<u8>) -> (PlainSource, NullSink) {
    (PlainSource::new(bytes), NullSink::new())
}

/// Makes a source over a reader and a sink over a writer, as the program uses them.
pub fn edges<R: Read, W: Write>(reader: R, writer: W) -> (StdSource<R>, StdSink<W>) {
    (StdSource::new(reader), StdSink::new(writer))
}

/// Reads bytes from any source into `buf`, and returns how many were read.
pub fn read<S: Source>(source: &mut S, buf: &mut [u8]) -> Result<usize, Failed>
    requires { 0 < length buf.old }
{
    source.read(buf)
}

/// Writes the first bytes of `piece` to any sink, and returns how many it took.
pub fn write<T: Sink>(sink: &mut T, piece: &[u8]) -> Result<usize, Failed>
    requires { 0 < length piece.now }
{
    sink.write(piece)
}
