//! The source `StdSource` over a reader of Rust's standard library, and the sink `StdSink` over a writer of this
//! library. Contracts can't name the bytes of either, since no contract can say which bytes came from outside or
//! arrived there.
ghost use Rattle.std.specs.Prelude.{◌≡◌, ℕ, ◌≤◌, None, length, take, IfOk, OnErr};
ghost use Rattle.std.specs.Io.{ReadsAtMost, WritesAtMost};
ghost use Rattle.std.specs.Io.KnownBytes.{Appends, ReadConsumes, WriteAppends};
ghost use Rattle.ca_io.specs.Faults.{CountsFaults, count_up};

use crate::sinks::Sink;
use crate::sources::{Failed, Source};
use std::io;
use std::io::{ErrorKind, Read, Write};

/// A source over a reader of the standard library. It counts each error of the reader as a fault.
#[derive(Drop)]
pub struct StdSource<R> {
    inner: R,
    // How many reads have failed.
    faults: u64,
}

impl<R: Read> StdSource<R> {
    ghost use Rattle.ca_io.specs.StdStreams.{source_reader, source_faults};

    /// Makes a source over this reader. No fault is counted yet.
    pub fn new(inner: R) -> StdSource<R>
        ensures reader { source_reader result ≡ inner }
        ensures faultless { source_faults result ≡ 0 }
    {
        StdSource { inner, faults: 0 }
    }
}

impl<R: Read> Source for StdSource<R> {
    ghost use Rattle.ca_io.specs.StdStreams.{source_reader, source_faults};

    ghost left = { λ _. None };

    ghost faults = { source_faults };

    fn read(&mut self, buf: &mut [u8]) -> Result<usize, Failed>
        ensures bound { ReadsAtMost result buf.new }
        ensures bytes { ReadConsumes None None result buf.new }
        ensures counted { CountsFaults (source_faults self.old) (source_faults self.new) result }

        // These clauses hold besides the clauses of the trait.
        ensures passed_on { ReadConsumes (R.remaining (source_reader self.old))
            (R.remaining (source_reader self.new)) result buf.new }
        ensures one_more { OnErr result (source_faults self.new ≡ count_up (source_faults self.old)) }
    {
        match self.inner.read(buf) {
            Ok(n) => Ok(n),
            Err(_) => {
                self.faults = self.faults.saturating_add(1);
                Err(Failed)
            }
        }
    }
}

/// A sink over a writer of the standard library. It flushes the writer after each piece. It counts each error of the
/// writer as a fault, and also a write that takes no byte. If the flush fails, a part of the piece has reached the
/// writer.
#[derive(Drop)]
pub struct StdSink<W> {
    inner: W,
    // How many writes have failed.
    faults: u64,
}

impl<W: Write> StdSink<W> {
    ghost use Rattle.ca_io.specs.StdStreams.{sink_writer, sink_faults};

    /// Makes a sink over this writer. No fault is counted yet.
    pub fn new(inner: W) -> StdSink<W>
        ensures writer { sink_writer result ≡ inner }
        ensures faultless { sink_faults result ≡ 0 }
    {
        StdSink { inner, faults: 0 }
    }
}

impl<W: Write> Sink for StdSink<W> {
    ghost use Rattle.ca_io.specs.StdStreams.{sink_writer, sink_faults};

    ghost taken = { λ _. None };

    ghost faults = { sink_faults };

    fn write(&mut self, piece: &[u8]) -> Result<usize, Failed>
        ensures bound { WritesAtMost result piece.now }
        ensures some { IfOk result (λ n. 1 ≤ n) }
        ensures bytes { WriteAppends None None result piece.now }
        ensures counted { CountsFaults (sink_faults self.old) (sink_faults self.new) result }

        // These clauses hold besides the clauses of the trait.
        ensures passed_on { IfOk result (λ n. Appends (W.contents (sink_writer self.old))
            (W.contents (sink_writer self.new)) (take n piece.now)) }
        ensures part { OnErr result ((n : ℕ) × (n ≤ length piece.now)
            × Appends (W.contents (sink_writer self.old)) (W.contents (sink_writer self.new))
            (take n piece.now)) }
        ensures one_more { OnErr result (sink_faults self.new ≡ count_up (sink_faults self.old)) }
    {
        match write_and_flush(&mut self.inner, piece) {
            Ok(n) => Ok(n),
            Err(_) => {
                self.faults = self.faults.saturating_add(1);
                Err(Failed)
            }
        }
    }
}

/// Writes at least one byte of the piece to the writer, flushes the writer, and returns how many bytes it wrote.
fn write_and_flush<W: Write>(writer: &mut W, piece: &[u8]) -> io::Result<usize>
    ensures bound { WritesAtMost result piece.now }
    ensures some { IfOk result (λ n. 1 ≤ n) }
    ensures bytes { IfOk result (λ n. Appends (W.contents writer.old) (W.contents writer.new)
        (take n piece.now)) }
    ensures part { OnErr result ((n : ℕ) × (n ≤ length piece.now)
        × Appends (W.contents writer.old) (W.contents writer.new) (take n piece.now)) }
{
    let n = writer.write(piece)?;
    if n == 0 {
        return Err(io::Error::from(ErrorKind::WriteZero));
    }
    writer.flush()?;
    Ok(n)
}
