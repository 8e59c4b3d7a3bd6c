//! Tests of sources and sinks, for facts that no contract can state: that there is memory, and what a reader and a
//! writer of Rust's standard library do.

use ca_io::{
    Failed, InputFault, MemSink, MemSource, NullSink, PlainSource, Sink, Source, StdSink,
    StdSource, read_up_to, write_all,
};
use std::io;
use std::io::{ErrorKind, Read, Write};
use std::test::Fail;

// Reads once into a buffer of two bytes. Returns the buffer, and how many bytes were read.
fn next<S: Source>(source: &mut S) -> Result<([u8; 2], usize), Failed> {
    let mut buf = [0; 2];
    let n = source.read(&mut buf)?;
    Ok((buf, n))
}

// A reader and writer that moves at most one byte in a call. Some of its calls go wrong. The calls are numbered,
// starting at 1.
#[derive(Drop)]
struct Faulty {
    calls: u8,
}

impl Read for Faulty {
    fn read(&mut self, buf: &mut [u8]) -> io::Result<usize> {
        self.calls = self.calls.saturating_add(1);
        if self.calls == 2 {
            return Err(io::Error::from(ErrorKind::BrokenPipe));
        }
        match buf.first_mut() {
            Some(byte) => {
                *byte = self.calls;
                Ok(1)
            }
            None => Ok(0),
        }
    }
}

impl Write for Faulty {
    fn write(&mut self, buf: &[u8]) -> io::Result<usize> {
        self.calls = self.calls.saturating_add(1);
        match self.calls {
            3 => Ok(0),
            8 => Err(io::Error::from(ErrorKind::BrokenPipe)),
            _ => Ok(buf.len().min(1)),
        }
    }

    fn flush(&mut self) -> io::Result<()> {
        self.calls = self.calls.saturating_add(1);
        if self.calls == 5 {
            return Err(io::Error::from(ErrorKind::BrokenPipe));
        }
        Ok(())
    }
}

#[test]
fn plain_source_gives_all_and_ends(rt: HostRuntime) -> Result<(), Fail> {
    let mut source = PlainSource::new(b"abc".to_vec(rt.alloc())?);
    assert_eq!(rt; next(&mut source), Ok((*b"ab", 2)));
    assert_eq!(rt; next(&mut source), Ok((*b"c\0", 1)));
    assert_eq!(rt; next(&mut source), Ok((*b"\0\0", 0)));
    Ok(())
}

#[test]
fn mem_sink_fails_at_listed_calls_and_without_room(rt: HostRuntime) -> Result<(), Fail> {
    let failing = [1u64].to_vec(rt.alloc())?;
    let mut sink = MemSink::with_room(rt.alloc(), 3, 1, failing)?;
    assert_eq!(rt; sink.write(b"ab"), Ok(1));
    assert_eq!(rt; sink.write(b"cd"), Err(Failed));
    assert_eq!(rt; sink.write(b"ef"), Ok(1));
    assert_eq!(rt; sink.write(b"g"), Ok(1));
    assert_eq!(rt; sink.write(b"h"), Err(Failed));
    assert_eq!(rt; sink.bytes(), b"aeg".as_slice());
    Ok(())
}

#[test]
fn write_all_takes_the_whole_or_the_first_bytes(rt: HostRuntime) -> Result<(), Fail> {
    let mut whole = MemSink::with_room(rt.alloc(), 5, 2, Vec::new(rt.alloc()))?;
    assert_eq!(rt; write_all(&mut whole, b"hello"), Ok(()));
    assert_eq!(rt; write_all(&mut whole, b""), Ok(()));
    assert_eq!(rt; write_all(&mut whole, b"!"), Err(Failed));
    assert_eq!(rt; whole.bytes(), b"hello".as_slice());

    let failing = [2u64].to_vec(rt.alloc())?;
    let mut part = MemSink::with_room(rt.alloc(), 5, 2, failing)?;
    assert_eq!(rt; write_all(&mut part, b"hello"), Err(Failed));
    assert_eq!(rt; part.bytes(), b"hell".as_slice());
    assert_eq!(rt; write_all(&mut part, b"o"), Ok(()));
    assert_eq!(rt; part.bytes(), b"hello".as_slice());

    assert_eq!(rt; write_all(&mut NullSink::new(), b"hello"), Ok(()));
    Ok(())
}

#[test]
fn std_source_reads_on_after_a_fault(rt: HostRuntime) {
    let mut source = StdSource::new(b"abc".as_slice());
    assert_eq!(rt; next(&mut source), Ok((*b"ab", 2)));
    assert_eq!(rt; next(&mut source), Ok((*b"c\0", 1)));
    assert_eq!(rt; next(&mut source), Ok((*b"\0\0", 0)));

    let mut faulty = StdSource::new(Faulty { calls: 0 });
    assert_eq!(rt; next(&mut faulty), Ok(([1, 0], 1)));
    assert_eq!(rt; next(&mut faulty), Err(Failed));
    assert_eq!(rt; next(&mut faulty), Ok(([3, 0], 1)));
}

#[test]
fn std_sink_counts_errors_of_write_and_flush_and_empty_writes(rt: HostRuntime) {
    let mut written = Vec::new(rt.alloc());
    assert_eq!(rt;
        write_all(&mut StdSink::new(&mut written), b"hello"),
        Ok(())
    );
    assert_eq!(rt; written.as_slice(), b"hello".as_slice());

    let mut faulty = StdSink::new(Faulty { calls: 0 });
    assert_eq!(rt; faulty.write(b"ab"), Ok(1));
    assert_eq!(rt; faulty.write(b"ab"), Err(Failed), "no byte was written");
    assert_eq!(rt; faulty.write(b"ab"), Err(Failed), "the flush failed");
    assert_eq!(rt; faulty.write(b"ab"), Ok(1));
    assert_eq!(rt; faulty.write(b"ab"), Err(Failed), "the write failed");
    assert_eq!(rt; faulty.write(b"ab"), Ok(1));
}

#[test]
fn mem_source_fails_at_listed_calls_and_gives_short_pieces(rt: HostRuntime) -> Result<(), Fail> {
    let failing = [1u64].to_vec(rt.alloc())?;
    let mut source = MemSource::new(b"abc".to_vec(rt.alloc())?, 1, failing);
    assert_eq!(rt; next(&mut source), Ok((*b"a\0", 1)));
    assert_eq!(rt; next(&mut source), Err(Failed));
    assert_eq!(rt; next(&mut source), Ok((*b"b\0", 1)));
    assert_eq!(rt; next(&mut source), Ok((*b"c\0", 1)));
    assert_eq!(rt; next(&mut source), Ok((*b"\0\0", 0)));
    Ok(())
}

#[test]
fn input_is_read_to_its_end_or_limit(rt: HostRuntime) -> Result<(), Fail> {
    let cases: [(usize, &[u64], usize, Option<&[u8]>); 6] = [
        (1, &[], 9, Some(b"hello")),
        (3, &[], 5, Some(b"hello")),
        (3, &[2, 3], 4, Some(b"hell")),
        (5, &[1], 5, Some(b"hello")),
        (5, &[1], 6, None),
        (2, &[0], 0, Some(b"")),
    ];
    for (piece, failing, most, want) in cases {
        let failing = failing.to_vec(rt.alloc())?;
        let bytes = b"hello".to_vec(rt.alloc())?;
        assert!(rt; piece > 0);
        let mut source = MemSource::new(bytes, piece, failing);
        match read_up_to(rt.alloc(), &mut source, most) {
            Ok(bytes) => assert_eq!(rt; Some(bytes.as_slice()), want),
            Err(fault) => {
                assert_eq!(rt; fault, InputFault::Failed);
                assert_eq!(rt; want, None);
            }
        }
    }
    Ok(())
}
