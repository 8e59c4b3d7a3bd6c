//! Tests with sinks that fail in the middle of an output.

use crate::calls::{call, sink};
use ca_cli::Status;
use ca_io::{MemSink, PlainSource};
use std::alloc::{AllocError, Global};
use std::process::Abort;
use std::test::Fail;

const LINE: &[u8] = b"surjective no orphan 01010\n";

/// A sink takes one byte in each call, and the output has 27 bytes. For each i from 0 to 27 there are two tests. In
/// one test the call with the number i fails. In the other test the sink has room for only i bytes. In both tests the
/// sink takes the first i bytes of the output and no more.
#[test]
fn failed_calls_and_small_rooms(rt: HostRuntime) -> Result<(), Fail> {
    for i in 0..28usize {
        let failing = vec![in rt.alloc(); i as u64]?;
        takes_first_bytes(&rt, rt.alloc(), sink(rt.alloc(), 1 << 10, 1, failing)?, i)?;
        let never = Vec::new(rt.alloc());
        takes_first_bytes(&rt, rt.alloc(), sink(rt.alloc(), i, 1, never)?, i)?;
    }
    Ok(())
}

/// Checks that `orphan 110` writes the first `count` bytes of its output to a sink that can take no more. The status is
/// `WriteFault` if these bytes aren't the whole output, and otherwise `Done`.
fn takes_first_bytes(
    rt: &impl Abort,
    alloc: Global,
    sink: MemSink,
    count: usize,
) -> Result<(), AllocError> {
    let mut source = PlainSource::new(Vec::new(alloc));
    let outcome = call(alloc, "orphan 110", &mut source, sink)?;
    let status = if count < LINE.len() {
        Status::WriteFault
    } else {
        Status::Done
    };
    assert_eq!(rt; outcome.status, status, "{count} bytes");
    assert_eq!(rt;
        outcome.output.bytes(),
        &LINE[..count.min(LINE.len())],
        "{count} bytes"
    );
    Ok(())
}

/// The second byte of a report can't be written. Then the sink has only the first byte.
#[test]
fn a_report_ends_at_a_fault(rt: HostRuntime) -> Result<(), Fail> {
    let failing = vec![in rt.alloc(); 1u64]?;
    let mut source = PlainSource::new(Vec::new(rt.alloc()));
    let output = sink(rt.alloc(), 1 << 10, 1, failing)?;
    let outcome = call(rt.alloc(), "decide 30", &mut source, output)?;
    assert_eq!(rt; outcome.status, Status::WriteFault);
    assert_eq!(rt; outcome.output.bytes(), b"r".as_slice());
    Ok(())
}
