//! Tests with sources that fail in the middle of an input.
ghost use Rattle.std.specs.Prelude.{◌≤◌};

use crate::calls::{call, sink};
use ca_cli::Status;
use ca_cli::Status::{Done, ReadFault};
use ca_io::{MemSource, PlainSource};
use std::alloc::{AllocError, Global};
use std::process::Abort;
use std::test::Fail;

const ACCEPTED: &str =
    "accepted 2:2:0:t0101\nsurjective yes\ninjective yes\nright yes\nleft yes\nopen yes\nconserving yes\n";

/// Returns the certificate of the shift to the left by one cell that `certify` writes.
fn certificate(alloc: Global) -> Result<Vec<u8>, AllocError> {
    let mut source = PlainSource::new(Vec::new(alloc));
    let output = sink(alloc, 1 << 10, 1 << 10, Vec::new(alloc))?;
    let outcome = call(alloc, "certify 2:2:0:t0101", &mut source, output)?;
    outcome.output.bytes().to_vec(alloc)
}

/// The source gives one byte in each read. Each read fails in turn, also the read that finds the end of the input.
/// Then the status is `ReadFault`, and nothing is written.
#[test]
fn failed_reads(rt: HostRuntime) -> Result<(), Fail> {
    let bytes = certificate(rt.alloc())?;
    for i in 0..=bytes.len() {
        let failing = vec![in rt.alloc(); i as u64]?;
        read(&rt, rt.alloc(), &bytes, failing, 1, ReadFault, "")?;
    }
    let later = vec![in rt.alloc(); bytes.len() as u64 + 1]?;
    read(&rt, rt.alloc(), &bytes, later, 1, Done, ACCEPTED)?;
    let second = vec![in rt.alloc(); 1u64]?;
    read(&rt, rt.alloc(), &bytes, second, 10, ReadFault, "")?;
    Ok(())
}

/// Checks that `check` has this status and this output for these bytes. The source gives at most `piece` bytes in a
/// read, and its reads with the numbers in `failing` fail.
fn read(
    rt: &impl Abort,
    alloc: Global,
    bytes: &[u8],
    failing: Vec<u64>,
    piece: usize,
    status: Status,
    output: &str,
) -> Result<(), AllocError>
    requires { 1 ≤ piece }
{
    let mut source = MemSource::new(bytes.to_vec(alloc)?, piece, failing);
    let taken = sink(alloc, 1 << 10, 1 << 10, Vec::new(alloc))?;
    let outcome = call(alloc, "check", &mut source, taken)?;
    assert_eq!(rt; outcome.status, status, "{piece}");
    assert_eq!(rt; outcome.output.bytes(), output.as_bytes(), "{piece}");
    Ok(())
}
