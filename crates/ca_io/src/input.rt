//! The function `read_up_to`, which reads a whole input up to a limit.
ghost use Rattle.std.specs.Prelude.{◌≡◌, ◌≢◌, ◌<◌, ◌≤◌, ℕ, List, length, vec_len, is_some, IfOk, OnErr};
ghost use Rattle.std.specs.Io.KnownBytes.{Consumes, IsAtEnd};
ghost use Rattle.ca_io.specs.Faults.{Rose};

use crate::sources::{Failed, Source};
use std::alloc::{AllocError, Global};

/// The greatest number of bytes that one read asks for.
const LONGEST_PIECE: usize = 4096;

/// Why an input couldn't be read.
#[derive(Clone, Copy, Debug, PartialEq, Eq)]
pub enum InputFault {
    /// A read of the source failed.
    Failed,
    /// There is not enough memory.
    Memory(AllocError),
}

impl From<Failed> for InputFault {
    ghost use Rattle.std.specs.Prelude.{◌≡◌};
    ghost use Rattle.ca_io.specs.declared.input.InputFault.TheVariants as fault;

    ghost from_gives = { λ _ e. e ≡ fault.Failed };

    fn from(_: Failed) -> InputFault {
        InputFault::Failed
    }
}

impl From<AllocError> for InputFault {
    ghost use Rattle.std.specs.Prelude.{◌≡◌};
    ghost use Rattle.ca_io.specs.declared.input.InputFault.TheVariants as fault;

    ghost from_gives = { λ a e. e ≡ fault.Memory a };

    fn from(fault: AllocError) -> InputFault {
        InputFault::Memory(fault)
    }
}

/// Reads until the source ends or has given `most` bytes, and returns the bytes. If there are fewer than `most`
/// bytes, they are the whole input. After a fault, bytes that were already read may be lost.
pub fn read_up_to<S: Source>(
    alloc: Global,
    source: &mut S,
    most: usize,
) -> Result<Vec<u8>, InputFault>
    ensures read { IfOk result (λ bytes. Consumes (S.left source.old) (S.left source.new) bytes.items) }
    ensures bound { IfOk result (λ bytes. vec_len bytes ≤ most) }
    ensures whole { IfOk result (λ bytes. vec_len bytes < most → IsAtEnd (S.left source.new)) }
    ensures part { OnErr result ((bytes : List ℕ) × (length bytes ≤ most)
        × Consumes (S.left source.old) (S.left source.new) bytes) }

    // If this fails, either a read failed, which the source has counted, or there was no memory.
    ensures failed { result ≡ Err InputFault.Failed → Rose (S.faults source.old) (S.faults source.new) }
    ensures kept { result ≢ Err InputFault.Failed → S.faults source.new ≡ S.faults source.old }
    ensures telling { is_some (S.left source.new) ≡ is_some (S.left source.old) }
{
    let mut bytes = Vec::new(alloc);
    let mut piece = [0; LONGEST_PIECE];
    'reads: while bytes.len() < most {
        let room = (most - bytes.len()).min(LONGEST_PIECE);
        let n = source.read(&mut piece[..room])?;
        if n == 0 {
            break;
        }
        bytes.extend_from_slice(&piece[..n])?;
    }
    Ok(bytes)
}
