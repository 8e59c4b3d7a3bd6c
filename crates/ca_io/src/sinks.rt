//! The trait `Sink`, and the function `write_all`, which writes a whole output to a sink.
ghost use Rattle.std.specs.Prelude.{◌≡◌, ℕ, ◌<◌, ◌≤◌, List, Option, length, take, is_some, IfOk, OnOk, OnErr};
ghost use Rattle.std.specs.Io.{WritesAtMost};
ghost use Rattle.std.specs.Io.KnownBytes.{Appends, WriteAppends};
ghost use Rattle.ca_io.specs.Faults.{CountsFaults};

use crate::sources::Failed;

/// A sink for bytes: something to which bytes can be written.
pub trait Sink {
    // The bytes taken so far, if the sink tells them.
    ghost taken: { Self → Option (List ℕ) };

    // How many writes have failed. The count stops at 2^64 - 1.
    ghost faults: { Self → ℕ };

    /// Takes some of the first bytes of `piece`, which isn't empty, and returns how many it took. Returns `Failed` only
    /// if it has counted this call as a fault. If contracts can name the bytes that the sink has taken, a failed call
    /// has taken none.
    fn write(&mut self, piece: &[u8]) -> Result<usize, Failed>
        requires { 0 < length piece.now }
        ensures bound { WritesAtMost result piece.now }
        ensures some { IfOk result (λ n. 1 ≤ n) }
        ensures bytes { WriteAppends (taken self.old) (taken self.new) result piece.now }
        ensures telling { is_some (taken self.new) ≡ is_some (taken self.old) }
        ensures counted { CountsFaults (faults self.old) (faults self.new) result };
}

/// Writes all of `bytes` in as many calls of the sink as are needed. Makes no call for an empty output. If it returns
/// `Failed`, the sink has counted the fault, and has taken a part of `bytes`, but not all of them.
#[tactic(auto, using(crate::proofs::laws::Pieces::piece_steps))]
pub fn write_all<T: Sink>(sink: &mut T, bytes: &[u8]) -> Result<(), Failed>
    ensures written { OnOk result (Appends (T.taken sink.old) (T.taken sink.new) bytes.now) }
    ensures part { OnErr result ((n : ℕ) × (n < length bytes.now)
        × Appends (T.taken sink.old) (T.taken sink.new) (take n bytes.now)) }
    ensures telling { is_some (T.taken sink.new) ≡ is_some (T.taken sink.old) }
    ensures counted { CountsFaults (T.faults sink.old) (T.faults sink.new) result }
    ensures no_call { length bytes.now ≡ 0 → sink.new ≡ sink.old }
{
    let mut at = 0;
    while at < bytes.len() {
        at += sink.write(&bytes[at..])?;
    }
    Ok(())
}
