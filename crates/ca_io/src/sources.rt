//! The trait `Source`, and the error `Failed` of sources and sinks.
ghost use Rattle.std.specs.Prelude.{◌≡◌, ◌↔◌, ℕ, ◌<◌, List, [], Option, length, is_some, IfOk, IfSome};
ghost use Rattle.std.specs.Io.{ReadsAtMost};
ghost use Rattle.std.specs.Io.KnownBytes.{ReadConsumes};
ghost use Rattle.ca_io.specs.Faults.{CountsFaults};

/// The error of a call that failed. The source or the sink has counted this fault. If contracts can name its bytes, it
/// has moved no byte in this call.
#[derive(Clone, Copy, Debug, PartialEq, Eq)]
pub struct Failed;

/// A source of bytes: something from which bytes can be read.
pub trait Source {
    // The bytes that are still to come, if the source tells them.
    ghost left: { Self → Option (List ℕ) };

    // How many reads have failed. The count stops at 2^64 - 1.
    ghost faults: { Self → ℕ };

    /// Reads the next bytes into the first places of `buf`, which isn't empty, and returns how many bytes it read. At
    /// the end of the input this is 0. Returns `Failed` only if it has counted this call as a fault. If contracts can
    /// name the bytes that the source has left, a failed call has lost none.
    fn read(&mut self, buf: &mut [u8]) -> Result<usize, Failed>
        requires { 0 < length buf.old }
        ensures bound { ReadsAtMost result buf.new }
        ensures bytes { ReadConsumes (left self.old) (left self.new) result buf.new }
        ensures end { IfOk result (λ n. IfSome (left self.old) (λ xs. (n ≡ 0) ↔ (xs ≡ []))) }
        ensures telling { is_some (left self.new) ≡ is_some (left self.old) }
        ensures counted { CountsFaults (faults self.old) (faults self.new) result };
}
