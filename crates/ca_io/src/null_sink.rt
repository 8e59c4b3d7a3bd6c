//! The sink `NullSink`, which drops its bytes.
ghost use Rattle.std.specs.Prelude.{◌≡◌, ◌<◌, None, Ok, length};

use crate::sinks::Sink;
use crate::sources::Failed;

/// A sink that takes each piece as a whole, drops it, and never fails. Contracts can't name the bytes that it has
/// taken.
#[derive(Clone, Copy, Debug, Default)]
pub struct NullSink;

impl NullSink {
    /// Makes a sink that drops its bytes.
    pub fn new() -> NullSink {
        NullSink
    }
}

impl Sink for NullSink {
    ghost taken = { λ _. None };

    ghost faults = { λ _. 0 };

    /// Takes the whole piece, and returns its length.
    fn write(&mut self, piece: &[u8]) -> Result<usize, Failed>
        requires { 0 < length piece.now }
        ensures { result ≡ Ok (length piece.now) }
    {
        Ok(piece.len())
    }
}
