//! The source `PlainSource`, which has its bytes in memory and never fails.
ghost use Rattle.std.specs.Prelude.{◌≡◌, min, ◌++◌, Some, length, take, drop};

use crate::sources::{Failed, Source};
use std::marker::Model;

/// A source of bytes in memory, which are read from the first one to the last one. No read fails. In contracts it is
/// the list of the bytes that are left.
#[derive(Drop)]
pub struct PlainSource {
    bytes: Vec<u8>,
    // How many of the bytes have been given.
    given: usize,
}

impl Model for PlainSource {
    ghost use Rattle.std.specs.Prelude.{ℕ, ◌≤◌, List, drop, vec_len};

    ghost Value = { List ℕ };

    ghost view = { λ s. drop s.given s.bytes.items };

    ghost invariant = { λ s. s.given ≤ vec_len s.bytes };
}

impl PlainSource {
    /// Makes a source of these bytes.
    pub fn new(bytes: Vec<u8>) -> PlainSource
        ensures { result ≡ bytes.items }
    {
        PlainSource { bytes, given: 0 }
    }
}

impl Source for PlainSource {
    ghost left = { λ s. Some s };

    ghost faults = { λ _. 0 };

    /// Gives as many bytes as `buf` has places and as are left, and returns how many they are.
    fn read(&mut self, buf: &mut [u8]) -> Result<usize, Failed>
        ensures count { result ≡ Ok (min (length buf.old) (length self.old)) }
        ensures first { let n = min (length buf.old) (length self.old) in
            buf.new ≡ take n self.old ++ drop n buf.old }
        ensures rest { self.new ≡ drop (min (length buf.old) (length self.old)) self.old }
    {
        let rest = &self.bytes[self.given..];
        let n = buf.len().min(rest.len());
        buf[..n].copy_from_slice(&rest[..n]);
        self.given += n;
        Ok(n)
    }
}
