//! The source `MemSource`, which has its bytes in memory and fails at given calls.
ghost use Rattle.std.specs.Prelude.{◌≡◌, [], ◌++◌, ◌≤◌, ◌<◌, ◌↔◌, Some, length, take, drop, IsErr, IsTrue, IfOk, OnErr};
ghost use Rattle.std.specs.Io.{ReadsAtMost};
ghost use Rattle.std.specs.Io.KnownBytes.{ReadConsumes};
ghost use Rattle.ca_io.specs.Faults.{CountsFaults};
ghost use Rattle.ca_io.specs.Feeds.{whole_feed, next_read_fails, count_to_give, after_giving, after_failing};

use crate::plain_source::PlainSource;
use crate::sources::{Failed, Source};
use std::marker::Model;

/// A source in memory. Its calls have the numbers 0, 1, 2 and so on. After the number `2^64 - 1` all calls have this
/// number. A call fails if and only if its number is in `failing`. Otherwise it gives the next bytes: at most `piece`
/// bytes, no more than the buffer has places for, and no more than are left.
#[derive(Drop)]
pub struct MemSource {
    // The bytes that are left.
    plain: PlainSource,
    // How many bytes one call gives at most.
    piece: usize,
    // The numbers of the calls that fail.
    failing: Vec<u64>,
    // The number of the next call.
    calls: u64,
    // How many calls have failed.
    faults: u64,
}

impl Model for MemSource {
    ghost use Rattle.std.specs.Prelude.{◌≤◌};
    ghost use Rattle.ca_io.specs.Feeds.{Feed};

    ghost Value = { Feed };

    ghost view = { λ s. record {
      piece = s.piece;
      failing = s.failing.items;
      calls = s.calls;
      faults = s.faults;
      left = s.plain;
    } };

    ghost invariant = { λ s. 1 ≤ s.piece };
}

impl MemSource {
    /// Makes a source of these bytes that gives at most `piece` bytes in a call. `piece` is at least 1. The calls
    /// with the numbers in `failing` fail.
    pub fn new(bytes: Vec<u8>, piece: usize, failing: Vec<u64>) -> MemSource
        requires { 1 ≤ piece }
        ensures { result ≡ whole_feed bytes.items piece failing.items }
    {
        MemSource {
            plain: PlainSource::new(bytes),
            piece,
            failing,
            calls: 0,
            faults: 0,
        }
    }
}

impl Source for MemSource {
    ghost left = { λ s. Some s.left };

    ghost faults = { λ s. s.faults };

    fn read(&mut self, buf: &mut [u8]) -> Result<usize, Failed>
        requires { 0 < length buf.old }
        ensures bound { ReadsAtMost result buf.new }
        ensures bytes { ReadConsumes (Some self.old.left) (Some self.new.left) result buf.new }
        ensures end { IfOk result (λ n. (n ≡ 0) ↔ (self.old.left ≡ [])) }
        ensures counted { CountsFaults self.old.faults self.new.faults result }

        // These clauses hold besides the clauses of the trait.
        ensures fails { IsErr result ↔ IsTrue (next_read_fails self.old) }
        ensures count { IfOk result (λ n. n ≡ count_to_give self.old (length buf.old)) }
        ensures gave { IfOk result (λ n. buf.new ≡ take n self.old.left ++ drop n buf.old) }
        ensures rest { IfOk result (λ n. self.new ≡ after_giving self.old n) }
        ensures failed { OnErr result ((self.new ≡ after_failing self.old) × (buf.new ≡ buf.old)) }
    {
        let number = self.calls;
        self.calls = number.saturating_add(1);
        if self.failing.contains(&number) {
            self.faults = self.faults.saturating_add(1);
            return Err(Failed);
        }
        let most = buf.len().min(self.piece);
        let n = self.plain.read(&mut buf[..most])?;
        Ok(n)
    }
}
