//! The sink `MemSink`, which keeps its bytes in memory and fails at given calls.
ghost use Rattle.std.specs.Prelude.{◌≡◌, ◌<◌, ◌≤◌, ◌↔◌, Some, length, take, IsErr, IsTrue, IfOk, IfErr, OnErr};
ghost use Rattle.ca_io.specs.Faults.{CountsFaults};
ghost use Rattle.ca_io.specs.Trays.{empty_tray, next_write_fails, count_to_take, after_taking, after_fault};

use crate::sinks::Sink;
use crate::sources::Failed;
use std::alloc::{AllocError, Global};
use std::marker::Model;

/// A sink in memory. Its calls have the numbers 0, 1, 2 and so on. After the number `2^64 - 1` all calls have this
/// number. A call fails if and only if its number is in `failing` or the room is full. Otherwise it takes the first
/// bytes that it is given: all of them, but at most `piece` bytes and no more than there is room for.
#[derive(Drop)]
pub struct MemSink {
    // How many bytes the sink takes in total.
    room: usize,
    // How many bytes one call takes at most.
    piece: usize,
    // The numbers of the calls that fail.
    failing: Vec<u64>,
    // The number of the next call.
    calls: u64,
    // How many calls have failed.
    faults: u64,
    // The bytes taken so far. The list has capacity for the whole room.
    taken: Vec<u8>,
}

impl Model for MemSink {
    ghost use Rattle.std.specs.Prelude.{◌≤◌, vec_len, vec_capacity};
    ghost use Rattle.ca_io.specs.Trays.{Tray};

    ghost Value = { Tray };

    ghost view = { λ s. record {
      room = s.room;
      piece = s.piece;
      failing = s.failing.items;
      calls = s.calls;
      faults = s.faults;
      taken = s.taken.items;
    } };

    ghost invariant = { λ s. (1 ≤ s.piece) × (vec_len s.taken ≤ s.room)
        × (s.room ≤ vec_capacity s.taken) };
}

/// The error if there is no memory for the room of a [`MemSink`]. It gives the list of failing calls back.
#[derive(Debug, Drop)]
pub struct RoomRefusal {
    /// The error of the allocation that failed.
    pub fault: AllocError,
    /// The list of failing calls that was passed to `with_room`.
    pub failing: Vec<u64>,
}

impl MemSink {
    /// Makes a sink that takes `room` bytes in total, and at most `piece` bytes in a call. `piece` is at least 1. The
    /// calls with the numbers in `failing` fail. The room is allocated here, and no write needs memory.
    pub fn with_room(
        alloc: Global,
        room: usize,
        piece: usize,
        failing: Vec<u64>,
    ) -> Result<MemSink, RoomRefusal>
        requires { 1 ≤ piece }
        ensures made { IfOk result (λ sink. sink ≡ empty_tray room piece failing.items) }
        ensures refused { IfErr result (λ refusal. refusal.failing ≡ failing) }
    {
        match Vec::with_capacity(alloc, room) {
            Ok(taken) => Ok(MemSink {
                room,
                piece,
                failing,
                calls: 0,
                faults: 0,
                taken,
            }),
            Err(fault) => Err(RoomRefusal { fault, failing }),
        }
    }

    /// Returns the bytes that the sink has taken so far.
    pub fn bytes(&self) -> &[u8]
        ensures { result.now ≡ self.now.taken }
    {
        &self.taken
    }
}

impl Sink for MemSink {
    ghost taken = { λ s. Some s.taken };

    ghost faults = { λ s. s.faults };

    fn write(&mut self, piece: &[u8]) -> Result<usize, Failed>
        requires { 0 < length piece.now }
        ensures some { IfOk result (λ n. 1 ≤ n) }
        ensures counted { CountsFaults self.old.faults self.new.faults result }

        // These clauses hold besides the clauses of the trait.
        ensures fails { IsErr result ↔ IsTrue (next_write_fails self.old) }
        ensures count { IfOk result (λ n. n ≡ count_to_take self.old (length piece.now)) }
        ensures took { IfOk result (λ n. self.new ≡ after_taking self.old (take n piece.now)) }
        ensures failed { OnErr result (self.new ≡ after_fault self.old) }
    {
        let number = self.calls;
        self.calls = number.saturating_add(1);
        let rest = self.room - self.taken.len();
        if rest == 0 || self.failing.contains(&number) {
            self.faults = self.faults.saturating_add(1);
            return Err(Failed);
        }
        let n = piece.len().min(self.piece.min(rest));
        self.taken.extend_from_slice(&piece[..n]).unwrap();
        Ok(n)
    }
}
