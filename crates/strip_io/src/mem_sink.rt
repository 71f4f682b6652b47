// A sink in memory, with failures at chosen writes.
ghost use Rattle.std.specs.Prelude.{◌≡◌, ◌⊎◌, ◌↔◌, ◌+◌, ◌-◌, ◌<◌, ◌≤◌, min, [], ◌++◌, length, take, Some, IfOk, OnOk, OnErr, IsErr, Contains};
ghost use Rattle.strip_io.specs.Counts.{Rose};
ghost use Rattle.strip_io.specs.Held.{next_count};
ghost use Rattle.strip_io.specs.Memory.{memory_sink_data};
ghost use Rattle.strip_io.specs.Sink.{Took};

use crate::tally::next_count;
use crate::{Failed, Memory, Sink};
use std::alloc::Global;
use std::marker::Model;

/// A sink that keeps the bytes that it takes, in a buffer reserved when it is made. So its writes allocate no memory. A
/// write fails if its number, counted from 1, is in the given list, or if the buffer is full.
#[derive(Drop)]
pub struct MemSink {
    taken: Vec<u8>,
    room: usize,
    piece: usize,
    failing: Vec<u64>,
    calls: u64,
    faults: u64,
}

impl Model for MemSink {
    ghost use Rattle.std.specs.Prelude.{◌≤◌, vec_len, vec_capacity};
    ghost use Rattle.strip_io.specs.Memory.{MemorySink};

    ghost Value = { MemorySink };

    ghost view = { λ m. record { taken = m.taken.items; room = m.room; piece = m.piece; failing = m.failing.items; calls = m.calls; faults = m.faults } };

    ghost invariant = { λ m. (vec_len m.taken ≤ m.room) × (m.room ≤ vec_capacity m.taken) × (1 ≤ m.piece) };
}

impl MemSink {
    /// Makes a sink with a buffer of `room` bytes, whose writes take at most `piece` bytes each. The writes with the
    /// numbers in `failing` will fail.
    pub fn new(alloc: Global, room: usize, piece: usize, failing: &[u64]) -> Result<MemSink, Memory>
        requires { 1 ≤ piece }
        ensures { IfOk result (λ m. m
            ≡ record { taken = []; room = room; piece = piece; failing = failing.now; calls = 0; faults = 0 }) }
    {
        Ok(MemSink {
            taken: Vec::with_capacity(alloc, room)?,
            room,
            piece,
            failing: Vec::from_slice(alloc, failing)?,
            calls: 0,
            faults: 0,
        })
    }

    /// Returns the bytes taken so far.
    pub fn taken(&self) -> &[u8]
        ensures { result.now ≡ self.now.taken }
    {
        &self.taken
    }
}

impl Sink for MemSink {
    ghost state = { λ m. memory_sink_data m };

    fn write(&mut self, piece: &[u8]) -> Result<usize, Failed>
        requires { 0 < length piece.now }
        ensures some { IfOk result (λ n. (0 < n) × (n ≤ length piece.now)) }
        ensures taken { IfOk result (λ n. Took (Some self.old.taken) (Some self.new.taken) (take n piece.now)) }
        ensures cause { OnErr result (Rose self.old.faults self.new.faults) }
        ensures failed { OnErr result (Some self.new.taken ≡ Some self.old.taken) }
        ensures later { self.old.faults ≤ self.new.faults }
        ensures unfailed { OnOk result (self.new.faults ≡ self.old.faults) }

        // A write fails exactly at the listed calls and if the buffer is full.
        ensures fails { IsErr result ↔ (Contains self.old.failing (next_count self.old.calls)
            ⊎ (length self.old.taken ≡ self.old.room)) }
        ensures exact { IfOk result (λ n. n ≡ min self.old.piece
            (min (length piece.now) (self.old.room - length self.old.taken))) }

        ensures ok { IfOk result (λ n. self.new ≡ record self.old {
          taken = self.old.taken
              ++ take n piece.now;
          calls = next_count self.old.calls;
        }) }
        ensures err { OnErr result (self.new
            ≡ record self.old { calls = next_count self.old.calls; faults = next_count self.old.faults }) }
    {
        self.calls = next_count(self.calls);
        let left = self.room - self.taken.len();
        if left == 0 || self.failing.contains(&self.calls) {
            self.faults = next_count(self.faults);
            return Err(Failed);
        }
        let count = self.piece.min(piece.len()).min(left);
        if self.taken.extend_from_slice(&piece[..count]).is_err() {
            unreachable!();
        }
        Ok(count)
    }
}
