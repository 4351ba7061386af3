ghost use Rattle.std.specs.Prelude.{◌≡◌, ◌<◌, ◌≤◌, ◌-◌, ◌++◌, ◌⊎◌, ◌↔◌, min, [], length, take, Some, Contains, IsErr, IfOk, OnErr};
ghost use Rattle.frp_io.specs.Outside.{HasCause, Gave, next_count};

use crate::{Failed, Sink};
use frp_base::Memory;
use std::alloc::Global;
use std::marker::Model;

/// A bounded place in memory, which is written in chunks, and with failures at chosen writes.
#[derive(Drop)]
pub struct MemSink {
    held: Vec<u8>,
    chunk: usize,
    room: usize,
    failing: Vec<u64>,
    calls: u64,
    faults: u64,
}

impl Model for MemSink {
    ghost use Rattle.std.specs.Prelude.{◌<◌, ◌≤◌};
    ghost use Rattle.std.specs.Vec.{vec_len, vec_capacity};
    ghost use Rattle.frp_io.specs.States.{SinkState};

    ghost Value = { SinkState };

    ghost view = { λ s. record { held = s.held.items; chunk = s.chunk; room = s.room; failing = s.failing.items; calls = s.calls; faults = s.faults } };

    ghost invariant = { λ s. (0 < s.chunk) × (vec_len s.held ≤ s.room) × (s.room ≤ vec_capacity s.held) };
}

impl MemSink {
    /// An empty sink that takes at most `chunk` bytes at a write and `room` in all, and fails at the writes whose numbers, from 1, are in `failing`.
    ///
    /// All its memory is taken here.
    pub fn new(
        alloc: Global,
        chunk: usize,
        room: usize,
        failing: Vec<u64>,
    ) -> Result<MemSink, Memory>
        requires chunk { 0 < chunk }
        requires room { 0 < room }
        ensures { IfOk result (λ s. s ≡ record { held = []; chunk = chunk; room = room; failing = failing.items; calls = 0; faults = 0 }) }
    {
        let held = Vec::with_capacity(alloc, room)?;
        Ok(MemSink {
            held,
            chunk,
            room,
            failing,
            calls: 0,
            faults: 0,
        })
    }

    /// The bytes that it holds.
    pub fn bytes(&self) -> &[u8]
        ensures { result.now ≡ self.now.held }
    {
        &self.held
    }
}

impl Sink for MemSink {
    ghost held = { λ s. Some s.held };

    ghost faults = { λ s. s.faults };

    fn write(&mut self, piece: &[u8]) -> Result<usize, Failed>
        requires { 0 < length piece.now }
        ensures some { IfOk result (λ n. 0 < n) }
        ensures bound { IfOk result (λ n. n ≤ length piece.now) }
        ensures bytes { IfOk result (λ n. Gave (Some self.old.held) (Some self.new.held) (take n piece.now)) }
        ensures err { OnErr result (self.new.held ≡ self.old.held) }
        ensures cause { HasCause self.old.faults self.new.faults result }

        // Each call is counted, and fails exactly where its number is listed or no room is left.
        ensures calls { self.new.calls ≡ next_count self.old.calls }
        ensures fails { IsErr result ↔ (Contains self.old.failing self.new.calls ⊎ (length self.old.held ≡ self.old.room)) }
        ensures fault { OnErr result (self.new ≡ record self.old { calls = self.new.calls; faults = next_count self.old.faults }) }

        // Any other call takes as many bytes as the chunk, the piece and the room left allow.
        ensures count { IfOk result (λ n. n ≡ min (min self.old.chunk (length piece.now)) (self.old.room - length self.old.held)) }
        ensures moved { IfOk result (λ n. self.new ≡ record self.old { held = self.old.held ++ take n piece.now; calls = self.new.calls }) }
    {
        self.calls = self.calls.saturating_add(1);
        let left = self.room - self.held.len();
        if left == 0 || self.failing.contains(&self.calls) {
            self.faults = self.faults.saturating_add(1);
            return Err(Failed);
        }
        let n = self.chunk.min(piece.len()).min(left);
        self.held.extend_from_slice(&piece[..n]).unwrap();
        Ok(n)
    }
}
