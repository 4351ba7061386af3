ghost use Rattle.std.specs.Prelude.{◌≡◌, ◌<◌, ◌≤◌, ◌↔◌, min, length, take, drop, Some, Contains, IsErr, IfOk, OnErr};
ghost use Rattle.frp_io.specs.Outside.{HasCause, Took, ZeroAtEnd, next_count};

use crate::{Failed, PlainSource, Source};
use std::marker::Model;

/// Bytes in memory, which are read in chunks, and with failures at chosen reads.
#[derive(Drop)]
pub struct MemSource {
    source: PlainSource,
    chunk: usize,
    failing: Vec<u64>,
    calls: u64,
    faults: u64,
}

impl Model for MemSource {
    ghost use Rattle.std.specs.Prelude.{◌<◌};
    ghost use Rattle.frp_io.specs.States.{SourceState};

    ghost Value = { SourceState };

    ghost view = { λ s. record { rest = s.source; chunk = s.chunk; failing = s.failing.items; calls = s.calls; faults = s.faults } };

    ghost invariant = { λ s. 0 < s.chunk };
}

impl MemSource {
    /// A source of these bytes that gives at most `chunk` at a read, and fails at the reads whose numbers, from 1, are in `failing`.
    pub fn new(bytes: Vec<u8>, chunk: usize, failing: Vec<u64>) -> MemSource
        requires { 0 < chunk }
        ensures { result ≡ record { rest = bytes.items; chunk = chunk; failing = failing.items; calls = 0; faults = 0 } }
    {
        MemSource {
            source: PlainSource::new(bytes),
            chunk,
            failing,
            calls: 0,
            faults: 0,
        }
    }
}

impl Source for MemSource {
    ghost rest = { λ s. Some s.rest };

    ghost faults = { λ s. s.faults };

    fn read(&mut self, buf: &mut [u8]) -> Result<usize, Failed>
        requires { 0 < length buf.old }
        ensures bound { IfOk result (λ n. n ≤ length buf.old) }
        ensures bytes { IfOk result (λ n. Took (Some self.old.rest) (Some self.new.rest) (take n buf.new)) }
        ensures end { IfOk result (λ n. ZeroAtEnd (Some self.old.rest) n) }
        ensures err { OnErr result (self.new.rest ≡ self.old.rest) }
        ensures cause { HasCause self.old.faults self.new.faults result }

        // Each call is counted, and fails exactly where its number is listed.
        ensures calls { self.new.calls ≡ next_count self.old.calls }
        ensures fails { IsErr result ↔ Contains self.old.failing self.new.calls }
        ensures fault { OnErr result (self.new ≡ record self.old { calls = self.new.calls; faults = next_count self.old.faults }) }

        // Any other call gives as many bytes as the chunk, the buffer and the rest allow.
        ensures count { IfOk result (λ n. n ≡ min (min self.old.chunk (length buf.old)) (length self.old.rest)) }
        ensures moved { IfOk result (λ n. self.new ≡ record self.old { rest = drop n self.old.rest; calls = self.new.calls }) }
    {
        self.calls = self.calls.saturating_add(1);
        if self.failing.contains(&self.calls) {
            self.faults = self.faults.saturating_add(1);
            return Err(Failed);
        }
        let most = self.chunk.min(buf.len());
        self.source.read(&mut buf[..most])
    }
}
