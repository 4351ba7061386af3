ghost use Rattle.std.specs.Prelude.{◌≡◌, ◌<◌, ◌≤◌, ◌++◌, min, length, take, drop, Some, Ok, IfOk, OnErr};
ghost use Rattle.frp_io.specs.Outside.{HasCause, Took, ZeroAtEnd};

use crate::{Failed, Source};
use std::marker::Model;

/// Bytes in memory, which are read without a failure. Contracts see the bytes that are left.
#[derive(Drop)]
pub struct PlainSource {
    bytes: Vec<u8>,
    given: usize,
}

impl Model for PlainSource {
    ghost use Rattle.std.specs.Prelude.{◌≤◌, ℕ, List, drop, length};

    ghost Value = { List ℕ };

    ghost view = { λ s. drop s.given s.bytes.items };

    ghost invariant = { λ s. s.given ≤ length s.bytes.items };
}

impl PlainSource {
    /// A source of these bytes.
    pub fn new(bytes: Vec<u8>) -> PlainSource
        ensures { result ≡ bytes.items }
    {
        PlainSource { bytes, given: 0 }
    }

    /// Fills the front of the buffer with as many bytes as there are and as fit, and says how many.
    fn give(&mut self, buf: &mut [u8]) -> usize
        ensures count { result ≡ min (length buf.old) (length self.old) }
        ensures copied { buf.new ≡ take result self.old ++ drop result buf.old }
        ensures rest { self.new ≡ drop result self.old }
    {
        let rest = &self.bytes[self.given..];
        let n = buf.len().min(rest.len());
        buf[..n].copy_from_slice(&rest[..n]);
        self.given += n;
        n
    }
}

impl Source for PlainSource {
    ghost rest = { λ rest. Some rest };

    ghost faults = { λ _. 0 };

    #[tactic(auto, using(crate::proofs::Bytes::took_copied))]
    fn read(&mut self, buf: &mut [u8]) -> Result<usize, Failed>
        requires { 0 < length buf.old }
        ensures bound { IfOk result (λ n. n ≤ length buf.old) }
        ensures bytes { IfOk result (λ n. Took (Some self.old) (Some self.new) (take n buf.new)) }
        ensures end { IfOk result (λ n. ZeroAtEnd (Some self.old) n) }
        ensures err { OnErr result (self.new ≡ self.old) }
        ensures cause { HasCause 0 0 result }

        // It never fails, and gives as many bytes as there are and as fit.
        ensures count { result ≡ Ok (min (length buf.old) (length self.old)) }
        ensures copied { IfOk result (λ n. buf.new ≡ take n self.old ++ drop n buf.old) }
        ensures rest { IfOk result (λ n. self.new ≡ drop n self.old) }
    {
        Ok(self.give(buf))
    }
}
