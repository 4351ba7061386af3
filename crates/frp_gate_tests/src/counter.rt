// The machine of the tests: a counter that takes so many calls and no more.
ghost use Rattle.std.specs.Prelude.{◌≡◌, ℕ, List, [], ◌∷◌, ◌++◌, ◌≤◌, length, IfOk, IfErr, OnErr};
ghost use Rattle.frp_gate.specs.Entries.{entry};

use frp_base::Memory;
use frp_gate::{Entry, Machine};
use std::alloc::Global;
use std::sync::atomic::{AtomicBool, Ordering};
use std::thread;

/// Adds up what it is called with.
#[derive(Drop)]
pub struct Counter {
    entries: Vec<Entry<u32, u64>>,
    total: u64,
    limit: u64,
    ghost within: { length entries.items ≤ limit },
    ghost room: { limit ≤ entries.cap },
}

/// As many calls were entered as the counter takes.
#[derive(Drop)]
pub struct Full;

/// What a call waits for while it has the counter: that it is let go, but no longer than so many turns.
#[derive(Drop)]
pub struct Pause {
    turns: u32,
    inside: AtomicBool,
    go: AtomicBool,
}

impl Pause {
    /// A pause that no call has come to yet, of at most so many turns.
    pub fn new(turns: u32) -> Pause {
        Pause {
            turns,
            inside: AtomicBool::new(false),
            go: AtomicBool::new(false),
        }
    }

    /// Whether a call comes to have the counter, within so many looks.
    pub fn is_inside(&self, looks: u32) -> bool {
        for _ in 0..looks {
            if self.inside.load(Ordering::SeqCst) {
                return true;
            }
            thread::yield_now();
        }
        false
    }

    /// Lets the call go.
    pub fn let_go(&self) {
        self.go.store(true, Ordering::SeqCst);
    }

    fn hold(&self) {
        self.inside.store(true, Ordering::SeqCst);
        for _ in 0..self.turns {
            if self.go.load(Ordering::SeqCst) {
                return;
            }
            thread::yield_now();
        }
    }
}

impl Counter {
    /// A counter that takes `limit` calls, with the memory for them.
    pub fn new(alloc: Global, limit: u32) -> Result<Counter, Memory> {
        let entries = Vec::with_capacity(alloc, limit as usize)?;
        Ok(Counter {
            entries,
            total: 0,
            limit: limit as u64,
        })
    }

    /// The calls that were entered.
    pub fn list(&self) -> &[Entry<u32, u64>] {
        &self.entries
    }
}

impl Machine for Counter {
    type Cmd = u32;

    type Reply = u64;

    type Stop = Full;

    type Hand = Pause;

    type Fixed = u64;

    ghost history = { λ c. c.entries.items };

    ghost fixed = { λ c. c.limit };

    ghost may_stop = { λ _ limit n. n ≡ limit };

    /// Adds the command, and replies with the sum.
    fn step(&mut self, hand: &Pause, caller: u32, cmd: u32) -> Result<u64, (Full, u32)> {
        hand.hold();
        if self.entries.len() as u64 == self.limit {
            return Err((Full, cmd));
        }
        self.total = self.total.saturating_add(cmd as u64);
        let reply = self.total;
        self.entries.push_reserved(Entry { caller, cmd, reply });
        Ok(reply)
    }

    fn entries(&self) -> u64 {
        self.entries.len() as u64
    }
}
