use crate::crew::Crew;
use crate::plan::Plan;
use std::marker::PhantomData;
use std::thread::Threads;

/// From how many items on a list is spread out.
const LONG: u64 = 2_048;

/// A crew that halves a short list as `Pairs` does, and spreads a list of 2,048 items or more over all processors.
#[derive(Clone, Copy, Debug)]
pub struct Wide<R> {
    /// The most pieces of a short list; with none or one the caller's thread does all of it.
    pub workers: u32,
    /// The handle of its threads.
    pub of: PhantomData<R>,
}

impl<R: Threads + Send + Sync> Crew for Wide<R> {
    type Hand = R;

    type Runtime = R;

    fn plan<'a>(&self, hand: &'a R, items: u64) -> Plan<'a, R> {
        if items >= LONG {
            return Plan::Spread { hand };
        }
        Plan::Halves {
            hand,
            workers: self.workers,
        }
    }
}
