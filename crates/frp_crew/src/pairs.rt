use crate::crew::Crew;
use crate::plan::Plan;
use std::marker::PhantomData;
use std::thread::Threads;

/// A crew that halves the list into at most `workers` pieces, each done by a thread of its own.
#[derive(Clone, Copy, Debug)]
pub struct Pairs<R> {
    /// The most pieces; with none or one the caller's thread does all.
    pub workers: u32,
    /// The handle of its threads.
    pub of: PhantomData<R>,
}

impl<R: Threads + Send + Sync> Crew for Pairs<R> {
    type Hand = R;

    type Runtime = R;

    fn plan<'a>(&self, hand: &'a R, _items: u64) -> Plan<'a, R> {
        Plan::Halves {
            hand,
            workers: self.workers,
        }
    }
}
