use crate::crew::Crew;
use crate::plan::Plan;
use std::marker::PhantomData;
use std::thread::Threads;

/// The crew of the caller's own thread. It needs nothing of its caller.
#[derive(Clone, Copy, Debug)]
pub struct Solo<R> {
    /// The handle of the threads that it does not start.
    pub of: PhantomData<R>,
}

impl<R: Threads + Sync> Crew for Solo<R> {
    type Hand = ();

    type Runtime = R;

    fn plan<'a>(&self, _hand: &'a (), _items: u64) -> Plan<'a, R> {
        Plan::Alone
    }
}
