ghost use Rattle.std.specs.Prelude.{IfOk};
ghost use Rattle.frp_crew.specs.Answers.{TakesEach, AreAnswers};

use crate::by_halves::by_halves;
use crate::one_by_one::one_by_one;
use crate::plan::Plan;
use crate::spread_out::spread_out;
use frp_base::Memory;
use std::alloc::Global;
use std::thread::Threads;

/// Maps a function over a list, with any number of workers.
///
/// A crew says how the list is divided; what `map` answers is the same for every crew.
pub trait Crew {
    /// What the crew needs from its caller.
    type Hand;
    /// The handle by which its workers are started.
    type Runtime: Threads + Sync;

    /// How a list of so many items is divided.
    fn plan<'a>(&self, hand: &'a Self::Hand, items: u64) -> Plan<'a, Self::Runtime>;

    /// The answers of `f` on the items, in their order. Where memory is wanting, for an answer or for the list, there is none.
    final fn map<I: Sync, O: Send + Drop, F: Fn(&I) -> Result<O, Memory> + Sync>(
        &self,
        alloc: Global,
        hand: &Self::Hand,
        items: &[I],
        f: &F,
    ) -> Result<Vec<O>, Memory>
        requires { TakesEach F.Fn f.now items.now }
        ensures { IfOk result (λ v. AreAnswers F.Fn f.now items.now v.items) }
    {
        match self.plan(hand, items.len() as u64) {
            Plan::Alone => one_by_one(alloc, items, f),
            Plan::Halves { hand, workers } => by_halves(alloc, hand, workers, items, f),
            Plan::Spread { hand } => spread_out(alloc, hand, items, f),
        }
    }
}
