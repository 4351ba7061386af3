ghost use Rattle.std.specs.Prelude.{IfOk};
ghost use Rattle.std.specs.Fn.{FnReturnsAt};
ghost use Rattle.frp_crew.specs.Answers.{TakesItem, TakesEach, AreAnswers};

use frp_base::Memory;
use rayon::prelude::*;
use std::alloc::Global;
use std::thread::Threads;

/// The answers of `f` on the items, from as many threads as there are processors.
pub fn spread_out<
    R: Threads + Sync,
    I: Sync,
    O: Send + Drop,
    F: Fn(&I) -> Result<O, Memory> + Sync,
>(alloc: Global, hand: &R, items: &[I], f: &F) -> Result<Vec<O>, Memory>
    requires { TakesEach F.Fn f.now items.now }
    ensures { IfOk result (λ v. AreAnswers F.Fn f.now items.now v.items) }
{
    let answers: Result<Vec<O>, Memory> = items
        .par_iter()
        .map(
            |item: &I| -> Result<O, Memory>
                requires { TakesItem F.Fn f.now item.now }
                ensures { FnReturnsAt F.Fn f.entry.now item.now result }
            { f(item) },
        )
        .collect(hand, alloc)?;
    answers
}
