ghost use Rattle.std.specs.Prelude.{IfOk};
ghost use Rattle.std.specs.Thread.{IsSync};
ghost use Rattle.frp_crew.specs.Answers.{TakesEach, AreAnswers, AreBoth};

use crate::one_by_one::one_by_one;
use frp_base::Memory;
use std::alloc::Global;
use std::thread::{Threads, join};

/// The answers of `f` on the items, by halves in threads of their own, down to one piece for each worker.
pub fn by_halves<R: Threads + Sync, I: Sync, O: Send + Drop, F: Fn(&I) -> Result<O, Memory> + Sync>(
    alloc: Global,
    hand: &R,
    workers: u32,
    items: &[I],
    f: &F,
) -> Result<Vec<O>, Memory>
    requires { TakesEach F.Fn f.now items.now }
    ensures { IfOk result (λ v. AreAnswers F.Fn f.now items.now v.items) }
{
    if workers <= 1 || items.len() <= 1 {
        return one_by_one(alloc, items, f);
    }
    let (left, right) = items.split_at(items.len() / 2);
    let (fewer, more) = (workers / 2, workers - workers / 2);
    let (front, back) = join(
        hand,
        || -> Result<Vec<O>, Memory>
            requires { IsSync R.row × TakesEach F.Fn f.now left.now }
            ensures { IfOk result (λ v. AreAnswers F.Fn f.entry.now left.entry.now v.items) }
        { by_halves(alloc, hand, fewer, left, f) },
        || -> Result<Vec<O>, Memory>
            requires { IsSync R.row × TakesEach F.Fn f.now right.now }
            ensures { IfOk result (λ v. AreAnswers F.Fn f.entry.now right.entry.now v.items) }
        { by_halves(alloc, hand, more, right, f) },
    );
    joined(front, back)
}

/// The answers of the one and then those of the other, where there are both.
fn joined<O: Drop>(
    front: Result<Vec<O>, Memory>,
    back: Result<Vec<O>, Memory>,
) -> Result<Vec<O>, Memory>
    ensures { IfOk result (λ v. AreBoth front back v.items) }
{
    let mut answers = front?;
    let mut more = back?;
    answers.append(&mut more)?;
    Ok(answers)
}
