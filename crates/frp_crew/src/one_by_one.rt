ghost use Rattle.std.specs.Prelude.{IfOk};
ghost use Rattle.frp_crew.specs.Answers.{TakesEach, AreAnswers};

use frp_base::Memory;
use std::alloc::Global;

/// The answers of `f` on the items, one after the other.
pub fn one_by_one<I, O: Drop, F: Fn(&I) -> Result<O, Memory>>(
    alloc: Global,
    items: &[I],
    f: &F,
) -> Result<Vec<O>, Memory>
    requires { TakesEach F.Fn f.now items.now }
    ensures { IfOk result (λ v. AreAnswers F.Fn f.now items.now v.items) }
{
    let mut answers = Vec::new(alloc);
    for item in items {
        answers.push(f(item)?)?;
    }
    Ok(answers)
}
