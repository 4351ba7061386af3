ghost use Rattle.std.specs.Prelude.{◌≡◌, ◌≤◌, [], ◌∷◌, ◌++◌, true, false, reverse, slice_get, IfOk, IfSome, OnOk, OnErr};
ghost use Rattle.std.specs.Option.{option_copied};
ghost use Rattle.std.specs.Borrow.{sem};
ghost use Rattle.std.specs.declared.cmp.Ordering.TheVariants.{Less};
ghost use Rattle.frp_base.specs.Time.{time_cmp};
ghost use Rattle.frp_agenda.specs.Due.{children, moved, IsLeast};

use frp_base::{Memory, Time};
use std::alloc::Global;
use std::marker::Model;

/// The present time of a transaction, and the times after it that are due.
///
/// It begins at the time of the transaction. At each time some children of it may be made due, and then the agenda moves on
/// to the least due time: to the first child, where there is one.
#[derive(Drop)]
pub struct Agenda {
    alloc: Global,
    present: Time,
    // The least one last.
    due: Vec<Time>,
    pushed: bool,
}

impl Model for Agenda {
    ghost use Rattle.std.specs.Prelude.{reverse};
    ghost use Rattle.frp_agenda.specs.Due.{Schedule, IsInOrder};

    ghost Value = { Schedule };

    ghost view = { λ a. record { present = a.present; due = reverse a.due.items; pushed = a.pushed } };

    ghost invariant = { λ a. IsInOrder a.present (reverse a.due.items) a.pushed };
}

impl Agenda {
    ghost use Rattle.frp_agenda.specs.Moving.{ends_as};

    /// An agenda that stands at the time of the transaction `k`, with nothing due. It takes no memory.
    pub fn begin(alloc: Global, k: u64) -> Agenda
        ensures present { result.present ≡ k ∷ [] }
        ensures due { result.due ≡ [] }
        ensures pushed { result.pushed ≡ false }
    {
        Agenda {
            alloc,
            present: Time::top(alloc, k),
            due: Vec::new(alloc),
            pushed: false,
        }
    }

    /// Makes the first `n` children of the present time due, at most once at each time. Where memory is wanting, all is as before.
    pub fn push_children(&mut self, n: u64) -> Result<(), Memory>
        requires bound { n ≤ 1024 }
        requires once { self.old.pushed ≡ false }
        ensures present { self.new.present ≡ self.old.present }
        ensures due { OnOk result (self.new.due ≡ children self.old.present n ++ self.old.due) }
        ensures pushed { OnOk result (self.new.pushed ≡ true) }
        ensures err { OnErr result (self.new ≡ self.old) }
    {
        let mut children = children_of(self.alloc, &self.present, n)?;
        self.due.append(&mut children)?;
        self.pushed = true;
        Ok(())
    }

    /// Moves to the least due time, and gives it; none exactly where nothing is due. It takes no memory.
    pub fn next(&mut self) -> Option<&Time>
        ensures* moved { sem 𝓛 (ends_as self.entry (moved self.old)) }
        ensures time { option_copied result ≡ slice_get self.old.due 0 }
        ensures least { IfSome result (λ t. IsLeast t.now self.old.due) }
        ensures after { IfSome result (λ t. time_cmp self.old.present t.now ≡ Less) }
    {
        let time = self.due.pop()?;
        self.present = time;
        self.pushed = false;
        Some(&self.present)
    }

    /// The present time.
    pub fn now(&self) -> &Time
        ensures { result.now ≡ self.now.present }
    {
        &self.present
    }
}

/// The first `n` children of a time, the last one first.
#[tactic(auto, using(crate::proofs::Order::reverse_pushed, crate::proofs::Order::child_before))]
fn children_of(alloc: Global, time: &Time, n: u64) -> Result<Vec<Time>, Memory>
    ensures { IfOk result (λ v. reverse v.items ≡ children time.now n) }
{
    let mut children = Vec::new(alloc);
    let mut i = n;
    while i > 0 {
        i -= 1;
        children.push(time.child(i)?)?;
    }
    Ok(children)
}
