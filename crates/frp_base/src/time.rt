ghost use Rattle.std.specs.Prelude.{◌≡◌, [], ◌∷◌, ◌++◌, IfOk, OnOk, OnErr};
ghost use Rattle.frp_base.specs.Time.{time_eq, time_text, parent, parent_and_number, number_since};

use crate::memory::Memory;
use crate::text::Text;
use smallvec::SmallVec;
use std::alloc::Global;
use std::cmp::Ordering;
use std::marker::Model;

/// A time: a list of one number or more, four of them kept inline. Times are ordered as lists are, number by
/// number, and a time comes before those that it begins: `[3] < [3,0] < [3,0,1] < [3,1] < [4]`.
/// After the published semantics of Sodium: the children of a time are the times of one number more, and a split gives
/// its items there.
#[derive(Drop)]
pub struct Time {
    numbers: SmallVec<u64, 4>,
}

impl Model for Time {
    ghost use Rattle.std.specs.Prelude.{List, ℕ, length, ◌<◌};

    ghost Value = { List ℕ };

    ghost view = { λ t. t.numbers.items };

    ghost invariant = { λ t. 0 < length t.numbers.items };
}

impl Time {
    /// The time of a transaction, of the one number `k`; 0 is the build. It takes no memory.
    pub fn top(alloc: Global, k: u64) -> Time
        ensures { result ≡ k ∷ [] }
    {
        let mut numbers = SmallVec::new(alloc);
        numbers.push_reserved(k);
        Time { numbers }
    }

    /// A time of the same numbers.
    pub fn copy(&self) -> Result<Time, Memory>
        ensures { IfOk result (λ t. t ≡ self.now) }
    {
        let numbers = SmallVec::from_slice(*self.numbers.allocator(), self.numbers.as_slice())?;
        Ok(Time { numbers })
    }

    /// The time's child of number `i`: its numbers, and `i` after them.
    pub fn child(&self, i: u64) -> Result<Time, Memory>
        ensures { IfOk result (λ t. t ≡ self.now ++ i ∷ []) }
    {
        let mut numbers = SmallVec::from_slice(*self.numbers.allocator(), self.numbers.as_slice())?;
        numbers.push(i)?;
        Ok(Time { numbers })
    }

    /// The time whose child this one is: all its numbers but the last. The time of a transaction has none.
    #[tactic(auto, using(crate::proofs::TimeLemmas::parent_none, crate::proofs::TimeLemmas::parent_taken))]
    pub fn parent(&self) -> Result<Option<Time>, Memory>
        ensures { IfOk result (λ r. r ≡ parent self.now) }
    {
        let numbers = self.numbers.as_slice();
        let before = numbers.len() - 1;
        if before == 0 {
            return Ok(None);
        }
        let numbers = SmallVec::from_slice(*self.numbers.allocator(), &numbers[..before])?;
        Ok(Some(Time { numbers }))
    }

    /// The number of the time among the children of its parent, from 0, where the parent is no earlier than `start`. The time of a
    /// transaction has none. It takes no memory.
    #[tactic(auto, using(crate::proofs::TimeLemmas::parts_none, crate::proofs::TimeLemmas::parts_taken))]
    pub fn number_since(&self, start: &Time) -> Option<u64>
        ensures { result ≡ number_since start.now (parent_and_number self.now) }
    {
        let numbers = self.numbers.as_slice();
        let last = numbers.len() - 1;
        if last == 0 {
            return None;
        }
        match start.numbers.as_slice().cmp(&&numbers[..last]) {
            Ordering::Greater => None,
            _ => Some(numbers[last]),
        }
    }

    /// Whether two times are one. It takes no memory.
    pub fn is(&self, other: &Time) -> bool
        ensures { result ≡ time_eq self.now other.now }
    {
        *self == *other
    }

    /// Appends the text of the time, as `[3,0,1]`. Where memory is wanting, the text is as before.
    pub fn show(&self, out: &mut Text) -> Result<(), Memory>
        ensures ok { OnOk result (out.new ≡ out.old ++ time_text self.now) }
        ensures err { OnErr result (out.new ≡ out.old) }
    {
        let mut text = Text::new(*self.numbers.allocator());
        self.write(&mut text)?;
        out.push_str(text.as_str())
    }

    /// Appends the text of the time, piece by piece.
    pub(crate) fn write(&self, out: &mut Text) -> Result<(), Memory>
        ensures { OnOk result (out.new ≡ out.old ++ time_text self.now) }
    {
        let alloc = *self.numbers.allocator();
        let numbers = self.numbers.as_slice();
        out.push_str("[")?;
        out.push_str(numbers[0].to_string(alloc)?.as_str())?;
        for n in &numbers[1..] {
            out.push_str(",")?;
            out.push_str(n.to_string(alloc)?.as_str())?;
        }
        out.push_str("]")
    }
}

impl PartialEq for Time {
    ghost use Rattle.std.specs.Prelude.{nat_eq};
    ghost use lib.Pointwise.{pointwise};
    ghost use Rattle.std.proofs.lemmas.Cmp.{nat_list_eq_equiv};
    ghost use Rattle.std.specs.Cmp as Cmp;

    ghost eq = { λ v w. pointwise nat_eq v w };

    ghost laws = { Cmp.partial_equiv_from_equiv nat_list_eq_equiv };

    fn eq(&self, other: &Time) -> bool {
        self.numbers.as_slice() == other.numbers.as_slice()
    }
}

impl Eq for Time {
    ghost use Rattle.std.proofs.lemmas.Cmp.{nat_list_eq_equiv};

    ghost laws = { nat_list_eq_equiv };
}

impl Ord for Time {
    ghost use Rattle.std.specs.Ordering.{nat_cmp};
    ghost use Rattle.std.specs.Cmp.Lexicographic.{slice_cmp};
    ghost use Rattle.std.proofs.lemmas.Cmp.{nat_list_cmp_total};
    ghost use Rattle.std.proofs.Common.{rules};
    ghost use Rattle.std.specs.Cmp.Rules.{comparing};

    ghost cmp = { slice_cmp nat_cmp };

    ghost total = { nat_list_cmp_total };

    ghost matches_partial_cmp = { Prim.search (comparing, rules) };

    ghost matches_eq = { Prim.search (comparing, rules) };

    fn cmp(&self, other: &Time) -> Ordering {
        self.numbers.as_slice().cmp(&other.numbers.as_slice())
    }
}

impl PartialOrd for Time {
    ghost use Rattle.std.specs.Ordering.{nat_cmp, as_partial_cmp};
    ghost use Rattle.std.specs.Cmp.Lexicographic.{slice_cmp};
    ghost use Rattle.std.proofs.Common.{rules};
    ghost use Rattle.std.specs.Cmp.Rules.{comparing};
    ghost use Rattle.std.specs.Cmp.{partial_order_from_own_ties};

    ghost partial_cmp = { as_partial_cmp (slice_cmp nat_cmp) };

    ghost laws = { partial_order_from_own_ties (Prim.search (comparing, rules)) (Prim.search (comparing, rules)) };

    fn partial_cmp(&self, other: &Time) -> Option<Ordering> {
        Some(self.cmp(other))
    }
}
