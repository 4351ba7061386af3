ghost use Rattle.std.specs.Prelude.{◌≡◌, ◌<◌, ◌≤◌, ◌+◌, ℕ, length, slice_get, OnOk, OnErr, IfOk, IsTrue, is_some, map, vec_len, vec_capacity, Some, None};
ghost use Rattle.frp_store.specs.Calls.{IsAfter, begun_at, with_occ};
ghost use Rattle.frp_store.specs.Kept.{state_of, base_of, IsKept, IsAbove, FindsMoment};
ghost use Rattle.frp_graph.specs.declared.trace.Moment.{Moment};
ghost use Rattle.frp_base.specs.Time.{time_cmp};
ghost use Rattle.std.specs.List.Sorted.{IsStrictlySortedBy};

use crate::change::Change;
use crate::tables::Tables;
use crate::writing::write_occ;
use frp_base::{Memory, Time, Val};
use std::cmp::Ordering;

impl Tables {
    /// Begins a moment.
    pub fn begin(&mut self, time: &Time) -> Result<(), Memory>
        requires kept { IsKept self.old }
        requires idle { (state_of self.old).begun ≡ None }
        requires later { IsAfter time.now (state_of self.old).past }
        ensures kept { IsKept self.new }
        ensures now { OnOk result (state_of self.new ≡ begun_at time.now (state_of self.old)) }
        ensures base { base_of self.new ≡ base_of self.old }
        ensures err { OnErr result (state_of self.new ≡ state_of self.old) }
    {
        let begun = time.copy()?;
        let above = self.moment_above(time)?;
        self.changes.reserve(1)?;
        self.begun = Some(begun);
        self.above = above;
        self.changes.push_reserved(Change::Began);
        Ok(())
    }

    /// The number of the moment at the parent of a time.
    fn moment_above(&self, time: &Time) -> Result<Option<u64>, Memory>
        requires rising { IsStrictlySortedBy time_cmp (map (λ (m : Moment). m.time) self.now.past.items) }
        ensures { IfOk result (λ above. IsAbove (Some time.now) self.now.past.items above) }
    {
        match time.parent()? {
            Some(parent) => Ok(self.moment_at(&parent)),
            None => Ok(None),
        }
    }

    /// The number of the moment at a time. It takes no memory.
    fn moment_at(&self, time: &Time) -> Option<u64>
        requires rising { IsStrictlySortedBy time_cmp (map (λ (m : Moment). m.time) self.now.past.items) }
        ensures { FindsMoment self.now.past.items time.now result }
    {
        let mut low = 0;
        let mut high = self.past.len();
        while low < high {
            let middle = low + (high - low) / 2;
            match self.past[middle].time.cmp(time) {
                Ordering::Less => low = middle + 1,
                Ordering::Equal => return Some(middle as u64),
                Ordering::Greater => high = middle,
            }
        }
        None
    }

    /// Gives a node its occurrence, or none.
    pub fn set_occ(&mut self, place: u64, occ: Option<Val>) -> Result<(), Memory>
        requires kept { IsKept self.old }
        requires begun { IsTrue (is_some (state_of self.old).begun) }
        requires free { slice_get (state_of self.old).occs place ≡ Some None }
        ensures kept { IsKept self.new }
        ensures now { OnOk result (state_of self.new ≡ with_occ place occ (state_of self.old)) }
        ensures base { base_of self.new ≡ base_of self.old }
        ensures err { OnErr result (state_of self.new ≡ state_of self.old) }
    {
        match occ {
            Some(value) => self.fire(place, value),
            None => Ok(()),
        }
    }

    /// Gives a node its occurrence.
    fn fire(&mut self, place: u64, value: Val) -> Result<(), Memory>
        requires kept { IsKept self.old }
        requires begun { IsTrue (is_some (state_of self.old).begun) }
        requires free { slice_get (state_of self.old).occs place ≡ Some None }
        ensures kept { IsKept self.new }
        ensures now { OnOk result (state_of self.new ≡ with_occ place (Some value) (state_of self.old)) }
        ensures base { base_of self.new ≡ base_of self.old }
        ensures err { OnErr result (state_of self.new ≡ state_of self.old) }
    {
        self.reserve_occurrence()?;
        write_occ(&mut self.held, place, value);
        self.fired.push_reserved(place);
        self.changes.push_reserved(Change::Occurred { place });
        Ok(())
    }

    /// Room for one occurrence more, and for the change that it is.
    fn reserve_occurrence(&mut self) -> Result<(), Memory>
        ensures fired_room { OnOk result (vec_len self.new.fired < vec_capacity self.new.fired) }
        ensures changes_room { OnOk result (vec_len self.new.changes < vec_capacity self.new.changes) }
        ensures fired { self.new.fired.items ≡ self.old.fired.items }
        ensures changes { self.new.changes.items ≡ self.old.changes.items }
        ensures rest { self.new ≡ record self.old { fired = self.new.fired; changes = self.new.changes } }
    {
        self.fired.reserve(1)?;
        self.changes.reserve(1)?;
        Ok(())
    }
}
