ghost use Rattle.std.specs.Prelude.{◌≡◌, Some, is_some, map, IsTrue};
ghost use Rattle.std.specs.List.Sorted.{IsStrictlySortedBy};
ghost use Rattle.frp_base.specs.Name.{name_cmp};
ghost use Rattle.frp_graph.specs.declared.trace.Fact.{Fact as FactSpec};
ghost use Rattle.std.specs.Option.{option_copied};
ghost use Rattle.frp_graph.specs.Trace.{or_else, fact_in};

use crate::held::Held;
use crate::store::Store;
use frp_base::{Name, Place, Time, Val};
use frp_graph::{Fact, Node, Prog, View};
use std::cmp::Ordering;

impl View for Store {
    ghost use Rattle.frp_store.specs.State.{sight};

    ghost sight = { λ s. sight s.now };

    ghost prog_of = { λ s. s.prog };

    ghost nodes = { λ s. s.now.nodes };

    fn time(&self) -> &Time {
        match &self.tables.begun {
            Some(time) => time,
            None => self.last_time(),
        }
    }

    fn program(&self) -> &Prog {
        &self.prog
    }

    fn node(&self, n: &Name) -> Option<&Node> {
        match self.tables.find(n) {
            Some(held) => Some(&held.node),
            None => None,
        }
    }

    fn occ(&self, n: &Name) -> Option<&Val> {
        match self.tables.find(n) {
            Some(held) => held.occ.as_ref(),
            None => None,
        }
    }

    fn pre(&self, c: &Name) -> &Val {
        match self.tables.find(c) {
            Some(held) => value_before(held),
            None => unreachable!(),
        }
    }

    fn post(&self, c: &Name) -> &Val {
        match self.tables.find(c) {
            Some(held) => value_after(held),
            None => unreachable!(),
        }
    }

    fn above(&self, n: &Name) -> Option<&Val> {
        match self.tables.above {
            Some(number) => value_in(self.tables.past[number as usize].fired.as_slice(), n),
            None => None,
        }
    }

    fn live(&self) -> u64 {
        self.tables.held.len()
    }

    fn nth(&self, i: u64) -> &Node {
        &self.tables.held.get(Place(i)).node
    }
}

impl Store {
    ghost use Rattle.std.specs.Prelude.{◌<◌, None, length, slice_get};
    ghost use Rattle.frp_store.specs.State.{time_by, last_moment, pre_in};
    ghost use Rattle.frp_store.specs.Calls.{IsAfter};

    /// The time of the moment that is begun. It takes no memory.
    pub fn begun(&self) -> Option<&Time>
        ensures { option_copied result ≡ self.now.now.begun }
    {
        self.tables.begun.as_ref()
    }

    /// The occurrence of the node of a place at the moment that is begun. It takes no memory.
    pub fn occ_at(&self, p: Place) -> Option<&Val>
        requires { p.0 < length self.now.now.nodes }
        ensures { slice_get self.now.now.occs p.0 ≡ Some (option_copied result) }
    {
        self.tables.held.get(p).occ.as_ref()
    }

    /// A cell's value before the time; none where the name is of no live cell. It takes no memory.
    pub fn before(&self, n: &Name) -> Option<&Val>
        ensures { option_copied result ≡ pre_in self.now.now n.now }
    {
        match self.tables.find(n) {
            Some(held) => held.before.as_ref(),
            None => None,
        }
    }

    /// Whether a time comes after the last moment. It takes no memory.
    pub fn is_after(&self, t: &Time) -> bool
        ensures { IsTrue result → IsAfter t.now self.now.now.past }
    {
        match self.tables.past.as_slice().last() {
            Some(moment) => moment.time < *t,
            None => true,
        }
    }

    /// The time of the last moment, or of the build.
    fn last_time(&self) -> &Time
        ensures { result.now ≡ time_by None (last_moment self.now.now.past) }
    {
        match self.tables.past.as_slice().last() {
            Some(moment) => &moment.time,
            None => &self.start,
        }
    }
}

/// A cell's value before the time.
fn value_before(held: &Held) -> &Val
    requires { IsTrue (is_some held.now.before) }
    ensures { held.now.before ≡ Some result.now }
{
    match &held.before {
        Some(value) => value,
        None => unreachable!(),
    }
}

/// What a node has as its occurrence, or a cell's value before.
fn value_after(held: &Held) -> &Val
    requires { IsTrue (is_some (or_else held.now.occ held.now.before)) }
    ensures { or_else held.now.occ held.now.before ≡ Some result.now }
{
    match &held.occ {
        Some(value) => value,
        None => value_before(held),
    }
}

/// The value of the fact of a name, where facts stand by name.
fn value_in<'a>(facts: &'a [Fact], name: &Name) -> Option<&'a Val>
    requires rising { IsStrictlySortedBy name_cmp (map (λ (f : FactSpec). f.node) facts.now) }
    ensures { option_copied result ≡ fact_in facts.now name.now }
{
    let mut low = 0;
    let mut high = facts.len();
    while low < high {
        let middle = low + (high - low) / 2;
        let fact = &facts[middle];
        match fact.node.cmp(name) {
            Ordering::Less => low = middle + 1,
            Ordering::Equal => return Some(&fact.value),
            Ordering::Greater => high = middle,
        }
    }
    None
}
