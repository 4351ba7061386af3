ghost use Rattle.std.specs.Prelude.{◌≡◌, ◌<◌, ◌∷◌, [], ◌++◌, length, Some, None, vec_len};
ghost use Rattle.frp_store.specs.Undo.{undo, unwritten, given};
ghost use Rattle.frp_store.specs.Lists.{lists_of, nodes_of};
ghost use Rattle.frp_store.specs.Kept.{state_of, base_of, IsKept, IsKeptBy, IsFindable};
ghost use Rattle.frp_store.specs.declared.change.Change.TheVariants.{Began, Added, Occurred, Turned, Ended};

use crate::change::Change;
use crate::held::Step;
use crate::tables::Tables;
use crate::writing::{put_occ, write_before, write_occ};
use frp_base::Place;
use frp_graph::{Fact, Moment};

impl Tables {
    /// Keeps all changes. It takes no memory.
    pub fn commit(&mut self)
        requires kept { IsKept self.old }
        ensures kept { IsKept self.new }
        ensures now { state_of self.new ≡ state_of self.old }
        ensures base { base_of self.new ≡ state_of self.old }
    {
        self.changes.clear();
        self.forget_known();
    }

    /// Forgets the last places of nodes that were linked to a name of no live node, as long as they are linked to live nodes alone.
    fn forget_known(&mut self)
        requires kept { IsKeptBy [] self.old }
        ensures kept { IsKeptBy [] self.new }
        ensures lists { lists_of self.new ≡ lists_of self.old }
        ensures changes { self.new.changes ≡ self.old.changes }
    {
        while let Some(place) = self.edges.wanting.last() {
            if self.ends_of(&self.held.get(Place(place)).node).wants {
                return;
            }
            self.edges.wanting.pop();
        }
    }

    /// Undoes all changes since the last commit, the newest first. It takes no memory.
    pub fn roll_back(&mut self)
        requires kept { IsKept self.old }
        ensures kept { IsKept self.new }
        ensures now { state_of self.new ≡ base_of self.old }
        ensures base { base_of self.new ≡ base_of self.old }
    {
        while let Some(change) = self.changes.pop() {
            self.undo(change);
        }
    }

    /// Undoes a change.
    fn undo(&mut self, change: Change)
        requires kept { IsKeptBy (self.old.changes.items ++ change ∷ []) self.old }
        ensures kept { IsKept self.new }
        ensures lists { lists_of self.new ≡ undo change (lists_of self.old) }
        ensures changes { self.new.changes ≡ self.old.changes }
    {
        match change {
            Change::Began => self.leave_moment(),
            Change::Added => self.remove_last(),
            Change::Occurred { place } => self.take_back(place),
            Change::Turned { place, target } => self.turn_back(place, target),
            Change::Ended {
                fired,
                steps,
                above,
                first,
            } => self.reopen(fired, steps, above, first),
        }
    }

    /// No moment is begun.
    fn leave_moment(&mut self)
        requires kept { IsKeptBy (self.old.changes.items ++ Began ∷ []) self.old }
        ensures kept { IsKept self.new }
        ensures lists { lists_of self.new ≡ undo Began (lists_of self.old) }
        ensures changes { self.new.changes ≡ self.old.changes }
    {
        self.begun = None;
        self.above = None;
    }

    /// The node of a place, which got its occurrence last, has none.
    fn take_back(&mut self, place: u64)
        requires kept { IsKeptBy (self.old.changes.items ++ (Occurred place) ∷ []) self.old }
        ensures kept { IsKept self.new }
        ensures lists { lists_of self.new ≡ undo (Occurred place) (lists_of self.old) }
        ensures changes { self.new.changes ≡ self.old.changes }
    {
        put_occ(&mut self.held, place, None);
        self.fired.pop();
    }

    /// The moment that ended last is begun again.
    fn reopen(&mut self, fired: Vec<u64>, steps: Vec<Step>, above: Option<u64>, first: u64)
        requires kept { IsKeptBy (self.old.changes.items ++ (Ended fired steps above first) ∷ []) self.old }
        ensures kept { IsKept self.new }
        ensures lists { lists_of self.new ≡ undo (Ended fired steps above first) (lists_of self.old) }
        ensures changes { self.new.changes ≡ self.old.changes }
    {
        if let Some(moment) = self.past.pop() {
            let Moment {
                time,
                fired: facts,
                ..
            } = moment;
            self.begun = Some(time);
            self.above = above;
            self.first = first;
            self.fired = fired;
            self.step_back(steps);
            self.give_back(facts.into_vec());
        }
    }

    /// The cells have the values again that they had before these steps.
    fn step_back(&mut self, mut steps: Vec<Step>)
        ensures held { self.new.held.items ≡ unwritten steps.items self.old.held.items }
        ensures rest { self.new ≡ record self.old { held = self.new.held } }
    {
        while let Some(step) = steps.pop() {
            let Step { place, value } = step;
            write_before(&mut self.held, place, value);
        }
    }

    /// The value of each of these facts is the occurrence of its node again.
    fn give_back(&mut self, mut facts: Vec<Fact>)
        requires findable { IsFindable (nodes_of self.old.held.items) self.old.edges.index }
        ensures held { self.new.held.items ≡ given facts.items self.old.held.items }
        ensures rest { self.new ≡ record self.old { held = self.new.held } }
    {
        while let Some(fact) = facts.pop() {
            self.give(fact);
        }
    }

    /// The value of a fact is the occurrence of its node again.
    fn give(&mut self, fact: Fact)
        requires findable { IsFindable (nodes_of self.old.held.items) self.old.edges.index }
        ensures held { self.new.held.items ≡ given (fact ∷ []) self.old.held.items }
        ensures rest { self.new ≡ record self.old { held = self.new.held } }
    {
        let Fact { node, value } = fact;
        if let Some(place) = self.place(&node) {
            write_occ(&mut self.held, place, value);
        }
    }
}
