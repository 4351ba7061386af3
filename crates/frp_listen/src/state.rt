ghost use Rattle.std.specs.Prelude.{◌≡◌, ◌≤◌, ◌++◌, List, drop, length};
ghost use Rattle.frp_graph.specs.declared.trace.Moment.{Moment as MomentSpec};
ghost use Rattle.frp_listen.specs.Listeners.{left, who, first_after, more_after, IsReached};

use crate::passing::passed_by;
use frp_base::{Name, Val};
use frp_graph::Moment;

/// A listener that is held: the caller that joined it, its node, and the place of its join in the history, from 1.
#[derive(Drop)]
pub struct ListenerState {
    pub caller: u32,
    pub node: Name,
    pub place: u64,
    /// The value of a cell as the listener joined, until it is given.
    pub first: Option<Val>,
    /// How many moments of the trace lie before what it is still to be given.
    pub passed: u64,
}

impl ListenerState {
    /// The next items are given.
    pub(crate) fn pass(&mut self, trace: &[Moment], count: u64)
        requires reached { IsReached trace.now self.old }
        requires few { count ≤ length (left trace.now self.old) }
        ensures who { who self.new ≡ who self.old }
        ensures left { (later : List MomentSpec) → left (trace.now ++ later) self.new ≡ drop count (left (trace.now ++ later) self.old) }
        ensures reached { IsReached trace.now self.new }
    {
        let more = self.pass_first(count);
        self.passed = passed_by(trace, &self.node, self.passed as usize, more) as u64;
    }

    /// The value of a cell as the listener joined is given, where it is among the next items: how many more are.
    fn pass_first(&mut self, count: u64) -> u64
        ensures first { self.new ≡ record self.old { first = first_after count self.old.first } }
        ensures more { result ≡ more_after count self.old.first }
    {
        if count > 0 && self.first.is_some() {
            self.first = None;
            return count - 1;
        }
        count
    }
}
