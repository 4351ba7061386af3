ghost use Rattle.std.specs.Prelude.{◌≡◌, List, length, slice_get, is_some, Some, IsTrue};
ghost use Rattle.std.specs.Option.{option_copied};
ghost use Rattle.frp_graph.specs.declared.trace.Node.{Node};
ghost use Rattle.frp_graph.specs.declared.prog.Prog.{Prog};
ghost use Rattle.frp_graph.specs.Trace.{Sight, post_in};
ghost use Rattle.frp_graph.specs.Views.{AreLive};

use crate::prog::Prog;
use crate::trace::Node;
use frp_base::{Name, Time, Val};

/// A graph at one time, as whoever keeps it shows it. No call takes memory.
pub trait View {
    /// What is seen of it.
    ghost sight: { Self → Sight };

    /// The program whose graph it is.
    ghost prog_of: { Self → Prog };

    /// The live nodes, in an order of the view's own.
    ghost nodes: { Self → List Node };

    /// The time.
    fn time(&self) -> &Time
        ensures { result.now ≡ (sight self.now).time };

    /// The program.
    fn program(&self) -> &Prog
        ensures { result.now ≡ prog_of self.now };

    /// The live node of a name. There is none exactly where the name is of no live node.
    fn node(&self, n: &Name) -> Option<&Node>
        ensures { option_copied result ≡ (sight self.now).node n.now };

    /// The occurrence of a stream, or the step of a cell, at the time.
    fn occ(&self, n: &Name) -> Option<&Val>
        ensures { option_copied result ≡ (sight self.now).occ n.now };

    /// The value of a cell before the time.
    fn pre(&self, c: &Name) -> &Val
        requires { IsTrue (is_some ((sight self.now).pre c.now)) }
        ensures { (sight self.now).pre c.now ≡ Some result.now };

    /// The value of a cell after the time.
    fn post(&self, c: &Name) -> &Val
        requires { IsTrue (is_some (post_in (sight self.now) c.now)) }
        ensures { post_in (sight self.now) c.now ≡ Some result.now };

    /// The occurrence at the parent of the time.
    fn above(&self, n: &Name) -> Option<&Val>
        ensures { option_copied result ≡ (sight self.now).above n.now };

    /// How many nodes are live.
    fn live(&self) -> u64
        ensures count { result ≡ length (nodes self.now) }
        ensures each { AreLive (sight self.now) (nodes self.now) };

    /// The live node of a number, from 0, in the view's own order, in which each live node stands once.
    fn nth(&self, i: u64) -> &Node
        requires { IsTrue (is_some (slice_get (nodes self.now) i)) }
        ensures { slice_get (nodes self.now) i ≡ Some result.now };
}
