ghost use Rattle.std.specs.Prelude.{◌≡◌, ◌<◌, ◌+◌, ◌∷◌, [], ◌++◌, ℕ, true, false, None, length, IfOk, OnOk, OnErr, IfSome, OnSome, IfNone};
ghost use Rattle.frp_rank.specs.Chain.{is_linked, is_closed_chain, with_link, without_link, numbers};
ghost use Rattle.frp_rank.specs.Order.{IsOrdered, Raises, no_places, with_place, rank_of};

use crate::graph::Graph;
use frp_base::{Memory, Place, Seq};
use std::alloc::Global;
use std::marker::Model;

/// Places with ranks, and links between them, such that each link leads to a lower rank; undone back to the last commit.
///
/// Contracts see the order as it is, and as it was at the last commit: the list of ranks, and the links, of which clauses ask only
/// whether one is among them.
#[derive(Drop)]
pub struct Ranks {
    graph: Graph,
}

impl Model for Ranks {
    ghost use Rattle.frp_rank.specs.Order.{Versions};
    ghost use Rattle.frp_rank.specs.Graph.{order_of, net_of, base_of, IsKept};

    ghost Value = { Versions };

    ghost view = { λ r. record { now = order_of (net_of r.graph); base = order_of (base_of r.graph) } };

    ghost invariant = { λ r. IsKept r.graph };
}

impl Ranks {
    /// Without places, which counts as the first commit. It takes no memory.
    pub fn new(alloc: Global) -> Ranks
        ensures now { result.now ≡ no_places }
        ensures base { result.base ≡ no_places }
    {
        Ranks {
            graph: Graph::new(alloc),
        }
    }

    /// How many places there are.
    pub fn len(&self) -> u64
        ensures count { result ≡ length self.now.now.ranks }
        ensures ordered { IsOrdered self.now.now }
    {
        self.graph.ranks.len()
    }

    /// The next place, at rank 0 and without links. There are at most 2^32 - 1 places; for more, memory is wanting.
    pub fn add(&mut self) -> Result<Place, Memory>
        ensures place { IfOk result (λ p. p.0 ≡ length self.old.now.ranks) }
        ensures now { OnOk result (self.new.now ≡ with_place self.old.now) }
        ensures base { self.new.base ≡ self.old.base }
        ensures ordered { IsOrdered self.new.now }
        ensures err { OnErr result (self.new ≡ self.old) }
    {
        self.graph.add()
    }

    /// The rank of a place. It takes no memory.
    pub fn rank(&self, p: Place) -> u64
        requires { p.0 < length self.now.now.ranks }
        ensures rank { result ≡ rank_of self.now.now p.0 }
        ensures ordered { IsOrdered self.now.now }
    {
        *self.graph.ranks.get(p)
    }

    /// Adds the link, and raises `from` and those that lead to it so that each link leads to a lower rank; or gives the chain that the link
    /// closes, the least place first, and leaves all as before.
    pub fn raise(&mut self, from: Place, to: Place) -> Result<Option<Seq<Place>>, Memory>
        requires from { from.0 < length self.old.now.ranks }
        requires to { to.0 < length self.old.now.ranks }
        ensures chain { IfOk result (λ r. IfSome r (λ c. is_closed_chain (with_link (is_linked self.old.now.links) from.0 to.0) (numbers c) ≡ true)) }
        ensures refused { IfOk result (λ r. OnSome r (self.new ≡ self.old)) }
        ensures raised { IfOk result (λ r. IfNone r (Raises self.old.now self.new.now from.0 to.0)) }
        ensures again { is_linked self.old.now.links from.0 to.0 ≡ true → IfOk result (λ r. r ≡ None) × (self.new ≡ self.old) }
        ensures base { self.new.base ≡ self.old.base }
        ensures ordered { IsOrdered self.new.now }
        ensures err { OnErr result (self.new ≡ self.old) }
    {
        self.graph.raise(from.0, to.0)
    }

    /// Removes the link, and changes no rank. Where the link isn't there, all stays as it is.
    pub fn unlink(&mut self, from: Place, to: Place) -> Result<(), Memory>
        ensures links { OnOk result ((a b : ℕ) → is_linked self.new.now.links a b ≡ without_link (is_linked self.old.now.links) from.0 to.0 a b) }
        ensures ranks { OnOk result (self.new.now.ranks ≡ self.old.now.ranks) }
        ensures absent { is_linked self.old.now.links from.0 to.0 ≡ false → self.new ≡ self.old }
        ensures base { self.new.base ≡ self.old.base }
        ensures ordered { IsOrdered self.new.now }
        ensures err { OnErr result (self.new ≡ self.old) }
    {
        self.graph.unlink(from.0, to.0)
    }

    /// Keeps all changes since the last commit. It takes no memory.
    pub fn commit(&mut self)
        ensures now { self.new.now ≡ self.old.now }
        ensures base { self.new.base ≡ self.old.now }
        ensures ordered { IsOrdered self.new.now }
    {
        self.graph.commit();
    }

    /// Goes back to the last commit. It takes no memory.
    pub fn roll_back(&mut self)
        ensures now { self.new.now ≡ self.old.base }
        ensures base { self.new.base ≡ self.old.base }
        ensures ordered { IsOrdered self.new.now }
    {
        self.graph.roll_back();
    }
}
