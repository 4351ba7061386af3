use frp_base::Seq;

/// What is found of places, numbered from 0, and the links between them.
#[derive(Drop)]
pub enum Found {
    /// Distinct places, each linked to the next and the last to the first.
    Ring(Seq<usize>),
    /// Each place once, after all those to which it is linked.
    Order(Seq<usize>),
}
