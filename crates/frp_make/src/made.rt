use frp_base::{Name, Seq, Val};
use frp_graph::Node;

/// What a template makes: the nodes of its instance with their first values and what it gives, or the nodes and a closed chain of
/// Birth among them, where there is one. Nodes on such a chain, and those that lead to one, have no first value.
#[derive(Drop)]
pub enum MakeOut {
    Made(Made),
    Chain(Seq<Node>, Seq<Name>),
}

/// The nodes of an instance, in the order of their items, and what its template gives.
#[derive(Drop)]
pub struct Made {
    pub nodes: Seq<Node>,
    pub result: Val,
}

/// The file's nodes with their first values, in the order of their items, or the nodes and a closed chain of Birth among them.
#[derive(Drop)]
pub enum FirstOut {
    Made(Seq<Node>),
    Chain(Seq<Node>, Seq<Name>),
}
