use frp_base::{Name, Seq, Text, Ty};
use frp_graph::{Fact, Prog};

/// A file without a fault: its program, the labels of its nodes in the order of the items, the nodes that it listens to, and
/// what each of its senders sends, in order.
#[derive(Drop)]
pub struct Typed {
    pub prog: Prog,
    pub labels: Seq<Label>,
    pub listens: Seq<Name>,
    pub scripts: Seq<Seq<Fact>>,
}

/// A declared node: its name, its name in the file or its hidden name, and its type.
#[derive(Drop)]
pub struct Label {
    pub name: Name,
    pub text: Text,
    pub ty: Ty,
}
