use frp_base::{Name, Seq, Val};

/// An expression of the program, by its number from 0, with kept values: it is applied to the kept values followed by
/// its arguments.
#[derive(Drop)]
pub struct Lam {
    pub code: u32,
    pub kept: Seq<Val>,
}

/// The primitive that a node is, with the nodes that it reads: `s`, `a` and `b` are streams, `c`, `cf` and `ca` cells,
/// `to` is the node that a loop is tied to, and `f` is an expression. `Execute` makes an instance of a template at each
/// occurrence of `s`.
#[derive(Drop)]
pub enum Shape {
    Sink,
    Never,
    Constant,
    Map {
        f: Lam,
        s: Name,
    },
    Filter {
        f: Lam,
        s: Name,
    },
    Filteropt {
        s: Name,
    },
    Merge {
        f: Lam,
        a: Name,
        b: Name,
    },
    Snapshot {
        f: Lam,
        s: Name,
        c: Name,
    },
    Split {
        s: Name,
    },
    Updates {
        c: Name,
    },
    Value {
        c: Name,
    },
    Loop {
        to: Name,
    },
    Hold {
        s: Name,
    },
    Mapc {
        f: Lam,
        c: Name,
    },
    Apply {
        cf: Name,
        ca: Name,
    },
    Switchs {
        c: Name,
    },
    Switchc {
        c: Name,
    },
    Execute {
        s: Name,
        template: u32,
        kept: Seq<Val>,
    },
}
