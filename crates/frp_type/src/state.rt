use frp_base::Seq;
use frp_expr::{Expr, Scope};
use frp_graph::{FunDef, Line3};

/// A loop: the position of its node among the names of its body, and the place of its name in the input.
#[derive(Clone, Copy, Debug, Drop)]
pub struct Loop {
    pub position: u64,
    pub at: u64,
}

/// What is known of the declarations so far, and what they stand for: the names of the body and the functions, the loops that
/// are not tied yet, the lines, in which a loop is tied to itself, the expressions of their shapes, the functions, and each
/// tied loop with what it is tied to, by their positions.
#[derive(Drop)]
pub struct State {
    pub scope: Scope,
    pub loops: Seq<Loop>,
    pub lines: Seq<Line3>,
    pub codes: Seq<Expr>,
    pub funs: Seq<FunDef>,
    pub ties: Seq<(u64, u64)>,
}
