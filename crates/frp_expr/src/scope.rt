use crate::expr::Expr;
use frp_base::{Seq, Text, Ty};

/// What an expression may use: the names in scope with their types, a later one hiding an earlier one of the same name,
/// and the declared functions, each with its name, the types of its kept values, and those of its argument and result.
#[derive(Drop)]
pub struct Scope {
    pub names: Seq<(Text, Ty)>,
    pub funs: Seq<(Text, Seq<Ty>, Ty, Ty)>,
}

/// An expression with its names resolved, and its type. Variable i is entry i of the scope, from 0, and the variables
/// after those are bound by `let`. `used` are the scope's entries that the expression uses, in the order of first use.
#[derive(Drop)]
pub struct Typing {
    pub expr: Expr,
    pub ty: Ty,
    pub used: Seq<u64>,
}
