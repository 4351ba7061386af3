use frp_base::{Boxed, Seq, Text, Ty};

/// An expression over a list of values. `Var(i)` is item i of the list, from 0; `Let(e, f)` is `f` over the list with the
/// value of `e` at its end. Whole numbers have 64 bits and wrap. `Close(f, kept)` is the function value of declared
/// function f, from 0, with these kept values, and `Nil` holds the type of the items of an empty list.
#[derive(Drop)]
pub enum Expr {
    Int(i64),
    Bool(bool),
    Text(Text),
    Var(u64),
    Neg(Boxed<Expr>),
    Not(Boxed<Expr>),
    First(Boxed<Expr>),
    Second(Boxed<Expr>),
    Len(Boxed<Expr>),
    Show(Boxed<Expr>),
    Let(Boxed<Expr>, Boxed<Expr>),
    Add(Boxed<Expr>, Boxed<Expr>),
    Sub(Boxed<Expr>, Boxed<Expr>),
    Mul(Boxed<Expr>, Boxed<Expr>),
    Div(Boxed<Expr>, Boxed<Expr>),
    Rem(Boxed<Expr>, Boxed<Expr>),
    Lt(Boxed<Expr>, Boxed<Expr>),
    Eq(Boxed<Expr>, Boxed<Expr>),
    And(Boxed<Expr>, Boxed<Expr>),
    Or(Boxed<Expr>, Boxed<Expr>),
    Pair(Boxed<Expr>, Boxed<Expr>),
    Append(Boxed<Expr>, Boxed<Expr>),
    Cat(Boxed<Expr>, Boxed<Expr>),
    If(Boxed<Expr>, Boxed<Expr>, Boxed<Expr>),
    At(Boxed<Expr>, Boxed<Expr>, Boxed<Expr>),
    List(Seq<Expr>),
    Nil(Ty),
    Close(u32, Seq<Expr>),
}
