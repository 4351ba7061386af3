//! Which values are of a type among the nodes of a program.

ghost use Rattle.std.specs.Prelude.{◌≡◌, ◌&&◌, map, option_map, slice_get};
ghost use Rattle.std.specs.Option.{option_copied};
ghost use Rattle.frp_base.specs.Ty.{ty_eq};
ghost use Rattle.frp_expr.specs.Types.{fits};
ghost use Rattle.frp_expr.specs.Values.{is_node_of, all_of, each_of, is_closed_of};
ghost use Rattle.frp_graph.specs.Trace.{node_in};
ghost use Rattle.frp_graph.specs.TypedProg.{sig_of, sigs};
ghost use Rattle.frp_graph.specs.Values.{type_among, is_value, fits_node};

use crate::windows::node_in;
use frp_base::{Name, Ty, Val};
use frp_expr::is_text;
use frp_graph::{FunDef, Node, Prog};

/// The most items of a list value.
const MOST: usize = 1024;

/// Whether a value is one that a node of this type holds, among these nodes and functions.
pub fn fits_node(prog: &Prog, nodes: &[Node], ty: &Ty, value: &Val) -> bool
    ensures { result ≡ fits_node prog.now (node_in nodes.now) ty.now value.now }
{
    match ty {
        Ty::Stream(held) | Ty::Cell(held) => is_value(prog, nodes, value, held.get()),
        _ => false,
    }
}

/// Whether a value is of a type.
#[cycle(is_value)]
fn is_value(prog: &Prog, nodes: &[Node], value: &Val, ty: &Ty) -> bool
    ensures { result ≡ is_value prog.now (node_in nodes.now) value.now ty.now }
{
    match value {
        Val::Int(n) => matches!(ty, Ty::Int) && has_64_bits(*n),
        Val::Bool(_) => matches!(ty, Ty::Bool),
        Val::Text(text) => matches!(ty, Ty::Text) && is_text(text),
        Val::Pair(x, y) => match ty {
            Ty::Pair(a, b) => {
                is_value(prog, nodes, x.get(), a.get()) && is_value(prog, nodes, y.get(), b.get())
            }
            _ => false,
        },
        Val::List(items) => match ty {
            Ty::List(item) => {
                let items = items.as_slice();
                all_are(prog, nodes, items, item.get()) && items.len() <= MOST
            }
            _ => false,
        },
        Val::Stream(n) => matches!(ty, Ty::Stream(_)) && is_node(nodes, n, ty),
        Val::Cell(n) => matches!(ty, Ty::Cell(_)) && is_node(nodes, n, ty),
        Val::Fun(f, kept) => match ty {
            Ty::Fun(arg, gives) => {
                is_closed(prog, nodes, *f, kept.as_slice(), arg.get(), gives.get())
            }
            _ => false,
        },
        Val::Absent => matches!(ty, Ty::Option(_)),
        Val::Present(x) => match ty {
            Ty::Option(a) => is_value(prog, nodes, x.get(), a.get()),
            _ => false,
        },
    }
}

/// Whether these are the kept values of a function with this argument and result.
#[cycle(is_value)]
fn is_closed(prog: &Prog, nodes: &[Node], f: u32, kept: &[Val], arg: &Ty, gives: &Ty) -> bool
    ensures { result ≡ is_closed_of (map (is_value prog.now (node_in nodes.now)) kept.now) arg.now gives.now (slice_get (sigs prog.now) f) }
{
    match fun_at(prog, f) {
        Some(fun) => { are_values(prog, nodes, kept, fun.kept.as_slice()) && goes(fun, arg, gives) }
        None => false,
    }
}

/// The function of a number.
#[tactic(auto, using(crate::proofs::Sigs::sig_at))]
fn fun_at(prog: &Prog, f: u32) -> Option<&FunDef>
    ensures { slice_get (sigs prog.now) f ≡ option_map sig_of (option_copied result) }
{
    prog.funs.as_slice().get(f as usize)
}

/// Whether a function has this argument and result.
fn goes(fun: &FunDef, arg: &Ty, gives: &Ty) -> bool
    ensures { result ≡ ty_eq fun.now.arg arg.now && ty_eq fun.now.result gives.now }
{
    fun.arg.is(arg) && fun.result.is(gives)
}

/// Whether each of these values is of a type.
#[cycle(is_value)]
fn all_are(prog: &Prog, nodes: &[Node], values: &[Val], ty: &Ty) -> bool
    ensures { result ≡ all_of (map (is_value prog.now (node_in nodes.now)) values.now) ty.now }
{
    for value in values {
        if !is_value(prog, nodes, value, ty) {
            return false;
        }
    }
    true
}

/// Whether these values are of these types, one by one.
#[cycle(is_value)]
fn are_values(prog: &Prog, nodes: &[Node], values: &[Val], tys: &[Ty]) -> bool
    ensures { result ≡ each_of (map (is_value prog.now (node_in nodes.now)) values.now) tys.now }
{
    if values.len() != tys.len() {
        return false;
    }
    for (i, value) in values.iter().enumerate() {
        if !is_value(prog, nodes, value, &tys[i]) {
            return false;
        }
    }
    true
}

/// Every number has 64 bits.
#[tactic(auto, using(frp_expr::proofs::NumberLemmas::fits_mag))]
fn has_64_bits(n: i64) -> bool
    ensures { result ≡ fits n }
{
    let _n = n;
    true
}

/// Whether a node of this name has this type.
fn is_node(nodes: &[Node], name: &Name, ty: &Ty) -> bool
    ensures { result ≡ is_node_of ty.now (type_among (node_in nodes.now) name.now) }
{
    match node_in(nodes, name) {
        Some(node) => node.ty.is(ty),
        None => false,
    }
}
