//! The row of each kind of node.

ghost use Rattle.std.specs.Prelude.{◌≡◌, [], ◌∷◌, ◌||◌, ◌&&◌, not, Some, None, is_some, slice_get, option_map, option_and_then, IfOk, IsTrue, if◌then◌else◌};
ghost use Rattle.std.specs.Option.{option_copied};
ghost use Rattle.frp_base.specs.declared.val.Val.{out-Val};
ghost use Rattle.frp_base.specs.Time.{time_eq, parent_and_number};
ghost use Rattle.frp_base.specs.Name.{birth};
ghost use Rattle.frp_expr.specs.Parts.{bool_in, items_in};
ghost use Rattle.frp_graph.specs.declared.shape.Shape.TheVariants as shape;
ghost use Rattle.frp_graph.specs.Trace.{post_in};
ghost use Rattle.frp_graph.specs.Applied as apply;
ghost use Rattle.frp_graph.specs.Equations as rows;
ghost use Rattle.frp_graph.specs.Evidence.{has_reads};
ghost use Rattle.frp_fire.specs.Fires.{refers_in, is_reference};

use crate::calls::{call_one, call_two, function, truth};
use frp_base::{Memory, Name, Val};
use frp_graph::{Lam, Node, View};
use std::alloc::Global;

/// A copy of what is there.
pub fn copied(alloc: Global, value: Option<&Val>) -> Result<Option<Val>, Memory>
    ensures { IfOk result (λ o. o ≡ option_copied value.entry) }
{
    match value {
        Some(v) => Ok(Some(v.copy(alloc)?)),
        None => Ok(None),
    }
}

/// An expression of the operand's occurrence.
pub fn mapped<V: View>(alloc: Global, view: &V, f: &Lam, s: &Name) -> Result<Option<Val>, Memory>
    ensures { IfOk result (λ o. o ≡ option_map (λ a. apply.call (V.prog_of view.now) f.now (a ∷ [])) ((V.sight view.now).occ s.now)) }
{
    match view.occ(s) {
        Some(a) => Ok(Some(call_one(alloc, view.program(), f, a)?)),
        None => Ok(None),
    }
}

/// The operand's occurrence, where an expression of it is true.
pub fn filtered<V: View>(alloc: Global, view: &V, f: &Lam, s: &Name) -> Result<Option<Val>, Memory>
    ensures { IfOk result (λ o. o ≡ option_and_then (λ a. rows.keep_if (bool_in (out-Val (apply.call (V.prog_of view.now) f.now (a ∷ [])))) (Some a)) ((V.sight view.now).occ s.now)) }
{
    match view.occ(s) {
        Some(a) => {
            if truth(&call_one(alloc, view.program(), f, a)?) {
                Ok(Some(a.copy(alloc)?))
            } else {
                Ok(None)
            }
        }
        None => Ok(None),
    }
}

/// What the operand's optional value holds, where it is present.
pub fn present<V: View>(alloc: Global, view: &V, s: &Name) -> Result<Option<Val>, Memory>
    ensures { IfOk result (λ o. o ≡ option_and_then (λ a. apply.present_in (out-Val a)) ((V.sight view.now).occ s.now)) }
{
    match view.occ(s) {
        Some(Val::Present(x)) => Ok(Some(x.get().copy(alloc)?)),
        _ => Ok(None),
    }
}

/// An expression of both occurrences where both are there, else the one that is.
pub fn merged<V: View>(
    alloc: Global,
    view: &V,
    f: &Lam,
    a: &Name,
    b: &Name,
) -> Result<Option<Val>, Memory>
    ensures { IfOk result (λ o. o ≡ rows.merged (λ p q. apply.call (V.prog_of view.now) f.now (p ∷ q ∷ [])) ((V.sight view.now).occ a.now) ((V.sight view.now).occ b.now)) }
{
    match view.occ(a) {
        Some(left) => match view.occ(b) {
            Some(right) => Ok(Some(call_two(alloc, view.program(), f, left, right)?)),
            None => Ok(Some(left.copy(alloc)?)),
        },
        None => copied(alloc, view.occ(b)),
    }
}

/// An expression of the stream's occurrence and of the cell's value before.
pub fn snapshot<V: View>(
    alloc: Global,
    view: &V,
    f: &Lam,
    s: &Name,
    c: &Name,
) -> Result<Option<Val>, Memory>
    requires { IsTrue (not (is_some ((V.sight view.now).occ s.now)) || is_some ((V.sight view.now).pre c.now)) }
    ensures { IfOk result (λ o. o ≡ rows.map2 (λ p q. apply.call (V.prog_of view.now) f.now (p ∷ q ∷ [])) ((V.sight view.now).occ s.now) ((V.sight view.now).pre c.now)) }
{
    match view.occ(s) {
        Some(a) => Ok(Some(call_two(alloc, view.program(), f, a, view.pre(c))?)),
        None => Ok(None),
    }
}

/// The item of the list that fired at the parent of the time, by the number of the time, where the split was live there.
#[tactic(auto, using(crate::proofs::Needs::item_by_number))]
pub fn split_item<V: View>(
    alloc: Global,
    view: &V,
    node: &Node,
    s: &Name,
) -> Result<Option<Val>, Memory>
    ensures { IfOk result (λ o. o ≡ rows.split_item (V.sight view.now) s.now (birth node.now.name) (parent_and_number (V.sight view.now).time)) }
{
    match view.time().number_since(node.name.birth()) {
        Some(i) => match view.above(s) {
            Some(list) => item(alloc, list, i),
            None => Ok(None),
        },
        None => Ok(None),
    }
}

/// The item of a number, from 0, of a list.
fn item(alloc: Global, list: &Val, i: u64) -> Result<Option<Val>, Memory>
    ensures { IfOk result (λ o. o ≡ slice_get (items_in (out-Val list.now)) i) }
{
    match list {
        Val::List(items) => nth(alloc, items.as_slice(), i),
        _ => Ok(None),
    }
}

/// The item of a number, from 0.
fn nth(alloc: Global, items: &[Val], i: u64) -> Result<Option<Val>, Memory>
    ensures { IfOk result (λ o. o ≡ slice_get items.now i) }
{
    match items.get(i as usize) {
        Some(item) => Ok(Some(item.copy(alloc)?)),
        None => Ok(None),
    }
}

/// The value of a cell: after the time at the node's birth, and else its step.
pub fn value<V: View>(alloc: Global, view: &V, node: &Node, c: &Name) -> Result<Option<Val>, Memory>
    requires { IsTrue (not (time_eq (birth node.now.name) (V.sight view.now).time) || is_some (post_in (V.sight view.now) c.now)) }
    ensures { IfOk result (λ o. o ≡ (if time_eq (birth node.now.name) (V.sight view.now).time then post_in (V.sight view.now) c.now else (V.sight view.now).occ c.now)) }
{
    if node.name.birth().is(view.time()) {
        Ok(Some(view.post(c).copy(alloc)?))
    } else {
        copied(alloc, view.occ(c))
    }
}

/// The function that the one cell holds after the time on what the other holds after it, where either steps.
pub fn applied<V: View>(
    alloc: Global,
    view: &V,
    cf: &Name,
    ca: &Name,
) -> Result<Option<Val>, Memory>
    requires { IsTrue (not (is_some ((V.sight view.now).occ cf.now) || is_some ((V.sight view.now).occ ca.now)) || (is_some (post_in (V.sight view.now) cf.now) && is_some (post_in (V.sight view.now) ca.now))) }
    ensures { IfOk result (λ o. o ≡ (if is_some ((V.sight view.now).occ cf.now) || is_some ((V.sight view.now).occ ca.now) then option_and_then (λ f. option_and_then (apply.applied (V.prog_of view.now) f) (post_in (V.sight view.now) ca.now)) (post_in (V.sight view.now) cf.now) else None)) }
{
    if view.occ(cf).is_some() || view.occ(ca).is_some() {
        function(alloc, view.program(), view.post(cf), view.post(ca))
    } else {
        Ok(None)
    }
}

/// The node that a reference names.
fn target(value: &Val) -> &Name
    requires { IsTrue (refers_in (out-Val value.now)) }
    ensures { result.now ≡ apply.target value.now }
{
    match value {
        Val::Stream(n) => n,
        Val::Cell(n) => n,
        _ => unreachable!(),
    }
}

/// The occurrence of the stream that the cell held before the time.
pub fn switchs<V: View>(alloc: Global, view: &V, c: &Name) -> Result<Option<Val>, Memory>
    requires there { IsTrue (is_some ((V.sight view.now).pre c.now)) }
    requires reference { IsTrue (is_reference ((V.sight view.now).pre c.now)) }
    ensures { IfOk result (λ o. o ≡ option_and_then (λ s. (V.sight view.now).occ (apply.target s)) ((V.sight view.now).pre c.now)) }
{
    copied(alloc, view.occ(target(view.pre(c))))
}

/// The value after of the cell that the cell holds after the time, where either steps.
pub fn switchc<V: View>(
    alloc: Global,
    view: &V,
    node: &Node,
    c: &Name,
) -> Result<Option<Val>, Memory>
    requires reads { IsTrue (has_reads (V.prog_of view.now) (V.sight view.now) node.now (shape.Switchc c.now)) }
    requires reference { IsTrue (is_reference (post_in (V.sight view.now) c.now)) }
    ensures { IfOk result (λ o. o ≡ option_and_then (λ d. rows.keep_if (is_some ((V.sight view.now).occ c.now) || is_some ((V.sight view.now).occ (apply.target d))) (post_in (V.sight view.now) (apply.target d))) (post_in (V.sight view.now) c.now)) }
{
    let _node = node;
    let inner = target(view.post(c));
    if view.occ(c).is_some() || view.occ(inner).is_some() {
        Ok(Some(view.post(inner).copy(alloc)?))
    } else {
        Ok(None)
    }
}
