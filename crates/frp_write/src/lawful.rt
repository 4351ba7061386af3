//! The files that reading allows.

ghost use Rattle.std.specs.Prelude.{◌≡◌, Bool, suc, map};
ghost use Rattle.std.specs.List.{list_all};
ghost use Rattle.frp_lex.specs.declared.token.Kind.{Kind};
ghost use Rattle.frp_lex.specs.Atoms.{is_name};
ghost use Rattle.frp_lex.specs.Bytes.{is_lower_case, is_in_name};
ghost use Rattle.frp_write.specs.Lawful as spec;

use frp_base::Text;
use frp_expr::{Raw, RawForm, RawTy, Spot, TyForm, is_lawful};
use frp_file::{
    Decl, File, Function, Item, ItemForm, Listen, Param, RawSend, Sender, ShapeForm, Template,
};
use frp_form::{LEVELS, is_literal};

/// The most senders of a file.
const SENDERS: usize = 16;

/// The most sends of a sender.
const SENDS: usize = 4096;

/// The most bytes of a name.
const NAME: usize = 32;

/// Something that reading allows or not.
trait Allowed {
    /// Whether it does.
    ghost allowed: { Self → Bool };

    /// Whether it does.
    fn allows(it: &Self) -> bool
        ensures { result ≡ allowed it.now };
}

/// Whether reading allows each of these.
fn allows_all<T: Allowed>(all: &[T]) -> bool
    ensures { result ≡ list_all T.allowed all.now }
{
    for it in all {
        if !T::allows(it) {
            return false;
        }
    }
    true
}

fn is_lower(b: u8) -> bool
    ensures { result ≡ is_lower_case b }
{
    97 <= b && b <= 122
}

fn is_in_name(b: u8) -> bool
    ensures { result ≡ is_in_name b }
{
    is_lower(b) || (48 <= b && b <= 57) || b == 95
}

fn are_in_name(bytes: &[u8]) -> bool
    ensures { result ≡ list_all is_in_name bytes.now }
{
    bytes.iter().all(|b| is_in_name(*b))
}

/// Whether bytes are a name, its length aside.
fn is_name(bytes: &[u8]) -> bool
    ensures { result ≡ is_name bytes.now }
{
    match bytes {
        [] => false,
        [b, ..] => is_lower(*b) && are_in_name(bytes),
    }
}

/// Whether a text is a name of the user.
fn is_user(text: &Text) -> bool
    ensures { result ≡ spec.is_user text.now }
{
    let text = text.as_str();
    is_name(text.as_bytes()) && text.len() <= NAME && !is_literal(text)
}

fn is_user_spot(spot: &Spot) -> bool
    ensures { result ≡ spec.is_user_spot spot.now }
{
    is_user(&spot.text)
}

/// Whether the parts of a type have at most so many levels.
#[cycle(ty)]
fn ty_parts(ty: &RawTy, room: usize) -> bool
    ensures { result ≡ spec.ty_within ty.now (suc room) }
{
    match &ty.form {
        TyForm::Int | TyForm::Bool | TyForm::Text => true,
        TyForm::List(a) | TyForm::Stream(a) | TyForm::Cell(a) => ty_within(a.get(), room),
        TyForm::Pair(a, b) | TyForm::Fun(a, b) => {
            ty_within(a.get(), room) && ty_within(b.get(), room)
        }
    }
}

/// Whether a type has at most so many levels.
#[cycle(ty)]
#[tactic(auto, using(crate::proofs::LevelLemmas::ty_none, crate::proofs::LevelLemmas::ty_some))]
fn ty_within(ty: &RawTy, room: usize) -> bool
    ensures { result ≡ spec.ty_within ty.now room }
{
    if room == 0 {
        return false;
    }
    ty_parts(ty, room - 1)
}

/// Whether each expression has at most so many levels, and names of the user.
#[cycle(within)]
fn all_within(raws: &[Raw], room: usize) -> bool
    ensures { result ≡ spec.all_within (map spec.expr_within raws.now) room }
{
    for raw in raws {
        if !expr_within(raw, room) {
            return false;
        }
    }
    true
}

/// Whether the parts of an expression have at most so many levels, and names of the user.
#[cycle(within)]
fn expr_parts(raw: &Raw, room: usize) -> bool
    ensures { result ≡ spec.expr_within raw.now (suc room) }
{
    match &raw.form {
        RawForm::Int(_) | RawForm::Bool(_) | RawForm::Text(_) => true,
        RawForm::Name(name) => is_user(name),
        RawForm::Neg(a)
        | RawForm::Not(a)
        | RawForm::First(a)
        | RawForm::Second(a)
        | RawForm::Len(a)
        | RawForm::Show(a) => expr_within(a.get(), room),
        RawForm::Let(x, a, b) => {
            is_user_spot(x) && expr_within(a.get(), room) && expr_within(b.get(), room)
        }
        RawForm::Add(a, b)
        | RawForm::Sub(a, b)
        | RawForm::Mul(a, b)
        | RawForm::Div(a, b)
        | RawForm::Rem(a, b)
        | RawForm::Lt(a, b)
        | RawForm::Eq(a, b)
        | RawForm::And(a, b)
        | RawForm::Or(a, b)
        | RawForm::Pair(a, b)
        | RawForm::Append(a, b)
        | RawForm::Cat(a, b) => expr_within(a.get(), room) && expr_within(b.get(), room),
        RawForm::If(a, b, c) | RawForm::At(a, b, c) => {
            expr_within(a.get(), room) && expr_within(b.get(), room) && expr_within(c.get(), room)
        }
        RawForm::List(items) => all_within(items.as_slice(), room),
        RawForm::Nil(ty) => ty_within(ty, room),
        RawForm::Close(name, kept) => is_user_spot(name) && all_within(kept.as_slice(), room),
    }
}

/// Whether an expression has at most so many levels, and names of the user.
#[cycle(within)]
#[tactic(auto, using(crate::proofs::LevelLemmas::expr_none, crate::proofs::LevelLemmas::expr_some))]
fn expr_within(raw: &Raw, room: usize) -> bool
    ensures { result ≡ spec.expr_within raw.now room }
{
    if room == 0 {
        return false;
    }
    expr_parts(raw, room - 1)
}

fn is_lawful_ty(ty: &RawTy) -> bool
    ensures { result ≡ spec.is_lawful_ty ty.now }
{
    ty_within(ty, LEVELS)
}

fn is_lawful_expr(raw: &Raw) -> bool
    ensures { result ≡ spec.is_lawful_expr raw.now }
{
    is_lawful(raw) && expr_within(raw, LEVELS)
}

impl Allowed for Raw {
    ghost use Rattle.frp_write.specs.Lawful.{is_lawful_expr};

    ghost allowed = { is_lawful_expr };

    fn allows(it: &Raw) -> bool {
        is_lawful_expr(it)
    }
}

fn is_lawful_param(param: &Param) -> bool
    ensures { result ≡ spec.is_lawful_param param.now }
{
    is_user_spot(&param.name) && is_lawful_ty(param.ty.get())
}

impl Allowed for Param {
    ghost use Rattle.frp_write.specs.Lawful.{is_lawful_param};

    ghost allowed = { is_lawful_param };

    fn allows(it: &Param) -> bool {
        is_lawful_param(it)
    }
}

fn are_lawful_two(a: &Raw, b: &Raw) -> bool
    ensures { result ≡ spec.are_lawful_two a.now b.now }
{
    is_lawful_expr(a) && is_lawful_expr(b)
}

fn are_lawful_three(a: &Raw, b: &Raw, c: &Raw) -> bool
    ensures { result ≡ spec.are_lawful_three a.now b.now c.now }
{
    is_lawful_expr(a) && are_lawful_two(b, c)
}

fn are_user_two(x: &Spot, y: &Spot) -> bool
    ensures { result ≡ spec.are_user_two x.now y.now }
{
    is_user_spot(x) && is_user_spot(y)
}

fn is_lawful_shape(shape: &ShapeForm) -> bool
    ensures { result ≡ spec.is_lawful_shape shape.now }
{
    match shape {
        ShapeForm::Never { ty } | ShapeForm::Loops { ty } | ShapeForm::Loopc { ty } => {
            is_lawful_ty(ty.get())
        }
        ShapeForm::Constant { o: a }
        | ShapeForm::Split { s: a }
        | ShapeForm::Updates { c: a }
        | ShapeForm::Value { c: a }
        | ShapeForm::Switchs { c: a }
        | ShapeForm::Switchc { c: a }
        | ShapeForm::Once { s: a }
        | ShapeForm::Defer { s: a } => is_lawful_expr(a.get()),
        ShapeForm::Map { x, s: a, e }
        | ShapeForm::Mapc { x, c: a, e }
        | ShapeForm::Filter { x, s: a, e } => is_user_spot(x) && are_lawful_two(a.get(), e.get()),
        ShapeForm::Merge { x, y, a, b, e }
        | ShapeForm::Snapshot {
            x,
            y,
            s: a,
            c: b,
            e,
        } => { are_user_two(x, y) && are_lawful_three(a.get(), b.get(), e.get()) }
        ShapeForm::Hold { o: a, s: b }
        | ShapeForm::Apply { cf: a, ca: b }
        | ShapeForm::Orelse { a, b }
        | ShapeForm::Gate { s: a, c: b } => are_lawful_two(a.get(), b.get()),
        ShapeForm::Execute { s, template, kept } => {
            is_lawful_expr(s.get()) && is_user_spot(template) && allows_all(kept.as_slice())
        }
        ShapeForm::Accum { ty, x, y, s, o, e } | ShapeForm::Collect { ty, x, y, s, o, e } => {
            is_lawful_ty(ty.get())
                && are_user_two(x, y)
                && are_lawful_three(s.get(), o.get(), e.get())
        }
        ShapeForm::Lift2 { x, y, ca, cb, e } => {
            is_lawful_param(x.get())
                && is_lawful_param(y.get())
                && are_lawful_three(ca.get(), cb.get(), e.get())
        }
    }
}

fn is_lawful_item_form(form: &ItemForm) -> bool
    ensures { result ≡ spec.is_lawful_item_form form.now }
{
    match form {
        ItemForm::Sink { name, ty } => is_user_spot(name) && is_lawful_ty(ty.get()),
        ItemForm::Cellsink {
            sink,
            cell,
            ty,
            first,
        } => are_user_two(sink, cell) && is_lawful_ty(ty.get()) && is_lawful_expr(first.get()),
        ItemForm::Let { name, shape } => is_user_spot(name) && is_lawful_shape(&shape.get().form),
        ItemForm::Tie { from, to } => are_user_two(from, to),
        ItemForm::Get { name, cell } => is_user_spot(name) && is_lawful_expr(cell.get()),
    }
}

/// Whether an item can stand in the body of the graph.
fn is_of_graph(form: &ItemForm) -> bool
    ensures { result ≡ spec.is_of_graph form.now }
{
    !matches!(form, ItemForm::Get { .. })
}

/// Whether an item can stand in the body of a template.
fn is_of_template(form: &ItemForm) -> bool
    ensures { result ≡ spec.is_of_template form.now }
{
    !matches!(form, ItemForm::Sink { .. } | ItemForm::Cellsink { .. })
}

impl Allowed for Item {
    ghost use Rattle.frp_write.specs.Lawful.{is_lawful_body_item};

    ghost allowed = { is_lawful_body_item };

    fn allows(it: &Item) -> bool {
        is_of_template(&it.form) && is_lawful_item_form(&it.form)
    }
}

fn is_lawful_template(template: &Template) -> bool
    ensures { result ≡ spec.is_lawful_template template.now }
{
    is_user_spot(&template.name)
        && is_lawful_param(template.param.get())
        && allows_all(template.kept.as_slice())
        && allows_all(template.items.as_slice())
        && is_lawful_expr(template.give.get().e.get())
}

fn is_lawful_function(function: &Function) -> bool
    ensures { result ≡ spec.is_lawful_function function.now }
{
    is_user_spot(&function.name)
        && allows_all(function.kept.as_slice())
        && is_lawful_param(function.arg.get())
        && is_lawful_expr(function.e.get())
}

impl Allowed for Decl {
    ghost use Rattle.frp_write.specs.Lawful.{is_lawful_decl};

    ghost allowed = { is_lawful_decl };

    fn allows(it: &Decl) -> bool {
        match it {
            Decl::Template(template) => is_lawful_template(template),
            Decl::Function(function) => is_lawful_function(function),
            Decl::Item(item) => is_of_graph(&item.form) && is_lawful_item_form(&item.form),
        }
    }
}

impl Allowed for Listen {
    ghost use Rattle.frp_write.specs.Lawful.{is_lawful_listen};

    ghost allowed = { is_lawful_listen };

    fn allows(it: &Listen) -> bool {
        is_user_spot(&it.name)
    }
}

impl Allowed for RawSend {
    ghost use Rattle.frp_write.specs.Lawful.{is_lawful_send};

    ghost allowed = { is_lawful_send };

    fn allows(it: &RawSend) -> bool {
        is_user_spot(&it.name) && is_lawful_expr(it.value.get())
    }
}

impl Allowed for Sender {
    ghost use Rattle.frp_write.specs.Lawful.{is_lawful_sender};

    ghost allowed = { is_lawful_sender };

    fn allows(it: &Sender) -> bool {
        let sends = it.sends.as_slice();
        allows_all(sends) && sends.len() <= SENDS
    }
}

/// Whether reading allows a file: its names, texts, numbers, counts and levels, and the places of its items. What reading
/// gives is so, and what `write` gives for such a file can be read.
pub fn is_lawful_file(file: &File) -> bool
    ensures { result ≡ spec.is_lawful_file file.now }
{
    let senders = file.senders.as_slice();
    allows_all(file.graph.decls.as_slice())
        && allows_all(file.listens.as_slice())
        && allows_all(senders)
        && senders.len() <= SENDERS
}
