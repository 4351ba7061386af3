ghost use Rattle.std.specs.Prelude.{◌≡◌, IsTrue, IfOk};
ghost use Rattle.frp_expr.specs.declared.raw.Raw.{roll-Raw};
ghost use Rattle.frp_expr.specs.declared.raw.RawTy.{roll-RawTy};
ghost use Rattle.frp_expr.specs.declared.raw.RawForm.TheVariants as f;
ghost use Rattle.frp_expr.specs.Forms.{is_unary, is_binary, is_agreeing};
ghost use Rattle.frp_expr.specs.Rebuilding.{with_one, with_two, with_three};

use frp_base::{Boxed, Memory, Seq, Text};
use std::alloc::Global;

/// A name as it is written, and the place of its first byte in the input, from 0.
#[derive(Drop)]
pub struct Spot {
    pub at: u64,
    pub text: Text,
}

/// A type as it is written, and the place of its first byte.
#[cycle(raw_types)]
#[derive(Drop)]
pub struct RawTy {
    pub at: u64,
    pub form: TyForm,
}

/// What a written type is: a variant for each of `Ty`, over written types.
#[cycle(raw_types)]
#[derive(Drop)]
pub enum TyForm {
    Int,
    Bool,
    Text,
    Pair(Boxed<RawTy>, Boxed<RawTy>),
    List(Boxed<RawTy>),
    Stream(Boxed<RawTy>),
    Cell(Boxed<RawTy>),
    Fun(Boxed<RawTy>, Boxed<RawTy>),
}

/// An expression as it is written, with names, and the place of its first byte.
#[cycle(raws)]
#[derive(Drop)]
pub struct Raw {
    pub at: u64,
    pub form: RawForm,
}

/// What a written expression is: a variant for each of `Expr`, over written expressions. `Name` stands for a variable,
/// `Let` has the name that it binds, and `Close` that of a declared function.
#[cycle(raws)]
#[derive(Drop)]
pub enum RawForm {
    Int(i64),
    Bool(bool),
    Text(Text),
    Name(Text),
    Neg(Boxed<Raw>),
    Not(Boxed<Raw>),
    First(Boxed<Raw>),
    Second(Boxed<Raw>),
    Len(Boxed<Raw>),
    Show(Boxed<Raw>),
    Let(Spot, Boxed<Raw>, Boxed<Raw>),
    Add(Boxed<Raw>, Boxed<Raw>),
    Sub(Boxed<Raw>, Boxed<Raw>),
    Mul(Boxed<Raw>, Boxed<Raw>),
    Div(Boxed<Raw>, Boxed<Raw>),
    Rem(Boxed<Raw>, Boxed<Raw>),
    Lt(Boxed<Raw>, Boxed<Raw>),
    Eq(Boxed<Raw>, Boxed<Raw>),
    And(Boxed<Raw>, Boxed<Raw>),
    Or(Boxed<Raw>, Boxed<Raw>),
    Pair(Boxed<Raw>, Boxed<Raw>),
    Append(Boxed<Raw>, Boxed<Raw>),
    Cat(Boxed<Raw>, Boxed<Raw>),
    If(Boxed<Raw>, Boxed<Raw>, Boxed<Raw>),
    At(Boxed<Raw>, Boxed<Raw>, Boxed<Raw>),
    List(Seq<Raw>),
    Nil(RawTy),
    Close(Spot, Seq<Raw>),
}

impl Spot {
    /// A name equal to this one, at its place.
    pub fn copy(&self) -> Result<Spot, Memory>
        ensures { IfOk result (λ s. s ≡ self.now) }
    {
        let text = self.text.copy()?;
        Ok(Spot { at: self.at, text })
    }
}

impl RawTy {
    /// A written type equal to this one, with its places.
    #[cycle(copy_ty)]
    pub fn copy(&self, alloc: Global) -> Result<RawTy, Memory>
        ensures { IfOk result (λ t. t ≡ self.now) }
    {
        match &self.form {
            TyForm::Int => Ok(type_at(self.at, TyForm::Int)),
            TyForm::Bool => Ok(type_at(self.at, TyForm::Bool)),
            TyForm::Text => Ok(type_at(self.at, TyForm::Text)),
            TyForm::Pair(x, y) => {
                let x = x.get().boxed(alloc)?;
                let y = y.get().boxed(alloc)?;
                Ok(type_at(self.at, TyForm::Pair(x, y)))
            }
            TyForm::List(x) => Ok(type_at(self.at, TyForm::List(x.get().boxed(alloc)?))),
            TyForm::Stream(x) => Ok(type_at(self.at, TyForm::Stream(x.get().boxed(alloc)?))),
            TyForm::Cell(x) => Ok(type_at(self.at, TyForm::Cell(x.get().boxed(alloc)?))),
            TyForm::Fun(x, y) => {
                let x = x.get().boxed(alloc)?;
                let y = y.get().boxed(alloc)?;
                Ok(type_at(self.at, TyForm::Fun(x, y)))
            }
        }
    }

    /// A copy in a box.
    #[cycle(copy_ty)]
    pub fn boxed(&self, alloc: Global) -> Result<Boxed<RawTy>, Memory>
        ensures { IfOk result (λ t. t ≡ self.now) }
    {
        let copy = self.copy(alloc)?;
        Boxed::new(alloc, copy)
    }
}

/// A written type at its place.
fn type_at(at: u64, form: TyForm) -> RawTy
    ensures { result ≡ roll-RawTy (record { at = at; form = form }) }
{
    RawTy { at, form }
}

impl Raw {
    /// A written expression equal to this one, with its places.
    #[cycle(copy_raw)]
    pub fn copy(&self, alloc: Global) -> Result<Raw, Memory>
        ensures { IfOk result (λ r. r ≡ self.now) }
    {
        match &self.form {
            RawForm::Int(n) => Ok(raw_at(self.at, RawForm::Int(*n))),
            RawForm::Bool(b) => Ok(raw_at(self.at, RawForm::Bool(*b))),
            RawForm::Text(text) => copy_text(self.at, text),
            RawForm::Name(name) => copy_name(self.at, name),
            RawForm::Neg(_)
            | RawForm::Not(_)
            | RawForm::First(_)
            | RawForm::Second(_)
            | RawForm::Len(_)
            | RawForm::Show(_) => copy_unary(alloc, self),
            RawForm::Add(_, _)
            | RawForm::Sub(_, _)
            | RawForm::Mul(_, _)
            | RawForm::Div(_, _)
            | RawForm::Rem(_, _)
            | RawForm::Lt(_, _)
            | RawForm::And(_, _)
            | RawForm::Or(_, _)
            | RawForm::Cat(_, _) => copy_binary(alloc, self),
            RawForm::Eq(_, _)
            | RawForm::Pair(_, _)
            | RawForm::Append(_, _)
            | RawForm::If(_, _, _)
            | RawForm::At(_, _, _) => copy_agreeing(alloc, self),
            RawForm::Let(name, a, b) => {
                let name = name.copy()?;
                let a = a.get().boxed(alloc)?;
                let b = b.get().boxed(alloc)?;
                Ok(raw_at(self.at, RawForm::Let(name, a, b)))
            }
            RawForm::List(items) => copy_list(alloc, self.at, items.as_slice()),
            RawForm::Nil(ty) => copy_nil(alloc, self.at, ty),
            RawForm::Close(f, kept) => copy_close(alloc, self.at, f, kept.as_slice()),
        }
    }

    /// A copy in a box.
    #[cycle(copy_raw)]
    pub fn boxed(&self, alloc: Global) -> Result<Boxed<Raw>, Memory>
        ensures { IfOk result (λ r. r ≡ self.now) }
    {
        let copy = self.copy(alloc)?;
        Boxed::new(alloc, copy)
    }
}

/// A written expression at its place.
fn raw_at(at: u64, form: RawForm) -> Raw
    ensures { result ≡ roll-Raw (record { at = at; form = form }) }
{
    Raw { at, form }
}

/// Written expressions equal to these, in order.
#[cycle(copy_raw)]
pub fn copy_raws(alloc: Global, raws: &[Raw]) -> Result<Seq<Raw>, Memory>
    ensures { IfOk result (λ rs. rs ≡ raws.now) }
{
    let mut all = Seq::new(alloc);
    for raw in raws {
        let copy = raw.copy(alloc)?;
        all.add(copy)?;
    }
    Ok(all)
}

/// A copy of a literal text.
fn copy_text(at: u64, text: &Text) -> Result<Raw, Memory>
    ensures { IfOk result (λ r. r ≡ roll-Raw (record { at = at; form = f.Text text.now })) }
{
    let text = text.copy()?;
    Ok(raw_at(at, RawForm::Text(text)))
}

/// A copy of a variable.
fn copy_name(at: u64, name: &Text) -> Result<Raw, Memory>
    ensures { IfOk result (λ r. r ≡ roll-Raw (record { at = at; form = f.Name name.now })) }
{
    let name = name.copy()?;
    Ok(raw_at(at, RawForm::Name(name)))
}

/// A copy of an empty list of a type.
fn copy_nil(alloc: Global, at: u64, ty: &RawTy) -> Result<Raw, Memory>
    ensures { IfOk result (λ r. r ≡ roll-Raw (record { at = at; form = f.Nil ty.now })) }
{
    let ty = ty.copy(alloc)?;
    Ok(raw_at(at, RawForm::Nil(ty)))
}

/// A copy of a list.
#[cycle(copy_raw)]
fn copy_list(alloc: Global, at: u64, items: &[Raw]) -> Result<Raw, Memory>
    ensures { IfOk result (λ r. r ≡ roll-Raw (record { at = at; form = f.List items.now })) }
{
    let items = copy_raws(alloc, items)?;
    Ok(raw_at(at, RawForm::List(items)))
}

/// A copy of a function value.
#[cycle(copy_raw)]
fn copy_close(alloc: Global, at: u64, fun: &Spot, kept: &[Raw]) -> Result<Raw, Memory>
    ensures { IfOk result (λ r. r ≡ roll-Raw (record { at = at; form = f.Close fun.now kept.now })) }
{
    let fun = fun.copy()?;
    let kept = copy_raws(alloc, kept)?;
    Ok(raw_at(at, RawForm::Close(fun, kept)))
}

/// A copy of an operator with one part.
#[cycle(copy_raw)]
fn copy_unary(alloc: Global, raw: &Raw) -> Result<Raw, Memory>
    requires { IsTrue (is_unary raw.now) }
    ensures { IfOk result (λ r. r ≡ raw.now) }
{
    match &raw.form {
        RawForm::Neg(a)
        | RawForm::Not(a)
        | RawForm::First(a)
        | RawForm::Second(a)
        | RawForm::Len(a)
        | RawForm::Show(a) => {
            let a = a.get().boxed(alloc)?;
            Ok(raw_at(raw.at, with_one(raw, a)))
        }
        _ => unreachable!(),
    }
}

/// A copy of an operator with two parts of one given type.
#[cycle(copy_raw)]
fn copy_binary(alloc: Global, raw: &Raw) -> Result<Raw, Memory>
    requires { IsTrue (is_binary raw.now) }
    ensures { IfOk result (λ r. r ≡ raw.now) }
{
    match &raw.form {
        RawForm::Add(a, b)
        | RawForm::Sub(a, b)
        | RawForm::Mul(a, b)
        | RawForm::Div(a, b)
        | RawForm::Rem(a, b)
        | RawForm::Lt(a, b)
        | RawForm::And(a, b)
        | RawForm::Or(a, b)
        | RawForm::Cat(a, b) => {
            let a = a.get().boxed(alloc)?;
            let b = b.get().boxed(alloc)?;
            Ok(raw_at(raw.at, with_two(raw, a, b)))
        }
        _ => unreachable!(),
    }
}

/// A copy of an operator with parts whose types follow from one another.
#[cycle(copy_raw)]
fn copy_agreeing(alloc: Global, raw: &Raw) -> Result<Raw, Memory>
    requires { IsTrue (is_agreeing raw.now) }
    ensures { IfOk result (λ r. r ≡ raw.now) }
{
    match &raw.form {
        RawForm::Eq(a, b) | RawForm::Pair(a, b) | RawForm::Append(a, b) => {
            let a = a.get().boxed(alloc)?;
            let b = b.get().boxed(alloc)?;
            Ok(raw_at(raw.at, with_two(raw, a, b)))
        }
        RawForm::If(a, b, c) | RawForm::At(a, b, c) => {
            let a = a.get().boxed(alloc)?;
            let b = b.get().boxed(alloc)?;
            let c = c.get().boxed(alloc)?;
            Ok(raw_at(raw.at, with_three(raw, a, b, c)))
        }
        _ => unreachable!(),
    }
}

/// The operator over this part.
fn with_one(raw: &Raw, a: Boxed<Raw>) -> RawForm
    ensures { result ≡ with_one raw.now a }
{
    match &raw.form {
        RawForm::Neg(_) => RawForm::Neg(a),
        RawForm::Not(_) => RawForm::Not(a),
        RawForm::First(_) => RawForm::First(a),
        RawForm::Second(_) => RawForm::Second(a),
        RawForm::Len(_) => RawForm::Len(a),
        _ => RawForm::Show(a),
    }
}

/// The operator over these parts.
fn with_two(raw: &Raw, a: Boxed<Raw>, b: Boxed<Raw>) -> RawForm
    ensures { result ≡ with_two raw.now a b }
{
    match &raw.form {
        RawForm::Add(_, _) => RawForm::Add(a, b),
        RawForm::Sub(_, _) => RawForm::Sub(a, b),
        RawForm::Mul(_, _) => RawForm::Mul(a, b),
        RawForm::Div(_, _) => RawForm::Div(a, b),
        RawForm::Rem(_, _) => RawForm::Rem(a, b),
        RawForm::Lt(_, _) => RawForm::Lt(a, b),
        RawForm::And(_, _) => RawForm::And(a, b),
        RawForm::Or(_, _) => RawForm::Or(a, b),
        RawForm::Cat(_, _) => RawForm::Cat(a, b),
        RawForm::Eq(_, _) => RawForm::Eq(a, b),
        RawForm::Pair(_, _) => RawForm::Pair(a, b),
        _ => RawForm::Append(a, b),
    }
}

/// The operator over these parts.
fn with_three(raw: &Raw, a: Boxed<Raw>, b: Boxed<Raw>, c: Boxed<Raw>) -> RawForm
    ensures { result ≡ with_three raw.now a b c }
{
    match &raw.form {
        RawForm::If(_, _, _) => RawForm::If(a, b, c),
        _ => RawForm::At(a, b, c),
    }
}
