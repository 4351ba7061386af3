ghost use Rattle.std.specs.Prelude.{◌≡◌, ◌↔◌, ◌++◌, IsTrue, IfOk, OnOk, OnErr};
ghost use Rattle.frp_base.specs.Ty.{ty_eq, ty_text};

use crate::boxed::Boxed;
use crate::memory::Memory;
use crate::text::Text;
use std::alloc::Global;

/// A type of values. `Pair`, `List` and `Fun` hold the types of their parts, `Stream` and `Cell` that of what they carry, and
/// `Option` that of a value that may be absent.
#[derive(Drop, PartialEq)]
pub enum Ty {
    Int,
    Bool,
    Text,
    Pair(Boxed<Ty>, Boxed<Ty>),
    List(Boxed<Ty>),
    Stream(Boxed<Ty>),
    Cell(Boxed<Ty>),
    Fun(Boxed<Ty>, Boxed<Ty>),
    Option(Boxed<Ty>),
}

impl Ty {
    /// A type equal to this one.
    pub fn copy(&self, alloc: Global) -> Result<Ty, Memory>
        ensures { IfOk result (λ t. t ≡ self.now) }
    {
        match self {
            Ty::Int => Ok(Ty::Int),
            Ty::Bool => Ok(Ty::Bool),
            Ty::Text => Ok(Ty::Text),
            Ty::Pair(x, y) => {
                let x = Boxed::new(alloc, x.get().copy(alloc)?)?;
                let y = Boxed::new(alloc, y.get().copy(alloc)?)?;
                Ok(Ty::Pair(x, y))
            }
            Ty::List(item) => Ok(Ty::List(Boxed::new(alloc, item.get().copy(alloc)?)?)),
            Ty::Stream(item) => Ok(Ty::Stream(Boxed::new(alloc, item.get().copy(alloc)?)?)),
            Ty::Cell(item) => Ok(Ty::Cell(Boxed::new(alloc, item.get().copy(alloc)?)?)),
            Ty::Fun(from, to) => {
                let from = Boxed::new(alloc, from.get().copy(alloc)?)?;
                let to = Boxed::new(alloc, to.get().copy(alloc)?)?;
                Ok(Ty::Fun(from, to))
            }
            Ty::Option(item) => Ok(Ty::Option(Boxed::new(alloc, item.get().copy(alloc)?)?)),
        }
    }

    /// Whether two types are one. It takes no memory.
    pub fn is(&self, other: &Ty) -> bool
        ensures same { IsTrue result ↔ (self.now ≡ other.now) }
        ensures test { result ≡ ty_eq self.now other.now }
    {
        self.same(other)
    }

    fn same(&self, other: &Ty) -> bool
        ensures { result ≡ ty_eq self.now other.now }
    {
        match self {
            Ty::Int => matches!(other, Ty::Int),
            Ty::Bool => matches!(other, Ty::Bool),
            Ty::Text => matches!(other, Ty::Text),
            Ty::Pair(a, b) =>
                matches!(other, Ty::Pair(c, d) if a.get().same(c.get()) && b.get().same(d.get())),
            Ty::List(a) => matches!(other, Ty::List(b) if a.get().same(b.get())),
            Ty::Stream(a) => matches!(other, Ty::Stream(b) if a.get().same(b.get())),
            Ty::Cell(a) => matches!(other, Ty::Cell(b) if a.get().same(b.get())),
            Ty::Fun(a, b) =>
                matches!(other, Ty::Fun(c, d) if a.get().same(c.get()) && b.get().same(d.get())),
            Ty::Option(a) => matches!(other, Ty::Option(b) if a.get().same(b.get())),
        }
    }

    /// Appends the text of the type, as `Int`, `Bool`, `Text`, `(Pair Int Bool)`, `(List Int)`, `(Stream Int)`,
    /// `(Cell Int)`, `(Fun Int Bool)` and `(Option Int)`. Where memory is wanting, the text is as before.
    pub fn show(&self, alloc: Global, out: &mut Text) -> Result<(), Memory>
        ensures ok { OnOk result (out.new ≡ out.old ++ ty_text self.now) }
        ensures err { OnErr result (out.new ≡ out.old) }
    {
        let mut text = Text::new(alloc);
        self.write(alloc, &mut text)?;
        out.push_str(text.as_str())
    }

    /// Appends the text, piece by piece.
    fn write(&self, alloc: Global, out: &mut Text) -> Result<(), Memory>
        ensures { OnOk result (out.new ≡ out.old ++ ty_text self.now) }
    {
        match self {
            Ty::Int => out.push_str("Int"),
            Ty::Bool => out.push_str("Bool"),
            Ty::Text => out.push_str("Text"),
            Ty::Pair(x, y) => {
                out.push_str("(Pair ")?;
                x.get().write(alloc, out)?;
                out.push_str(" ")?;
                y.get().write(alloc, out)?;
                out.push_str(")")
            }
            Ty::List(item) => {
                out.push_str("(List ")?;
                item.get().write(alloc, out)?;
                out.push_str(")")
            }
            Ty::Stream(item) => {
                out.push_str("(Stream ")?;
                item.get().write(alloc, out)?;
                out.push_str(")")
            }
            Ty::Cell(item) => {
                out.push_str("(Cell ")?;
                item.get().write(alloc, out)?;
                out.push_str(")")
            }
            Ty::Fun(from, to) => {
                out.push_str("(Fun ")?;
                from.get().write(alloc, out)?;
                out.push_str(" ")?;
                to.get().write(alloc, out)?;
                out.push_str(")")
            }
            Ty::Option(item) => {
                out.push_str("(Option ")?;
                item.get().write(alloc, out)?;
                out.push_str(")")
            }
        }
    }
}
