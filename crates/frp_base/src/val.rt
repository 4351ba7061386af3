ghost use Rattle.std.specs.Prelude.{◌≡◌, ◌↔◌, [], ◌∷◌, ◌++◌, IsTrue, map, codes, encode_utf8, IfOk, OnOk, OnErr};
ghost use Rattle.std.specs.Fmt.{decimal};
ghost use Rattle.frp_base.specs.Name.{name_text};
ghost use Rattle.frp_base.specs.Val.{items_eq, val_eq, val_text, spaced, mark, escaped};

use crate::boxed::Boxed;
use crate::memory::Memory;
use crate::name::Name;
use crate::seq::Seq;
use crate::text::Text;
use std::alloc::Global;

/// A value. `Stream` and `Cell` are references to a node, and `Fun` is a function value: the number of a declared
/// function, from 0, and its kept values. `Absent` and `Present` are the optional values: none, and one that is there.
#[derive(Drop, PartialEq)]
pub enum Val {
    Int(i64),
    Bool(bool),
    Text(Text),
    Pair(Boxed<Val>, Boxed<Val>),
    List(Seq<Val>),
    Stream(Name),
    Cell(Name),
    Fun(u32, Seq<Val>),
    Absent,
    Present(Boxed<Val>),
}

impl Val {
    /// A value equal to this one.
    #[cycle(copy)]
    pub fn copy(&self, alloc: Global) -> Result<Val, Memory>
        ensures { IfOk result (λ v. v ≡ self.now) }
    {
        match self {
            Val::Int(n) => Ok(Val::Int(*n)),
            Val::Bool(b) => Ok(Val::Bool(*b)),
            Val::Text(t) => Ok(Val::Text(t.copy()?)),
            Val::Pair(x, y) => {
                let x = Boxed::new(alloc, x.get().copy(alloc)?)?;
                let y = Boxed::new(alloc, y.get().copy(alloc)?)?;
                Ok(Val::Pair(x, y))
            }
            Val::List(items) => Ok(Val::List(copy_all(alloc, items.as_slice())?)),
            Val::Stream(n) => Ok(Val::Stream(n.copy()?)),
            Val::Cell(n) => Ok(Val::Cell(n.copy()?)),
            Val::Fun(f, kept) => Ok(Val::Fun(*f, copy_all(alloc, kept.as_slice())?)),
            Val::Absent => Ok(Val::Absent),
            Val::Present(x) => Ok(Val::Present(Boxed::new(alloc, x.get().copy(alloc)?)?)),
        }
    }

    /// Whether two values are one. It takes no memory.
    pub fn is(&self, other: &Val) -> bool
        ensures same { IsTrue result ↔ (self.now ≡ other.now) }
        ensures test { result ≡ val_eq self.now other.now }
    {
        self.same(other)
    }

    #[cycle(same)]
    fn same(&self, other: &Val) -> bool
        ensures { result ≡ val_eq self.now other.now }
    {
        match self {
            Val::Int(a) => matches!(other, Val::Int(b) if a == b),
            Val::Bool(a) => matches!(other, Val::Bool(b) if a == b),
            Val::Text(a) => matches!(other, Val::Text(b) if a == b),
            Val::Pair(a, b) =>
                matches!(other, Val::Pair(c, d) if a.get().same(c.get()) && b.get().same(d.get())),
            Val::List(a) => matches!(other, Val::List(b) if all_are(a.as_slice(), b.as_slice())),
            Val::Stream(a) => matches!(other, Val::Stream(b) if a.is(b)),
            Val::Cell(a) => matches!(other, Val::Cell(b) if a.is(b)),
            Val::Fun(f, a) =>
                matches!(other, Val::Fun(g, b) if f == g && all_are(a.as_slice(), b.as_slice())),
            Val::Absent => matches!(other, Val::Absent),
            Val::Present(a) => matches!(other, Val::Present(b) if a.get().same(b.get())),
        }
    }

    /// Appends the text of the value, as `-3`, `true`, `"a\"b"`, `(pair 1 2)`, `(list 1 2)`, `(stream #1)`, `(cell #2)`,
    /// `(fun 0 7)`, `none` and `(some 3)`. Where memory is wanting, the text is as before.
    pub fn show(&self, alloc: Global, out: &mut Text) -> Result<(), Memory>
        ensures ok { OnOk result (out.new ≡ out.old ++ val_text self.now) }
        ensures err { OnErr result (out.new ≡ out.old) }
    {
        let mut text = Text::new(alloc);
        self.write(alloc, &mut text)?;
        out.push_str(text.as_str())
    }

    /// Appends the text, piece by piece.
    #[cycle(write)]
    fn write(&self, alloc: Global, out: &mut Text) -> Result<(), Memory>
        ensures { OnOk result (out.new ≡ out.old ++ val_text self.now) }
    {
        match self {
            Val::Int(n) => out.push_str(n.to_string(alloc)?.as_str()),
            Val::Bool(b) => out.push_str(if *b { "true" } else { "false" }),
            Val::Text(t) => show_text(t, out),
            Val::Pair(x, y) => {
                out.push_str("(pair ")?;
                x.get().write(alloc, out)?;
                out.push_str(" ")?;
                y.get().write(alloc, out)?;
                out.push_str(")")
            }
            Val::List(items) => write_list(alloc, items.as_slice(), out),
            Val::Stream(n) => write_reference("(stream ", n, out),
            Val::Cell(n) => write_reference("(cell ", n, out),
            Val::Fun(f, kept) => write_fun(alloc, *f, kept.as_slice(), out),
            Val::Absent => out.push_str("none"),
            Val::Present(x) => {
                out.push_str("(some ")?;
                x.get().write(alloc, out)?;
                out.push_str(")")
            }
        }
    }
}

/// Appends the text of a list of the items.
#[cycle(write)]
fn write_list(alloc: Global, items: &[Val], out: &mut Text) -> Result<(), Memory>
    ensures { OnOk result (out.new ≡ out.old ++ codes "(list" ++ spaced (map val_text items.now) ++ codes ")") }
{
    out.push_str("(list")?;
    show_all(alloc, items, out)?;
    out.push_str(")")
}

/// Appends the text of a reference to a node: the head with its blank, and the node's name.
fn write_reference(head: &str, name: &Name, out: &mut Text) -> Result<(), Memory>
    ensures { OnOk result (out.new ≡ out.old ++ head.now ++ name_text name.now ++ codes ")") }
{
    out.push_str(head)?;
    name.write(out)?;
    out.push_str(")")
}

/// Appends the text of a function value: the function's number and its kept values.
#[cycle(write)]
fn write_fun(alloc: Global, f: u32, kept: &[Val], out: &mut Text) -> Result<(), Memory>
    ensures { OnOk result (out.new ≡ out.old ++ codes "(fun " ++ decimal f ++ spaced (map val_text kept.now) ++ codes ")") }
{
    out.push_str("(fun ")?;
    out.push_str(f.to_string(alloc)?.as_str())?;
    show_all(alloc, kept, out)?;
    out.push_str(")")
}

/// Whether two lists of values are one.
#[cycle(same)]
fn all_are(values: &[Val], others: &[Val]) -> bool
    ensures { result ≡ items_eq (map val_eq values.now) others.now }
{
    if values.len() != others.len() {
        return false;
    }
    for (i, value) in values.iter().enumerate() {
        if !value.same(&others[i]) {
            return false;
        }
    }
    true
}

/// Copies of all the values, in order.
#[cycle(copy)]
fn copy_all(alloc: Global, values: &[Val]) -> Result<Seq<Val>, Memory>
    ensures { IfOk result (λ s. s ≡ values.now) }
{
    let mut copies = Seq::new(alloc);
    for value in values {
        copies.add(value.copy(alloc)?)?;
    }
    Ok(copies)
}

/// Appends the values' texts, each with a space before it.
#[cycle(write)]
fn show_all(alloc: Global, values: &[Val], out: &mut Text) -> Result<(), Memory>
    ensures { OnOk result (out.new ≡ out.old ++ spaced (map val_text values.now)) }
{
    for value in values {
        out.push_str(" ")?;
        value.write(alloc, out)?;
    }
    Ok(())
}

/// Appends the text in quotes, with a backslash before each quote and each backslash in it.
fn show_text(text: &Text, out: &mut Text) -> Result<(), Memory>
    ensures { OnOk result (out.new ≡ out.old ++ 34 ∷ escaped text.now ++ 34 ∷ []) }
{
    out.push_str("\"")?;
    for c in text.as_str().chars() {
        show_char(c, out)?;
    }
    out.push_str("\"")
}

/// Appends a character, with a backslash before it where it is a quote or a backslash.
fn show_char(c: char, out: &mut Text) -> Result<(), Memory>
    ensures { OnOk result (out.new ≡ out.old ++ (mark c ++ encode_utf8 c)) }
{
    if c == '"' || c == '\\' {
        out.push_str("\\")?;
    }
    out.push(c)
}
