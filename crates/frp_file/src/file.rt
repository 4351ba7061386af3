//! A file as it is read: a struct for each rule of the grammar, a variant for each alternative, and beside each name, type
//! and form the place of its first byte in the input, from 0.

ghost use Rattle.std.specs.Prelude.{◌≡◌, IfOk};

use crate::shape_copies::copy_form;
use frp_base::{Boxed, Memory, Seq};
use frp_expr::{Raw, RawTy, Spot};
use std::alloc::Global;

/// A file: its graph, its listens and its senders, in order.
#[derive(Drop)]
pub struct File {
    pub graph: Graph,
    pub listens: Seq<Listen>,
    pub senders: Seq<Sender>,
}

/// The graph of a file: its declarations, in order.
#[derive(Drop)]
pub struct Graph {
    pub at: u64,
    pub decls: Seq<Decl>,
}

/// A declaration of the graph.
#[derive(Drop)]
pub enum Decl {
    Template(Template),
    Function(Function),
    Item(Item),
}

/// A template: its name, its parameter, its kept names, the items of its body, and what an instance gives.
#[derive(Drop)]
pub struct Template {
    pub at: u64,
    pub name: Spot,
    pub param: Boxed<Param>,
    pub kept: Seq<Param>,
    pub items: Seq<Item>,
    pub give: Boxed<Give>,
}

/// A function: its name, its kept names, its argument, and its expression over them.
#[derive(Drop)]
pub struct Function {
    pub at: u64,
    pub name: Spot,
    pub kept: Seq<Param>,
    pub arg: Boxed<Param>,
    pub e: Boxed<Raw>,
}

/// A name with its type.
#[derive(Drop)]
pub struct Param {
    pub at: u64,
    pub name: Spot,
    pub ty: Boxed<RawTy>,
}

/// What an instance of a template gives.
#[derive(Drop)]
pub struct Give {
    pub at: u64,
    pub e: Boxed<Raw>,
}

/// An item of a body. That of the graph has no `Get`; that of a template has no `Sink` and no `Cellsink`.
#[derive(Drop)]
pub struct Item {
    pub at: u64,
    pub form: ItemForm,
}

/// What an item is: an input; an input with a cell of what was last sent to it, and of a value before; a node of a shape; a
/// loop that is tied; or the value of a cell as the template's instance is made.
#[derive(Drop)]
pub enum ItemForm {
    Sink {
        name: Spot,
        ty: Boxed<RawTy>,
    },
    Cellsink {
        sink: Spot,
        cell: Spot,
        ty: Boxed<RawTy>,
        first: Boxed<Raw>,
    },
    Let {
        name: Spot,
        shape: Boxed<RawShape>,
    },
    Tie {
        from: Spot,
        to: Spot,
    },
    Get {
        name: Spot,
        cell: Boxed<Raw>,
    },
}

/// A shape as it is written.
#[derive(Drop)]
pub struct RawShape {
    pub at: u64,
    pub form: ShapeForm,
}

/// What a written shape is. `x` and `y` are variables of the expression `e`; `s`, `a` and `b` are streams, `c`, `cf` and
/// `ca` cells, and `o` is a value. The last seven are derived forms, which stand for several items.
#[derive(Drop)]
pub enum ShapeForm {
    Never {
        ty: Boxed<RawTy>,
    },
    Constant {
        o: Boxed<Raw>,
    },
    Map {
        x: Spot,
        s: Boxed<Raw>,
        e: Boxed<Raw>,
    },
    Mapc {
        x: Spot,
        c: Boxed<Raw>,
        e: Boxed<Raw>,
    },
    Filter {
        x: Spot,
        s: Boxed<Raw>,
        e: Boxed<Raw>,
    },
    Merge {
        x: Spot,
        y: Spot,
        a: Boxed<Raw>,
        b: Boxed<Raw>,
        e: Boxed<Raw>,
    },
    Snapshot {
        x: Spot,
        y: Spot,
        s: Boxed<Raw>,
        c: Boxed<Raw>,
        e: Boxed<Raw>,
    },
    Split {
        s: Boxed<Raw>,
    },
    Updates {
        c: Boxed<Raw>,
    },
    Value {
        c: Boxed<Raw>,
    },
    Loops {
        ty: Boxed<RawTy>,
    },
    Loopc {
        ty: Boxed<RawTy>,
    },
    Hold {
        o: Boxed<Raw>,
        s: Boxed<Raw>,
    },
    Apply {
        cf: Boxed<Raw>,
        ca: Boxed<Raw>,
    },
    Switchs {
        c: Boxed<Raw>,
    },
    Switchc {
        c: Boxed<Raw>,
    },
    Execute {
        s: Boxed<Raw>,
        template: Spot,
        kept: Seq<Raw>,
    },
    Orelse {
        a: Boxed<Raw>,
        b: Boxed<Raw>,
    },
    Gate {
        s: Boxed<Raw>,
        c: Boxed<Raw>,
    },
    Once {
        s: Boxed<Raw>,
    },
    /// `x` is the occurrence and `y` the state.
    Accum {
        ty: Boxed<RawTy>,
        x: Spot,
        y: Spot,
        s: Boxed<Raw>,
        o: Boxed<Raw>,
        e: Boxed<Raw>,
    },
    /// `x` is the occurrence and `y` the state.
    Collect {
        ty: Boxed<RawTy>,
        x: Spot,
        y: Spot,
        s: Boxed<Raw>,
        o: Boxed<Raw>,
        e: Boxed<Raw>,
    },
    Lift2 {
        x: Boxed<Param>,
        y: Boxed<Param>,
        ca: Boxed<Raw>,
        cb: Boxed<Raw>,
        e: Boxed<Raw>,
    },
    Defer {
        s: Boxed<Raw>,
    },
}

/// A listen: the name of the node that a listener joins.
#[derive(Drop)]
pub struct Listen {
    pub at: u64,
    pub name: Spot,
}

/// A sender: its sends, in order.
#[derive(Drop)]
pub struct Sender {
    pub at: u64,
    pub sends: Seq<RawSend>,
}

/// A send of a value to a declared node.
#[derive(Drop)]
pub struct RawSend {
    pub at: u64,
    pub name: Spot,
    pub value: Boxed<Raw>,
}

impl Param {
    /// A parameter equal to this one, with its places.
    pub fn copy(&self, alloc: Global) -> Result<Param, Memory>
        ensures { IfOk result (λ p. p ≡ self.now) }
    {
        let name = self.name.copy()?;
        let ty = self.ty.get().boxed(alloc)?;
        Ok(Param {
            at: self.at,
            name,
            ty,
        })
    }

    /// A copy in a box.
    pub fn boxed(&self, alloc: Global) -> Result<Boxed<Param>, Memory>
        ensures { IfOk result (λ p. p ≡ self.now) }
    {
        let copy = self.copy(alloc)?;
        Boxed::new(alloc, copy)
    }
}

/// Parameters equal to these, in order.
pub fn copy_params(alloc: Global, params: &[Param]) -> Result<Seq<Param>, Memory>
    ensures { IfOk result (λ ps. ps ≡ params.now) }
{
    let mut all = Seq::new(alloc);
    for param in params {
        let copy = param.copy(alloc)?;
        all.add(copy)?;
    }
    Ok(all)
}

impl Function {
    /// A function equal to this one, with its places.
    pub fn copy(&self, alloc: Global) -> Result<Function, Memory>
        ensures { IfOk result (λ f. f ≡ self.now) }
    {
        let name = self.name.copy()?;
        let kept = copy_params(alloc, self.kept.as_slice())?;
        let arg = self.arg.get().boxed(alloc)?;
        let e = self.e.get().boxed(alloc)?;
        Ok(Function {
            at: self.at,
            name,
            kept,
            arg,
            e,
        })
    }
}

impl Give {
    /// A copy in a box, with its places.
    pub fn boxed(&self, alloc: Global) -> Result<Boxed<Give>, Memory>
        ensures { IfOk result (λ g. g ≡ self.now) }
    {
        let e = self.e.get().boxed(alloc)?;
        Boxed::new(alloc, Give { at: self.at, e })
    }
}

impl RawShape {
    /// A shape equal to this one, with its places.
    pub fn copy(&self, alloc: Global) -> Result<RawShape, Memory>
        ensures { IfOk result (λ s. s ≡ self.now) }
    {
        let form = copy_form(alloc, &self.form)?;
        Ok(RawShape { at: self.at, form })
    }

    /// A copy in a box.
    pub fn boxed(&self, alloc: Global) -> Result<Boxed<RawShape>, Memory>
        ensures { IfOk result (λ s. s ≡ self.now) }
    {
        let copy = self.copy(alloc)?;
        Boxed::new(alloc, copy)
    }
}

impl Listen {
    /// A listen equal to this one, with its places.
    pub fn copy(&self) -> Result<Listen, Memory>
        ensures { IfOk result (λ l. l ≡ self.now) }
    {
        let name = self.name.copy()?;
        Ok(Listen { at: self.at, name })
    }
}

/// Listens equal to these, in order.
pub fn copy_listens(alloc: Global, listens: &[Listen]) -> Result<Seq<Listen>, Memory>
    ensures { IfOk result (λ ls. ls ≡ listens.now) }
{
    let mut all = Seq::new(alloc);
    for listen in listens {
        let copy = listen.copy()?;
        all.add(copy)?;
    }
    Ok(all)
}

impl RawSend {
    /// A send equal to this one, with its places.
    pub fn copy(&self, alloc: Global) -> Result<RawSend, Memory>
        ensures { IfOk result (λ s. s ≡ self.now) }
    {
        let name = self.name.copy()?;
        let value = self.value.get().boxed(alloc)?;
        Ok(RawSend {
            at: self.at,
            name,
            value,
        })
    }
}

/// Sends equal to these, in order.
pub fn copy_sends(alloc: Global, sends: &[RawSend]) -> Result<Seq<RawSend>, Memory>
    ensures { IfOk result (λ ss. ss ≡ sends.now) }
{
    let mut all = Seq::new(alloc);
    for send in sends {
        let copy = send.copy(alloc)?;
        all.add(copy)?;
    }
    Ok(all)
}

impl Sender {
    /// A sender equal to this one, with its places.
    pub fn copy(&self, alloc: Global) -> Result<Sender, Memory>
        ensures { IfOk result (λ s. s ≡ self.now) }
    {
        let sends = copy_sends(alloc, self.sends.as_slice())?;
        Ok(Sender { at: self.at, sends })
    }
}

/// Senders equal to these, in order.
pub fn copy_senders(alloc: Global, senders: &[Sender]) -> Result<Seq<Sender>, Memory>
    ensures { IfOk result (λ ss. ss ≡ senders.now) }
{
    let mut all = Seq::new(alloc);
    for sender in senders {
        let copy = sender.copy(alloc)?;
        all.add(copy)?;
    }
    Ok(all)
}
