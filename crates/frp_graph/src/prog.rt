use frp_base::{Boxed, Seq, Ty};
use frp_expr::Expr;

/// A declared function: the types of its kept values, of its argument and of its result, and its expression over the
/// kept values followed by the argument.
#[derive(Drop)]
pub struct FunDef {
    pub kept: Seq<Ty>,
    pub arg: Ty,
    pub result: Ty,
    pub e: Expr,
}

/// A program: its expressions, its functions and its templates, each by number from 0, the body of its file, and the
/// combining expressions of its sinks.
#[derive(Drop)]
pub struct Prog {
    pub codes: Seq<Expr>,
    pub funs: Seq<FunDef>,
    pub templates: Seq<Body>,
    pub body: Body,
    pub joins: Seq<Joint>,
}

/// The combining expression of a sink of the file: `item` is the number of the sink's item, from 0, and `code` that of the
/// expression, which is over the earlier value and the later one. It makes one value of several that are sent at one time.
#[derive(Drop)]
pub struct Joint {
    pub item: u64,
    pub code: u32,
}

/// The body of a template, or of the file, which has no parameter, no kept values and gives nothing. Its expressions are
/// over its values: the parameter, the kept values, and then for each line its node's reference or the value got.
#[derive(Drop)]
pub struct Body {
    pub param: Option<Ty>,
    pub kept: Seq<Ty>,
    pub lines: Seq<Line3>,
    pub give: Option<Expr>,
}

/// A line of a body: it makes a node of this type and shape, or gets the value of a cell.
#[derive(Drop)]
pub enum Line3 {
    Node { ty: Ty, shape: LineShape },
    Get { c: Boxed<Expr> },
}

/// An expression of the program, by its number from 0, over these values of the body, by their positions from 0, followed
/// by its arguments.
#[derive(Drop)]
pub struct LineLam {
    pub code: u32,
    pub kept: Seq<u64>,
}

/// The shape of the node that a line makes, with its operands: a variant for each of `Shape`. `to` is the position, in all
/// the values of the body, of the node that a loop is tied to.
#[derive(Drop)]
pub enum LineShape {
    Sink,
    Never,
    Constant {
        o: Boxed<Expr>,
    },
    Map {
        f: LineLam,
        s: Boxed<Expr>,
    },
    Filter {
        f: LineLam,
        s: Boxed<Expr>,
    },
    Filteropt {
        s: Boxed<Expr>,
    },
    Merge {
        f: LineLam,
        a: Boxed<Expr>,
        b: Boxed<Expr>,
    },
    Snapshot {
        f: LineLam,
        s: Boxed<Expr>,
        c: Boxed<Expr>,
    },
    Split {
        s: Boxed<Expr>,
    },
    Updates {
        c: Boxed<Expr>,
    },
    Value {
        c: Boxed<Expr>,
    },
    Loop {
        to: u64,
    },
    Hold {
        o: Boxed<Expr>,
        s: Boxed<Expr>,
    },
    Mapc {
        f: LineLam,
        c: Boxed<Expr>,
    },
    Apply {
        cf: Boxed<Expr>,
        ca: Boxed<Expr>,
    },
    Switchs {
        c: Boxed<Expr>,
    },
    Switchc {
        c: Boxed<Expr>,
    },
    Execute {
        s: Boxed<Expr>,
        template: u32,
        kept: Seq<Expr>,
    },
}
