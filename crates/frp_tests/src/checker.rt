use frp_base::{Boxed, Memory, Seq, Text};
use frp_expr::{Raw, RawForm, RawTy, Spot, TyForm, TypeFault, TypeKind};
use frp_file::{Decl, File, Graph, Item, ItemForm, Listen, RawShape, ShapeForm};
use frp_type::{CheckStop, check, faultless_is_typed, is_core};
use std::alloc::Global;

fn spot(alloc: Global, at: u64, text: &str) -> Result<Spot, Memory> {
    let mut copy = Text::new(alloc);
    copy.push_str(text)?;
    Ok(Spot { at, text: copy })
}

fn raw(alloc: Global, at: u64, form: RawForm) -> Result<Boxed<Raw>, Memory> {
    Boxed::new(alloc, Raw { at, form })
}

fn name(alloc: Global, at: u64, text: &str) -> Result<Boxed<Raw>, Memory> {
    raw(alloc, at, RawForm::Name(spot(alloc, at, text)?.text))
}

/// `(sink a TYPE)`.
fn sink(alloc: Global, ty: TyForm) -> Result<Item, Memory> {
    let ty = Boxed::new(alloc, RawTy { at: 15, form: ty })?;
    let name = spot(alloc, 13, "a")?;
    let form = ItemForm::Sink { name, ty };
    Ok(Item { at: 7, form })
}

/// `(add x 1)`.
fn sum(alloc: Global) -> Result<Boxed<Raw>, Memory> {
    let x = name(alloc, 42, "x")?;
    let one = raw(alloc, 44, RawForm::Int(1))?;
    raw(alloc, 37, RawForm::Add(x, one))
}

/// `(map x a (add x 1))`.
fn map(alloc: Global) -> Result<Boxed<RawShape>, Memory> {
    let x = spot(alloc, 33, "x")?;
    let s = name(alloc, 35, "a")?;
    let e = sum(alloc)?;
    let form = ShapeForm::Map { x, s, e };
    Boxed::new(alloc, RawShape { at: 28, form })
}

/// `(let b (map x a (add x 1)))`.
fn bound(alloc: Global) -> Result<Item, Memory> {
    let name = spot(alloc, 26, "b")?;
    let shape = map(alloc)?;
    let form = ItemForm::Let { name, shape };
    Ok(Item { at: 21, form })
}

/// Both items, in order.
fn items(alloc: Global, ty: TyForm) -> Result<Seq<Decl>, Memory> {
    let mut decls = Seq::new(alloc);
    decls.add(Decl::Item(sink(alloc, ty)?))?;
    decls.add(Decl::Item(bound(alloc)?))?;
    Ok(decls)
}

/// `(listen NAME)`.
fn listens(alloc: Global, listened: &str) -> Result<Seq<Listen>, Memory> {
    let name = spot(alloc, 58, listened)?;
    let mut listens = Seq::new(alloc);
    listens.add(Listen { at: 50, name })?;
    Ok(listens)
}

/// `(graph (sink a TYPE) (let b (map x a (add x 1))))`, with a type at place 15 of as many letters as `Bool`, and a listen.
fn file(alloc: Global, ty: TyForm, listened: &str) -> Result<File, Memory> {
    let decls = items(alloc, ty)?;
    let listens = listens(alloc, listened)?;
    Ok(File {
        graph: Graph { at: 0, decls },
        listens,
        senders: Seq::new(alloc),
    })
}

fn fault(place: u64, kind: TypeKind) -> CheckStop {
    CheckStop::Fault(TypeFault { place, kind })
}

/// Why a file is no program; none where it is one, or is not for the checker.
fn stop_of(alloc: Global, file: &File) -> Option<CheckStop> {
    if is_core(file) {
        check(alloc, file).err()
    } else {
        None
    }
}

#[test]
fn checks_a_map(rt: HostRuntime) -> Result<(), Memory> {
    let alloc = rt.alloc();
    let right = file(alloc, TyForm::Int, "b")?;
    assert!(rt; is_core(&right));
    assert!(rt; stop_of(alloc, &right).is_none());
    let wrong = file(alloc, TyForm::Bool, "b")?;
    assert!(rt; stop_of(alloc, &wrong) == Some(fault(42, TypeKind::Type)));
    let unknown = file(alloc, TyForm::Int, "c")?;
    assert!(rt; stop_of(alloc, &unknown) == Some(fault(58, TypeKind::Unknown)));
    faultless_is_typed();
    Ok(())
}
