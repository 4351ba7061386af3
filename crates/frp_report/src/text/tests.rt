use super::*;
use frp_base::{Name, Seq, Time, Ty};
use frp_graph::Lam;
use frp_history::Key;
use std::test::Fail;

fn born(alloc: Global, item: u64, shape: Shape, first: Option<Val>) -> Result<Node, Memory> {
    Ok(Node {
        name: Name::declared(alloc, item)?,
        shape,
        ty: Ty::Int,
        first,
    })
}

fn fact(alloc: Global, item: u64, n: i64) -> Result<Fact, Memory> {
    Ok(Fact {
        node: Name::declared(alloc, item)?,
        value: Val::Int(n),
    })
}

fn given(alloc: Global, k: u64, n: i64) -> Delivered {
    Delivered {
        time: Time::top(alloc, k),
        value: Val::Int(n),
    }
}

fn empty_moment(alloc: Global, k: u64) -> Moment {
    Moment {
        time: Time::top(alloc, k),
        born: Seq::new(alloc),
        fired: Seq::new(alloc),
    }
}

/// A map of item 0 by expression 0.
fn map_of_first(alloc: Global) -> Result<Shape, Memory> {
    Ok(Shape::Map {
        f: Lam {
            code: 0,
            kept: Seq::new(alloc),
        },
        s: Name::declared(alloc, 0)?,
    })
}

/// Caller 0 joins item 1, caller 1 sends 4 to item 0, and caller 0 leaves with one item.
fn three_entries(alloc: Global) -> Result<Seq<Entry>, Memory> {
    let key = Key { slot: 0, place: 1 };
    let mut items = Seq::new(alloc);
    items.add(given(alloc, 2, 5))?;
    let mut entries = Seq::new(alloc);
    entries.add(Entry {
        caller: 0,
        cmd: Cmd::Join {
            node: Name::declared(alloc, 1)?,
        },
        reply: Reply::Joined(key),
    })?;
    entries.add(Entry {
        caller: 1,
        cmd: Cmd::Send {
            sink: Name::declared(alloc, 0)?,
            value: Val::Int(4),
        },
        reply: Reply::Accepted { moments: 1 },
    })?;
    entries.add(Entry {
        caller: 0,
        cmd: Cmd::Leave { key },
        reply: Reply::Left(items),
    })?;
    Ok(entries)
}

/// A sink and a map that are born, and then both fire.
fn two_moments(alloc: Global) -> Result<Seq<Moment>, Memory> {
    let mut first = empty_moment(alloc, 0);
    first.born.add(born(alloc, 0, Shape::Sink, None)?)?;
    first.born.add(born(alloc, 1, map_of_first(alloc)?, None)?)?;
    let mut second = empty_moment(alloc, 2);
    second.fired.add(fact(alloc, 0, 4)?)?;
    second.fired.add(fact(alloc, 1, 5)?)?;
    let mut trace = Seq::new(alloc);
    trace.add(first)?;
    trace.add(second)?;
    Ok(trace)
}

#[test]
fn reports_a_run(rt: HostRuntime) -> Result<(), Fail> {
    let entries = three_entries(rt.alloc())?;
    let trace = two_moments(rt.alloc())?;
    let text = report(rt.alloc(), entries.as_slice(), trace.as_slice())?;
    let wanted = "1 0 join #1 key 1
2 1 send #0 4 accepted 1
3 0 leave 1 gave 1
  [2] 5
at [0] born 2 fired 0
  + #0 sink
  + #1 map
at [2] born 0 fired 2
  #0 4
  #1 5
end 3
";
    assert_eq!(rt; text.as_str(), wanted);
    Ok(())
}

#[test]
fn reports_an_empty_history(rt: HostRuntime) -> Result<(), Fail> {
    let mut trace = Seq::new(rt.alloc());
    trace.add(empty_moment(rt.alloc(), 0))?;
    let text = report(rt.alloc(), &[], trace.as_slice())?;
    assert_eq!(rt; text.as_str(), "at [0] born 0 fired 0\nend 0\n");
    Ok(())
}

#[test]
fn reports_first_values_and_items(rt: HostRuntime) -> Result<(), Fail> {
    let alloc = rt.alloc();
    let mut items = Seq::new(alloc);
    items.add(given(alloc, 2, -3))?;
    items.add(given(alloc, 4, 10))?;
    let mut entries = Seq::new(alloc);
    entries.add(Entry {
        caller: 7,
        cmd: Cmd::Leave {
            key: Key { slot: 3, place: 12 },
        },
        reply: Reply::Left(items),
    })?;
    let mut moment = empty_moment(alloc, 0);
    let hold = Shape::Hold {
        s: Name::declared(alloc, 0)?,
    };
    moment.born.add(born(alloc, 2, hold, Some(Val::Int(7)))?)?;
    moment.fired.add(fact(alloc, 2, -1)?)?;
    let mut trace = Seq::new(alloc);
    trace.add(moment)?;
    let text = report(alloc, entries.as_slice(), trace.as_slice())?;
    let wanted = "1 7 leave 12 gave 2
  [2] -3
  [4] 10
at [0] born 1 fired 1
  + #2 hold 7
  #2 -1
end 1
";
    assert_eq!(rt; text.as_str(), wanted);
    Ok(())
}
