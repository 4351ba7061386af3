use crate::shown::{answers, leads};
use frp_fixture::{Called, Given, Kind, Line};
use frp_graph::Phase;
use std::test::Fail;

const A: Called = Called::Declared(0);

const B: Called = Called::Declared(1);

const C: Called = Called::Declared(2);

const D: Called = Called::Declared(3);

const E: Called = Called::Declared(4);

const F: Called = Called::Declared(5);

const G: Called = Called::Declared(6);

const H: Called = Called::Declared(7);

const I: Called = Called::Declared(8);

const J: Called = Called::Declared(9);

/// What the first node makes at `[1]`.
const MADE: Called = Called::Made {
    by: 0,
    at: 1,
    item: 0,
};

const OTHER: Called = Called::Made {
    by: 0,
    at: 1,
    item: 1,
};

/// A sink, a loop to a map of a merge, the merge of both, and the map.
const MERGED: [Line; 4] = [
    Line::Stream(A, Kind::Sink),
    Line::Stream(B, Kind::Loop(D)),
    Line::Stream(C, Kind::Merge(A, B)),
    Line::Stream(D, Kind::Map(C)),
];

/// A total goes through a loop, and is read by a snapshot.
const TOTAL: [Line; 4] = [
    Line::Stream(A, Kind::Sink),
    Line::Cell(B, Kind::Loop(D), Some(Given::Int(0))),
    Line::Stream(C, Kind::Snapshot(A, B)),
    Line::Cell(D, Kind::Hold(C), Some(Given::Int(0))),
];

/// A switch of cells that is sent a cell which depends on it.
const CELLS: [Line; 8] = [
    Line::Stream(A, Kind::Sink),
    Line::Cell(B, Kind::Constant, Some(Given::Int(7))),
    Line::Cell(C, Kind::Hold(A), Some(Given::Cell(B))),
    Line::Cell(D, Kind::Switchc(C), Some(Given::Int(7))),
    Line::Cell(E, Kind::Mapc(D), Some(Given::Int(8))),
    Line::Next(2),
    Line::Occur(0, Given::Cell(E)),
    Line::Occur(2, Given::Cell(E)),
];

/// A switch of streams that is sent a stream which depends on it.
const STREAMS: [Line; 8] = [
    Line::Stream(A, Kind::Sink),
    Line::Stream(B, Kind::Sink),
    Line::Cell(C, Kind::Hold(A), Some(Given::Stream(B))),
    Line::Stream(D, Kind::Switchs(C)),
    Line::Stream(E, Kind::Map(D)),
    Line::Next(3),
    Line::Occur(0, Given::Stream(E)),
    Line::Occur(2, Given::Stream(E)),
];

/// A switch of cells that would begin with its own first value.
const SWITCHED: [Line; 4] = [
    Line::Stream(A, Kind::Sink),
    Line::Cell(B, Kind::Loop(D), None),
    Line::Cell(C, Kind::Constant, Some(Given::Cell(B))),
    Line::Cell(D, Kind::Switchc(C), None),
];

/// A mapped cell that would begin with its own first value, and the next moment.
const MAPPED: [Line; 4] = [
    Line::Stream(A, Kind::Sink),
    Line::Cell(B, Kind::Loop(C), None),
    Line::Cell(C, Kind::Mapc(B), None),
    Line::Next(1),
];

/// Two switches of cells. At `[3]` the first, #4, turns to the second, #9, whose old inner cell depends on the first, and which
/// turns to the constant; at `[4]` the first turns to a cell that depends on it.
const TWO: [Line; 23] = [
    Line::Stream(A, Kind::Sink),
    Line::Cell(B, Kind::Constant, Some(Given::Int(7))),
    Line::Stream(C, Kind::Map(A)),
    Line::Cell(D, Kind::Hold(C), Some(Given::Cell(B))),
    Line::Cell(E, Kind::Switchc(D), Some(Given::Int(7))),
    Line::Cell(F, Kind::Mapc(E), Some(Given::Int(8))),
    Line::Stream(G, Kind::Map(A)),
    Line::Stream(H, Kind::Map(G)),
    Line::Cell(I, Kind::Hold(H), Some(Given::Cell(F))),
    Line::Cell(J, Kind::Switchc(I), Some(Given::Int(8))),
    Line::Next(3),
    Line::Occur(2, Given::Cell(J)),
    Line::Occur(3, Given::Cell(J)),
    Line::Occur(7, Given::Cell(B)),
    Line::Occur(8, Given::Cell(B)),
    Line::Occur(4, Given::Int(7)),
    Line::Occur(5, Given::Int(8)),
    Line::Occur(9, Given::Int(7)),
    Line::Next(4),
    Line::Occur(2, Given::Cell(F)),
    Line::Occur(3, Given::Cell(F)),
    Line::Occur(7, Given::Cell(B)),
    Line::Occur(8, Given::Cell(B)),
];

/// Two maps of each other, and before them a map of the second.
const LED: [Line; 3] = [
    Line::Stream(A, Kind::Map(C)),
    Line::Stream(B, Kind::Map(C)),
    Line::Stream(C, Kind::Map(B)),
];

/// A map of what it makes itself, and two cells that are made and begin with each other's first value.
const BORN: [Line; 5] = [
    Line::Stream(A, Kind::Map(MADE)),
    Line::Next(1),
    Line::Cell(MADE, Kind::Loop(OTHER), None),
    Line::Cell(OTHER, Kind::Mapc(MADE), None),
    Line::Next(2),
];

/// The links of streams go round at any moment, and no cell is born.
#[test]
fn a_loop_of_streams_is_a_chain(rt: HostRuntime) -> Result<(), Fail> {
    assert!(rt; answers(rt.alloc(), &MERGED, Phase::During, " #1 #3 #2")?);
    assert!(rt; answers(rt.alloc(), &MERGED, Phase::After, " #1 #3 #2")?);
    assert!(rt; answers(rt.alloc(), &MERGED, Phase::Birth, "none")?);
    Ok(())
}

/// The cell of a snapshot is no link.
#[test]
fn a_total_is_no_chain(rt: HostRuntime) -> Result<(), Fail> {
    assert!(rt; answers(rt.alloc(), &TOTAL, Phase::During, "none")?);
    assert!(rt; answers(rt.alloc(), &TOTAL, Phase::After, "none")?);
    assert!(rt; answers(rt.alloc(), &TOTAL, Phase::Birth, "none")?);
    Ok(())
}

/// A switch of cells follows the new cell at once.
#[test]
fn a_cell_switch_follows_itself(rt: HostRuntime) -> Result<(), Fail> {
    assert!(rt; answers(rt.alloc(), &CELLS[..6], Phase::During, "none")?);
    assert!(rt; answers(rt.alloc(), &CELLS, Phase::During, " #3 #4")?);
    assert!(rt; answers(rt.alloc(), &CELLS, Phase::Birth, "none")?);
    Ok(())
}

/// A switch of streams follows the new stream only after the time.
#[test]
fn a_stream_switch_follows_itself_after(rt: HostRuntime) -> Result<(), Fail> {
    assert!(rt; answers(rt.alloc(), &STREAMS, Phase::During, "none")?);
    assert!(rt; answers(rt.alloc(), &STREAMS, Phase::After, " #3 #4")?);
    assert!(rt; answers(rt.alloc(), &STREAMS[..6], Phase::After, "none")?);
    Ok(())
}

/// First values go round among cells that are born, and only there.
#[test]
fn first_values_go_round(rt: HostRuntime) -> Result<(), Fail> {
    assert!(rt; answers(rt.alloc(), &SWITCHED, Phase::Birth, " #1 #3")?);
    assert!(rt; answers(rt.alloc(), &MAPPED[..3], Phase::Birth, " #1 #2")?);
    assert!(rt; answers(rt.alloc(), &MAPPED, Phase::Birth, "none")?);
    Ok(())
}

/// A switch whose old inner cell is in the way is no chain once its own cell has turned, and one before.
#[test]
fn an_old_inner_cell_is_no_chain(rt: HostRuntime) -> Result<(), Fail> {
    assert!(rt; answers(rt.alloc(), &TWO[..13], Phase::During, " #4 #9 #5")?);
    assert!(rt; answers(rt.alloc(), &TWO[..18], Phase::During, "none")?);
    assert!(rt; answers(rt.alloc(), &TWO, Phase::During, " #4 #5")?);
    Ok(())
}

/// A chain begins with its least name, wherever it is met.
#[test]
fn a_chain_begins_with_its_least_name(rt: HostRuntime) -> Result<(), Fail> {
    assert!(rt; answers(rt.alloc(), &LED, Phase::During, " #1 #2")?);
    Ok(())
}

/// What is born depends on its maker at that time, and not after it.
#[test]
fn the_born_depend_on_their_maker(rt: HostRuntime) -> Result<(), Fail> {
    assert!(rt; answers(rt.alloc(), &BORN[..4], Phase::Birth, " #0/[1].0 #0/[1].1")?);
    let links = "; #0/[1].0; #0/[1].1 #0; #0/[1].0 #0";
    assert!(rt; leads(rt.alloc(), &BORN[..4], Phase::During, links)?);
    assert!(rt;
        leads(
            rt.alloc(),
            &BORN,
            Phase::During,
            "; #0/[1].0; #0/[1].1; #0/[1].0"
        )?
    );
    Ok(())
}
