use crate::lines::{Called, Kind, Line, play, program};
use crate::shown::{shown, shown_moment};
use frp_base::Memory;
use frp_store::Store;
use std::alloc::Global;
use std::test::Fail;

/// A sink, a cell that holds it, a switch of cells over that cell, a loop to a switch of streams over that cell, and that switch.
const FIVE: [Line; 10] = [
    Line::Begin(0),
    Line::Add(Called::Declared(0), Kind::Sink),
    Line::Add(Called::Declared(1), Kind::Hold(Called::Declared(0), 0)),
    Line::Add(Called::Declared(2), Kind::Switchc(Called::Declared(1), 7)),
    Line::Add(Called::Declared(3), Kind::Loop(Called::Declared(4))),
    Line::Add(Called::Declared(4), Kind::Switchs(Called::Declared(1))),
    Line::Turn(2, Some(1)),
    Line::Turn(4, Some(0)),
    Line::End,
    Line::Commit,
];

const MADE: Called = Called::Made {
    by: 3,
    at: 1,
    item: 0,
};

const OTHER: Called = Called::Made {
    by: 3,
    at: 1,
    item: 1,
};

/// Each kind of change, one after the other.
const CHANGES: [Line; 14] = [
    Line::Begin(1),
    Line::Add(MADE, Kind::Hold(OTHER, 3)),
    Line::Add(OTHER, Kind::Switchs(Called::Declared(2))),
    Line::Occur(1, 5),
    Line::Occur(0, 5),
    Line::Turn(2, Some(5)),
    Line::Turn(4, None),
    Line::Turn(2, Some(0)),
    Line::Turn(6, Some(0)),
    Line::End,
    Line::Below(1, 0),
    Line::Occur(5, 6),
    Line::Occur(1, 6),
    Line::End,
];

/// Whether a store shows this text after these lines, each of which can be done.
fn shows(alloc: Global, first: &[Line], then: &[Line], text: &str) -> Result<bool, Memory> {
    let mut store = Store::new(alloc, program(alloc));
    is_shown(alloc, &mut store, first, then, text)
}

fn is_shown(
    alloc: Global,
    store: &mut Store,
    first: &[Line],
    then: &[Line],
    text: &str,
) -> Result<bool, Memory> {
    let is_played = play(alloc, store, first)? && play(alloc, store, then)?;
    Ok(is_played && shown(alloc, store)?.as_str() == text)
}

/// Whether a store shows this text after the first lines, so many changes, and a roll-back.
fn is_undone(alloc: Global, count: usize, text: &str) -> Result<bool, Memory> {
    let mut store = Store::new(alloc, program(alloc));
    is_shown_undone(alloc, &mut store, count, text)
}

fn is_shown_undone(
    alloc: Global,
    store: &mut Store,
    count: usize,
    text: &str,
) -> Result<bool, Memory> {
    let is_played = play(alloc, store, &FIVE)? && change(alloc, store, count)?;
    store.roll_back();
    Ok(is_played && shown(alloc, store)?.as_str() == text)
}

/// Makes so many of the changes, and answers whether each could be made.
fn change(alloc: Global, store: &mut Store, count: usize) -> Result<bool, Memory> {
    for (number, line) in CHANGES.iter().enumerate() {
        if number < count && !play(alloc, store, &[*line])? {
            return Ok(false);
        }
    }
    Ok(true)
}

/// Whether the last moment is this one after these lines, each of which can be done.
fn ends_with(alloc: Global, first: &[Line], then: &[Line], text: &str) -> Result<bool, Memory> {
    let mut store = Store::new(alloc, program(alloc));
    is_last(alloc, &mut store, first, then, text)
}

fn is_last(
    alloc: Global,
    store: &mut Store,
    first: &[Line],
    then: &[Line],
    text: &str,
) -> Result<bool, Memory> {
    if !play(alloc, store, first)? || !play(alloc, store, then)? {
        return Ok(false);
    }
    match store.trace().last() {
        Some(moment) => Ok(shown_moment(alloc, moment)?.as_str() == text),
        None => Ok(false),
    }
}

#[test]
fn a_store_shows_its_graph(rt: HostRuntime) -> Result<(), Fail> {
    let text =
        "[0] moments 1; #0 < 1 < 4; #1 before 0 after 0 < 2 ~ 4; #2 before 7 after 7 to 1; #3; #4 to 0 < 3";
    assert!(rt; shows(rt.alloc(), &FIVE, &[], text)?);
    Ok(())
}

/// In the middle of the second moment after the build, which is the child of the first one.
#[test]
fn a_moment_shows_its_graph(rt: HostRuntime) -> Result<(), Fail> {
    let text =
        "[1,0] moments 2; #0 above 5 < 1 < 2 < 6; #1 occ 6 before 5 after 6 above 5 < 2 ~ 4; #2 before 7 after 7 to 0 ~ 6; #3; #4 < 3; #3/[1].0 occ 6 before 3 after 6; #3/[1].1 to 0 < 5";
    assert!(rt; shows(rt.alloc(), &FIVE, &CHANGES[..13], text)?);
    Ok(())
}

#[test]
fn each_change_is_undone(rt: HostRuntime) -> Result<(), Fail> {
    let text =
        "[0] moments 1; #0 < 1 < 4; #1 before 0 after 0 < 2 ~ 4; #2 before 7 after 7 to 1; #3; #4 to 0 < 3";
    for count in 0..15 {
        assert!(rt; is_undone(rt.alloc(), count, text)?, "at {count}");
    }
    Ok(())
}

/// Over a sink and a cell that holds it, a moment and the next one that isn't over yet are undone.
#[test]
fn two_moments_are_undone(rt: HostRuntime) -> Result<(), Fail> {
    let build = [
        Line::Begin(0),
        Line::Add(Called::Declared(0), Kind::Sink),
        Line::Add(Called::Declared(1), Kind::Hold(Called::Declared(0), 0)),
        Line::End,
        Line::Commit,
    ];
    let lines = [
        Line::Begin(1),
        Line::Add(
            Called::Made {
                by: 0,
                at: 1,
                item: 0,
            },
            Kind::Never,
        ),
        Line::Occur(1, 5),
        Line::End,
        Line::Below(1, 0),
        Line::Occur(1, 6),
        Line::Back,
    ];
    let text = "[0] moments 1; #0 < 1; #1 before 0 after 0";
    assert!(rt; shows(rt.alloc(), &build, &lines, text)?);
    Ok(())
}

/// What was committed in the middle of a moment stays, whether the moment ended since or not.
#[test]
fn a_moment_is_begun_again(rt: HostRuntime) -> Result<(), Fail> {
    let lines = [
        Line::Begin(1),
        Line::Occur(1, 5),
        Line::Commit,
        Line::Occur(0, 4),
        Line::End,
        Line::Back,
    ];
    let text =
        "[1] moments 1; #0 < 1 < 4; #1 occ 5 before 0 after 5 < 2 ~ 4; #2 before 7 after 7 to 1; #3; #4 to 0 < 3";
    assert!(rt; shows(rt.alloc(), &FIVE, &lines, text)?);
    Ok(())
}

/// The births and the facts of a moment stand by name, in whatever order they came.
#[test]
fn a_moment_stands_in_order(rt: HostRuntime) -> Result<(), Fail> {
    let lines = [
        Line::Begin(1),
        Line::Add(OTHER, Kind::Never),
        Line::Add(MADE, Kind::Split(Called::Declared(0))),
        Line::Occur(6, 3),
        Line::Occur(1, 2),
        Line::Occur(5, 4),
        Line::Occur(0, 1),
        Line::End,
    ];
    let text = "[1] + #3/[1].0 + #3/[1].1 #0 1 #1 2 #3/[1].0 3 #3/[1].1 4";
    assert!(rt; ends_with(rt.alloc(), &FIVE, &lines, text)?);
    Ok(())
}
