use crate::lines::{Line, moments, shown};
use frp_base::Memory;
use frp_history::Key;
use std::alloc::Global;
use std::test::Fail;

/// Whether the lines are answered so.
fn answers(alloc: Global, lines: &[Line], text: &str) -> Result<bool, Memory> {
    let moments = moments(alloc)?;
    Ok(shown(alloc, moments.as_slice(), lines)?.as_str() == text)
}

#[test]
fn a_cells_window_begins_with_its_value(rt: HostRuntime) -> Result<(), Fail> {
    const LINES: [Line; 4] = [
        Line::Join {
            caller: 0,
            item: 1,
            place: 1,
            first: Some(0),
        },
        Line::Join {
            caller: 0,
            item: 1,
            place: 3,
            first: Some(1),
        },
        Line::Leave {
            caller: 0,
            key: Key { slot: 0, place: 1 },
        },
        Line::Leave {
            caller: 0,
            key: Key { slot: 1, place: 3 },
        },
    ];
    let text = " key 0 1; key 1 3; [1] 0 [2] 1 [4] 2 [6] 3; [3] 1 [4] 2 [6] 3;";
    assert!(rt; answers(rt.alloc(), &LINES, text)?);
    Ok(())
}

#[test]
fn takes_go_on_where_the_last_one_ended(rt: HostRuntime) -> Result<(), Fail> {
    const LINES: [Line; 7] = [
        Line::Join {
            caller: 0,
            item: 1,
            place: 1,
            first: Some(0),
        },
        Line::Take {
            caller: 0,
            key: Key { slot: 0, place: 1 },
            max: 1,
        },
        Line::Take {
            caller: 0,
            key: Key { slot: 0, place: 1 },
            max: 0,
        },
        Line::Take {
            caller: 0,
            key: Key { slot: 0, place: 1 },
            max: 2,
        },
        Line::Take {
            caller: 0,
            key: Key { slot: 0, place: 1 },
            max: 2,
        },
        Line::Take {
            caller: 0,
            key: Key { slot: 0, place: 1 },
            max: 2,
        },
        Line::Leave {
            caller: 0,
            key: Key { slot: 0, place: 1 },
        },
    ];
    let text = " key 0 1; [1] 0;; [2] 1 [4] 2; [6] 3;;;";
    assert!(rt; answers(rt.alloc(), &LINES, text)?);
    Ok(())
}

#[test]
fn a_key_is_of_one_listener(rt: HostRuntime) -> Result<(), Fail> {
    const LINES: [Line; 9] = [
        Line::Take {
            caller: 1,
            key: Key { slot: 0, place: 9 },
            max: 1,
        },
        Line::Join {
            caller: 1,
            item: 0,
            place: 5,
            first: None,
        },
        Line::Take {
            caller: 1,
            key: Key { slot: 0, place: 4 },
            max: 1,
        },
        Line::Take {
            caller: 2,
            key: Key { slot: 0, place: 5 },
            max: 1,
        },
        Line::Leave {
            caller: 0,
            key: Key { slot: 0, place: 5 },
        },
        Line::Leave {
            caller: 1,
            key: Key { slot: 0, place: 5 },
        },
        Line::Leave {
            caller: 1,
            key: Key { slot: 0, place: 5 },
        },
        Line::Join {
            caller: 2,
            item: 0,
            place: 7,
            first: None,
        },
        Line::Take {
            caller: 1,
            key: Key { slot: 0, place: 5 },
            max: 1,
        },
    ];
    let text = " no key; key 0 5; no key; not yours; not yours; [6] 3; no key; key 0 7; no key;";
    assert!(rt; answers(rt.alloc(), &LINES, text)?);
    Ok(())
}
