use crate::Agenda;
use frp_base::{Memory, Text, Time};
use std::alloc::Global;
use std::process::Abort;
use std::test::Fail;

/// Whether it is the time of this text, or none where the text is empty.
fn shows(alloc: Global, time: Option<&Time>, expected: &str) -> Result<bool, Memory> {
    let mut text = Text::new(alloc);
    if let Some(time) = time {
        time.show(&mut text)?;
    }
    Ok(text.as_str() == expected)
}

#[test]
fn children_come_before_later_children(rt: HostRuntime) -> Result<(), Fail> {
    let alloc = rt.alloc();
    let mut agenda = Agenda::begin(alloc, 2);
    agenda.push_children(2)?;
    assert!(rt; shows(alloc, agenda.next(), "[2,0]")?);
    agenda.push_children(1)?;
    for expected in ["[2,0,0]", "[2,1]", ""] {
        assert!(rt; shows(alloc, agenda.next(), expected)?, "at {expected}");
    }
    assert!(rt; shows(alloc, Some(agenda.now()), "[2,1]")?);
    Ok(())
}

#[test]
fn nothing_is_due_at_first(rt: HostRuntime) -> Result<(), Fail> {
    let mut agenda = Agenda::begin(rt.alloc(), 5);
    agenda.push_children(0)?;
    assert!(rt; agenda.next().is_none());
    assert!(rt; shows(rt.alloc(), Some(agenda.now()), "[5]")?);
    Ok(())
}
