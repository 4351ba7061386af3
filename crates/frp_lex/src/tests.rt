use super::*;
use frp_base::{Memory, Text};
use std::alloc::Global;
use std::test::Fail;

/// A text of these characters.
fn text(alloc: Global, chars: &str) -> Result<Text, Memory> {
    let mut text = Text::new(alloc);
    text.push_str(chars)?;
    Ok(text)
}

#[test]
fn lexes_and_spells(rt: HostRuntime) -> Result<(), Fail> {
    let alloc = rt.alloc();
    let tokens = lex(alloc, b"(add x -1)")?;
    let kinds = [
        (0, Kind::Left),
        (1, Kind::Name(text(alloc, "add")?)),
        (5, Kind::Name(text(alloc, "x")?)),
        (7, Kind::Num(-1)),
        (9, Kind::Right),
    ];
    assert_eq!(rt; tokens.as_slice().len(), 5);
    for (token, (at, kind)) in tokens.as_slice().iter().zip(&kinds) {
        assert!(rt; token.at == *at && token.kind == *kind, "at {at}");
    }
    assert_eq!(rt; spell(alloc, tokens.as_slice())?.as_str(), "(add x -1)");
    Ok(())
}

#[test]
fn faults_and_laws(rt: HostRuntime) {
    let kind = LexKind::Byte;
    let fault = LexStop::Fault(Lex { place: 3, kind });
    assert!(rt; lex(rt.alloc(), b"(a #)").err() == Some(fault));
    lexed_is_written();
    fault_is_first();
    spelled_is_lexed();
    lexed_is_canonical();
    canonical_is_one();
}
