use crate::{Line, Mode, WordsStop, line};
use frp_base::Memory;
use std::alloc::Global;
use std::test::Fail;

/// Words, with `|` between two of them.
fn words(alloc: Global, text: &str) -> Result<Vec<String>, Memory> {
    let mut words = Vec::new(alloc);
    for word in text.split('|') {
        words.push(String::from_str(alloc, word)?)?;
    }
    Ok(words)
}

/// Whether the words ask for this line.
fn asks(alloc: Global, text: &str, wanted: Line) -> Result<bool, Memory> {
    Ok(line(words(alloc, text)?.as_slice()) == Ok(wanted))
}

/// Whether the words are no command line.
fn is_usage(alloc: Global, text: &str) -> Result<bool, Memory> {
    Ok(line(words(alloc, text)?.as_slice()) == Err(WordsStop::Usage))
}

/// Words, and the mode, the workers, the count and the start that they ask for.
const LINES: [(&str, Mode, u32, u64, u64); 24] = [
    ("run", Mode::Run, 1, 10, 0),
    ("check", Mode::Check, 1, 10, 0),
    ("replay", Mode::Replay, 1, 10, 0),
    ("gen", Mode::Gen, 1, 10, 0),
    ("run|--workers|4", Mode::Run, 4, 10, 0),
    ("run|--workers=4", Mode::Run, 4, 10, 0),
    ("check|--workers|16", Mode::Check, 16, 10, 0),
    ("replay|--count|4000", Mode::Replay, 1, 4000, 0),
    ("gen|--start|2147483647", Mode::Gen, 1, 10, 2147483647),
    ("gen|--count|1|--start|0", Mode::Gen, 1, 1, 0),
    ("gen|--start|7|--count|1000", Mode::Gen, 1, 1000, 7),
    (
        "gen|--start=7|--count|1000|--workers=2",
        Mode::Gen,
        2,
        1000,
        7,
    ),
    ("gen|--count|+5", Mode::Gen, 1, 5, 0),
    ("gen|--count=+5", Mode::Gen, 1, 5, 0),
    ("gen|--count|0005", Mode::Gen, 1, 5, 0),
    ("gen|--count=+0000000000000000000000005", Mode::Gen, 1, 5, 0),
    ("run|--workers|01", Mode::Run, 1, 10, 0),
    ("gen|--start|-0", Mode::Gen, 1, 10, 0),
    ("gen|--start=-000", Mode::Gen, 1, 10, 0),
    ("gen|--start|+0", Mode::Gen, 1, 10, 0),
    ("run|--", Mode::Run, 1, 10, 0),
    ("run|--workers|4|--", Mode::Run, 4, 10, 0),
    ("gen|--count=5|--", Mode::Gen, 1, 5, 0),
    (
        "gen|--workers=1|--count=10|--start=0|--",
        Mode::Gen,
        1,
        10,
        0,
    ),
];

/// Words that are no command line.
const OTHERS: [&str; 44] = [
    "",
    "Run",
    "runs",
    "ru",
    " run",
    "--",
    "--|run",
    "--workers|4",
    "--workers|4|run",
    "--help",
    "-h",
    "help",
    "--version",
    "run|--help",
    "run|-h",
    "run|help",
    "run|run",
    "run|check",
    "run|",
    "run|-",
    "run|4",
    "run|--workers",
    "run|--workers|--",
    "run|--workers=",
    "run|--workers|",
    "run|--workers|0",
    "run|--workers|17",
    "run|--workers|-0",
    "run|--workers|-1",
    "run|--workers|4|--workers|4",
    "run|--workers=4|--workers|4",
    "gen|--start|0|--start=0",
    "gen|--count|4001",
    "gen|--count|0",
    "gen|--count|5x",
    "gen|--count| 5",
    "gen|--count|++5",
    "gen|--count|+",
    "gen|--count==5",
    "gen|--coun|5",
    "gen|--counts|5",
    "gen|-count|5",
    "gen|--start|2147483648",
    "gen|--start|18446744073709551616",
];

/// More words that are no command line.
const MORE: [&str; 12] = [
    "gen|--start|--",
    "gen|--start|--count=5",
    "gen|--start|5=--count|5",
    "gen|--|--count|5",
    "gen|--count|5|--|x",
    "gen|--count|5|--|--",
    "gen|--=5",
    "gen|=5",
    "gen|--COUNT|5",
    "gen|--count|5|6",
    "gen|--count=5=6",
    "gen|--count|\u{0665}",
];

#[test]
fn reads_lines(rt: HostRuntime) -> Result<(), Fail> {
    for (text, mode, workers, count, start) in LINES {
        let wanted = Line {
            mode,
            workers,
            count,
            start,
        };
        assert!(rt; asks(rt.alloc(), text, wanted)?, "{text}");
    }
    Ok(())
}

#[test]
fn refuses_other_words(rt: HostRuntime) -> Result<(), Fail> {
    assert!(rt; line(&[]) == Err(WordsStop::Usage));
    for text in OTHERS {
        assert!(rt; is_usage(rt.alloc(), text)?, "{text}");
    }
    for text in MORE {
        assert!(rt; is_usage(rt.alloc(), text)?, "{text}");
    }
    Ok(())
}
