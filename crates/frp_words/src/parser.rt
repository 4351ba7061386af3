ghost use Rattle.std.specs.Prelude.{◌≡◌, map, IfOk, string_bytes};
ghost use Rattle.frp_words.specs.CommandLine.{IsLine};
ghost use Rattle.frp_words.specs.Steps as spec;
ghost use Rattle.frp_words.specs.declared.command.Line.{Line};

use crate::command::{Line, Mode, WordsStop};
use crate::state::{Given, State};

/// The line that the words after the program's name ask for: a mode, and after it options in any order, each at most
/// once, as `--count 5` or `--count=5`. The word `--` may end them. All other words are no command line. It takes no
/// memory.
pub fn line(words: &[String]) -> Result<Line, WordsStop>
    ensures ok { IfOk result (λ l. IsLine (map string_bytes words.now) l) }
    ensures only { (l : Line) → IsLine (map string_bytes words.now) l → result ≡ Ok l }
{
    match read(words) {
        Some(line) => Ok(line),
        None => Err(WordsStop::Usage),
    }
}

/// The line, where the words are one.
fn read(words: &[String]) -> Option<Line>
    ensures { result ≡ spec.line_of (map string_bytes words.now) }
{
    let [first, rest @ ..] = words else {
        return None;
    };
    let mode = mode_called(first.as_str())?;
    let given = options(rest)?;
    Some(line_with(mode, given))
}

/// The mode that a word names.
#[tactic(auto, unfolding(crate::specs::Steps::mode_called))]
fn mode_called(word: &str) -> Option<Mode>
    ensures { result ≡ spec.mode_called word.now }
{
    if word == "run" {
        Some(Mode::Run)
    } else if word == "check" {
        Some(Mode::Check)
    } else if word == "replay" {
        Some(Mode::Replay)
    } else if word == "gen" {
        Some(Mode::Gen)
    } else {
        None
    }
}

/// The values that the words after the mode give.
fn options(words: &[String]) -> Option<Given>
    ensures { result ≡ spec.options_of (map string_bytes words.now) }
{
    let state = walk(words)?;
    state.end()
}

/// The state after the words.
fn walk(words: &[String]) -> Option<State>
    ensures { result ≡ spec.walked spec.start (map string_bytes words.now) }
{
    let mut state = State::start();
    for word in words {
        state = state.step(word.as_str())?;
    }
    Some(state)
}

/// The line of a mode, with the values that were given and else those that stand for them.
fn line_with(mode: Mode, given: Given) -> Line
    ensures { result ≡ spec.line_with mode given }
{
    Line {
        mode,
        workers: given.workers.unwrap_or(1),
        count: u64::from(given.count.unwrap_or(10)),
        start: u64::from(given.start.unwrap_or(0)),
    }
}
