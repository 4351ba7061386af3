//! The program on one thread.

ghost use Rattle.std.specs.Prelude.{◌≡◌, ◌≤◌, ◌^◌, ℕ, List, Some, None, map, string_bytes, ◌⊎◌};
ghost use Rattle.frp_io.specs.Outside.{Rose, Gave};
ghost use Rattle.frp_run.specs.Answers.{mode_of, HasRead, IsOutput, IsRefusedAs, IsRefusedUnbuilt, IsTooLargeText, GaveMore, HasProgram, AnswersPart, line_of};
ghost use Rattle.frp_run.specs.declared.modes.Mode.{Mode};
ghost use Rattle.frp_run.specs.declared.refused.Fault.{Fault};

use crate::answer::answer_to;
use crate::outside::write_all;
use frp_io::{Failed, Sink, Source};
use std::alloc::Global;

/// Runs the program with these words of its command line, and gives its status. The one word is the mode: `replay` runs the
/// graph file of the input and writes the report of its session, and `check` writes the file's canonical text and the table of
/// its names.
///
/// | status | comes only where | line |
/// |---|---|---|
/// | 0 | the output is written | |
/// | 1 | the input is no file: its first fault | `refused text PLACE KIND` |
/// | 1 | the input is a file that cannot be run yet | `refused unbuilt` |
/// | 2 | the words are no mode | `refused usage` |
/// | 3 | the source failed | `refused read` |
/// | 4 | the sink failed | |
/// | 5 | memory is wanting | `refused memory` |
/// | 6 | the file has more nodes than the limit | `refused build 5` |
/// | 7 | the input has more than 1,048,576 bytes | `refused size` |
///
/// That 5 comes only for want of memory is not proved: any run may answer it.
#[tactic(auto, using(crate::proofs::Complete::complete_answer, crate::proofs::Statuses::said_output, crate::proofs::Statuses::said_refused, crate::proofs::Statuses::said_full, crate::proofs::Statuses::said_usage, crate::proofs::Statuses::said_read, crate::proofs::Statuses::said_size, crate::proofs::Statuses::unasked, crate::proofs::Statuses::status_few, crate::proofs::Statuses::said_line))]
pub fn frp_plain<I: Source, O: Sink>(
    alloc: Global,
    words: &[String],
    source: &mut I,
    sink: &mut O,
) -> u8
    // At status 0 the words ask for a mode, and where source and sink tell: what is written is the output of that mode for the
    // input, which was read to its end and had at most 1,048,576 bytes.
    ensures output { result ≡ 0 → HasRead (mode_of (map string_bytes words.now)) (I.rest source.old) (I.rest source.new) (λ mode bytes.
        (text : List ℕ) × (IsOutput text mode bytes × Gave (O.held sink.old) (O.held sink.new) text)) }

    // The refusals, with their causes and their lines.
    ensures refused { result ≡ 1 →
        ((fault : Fault) × IsRefusedAs fault (mode_of (map string_bytes words.now)) (I.rest source.old) (I.rest source.new) (O.held sink.old) (O.held sink.new))
        ⊎ IsRefusedUnbuilt (mode_of (map string_bytes words.now)) (I.rest source.old) (I.rest source.new) (O.held sink.old) (O.held sink.new) }
    ensures full { result ≡ 6 → HasRead (mode_of (map string_bytes words.now)) (I.rest source.old) (I.rest source.new) IsTooLargeText }
    ensures usage { result ≡ 2 → mode_of (map string_bytes words.now) ≡ None }
    ensures unread { mode_of (map string_bytes words.now) ≡ None → I.rest source.new ≡ I.rest source.old }
    ensures words { mode_of (map string_bytes words.now) ≡ None → (result ≡ 2) ⊎ (result ≡ 4) }
    ensures read { result ≡ 3 → Rose (I.faults source.old) (I.faults source.new) }
    ensures write { result ≡ 4 → Rose (O.faults sink.old) (O.faults sink.new) }
    ensures part { result ≡ 4 → AnswersPart (mode_of (map string_bytes words.now)) (I.rest source.old) (I.rest source.new)
        (I.faults source.old) (I.faults source.new) (O.held sink.old) (O.held sink.new) }
    ensures size { result ≡ 7 → GaveMore (2 ^ 20) (I.rest source.old) (I.rest source.new) }
    ensures status { result ≤ 7 }
    ensures line { (line : List ℕ) → line_of result ≡ Some line → Gave (O.held sink.old) (O.held sink.new) line }

    // A text with a program is answered with its output, where nothing fails and memory is there.
    ensures complete { (mode : Mode) → mode_of (map string_bytes words.now) ≡ Some mode → HasProgram mode (I.rest source.old)
        → (Rose (I.faults source.old) (I.faults source.new) → ⊥) → (Rose (O.faults sink.old) (O.faults sink.new) → ⊥)
        → (result ≡ 0) ⊎ (result ≡ 5) }
{
    let answer = answer_to(alloc, words, source);
    match write_all(sink, answer.text().as_bytes()) {
        Ok(()) => answer.status(),
        Err(Failed) => 4,
    }
}
