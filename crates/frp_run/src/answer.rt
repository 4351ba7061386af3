//! What the program answers to its words and its input.

ghost use Rattle.std.specs.Prelude.{◌≡◌, ◌≤◌, ◌^◌, [], IfOk, OnOk, Some, IsTrue, List, length, map, string_bytes};
ghost use Rattle.frp_graph.specs.declared.trace.Moment.{Moment};
ghost use Rattle.frp_graph.specs.Limits.{program_limits};
ghost use Rattle.frp_graph.specs.TypedProg.{IsTypedProg};
ghost use Rattle.frp_history.specs.Legal.{IsLegal};
ghost use Rattle.frp_core.specs.Small.{is_built};
ghost use Rattle.frp_run.specs.Answers.{mode_of, mode_word, IsOutputOf, IsOutputIn, IsReportOf, IsCheckOf, IsAnswerTo, IsAnswerOf, IsFaultyAs, refusal_status, refusal_line, status_of, answer_text};
ghost use Rattle.frp_run.specs.Runs.{IsRunnable, IsRunnableAs};
ghost use Rattle.frp_run.specs.declared.modes.Mode.TheVariants.{Replay, Check};

use crate::lines::{fault_line, file_and_table};
use crate::modes::Mode;
use crate::outside::{SourceStop, read_all};
use crate::refused::{Fault, Refused, TextStop};
use crate::runs::run;
use crate::text::understand;
use crate::understood::Understood;
use frp_base::{Boxed, Memory, Text};
use frp_core::Core;
use frp_file::File;
use frp_graph::{Limits, Prog};
use frp_io::Source;
use frp_report::report;
use frp_type::Typed;
use std::alloc::Global;

/// Why the program writes no output, where its line is always the same.
#[derive(Clone, Copy, Debug, PartialEq, Eq)]
pub enum Refusal {
    /// The input is a file that cannot be run yet.
    Unbuilt,
    /// The words are no mode.
    Usage,
    /// The source failed.
    Read,
    /// Memory is wanting.
    Memory,
    /// The file has more nodes than the limit.
    Full,
    /// The input has more than 1,048,576 bytes.
    Size,
}

/// An output, the line of the input's first fault, or why there is neither.
#[derive(Drop)]
pub enum Answer {
    Output(Text),
    Faulty(Fault, Text),
    Refused(Refusal),
}

/// The most bytes that are read.
const MOST: usize = 1 << 20;

impl Refusal {
    fn status(self) -> u8
        ensures { result ≡ refusal_status self }
    {
        match self {
            Refusal::Unbuilt => 1,
            Refusal::Usage => 2,
            Refusal::Read => 3,
            Refusal::Memory => 5,
            Refusal::Full => 6,
            Refusal::Size => 7,
        }
    }

    fn line(self) -> &'static str
        ensures { result.now ≡ refusal_line self }
    {
        match self {
            Refusal::Unbuilt => "refused unbuilt\n",
            Refusal::Usage => "refused usage\n",
            Refusal::Read => "refused read\n",
            Refusal::Memory => "refused memory\n",
            Refusal::Full => "refused build 5\n",
            Refusal::Size => "refused size\n",
        }
    }
}

impl Answer {
    /// The status that the program ends with, where all is written.
    pub fn status(&self) -> u8
        ensures { result ≡ status_of self.now }
    {
        match self {
            Answer::Output(_) => 0,
            Answer::Faulty(_, _) => 1,
            Answer::Refused(refusal) => refusal.status(),
        }
    }

    /// What there is to write.
    pub fn text(&self) -> &str
        ensures { result.now ≡ answer_text self.now }
    {
        match self {
            Answer::Output(text) => text.as_str(),
            Answer::Faulty(_, line) => line.as_str(),
            Answer::Refused(refusal) => refusal.line(),
        }
    }
}

/// What the program answers to its words and to the input that its source gives.
pub fn answer_to<S: Source>(alloc: Global, words: &[String], source: &mut S) -> Answer
    ensures { IsAnswerTo (mode_of (map string_bytes words.now)) (S.rest source.old) (S.rest source.new) (S.faults source.old) (S.faults source.new) result }
{
    match asked(words) {
        Some(mode) => answer_in(alloc, mode, source),
        None => Answer::Refused(Refusal::Usage),
    }
}

/// The mode that the words ask for.
fn asked(words: &[String]) -> Option<Mode>
    ensures { result ≡ mode_of (map string_bytes words.now) }
{
    match words {
        [word] => mode_called(word.as_str()),
        _ => None,
    }
}

fn mode_called(word: &str) -> Option<Mode>
    ensures { result ≡ mode_word word.now }
{
    if word == "replay" {
        Some(Mode::Replay)
    } else if word == "check" {
        Some(Mode::Check)
    } else {
        None
    }
}

/// What the program answers in a mode to the input that its source gives.
#[tactic(auto, using(crate::proofs::Reading::took_all))]
fn answer_in<S: Source>(alloc: Global, mode: Mode, source: &mut S) -> Answer
    ensures { IsAnswerTo (Some mode) (S.rest source.old) (S.rest source.new) (S.faults source.old) (S.faults source.new) result }
{
    match read_all(alloc, source, MOST) {
        Ok(bytes) => answer_of(alloc, mode, bytes.as_slice()),
        Err(SourceStop::Failed) => Answer::Refused(Refusal::Read),
        Err(SourceStop::Size) => Answer::Refused(Refusal::Size),
        Err(SourceStop::Memory) => Answer::Refused(Refusal::Memory),
    }
}

/// What the program answers in a mode to an input.
#[tactic(auto, using(crate::proofs::Runnable::runnable))]
fn answer_of(alloc: Global, mode: Mode, bytes: &[u8]) -> Answer
    requires { length bytes.now ≤ 2 ^ 20 }
    ensures { IsAnswerOf result mode bytes.now }
{
    match understand(alloc, mode, bytes) {
        Ok(source) => output(alloc, mode, source),
        Err(TextStop::Refused(Refused::Fault(fault))) => faulty(alloc, fault),
        Err(TextStop::Refused(Refused::Unbuilt)) => Answer::Refused(Refusal::Unbuilt),
        Err(TextStop::Memory) => Answer::Refused(Refusal::Memory),
    }
}

/// The line of an input's first fault.
fn faulty(alloc: Global, fault: Fault) -> Answer
    ensures { IsFaultyAs fault result }
{
    match fault_line(alloc, fault) {
        Ok(line) => Answer::Faulty(fault, line),
        Err(Memory) => Answer::Refused(Refusal::Memory),
    }
}

/// What a mode writes of what was understood, where the program is within the limit on nodes.
#[tactic(auto, using(crate::proofs::TooLarge::too_large))]
fn output(alloc: Global, mode: Mode, source: Understood) -> Answer
    requires { IsRunnable mode source }
    ensures { IsOutputIn mode source result }
{
    if source.typed.get().prog.body.lines.as_slice().len() as u64 > Limits::program().nodes {
        return Answer::Refused(Refusal::Full);
    }
    match written(alloc, mode, source) {
        Ok(text) => Answer::Output(text),
        Err(Memory) => Answer::Refused(Refusal::Memory),
    }
}

/// What a mode writes of what was understood.
fn written(alloc: Global, mode: Mode, source: Understood) -> Result<Text, Memory>
    requires runnable { IsRunnable mode source }
    requires few { length source.typed.prog.body.lines ≤ program_limits.nodes }
    ensures { IfOk result (λ text. IsOutputOf mode source text) }
{
    let Understood { file, typed } = source;
    match mode {
        Mode::Replay => replayed(alloc, typed),
        Mode::Check => checked(alloc, &file, typed),
    }
}

/// The report of the session of a file.
fn replayed(alloc: Global, typed: Boxed<Typed>) -> Result<Text, Memory>
    requires runnable { IsRunnableAs Replay typed }
    requires few { length typed.prog.body.lines ≤ program_limits.nodes }
    ensures { IfOk result (λ text. IsReportOf typed text) }
{
    let Typed {
        prog,
        listens,
        scripts,
        ..
    } = typed.into_inner();
    let core = run(alloc, prog, listens.as_slice(), scripts.as_slice())?;
    report(alloc, core.entries(), core.trace())
}

/// The canonical text of a file and the table of its names, once its program is built.
fn checked(alloc: Global, file: &File, typed: Boxed<Typed>) -> Result<Text, Memory>
    requires runnable { IsRunnableAs Check typed }
    requires few { length typed.prog.body.lines ≤ program_limits.nodes }
    ensures { IfOk result (λ text. IsCheckOf file.now typed text) }
{
    let Typed { prog, labels, .. } = typed.into_inner();
    build(alloc, prog)?;
    file_and_table(alloc, file, labels.as_slice())
}

/// Builds a program.
fn build(alloc: Global, prog: Prog) -> Result<(), Memory>
    requires typed { IsTypedProg prog }
    requires built { IsTrue (is_built prog) }
    requires few { length prog.body.lines ≤ program_limits.nodes }
    ensures { OnOk result ((trace : List Moment) × IsLegal prog program_limits [] trace) }
{
    let core = Core::build(alloc, prog)?;
    let _trace = core.trace();
    Ok(())
}
