//! Reading all of a source, and writing a whole text.

ghost use Rattle.std.specs.Prelude.{◌≡◌, ◌<◌, ◌≤◌, ◌+◌, length, take, drop, IfOk, OnOk, OnErr, Err};
ghost use Rattle.frp_io.specs.Outside.{HasCause, Rose, Took, Ended, Gave};
ghost use Rattle.frp_run.specs.Answers.{GaveMore, GavePart};

use frp_io::{Failed, Sink, Source};
use std::alloc::Global;

/// Why reading stopped.
#[derive(Clone, Copy, Debug, PartialEq, Eq)]
pub enum SourceStop {
    Failed,
    Size,
    Memory,
}

/// All bytes of a source, of which there are at most `most`.
#[tactic(auto, using(frp_io::proofs::Bytes::took_none, frp_io::proofs::Bytes::took_more, frp_io::proofs::Bytes::zero_ended))]
pub fn read_all<S: Source>(
    alloc: Global,
    source: &mut S,
    most: usize,
) -> Result<Vec<u8>, SourceStop>
    ensures bytes { IfOk result (λ v. Took (S.rest source.old) (S.rest source.new) v.items) }
    ensures end { IfOk result (λ v. Ended (S.rest source.new)) }
    ensures failed { result ≡ Err SourceStop.Failed → Rose (S.faults source.old) (S.faults source.new) }
    ensures bound { IfOk result (λ v. length v.items ≤ most) }
    ensures size { result ≡ Err SourceStop.Size → GaveMore most (S.rest source.old) (S.rest source.new) }
{
    let mut all = Vec::new(alloc);
    let mut buf = [0u8; 4096];
    loop {
        match source.read(&mut buf) {
            Err(Failed) => return Err(SourceStop::Failed),
            Ok(0) => return Ok(all),
            Ok(n) => {
                if n > most - all.len() {
                    return Err(SourceStop::Size);
                }
                if all.extend_from_slice(&buf[..n]).is_err() {
                    return Err(SourceStop::Memory);
                }
            }
        }
    }
}

/// Writes a whole text; each write is offered all that is left.
#[tactic(auto, using(frp_io::proofs::Bytes::gave_none, frp_io::proofs::Bytes::gave_part))]
pub fn write_all<K: Sink>(sink: &mut K, bytes: &[u8]) -> Result<(), Failed>
    ensures bytes { OnOk result (Gave (K.held sink.old) (K.held sink.new) bytes.now) }
    ensures part { OnErr result (GavePart (K.held sink.old) (K.held sink.new) bytes.now) }
    ensures cause { HasCause (K.faults sink.old) (K.faults sink.new) result }
{
    let mut done = 0;
    while done < bytes.len() {
        done += write_part(sink, bytes, done)?;
    }
    Ok(())
}

/// Writes a part of what is left.
fn write_part<K: Sink>(sink: &mut K, bytes: &[u8], done: usize) -> Result<usize, Failed>
    requires { done < length bytes.now }
    ensures some { IfOk result (λ n. 0 < n) }
    ensures bound { IfOk result (λ n. done + n ≤ length bytes.now) }
    ensures bytes { IfOk result (λ n. Gave (K.held sink.old) (K.held sink.new) (take n (drop done bytes.now))) }
    ensures err { OnErr result (K.held sink.new ≡ K.held sink.old) }
    ensures cause { HasCause (K.faults sink.old) (K.faults sink.new) result }
{
    sink.write(&bytes[done..])
}
