//! `frp replay` reads a graph file from standard input, runs it, and writes its report to standard output.
#![tactic(auto)]

use frp_io::{StdSink, StdSource};
use frp_run::frp_plain;
use std::process::ExitCode;
use std::{env, io};

fn main(rt: HostRuntime) -> ExitCode {
    let mut source = StdSource::new(rt.stdin());
    let mut sink = StdSink::new(rt.stdout());
    ExitCode::from(match words(&rt) {
        Ok(words) => frp_plain(rt.alloc(), words.as_slice(), &mut source, &mut sink),
        Err(_) => 5,
    })
}

/// The words of the command line, after the program's name.
fn words(rt: &HostRuntime) -> io::Result<Vec<String>> {
    let mut words = Vec::new(rt.alloc());
    for word in env::args(rt)?.skip(1) {
        words.push(word)?;
    }
    Ok(words)
}
