use crate::{Failed, MemSink, MemSource, PlainSource, Sink, Source, StdSink, StdSource};
use frp_base::Memory;
use std::alloc::AllocError;
use std::io::{self, ErrorKind, Read, Write};
use std::process::Abort;

/// Fails at each read and at each flush.
#[derive(Drop)]
struct Broken;

impl Read for Broken {
    fn read(&mut self, _buf: &mut [u8]) -> io::Result<usize> {
        Err(io::Error::from(ErrorKind::Interrupted))
    }
}

impl Write for Broken {
    fn write(&mut self, buf: &[u8]) -> io::Result<usize> {
        Ok(buf.len().min(1))
    }

    fn flush(&mut self) -> io::Result<()> {
        Err(io::Error::from(ErrorKind::BrokenPipe))
    }
}

/// Reads into four bytes, and expects these answers in turn.
fn expect_reads<S: Source>(rt: &impl Abort, source: &mut S, answers: &[Result<&str, Failed>]) {
    for (i, answer) in answers.iter().enumerate() {
        let mut buf = [0u8; 4];
        let got = source.read(&mut buf).map(|n| &buf[..n]);
        assert_eq!(rt; got, answer.map(|text| text.as_bytes()), "at read {i}");
    }
}

/// Writes eight bytes, and expects these answers in turn.
fn expect_writes<K: Sink>(rt: &impl Abort, sink: &mut K, answers: &[Result<usize, Failed>]) {
    for (i, answer) in answers.iter().enumerate() {
        assert_eq!(rt; sink.write(b"abcdefgh"), *answer, "at write {i}");
    }
}

#[test]
fn plain_source_gives_all(rt: HostRuntime) -> Result<(), AllocError> {
    let mut source = PlainSource::new(Vec::from_slice(rt.alloc(), b"abcdef")?);
    expect_reads(&rt, &mut source, &[Ok("abcd"), Ok("ef"), Ok(""), Ok("")]);
    Ok(())
}

#[test]
fn mem_source_fails_at_its_second_read(rt: HostRuntime) -> Result<(), AllocError> {
    let bytes = Vec::from_slice(rt.alloc(), b"abcdefgh")?;
    let mut source = MemSource::new(bytes, 3, Vec::from_slice(rt.alloc(), &[2])?);
    let answers = [Ok("abc"), Err(Failed), Ok("def"), Ok("gh"), Ok("")];
    expect_reads(&rt, &mut source, &answers);
    Ok(())
}

#[test]
fn mem_sink_fails_when_full(rt: HostRuntime) -> Result<(), Memory> {
    let mut sink = MemSink::new(rt.alloc(), 10, 5, Vec::new(rt.alloc()))?;
    expect_writes(&rt, &mut sink, &[Ok(5), Err(Failed), Err(Failed)]);
    assert_eq!(rt; sink.bytes(), "abcde".as_bytes());
    Ok(())
}

#[test]
fn mem_sink_keeps_its_bytes_at_a_failure(rt: HostRuntime) -> Result<(), Memory> {
    let mut sink = MemSink::new(rt.alloc(), 3, 100, Vec::from_slice(rt.alloc(), &[2])?)?;
    expect_writes(&rt, &mut sink, &[Ok(3), Err(Failed)]);
    assert_eq!(rt; sink.bytes(), "abc".as_bytes());
    expect_writes(&rt, &mut sink, &[Ok(3)]);
    assert_eq!(rt; sink.bytes(), "abcabc".as_bytes());
    Ok(())
}

#[test]
fn std_streams_pass_bytes_on(rt: HostRuntime) {
    let text: &[u8] = b"abcdef";
    expect_reads(
        &rt,
        &mut StdSource::new(text),
        &[Ok("abcd"), Ok("ef"), Ok("")],
    );

    let mut place = [0u8; 10];
    let space: &mut [u8] = &mut place;
    expect_writes(&rt, &mut StdSink::new(space), &[Ok(8), Ok(2), Err(Failed)]);
    assert_eq!(rt; &place, b"abcdefghab");
}

#[test]
fn std_streams_pass_failures_on(rt: HostRuntime) {
    expect_reads(
        &rt,
        &mut StdSource::new(Broken),
        &[Err(Failed), Err(Failed)],
    );
    expect_writes(&rt, &mut StdSink::new(Broken), &[Err(Failed)]);
}
