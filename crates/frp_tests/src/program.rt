ghost use Rattle.std.specs.Prelude.{◌<◌};

use frp_base::Memory;
use frp_io::{MemSink, MemSource, PlainSource};
use frp_run::frp_plain;
use std::alloc::Global;
use std::process::Abort;

/// The file of a sink and a map.
const ADDS: &str =
    "(graph (sink a Int) (let b (map x a (add x 1)))) (listen b) (sender (send a 4))";

const ADDS_REPORT: &str = "\
1 0 join #1 key 1
2 1 send #0 4 accepted 1
3 0 leave 1 gave 1
  [2] 5
at [0] born 2 fired 0
  + #0 sink
  + #1 map
at [2] born 0 fired 2
  #0 4
  #1 5
end 3
";

/// Files, and what is written for them.
const REPORTS: [(&str, &str); 11] = [
    (ADDS, ADDS_REPORT),
    ("(graph)", "at [0] born 0 fired 0\nend 0\n"),
    (
        "(graph (sink a Int) (let h (hold 7 a)))\n(listen h)\n(sender (send a 3) (send a -1))\n",
        "\
1 0 join #1 key 1
2 1 send #0 3 accepted 1
3 1 send #0 -1 accepted 1
4 0 leave 1 gave 3
  [1] 7
  [2] 3
  [3] -1
at [0] born 2 fired 0
  + #0 sink
  + #1 hold 7
at [2] born 0 fired 2
  #0 3
  #1 3
at [3] born 0 fired 2
  #0 -1
  #1 -1
end 4
",
    ),
    (
        "(graph (sink a Int) (let f (filter x a (lt 2 x))) (let h (hold 7 f))) (listen h) (sender (send a 1) (send a 3))",
        "\
1 0 join #2 key 1
2 1 send #0 1 accepted 1
3 1 send #0 3 accepted 1
4 0 leave 1 gave 2
  [1] 7
  [3] 3
at [0] born 3 fired 0
  + #0 sink
  + #1 filter
  + #2 hold 7
at [2] born 0 fired 1
  #0 1
at [3] born 0 fired 3
  #0 3
  #1 3
  #2 3
end 4
",
    ),
    (
        "(graph (sink a Int) (let m (map x a (sub (mul x x) 10))) (let f (filter x m (lt x 0))))\n(listen f)\n(sender (send a 3) (send a 4) (send a -2))\n",
        "\
1 0 join #2 key 1
2 1 send #0 3 accepted 1
3 1 send #0 4 accepted 1
4 1 send #0 -2 accepted 1
5 0 leave 1 gave 2
  [2] -1
  [4] -6
at [0] born 3 fired 0
  + #0 sink
  + #1 map
  + #2 filter
at [2] born 0 fired 3
  #0 3
  #1 -1
  #2 -1
at [3] born 0 fired 2
  #0 4
  #1 6
at [4] born 0 fired 3
  #0 -2
  #1 -6
  #2 -6
end 5
",
    ),
    (
        "(graph (sink a Int) (sink b Int) (let m (map x b (add x (add x 9223372036854775807))))) (sender (send b 1) (send a 2))",
        "\
1 1 send #1 1 accepted 1
2 1 send #0 2 accepted 1
at [0] born 3 fired 0
  + #0 sink
  + #1 sink
  + #2 map
at [1] born 0 fired 2
  #1 1
  #2 -9223372036854775807
at [2] born 0 fired 1
  #0 2
end 2
",
    ),
    (
        "(graph (sink a Int) (let h (hold 0 a))) (sender (send h 1) (send a true))",
        "\
1 1 send #1 1 refused 1
2 1 send #0 true refused 2
at [0] born 2 fired 0
  + #0 sink
  + #1 hold 0
end 2
",
    ),
    (
        "(graph (sink a Int) (let h (hold 0 a)))\n(listen h) (listen a) ; two listeners\n(sender (send a 5))",
        "\
1 0 join #1 key 1
2 0 join #0 key 2
3 1 send #0 5 accepted 1
4 0 leave 1 gave 2
  [1] 0
  [3] 5
5 0 leave 2 gave 1
  [3] 5
at [0] born 2 fired 0
  + #0 sink
  + #1 hold 0
at [3] born 0 fired 2
  #0 5
  #1 5
end 5
",
    ),
    (
        "(graph (cellsink s c Int 3)) (listen c) (sender (send s 4) (send c 5) (send s \"x\"))",
        "\
1 0 join #1 key 1
2 1 send #0 4 accepted 1
3 1 send #1 5 refused 1
4 1 send #0 \"x\" refused 2
5 0 leave 1 gave 2
  [1] 3
  [2] 4
at [0] born 2 fired 0
  + #0 sink
  + #1 hold 3
at [2] born 0 fired 2
  #0 4
  #1 4
end 5
",
    ),
    (
        "(graph (fun plus ((k Int)) (x Int) (add x k)) (sink f (Fun Int Int)) (sink n (Stream Int)) (sink i Int) (sink l (List Int)) (let kept (hold (close plus 1) f)))\n\
(sender (send f (close plus 2)) (send n i) (send n n) (send l (nil Bool)) (send l (list 1 2)) (send l (list true)))",
        "\
1 1 send #0 (fun 0 2) accepted 1
2 1 send #1 (stream #2) accepted 1
3 1 send #1 (stream #1) refused 2
4 1 send #3 (list) accepted 1
5 1 send #3 (list 1 2) accepted 1
6 1 send #3 (list true) refused 2
at [0] born 5 fired 0
  + #0 sink
  + #1 sink
  + #2 sink
  + #3 sink
  + #4 hold (fun 0 1)
at [1] born 0 fired 2
  #0 (fun 0 2)
  #4 (fun 0 2)
at [2] born 0 fired 1
  #1 (stream #2)
at [4] born 0 fired 1
  #3 (list)
at [5] born 0 fired 1
  #3 (list 1 2)
end 6
",
    ),
    (
        "(graph (sink t Text) (let n (never Bool)) (let long (filter x t (lt 3 (len x)))) (let loud (map x long (cat x \"!\"))) (let shown (hold \"-\" loud)))\n\
(listen n) (listen shown) (sender (send t \"abc\") (send t \"say \\\"hi\\\"\"))",
        "\
1 0 join #1 key 1
2 0 join #4 key 2
3 1 send #0 \"abc\" accepted 1
4 1 send #0 \"say \\\"hi\\\"\" accepted 1
5 0 leave 1 gave 0
6 0 leave 2 gave 2
  [2] \"-\"
  [4] \"say \\\"hi\\\"!\"
at [0] born 5 fired 0
  + #0 sink
  + #1 never
  + #2 filter
  + #3 map
  + #4 hold \"-\"
at [3] born 0 fired 1
  #0 \"abc\"
at [4] born 0 fired 4
  #0 \"say \\\"hi\\\"\"
  #2 \"say \\\"hi\\\"\"
  #3 \"say \\\"hi\\\"!\"
  #4 \"say \\\"hi\\\"!\"
end 6
",
    ),
];

/// Runs the program over an input in memory, and expects this status and output.
fn expect_run(
    rt: &impl Abort,
    alloc: Global,
    words: &[&str],
    input: &str,
    status: u8,
    output: &str,
) -> Result<(), Memory> {
    let mut all = Vec::new(alloc);
    for word in words {
        all.push(String::from_str(alloc, word)?)?;
    }
    let mut source = PlainSource::new(Vec::from_slice(alloc, input.as_bytes())?);
    let mut sink = MemSink::new(alloc, 4096, 16_777_216, Vec::new(alloc))?;
    assert_eq!(rt;
        frp_plain(alloc, all.as_slice(), &mut source, &mut sink),
        status,
        "for {input}"
    );
    assert_eq!(rt; sink.bytes(), output.as_bytes(), "for {input}");
    Ok(())
}

#[test]
fn writes_reports(rt: HostRuntime) -> Result<(), Memory> {
    for (input, report) in &REPORTS {
        expect_run(&rt, rt.alloc(), &["replay"], input, 0, report)?;
    }
    Ok(())
}

/// Words, inputs, and the status and output that they are answered with.
const OTHERS: [(&[&str], &str, u8, &str); 25] = [
    (&[], ADDS, 2, "refused usage\n"),
    (&["replay", "replay"], ADDS, 2, "refused usage\n"),
    (&["Replay"], ADDS, 2, "refused usage\n"),
    (&["run"], ADDS, 2, "refused usage\n"),
    (&["check", "--count"], ADDS, 2, "refused usage\n"),
    (
        &["replay"],
        "(graph (sink a Int",
        1,
        "refused text 18 end\n",
    ),
    (
        &["replay"],
        "(graph (sink A Int))",
        1,
        "refused text 13 expected\n",
    ),
    (
        &["check"],
        "(graph (sink a Int)) (listen \"b)",
        1,
        "refused text 29 unclosed\n",
    ),
    (
        &["check"],
        "(graph (sink a Bool) (let b (map x a (add x 1))))",
        1,
        "refused text 42 type\n",
    ),
    (
        &["check"],
        "(graph) (listen b)",
        1,
        "refused text 16 unknown\n",
    ),
    (
        &["replay"],
        "(graph (sink a Int) (let p (map x a (mul x 10))) (let m (merge l r p a (sub l r)))) (listen m) (sender (send a 3))",
        1,
        "refused unbuilt\n",
    ),
    // What cannot be run yet is told before the third pass, and after the second.
    (
        &["check"],
        "(graph (let b (split a)))",
        1,
        "refused unbuilt\n",
    ),
    (
        &["check"],
        "(graph (let b (split a))",
        1,
        "refused text 24 end\n",
    ),
    (&["check"], "(graph (tie a a))", 1, "refused unbuilt\n"),
    (
        &["check"],
        "(graph (template t (p Int) () (give p)))",
        1,
        "refused unbuilt\n",
    ),
    (
        &["check"],
        "(graph (sink a Int) (let o (once a)))",
        1,
        "refused unbuilt\n",
    ),
    // A type of 17 levels, and one of 16.
    (
        &["check"],
        "(graph (sink a (Stream (Stream (Stream (Stream (Stream (Stream (Stream (Stream (Stream (Stream (Stream (Stream (Stream (Stream (Stream (Stream Int))))))))))))))))))",
        1,
        "refused text 143 deep\n",
    ),
    (
        &["check"],
        "(graph (sink a (Stream (Stream (Stream (Stream (Stream (Stream (Stream (Stream (Stream (Stream (Stream (Stream (Stream (Stream (Stream Int)))))))))))))))))",
        0,
        "(graph (sink a (Stream (Stream (Stream (Stream (Stream (Stream (Stream (Stream (Stream (Stream (Stream (Stream (Stream (Stream (Stream Int)))))))))))))))))\n\
; #0 a (Stream (Stream (Stream (Stream (Stream (Stream (Stream (Stream (Stream (Stream (Stream (Stream (Stream (Stream (Stream (Stream Int))))))))))))))))\n",
    ),
    // Seventeen senders, and a second one in a replay.
    (
        &["check"],
        "(graph) (sender) (sender) (sender) (sender) (sender) (sender) (sender) (sender) (sender) (sender) (sender) (sender) (sender) (sender) (sender) (sender) (sender)",
        1,
        "refused text 152 many\n",
    ),
    (
        &["replay"],
        "(graph) (sender) (sender)",
        1,
        "refused text 17 senders\n",
    ),
    (
        &["check"],
        "(graph) (sender) (sender)",
        0,
        "(graph)\n(sender)\n(sender)\n",
    ),
    // A name of 32 bytes, and one of 33.
    (
        &["check"],
        "(graph (sink a2345678901234567890123456789012 Int))",
        0,
        "(graph (sink a2345678901234567890123456789012 Int))\n; #0 a2345678901234567890123456789012 (Stream Int)\n",
    ),
    (
        &["check"],
        "(graph (sink a23456789012345678901234567890123 Int))",
        1,
        "refused text 13 long-name\n",
    ),
    (
        &["check"],
        ADDS,
        0,
        "(graph (sink a Int) (let b (map x a (add x 1))))\n(listen b)\n(sender (send a 4))\n; #0 a (Stream Int)\n; #1 b (Stream Int)\n",
    ),
    (
        &["check"],
        "( graph(fun plus ((k Int))(x Int)(add x k)) ; a function\n(cellsink s  c (Pair Int Text) (pair 1 \"a\\\"b\")) )",
        0,
        "(graph (fun plus ((k Int)) (x Int) (add x k)) (cellsink s c (Pair Int Text) (pair 1 \"a\\\"b\")))\n\
; #0 s (Stream (Pair Int Text))\n; #1 c (Cell (Pair Int Text))\n",
    ),
];

#[test]
fn answers_other_words_and_files(rt: HostRuntime) -> Result<(), Memory> {
    for (words, input, status, output) in &OTHERS {
        expect_run(&rt, rt.alloc(), words, input, *status, output)?;
    }
    Ok(())
}

/// Each part of the file of a sink and a map, but those that are whole files, has a fault within it or at its end.
#[test]
fn refuses_each_part_of_a_file(rt: HostRuntime) -> Result<(), Memory> {
    let alloc = rt.alloc();
    let words = replay_word(alloc)?;
    for len in 0..79 {
        let mut source = PlainSource::new(Vec::from_slice(alloc, &ADDS.as_bytes()[..len])?);
        let mut sink = MemSink::new(alloc, 4096, 4096, Vec::new(alloc))?;
        let status = frp_plain(alloc, words.as_slice(), &mut source, &mut sink);
        if len == 48 || len == 49 || len == 59 || len == 60 {
            assert_eq!(rt; status, 0, "for {len} bytes");
        } else {
            assert_eq!(rt; status, 1, "for {len} bytes");
            assert!(rt; place_in(sink.bytes()) <= len, "for {len} bytes");
        }
    }
    Ok(())
}

/// The place in the line of a fault, or a large number.
fn place_in(line: &[u8]) -> usize {
    let mut place = 0usize;
    if !line.starts_with("refused text ".as_bytes()) {
        return usize::MAX;
    }
    for b in &line[13..] {
        if *b == b' ' {
            return place;
        }
        place = place
            .saturating_mul(10)
            .saturating_add(b.wrapping_sub(b'0') as usize);
    }
    usize::MAX
}

/// The word `replay`.
fn replay_word(alloc: Global) -> Result<Vec<String>, Memory> {
    let mut words = Vec::new(alloc);
    words.push(String::from_str(alloc, "replay")?)?;
    Ok(words)
}

/// Runs the program over the file of a sink and a map, which is read in these chunks and with a failure at this read.
fn expect_read_fault(
    rt: &impl Abort,
    alloc: Global,
    chunk: usize,
    read: u64,
    status: u8,
    output: &str,
) -> Result<(), Memory>
    requires { 0 < chunk }
{
    let words = replay_word(alloc)?;
    let bytes = Vec::from_slice(alloc, ADDS.as_bytes())?;
    let mut source = MemSource::new(bytes, chunk, Vec::from_slice(alloc, &[read])?);
    let mut sink = MemSink::new(alloc, 4096, 4096, Vec::new(alloc))?;
    let got = frp_plain(alloc, words.as_slice(), &mut source, &mut sink);
    assert_eq!(rt; got, status, "chunk {chunk}, read {read}");
    assert_eq!(rt;
        sink.bytes(),
        output.as_bytes(),
        "chunk {chunk}, read {read}"
    );
    Ok(())
}

/// Fails at each read of a run that reads so often, and at the one after them, which is not made.
fn expect_each_read(rt: &impl Abort, alloc: Global, chunk: usize, reads: u64) -> Result<(), Memory>
    requires { 0 < chunk }
{
    for done in 0..reads {
        expect_read_fault(rt, alloc, chunk, done + 1, 3, "refused read\n")?;
    }
    expect_read_fault(rt, alloc, chunk, reads.saturating_add(1), 0, ADDS_REPORT)
}

#[test]
fn tells_a_failure_at_each_read(rt: HostRuntime) -> Result<(), Memory> {
    expect_each_read(&rt, rt.alloc(), 1, 80)?;
    expect_each_read(&rt, rt.alloc(), 7, 13)?;
    expect_each_read(&rt, rt.alloc(), 10, 9)?;
    expect_each_read(&rt, rt.alloc(), 4096, 2)
}

/// Runs the program over the file of a sink and a map, writing in these chunks into this room and with a failure at this
/// write, and expects so many bytes of the report.
fn expect_write_fault(
    rt: &impl Abort,
    alloc: Global,
    chunk: usize,
    room: usize,
    write: u64,
    status: u8,
    held: usize,
) -> Result<(), Memory>
    requires chunk { 0 < chunk }
    requires room { 0 < room }
{
    let words = replay_word(alloc)?;
    let mut source = PlainSource::new(Vec::from_slice(alloc, ADDS.as_bytes())?);
    let mut sink = MemSink::new(alloc, chunk, room, Vec::from_slice(alloc, &[write])?)?;
    let got = frp_plain(alloc, words.as_slice(), &mut source, &mut sink);
    let report = ADDS_REPORT.as_bytes();
    let front = &report[..held.min(report.len())];
    assert_eq!(rt; got, status, "chunk {chunk}, room {room}, write {write}");
    assert_eq!(rt;
        sink.bytes(),
        front,
        "chunk {chunk}, room {room}, write {write}"
    );
    Ok(())
}

/// Fails at each write of a run that writes so often, and at the one after them, which is not made.
fn expect_each_write(
    rt: &impl Abort,
    alloc: Global,
    chunk: usize,
    writes: usize,
) -> Result<(), Memory>
    requires { 0 < chunk }
{
    for done in 0..writes {
        let held = done.saturating_mul(chunk);
        expect_write_fault(rt, alloc, chunk, 16_777_216, done as u64 + 1, 4, held)?;
    }
    let after = (writes as u64).saturating_add(1);
    expect_write_fault(rt, alloc, chunk, 16_777_216, after, 0, usize::MAX)
}

#[test]
fn tells_a_failure_at_each_write(rt: HostRuntime) -> Result<(), Memory> {
    expect_each_write(&rt, rt.alloc(), 1, 157)?;
    expect_each_write(&rt, rt.alloc(), 7, 23)?;
    expect_each_write(&rt, rt.alloc(), 10, 16)?;
    expect_each_write(&rt, rt.alloc(), 4096, 1)
}

#[test]
fn tells_that_the_room_is_used_up(rt: HostRuntime) -> Result<(), Memory> {
    for room in 1..157 {
        expect_write_fault(&rt, rt.alloc(), 7, room, 0, 4, room)?;
    }
    expect_write_fault(&rt, rt.alloc(), 7, 157, 0, 0, 157)
}

#[test]
fn tells_faults_of_the_outside(rt: HostRuntime) -> Result<(), Memory> {
    let alloc = rt.alloc();
    let words = replay_word(alloc)?;
    let mut source = PlainSource::new(Vec::from_slice(alloc, ADDS.as_bytes())?);
    let mut sink = MemSink::new(alloc, 10, 16_777_216, Vec::from_slice(alloc, &[2])?)?;
    assert_eq!(rt;
        frp_plain(alloc, words.as_slice(), &mut source, &mut sink),
        4
    );
    assert_eq!(rt; sink.bytes(), "1 0 join #".as_bytes());

    let bytes = Vec::from_slice(alloc, ADDS.as_bytes())?;
    let mut source = MemSource::new(bytes, 10, Vec::from_slice(alloc, &[1])?);
    let mut sink = MemSink::new(alloc, 10, 16_777_216, Vec::from_slice(alloc, &[1])?)?;
    assert_eq!(rt;
        frp_plain(alloc, words.as_slice(), &mut source, &mut sink),
        4
    );
    assert_eq!(rt; sink.bytes(), "".as_bytes());
    Ok(())
}

/// The report, or want of memory: each allocation of the run may be refused.
#[test]
fn reports_or_wants_memory(rt: HostRuntime) -> Result<(), Memory> {
    let alloc = rt.alloc();
    let words = replay_word(alloc)?;
    let mut source = PlainSource::new(Vec::from_slice(alloc, ADDS.as_bytes())?);
    let mut sink = MemSink::new(alloc, 4096, 4096, Vec::new(alloc))?;
    let status = frp_plain(alloc, words.as_slice(), &mut source, &mut sink);
    let output = if status == 0 {
        ADDS_REPORT
    } else {
        "refused memory\n"
    };
    assert!(rt; status == 0 || status == 5);
    assert_eq!(rt; sink.bytes(), output.as_bytes());
    Ok(())
}

#[test]
fn refuses_an_input_past_its_size(rt: HostRuntime) -> Result<(), Memory> {
    let alloc = rt.alloc();
    let mut words = Vec::new(alloc);
    words.push(String::from_str(alloc, "replay")?)?;
    for (size, status, line) in [
        (1_048_577, 7, "refused size\n"),
        (1_048_576, 1, "refused text 1048576 end\n"),
    ] {
        let mut source = PlainSource::new(vec![in alloc; b' '; size]?);
        let mut sink = MemSink::new(alloc, 4096, 64, Vec::new(alloc))?;
        assert_eq!(rt;
            frp_plain(alloc, words.as_slice(), &mut source, &mut sink),
            status
        );
        assert_eq!(rt; sink.bytes(), line.as_bytes());
    }
    Ok(())
}
