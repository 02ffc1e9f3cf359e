//! Runs in which calls of the outside fail, or move one byte each.

use crate::inputs::{source, text, words};
use memory_outside::{MemSink, MemSource};
use run_outside::Sink;
use shadow_top::{OpenGate, shadow};
use std::alloc::Global;
use std::test::Fail;
use std::thread::Threads;

/// Two hosts in another order than that of their names, a process of `a` that starts at 25 ms, one of `b` that never
/// does, a note, and two expectations that are not met.
const TEXT: &str = r#"general:
  stop_time: 1s
network:
  graph:
    type: 1_gbit_switch
hosts:
  b:
    network_node_id: 0
    processes:
    - path: sender
    - path: bin/sender
      expected_final_state: {exited: 7}
    - {path: sender, start_time: 2s, expected_final_state: {exited: 9}}
  a:
    network_node_id: 0
    processes:
    - {path: sender, start_time: 25ms, expected_final_state: {exited: 7}}
experimental: {runahead: 1ms}
"#;

/// What the run shows: standard error, and then each file with what it holds.
const ERR: &str =
    "shadow: note: experimental.runahead has no effect\nshadow: a/sender.1000: exited 0, expected exited 7\nshadow: b/sender.1001: exited 0, expected exited 7\n";

const FILES: [(&str, &str); 13] = [
    ("hosts/a/sender.1000.stdout", "\x7fELF"),
    ("hosts/a/sender.1000.stderr", ""),
    ("hosts/a/sender.1000.exit", "exited 0\n"),
    ("hosts/b/sender.1000.stdout", "\x7fELF"),
    ("hosts/b/sender.1000.stderr", ""),
    ("hosts/b/sender.1000.exit", "exited 0\n"),
    ("hosts/b/sender.1001.stdout", "\x7fELF"),
    ("hosts/b/sender.1001.stderr", ""),
    ("hosts/b/sender.1001.exit", "exited 0\n"),
    ("hosts/b/sender.1002.stdout", ""),
    ("hosts/b/sender.1002.stderr", ""),
    ("hosts/b/sender.1002.exit", "not started\n"),
    (
        "packets.log",
        "0 b send udp 11.0.0.2:10000 11.0.0.1:7000 32\n0 b send udp 11.0.0.2:10000 11.0.0.1:7000 32\n1000000 a noport udp 11.0.0.2:10000 11.0.0.1:7000 32\n1000000 a noport udp 11.0.0.2:10000 11.0.0.1:7000 32\n25000000 a send udp 11.0.0.1:10000 11.0.0.1:7000 32\n25000001 a noport udp 11.0.0.1:10000 11.0.0.1:7000 32\n",
    ),
];

/// The files whose size is asked and whose bytes are read, in turn.
const READS: [&str; 6] = [
    "t.yaml",
    "t.yaml",
    "sender",
    "sender",
    "bin/sender",
    "bin/sender",
];

/// How many files, outputs and lines of the log are there where the first call of the sink fails, the second, and so on.
/// The calls are the directory and the note; what the rounds of 0, 1 and 25 ms gained, which is put when all are over: two outputs
/// of the first, the log of all, and an output of the last; then the rest of each file in order, and the two lines.
const THERE: [(usize, usize, usize); 21] = [
    (0, 0, 0),
    (0, 0, 0),
    (0, 0, 0),
    (1, 1, 0),
    (2, 2, 0),
    (3, 2, 6),
    (4, 3, 6),
    (4, 3, 6),
    (5, 3, 6),
    (6, 3, 6),
    (6, 3, 6),
    (7, 3, 6),
    (8, 3, 6),
    (8, 3, 6),
    (9, 3, 6),
    (10, 3, 6),
    (11, 3, 6),
    (12, 3, 6),
    (13, 3, 6),
    (13, 3, 6),
    (13, 3, 6),
];

/// So many more calls than are made.
const NEVER: u64 = 99;

/// A source whose call with this number fails.
fn failing_source(alloc: Global, read: u64) -> Result<MemSource, Fail> {
    let mut source = source(alloc, TEXT)?;
    source.fail_at(read)?;
    Ok(source)
}

/// A sink whose call with this number fails. A directory that is there doesn't count.
fn failing_sink(alloc: Global, write: u64, is_there: bool) -> Result<MemSink, Fail> {
    let mut sink = MemSink::new(alloc);
    let begun = is_there && sink.begin("shadow.data")?;
    sink.fail_at(write.saturating_add(u64::from(begun)))?;
    Ok(sink)
}

/// The run with a call of the source and one of the sink that fail, over a directory that is there or isn't.
fn faulty(
    rt: &(impl Threads + Sync + AllocGlobal),
    read: u64,
    write: u64,
    is_there: bool,
) -> Result<(u8, MemSink), Fail> {
    let alloc = rt.alloc();
    let words = words(alloc)?;
    let mut source = failing_source(alloc, read)?;
    let mut sink = failing_sink(alloc, write, is_there)?;
    let status = shadow(rt, &words, 1, &mut source, &mut sink, &OpenGate);
    Ok((status, sink))
}

/// Whether a line was told and no file was written, over a directory that is there or isn't.
fn has_told(sink: &MemSink, line: &str, is_there: bool) -> bool {
    sink.err() == line.as_bytes()
        && sink.has_directory("shadow.data") == is_there
        && sink.file_count() == 0
}

/// The status of such a run that tells a line and writes no file; none, where another line is told or a file is written.
fn told(
    rt: &(impl Threads + Sync + AllocGlobal),
    read: u64,
    write: u64,
    is_there: bool,
    line: &str,
) -> Result<Option<u8>, Fail> {
    let (status, sink) = faulty(rt, read, write, is_there)?;
    Ok(has_told(&sink, line, is_there).then_some(status))
}

/// Of a run in which this call of the source fails: whether its line is told, and what follows where the line fails too.
fn tells_read(
    rt: &(impl Threads + Sync + AllocGlobal),
    file: &str,
    read: u64,
    is_there: bool,
) -> Result<bool, Fail> {
    let line = format!(in rt.alloc(); "shadow: {file}: read failed\n")?;
    let with_line = told(rt, read, NEVER, is_there, line.as_str())?;
    let without = told(rt, read, 1, is_there, "")?;
    Ok((with_line, without) == (Some(3), Some(4)))
}

#[test]
fn tells_each_read_that_fails(rt: HostRuntime) -> Result<(), Fail> {
    for is_there in [false, true] {
        for (file, read) in READS.iter().zip(1..) {
            assert!(rt; tells_read(&rt, file, read, is_there)?, "read {read}");
        }
    }
    Ok(())
}

/// The directory that is there, and the line that tells it; each of these calls fails in turn.
#[test]
fn tells_a_directory_that_is_there(rt: HostRuntime) -> Result<(), Fail> {
    let statuses = [
        told(&rt, NEVER, 1, true, "")?,
        told(&rt, NEVER, 2, true, "")?,
        told(&rt, NEVER, 3, true, "shadow: shadow.data: exists\n")?,
    ];
    assert_eq!(rt; statuses, [Some(4), Some(4), Some(2)]);
    Ok(())
}

/// Each target has a front of what it would hold.
fn is_front(sink: &MemSink) -> bool {
    for (name, content) in FILES {
        if !content.starts_with(text(sink, name)) {
            return false;
        }
    }
    ERR.as_bytes().starts_with(sink.err())
}

/// All is there, and nothing else.
fn is_whole(sink: &MemSink) -> bool {
    for (name, content) in FILES {
        if text(sink, name) != content {
            return false;
        }
    }
    sink.err() == ERR.as_bytes() && sink.out().is_empty() && sink.file_count() == FILES.len()
}

/// How many processes have written to their standard output.
fn outputs(sink: &MemSink) -> usize {
    let mut count: usize = 0;
    for (name, _) in FILES {
        if name.ends_with(".stdout") && !text(sink, name).is_empty() {
            count = count.wrapping_add(1);
        }
    }
    count
}

/// Whether no call was made behind this one, and fronts are there: so many files, outputs and lines of the log.
fn is_left(sink: &MemSink, write: u64, there: (usize, usize, usize)) -> bool {
    let lines = text(sink, "packets.log").lines().count();
    sink.call_count() == write
        && sink.has_directory("shadow.data") == (write > 1)
        && (sink.file_count(), outputs(sink), lines) == there
        && is_front(sink)
}

#[test]
fn leaves_fronts_where_a_write_fails(rt: HostRuntime) -> Result<(), Fail> {
    for (there, write) in THERE.iter().zip(1..) {
        let (status, sink) = faulty(&rt, NEVER, write, false)?;
        assert!(rt;
            status == 4 && is_left(&sink, write, *there),
            "write {write}"
        );
    }
    Ok(())
}

/// Behind these calls of the sink, and six of the source, no call is made.
#[test]
fn makes_no_call_behind_the_last(rt: HostRuntime) -> Result<(), Fail> {
    let (status, sink) = faulty(&rt, 7, 22, false)?;
    assert!(rt; status == 1 && is_whole(&sink));
    Ok(())
}

/// The run over a source and a sink that move one byte each time.
fn byte_by_byte(rt: &(impl Threads + Sync + AllocGlobal)) -> Result<(u8, MemSink), Fail> {
    let alloc = rt.alloc();
    let words = words(alloc)?;
    let mut source = source(alloc, TEXT)?;
    source.short(1);
    let mut sink = MemSink::new(alloc);
    sink.short(1);
    let status = shadow(rt, &words, 1, &mut source, &mut sink, &OpenGate);
    Ok((status, sink))
}

#[test]
fn shows_the_same_byte_by_byte(rt: HostRuntime) -> Result<(), Fail> {
    let (status, sink) = byte_by_byte(&rt)?;
    assert!(rt; status == 1 && is_whole(&sink));
    Ok(())
}

#[test]
fn refuses_a_command_line_without_the_programs_name(rt: HostRuntime) {
    let mut source = MemSource::new(rt.alloc());
    let mut sink = MemSink::new(rt.alloc());
    let status = shadow(&rt, &[], 1, &mut source, &mut sink, &OpenGate);
    assert_eq!(rt; status, 2);
    assert!(rt; has_told(&sink, "shadow: usage: shadow [options] CONFIG\n", false));
}
