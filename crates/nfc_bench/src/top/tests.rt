//! Whole runs, over a source and a sink in memory.

use super::program::{WordsFault, program};
use super::runs::words_of;
use super::*;
use nfc_io::{Failed, MemSink, MemSource};
use std::alloc::AllocError;
use std::process::Abort;
use std::test::Fail;

const PLACE: &str = "place t2 01020304 16 000000000000000000000000E11006000303D00000FE0000\n";

fn joined(alloc: Global, parts: [&str; 2]) -> Result<Vec<u8>, AllocError> {
    let mut text = Vec::new(alloc);
    for part in parts {
        text.extend_from_slice(part.as_bytes())?;
    }
    Ok(text)
}

/// The status of a run, what its sink then holds, and how many of 8 bytes the source then gives. The read and the write
/// of these numbers fail, counted from 1.
fn outcome(
    alloc: Global,
    words: &str,
    script: Vec<u8>,
    failing: (u32, u32),
) -> Result<(u8, Vec<u8>, usize), Fail> {
    let words = words_of(alloc, words)?;
    let mut source = MemSource::new(script, vec![in alloc; failing.0]?);
    let mut sink = MemSink::new(alloc, 1 << 19, vec![in alloc; failing.1]?)?;
    let mut bench = Bench::new(alloc);
    let status = run_bench(alloc, &words, &mut source, &mut sink, &mut bench);
    let left = source.read(&mut [0; 8])?;
    let written = Vec::from_slice(alloc, sink.content())?;
    Ok((status, written, left))
}

/// What a run comes to: its status, all that it writes, and how many of 8 bytes its source then gives.
type Wanted<'a> = (u8, &'a str, usize);

/// A run with these calls failing comes to that.
fn comes_to(
    rt: &impl Abort,
    alloc: Global,
    (shows, words): (&str, &str),
    script: Vec<u8>,
    failing: (u32, u32),
    wanted: Wanted,
) -> Result<(), Fail> {
    let (status, written, left) = outcome(alloc, words, script, failing)?;
    assert_eq!(rt;
        (status, str::from_utf8(&written)?, left),
        wanted,
        "{shows}"
    );
    Ok(())
}

/// What a run shows; its words and its script; the numbers of the calls that fail; its status, and what it writes.
const RUNS: [(&str, &str, [&str; 2], u32, u32, u8, &str); 10] = [
    (
        "whole lines before a read fault are obeyed",
        "run",
        [PLACE, "rea"],
        2,
        0,
        3,
        "1 ok\nfault 3 read\n",
    ),
    (
        "a sink that fails ends the run",
        "run",
        [PLACE, "read 01020304"],
        0,
        1,
        4,
        "",
    ),
    (
        "a fault line that can't be written changes no status",
        "run",
        ["fly\n", ""],
        0,
        1,
        2,
        "",
    ),
    (
        "words that are no run read nothing",
        "run loud",
        [PLACE, ""],
        0,
        0,
        6,
        "fault 6 words\n",
    ),
    (
        "words behind quiet",
        "run quiet quiet",
        [PLACE, ""],
        0,
        0,
        6,
        "fault 6 words\n",
    ),
    (
        "quiet alone",
        "quiet",
        [PLACE, ""],
        0,
        0,
        6,
        "fault 6 words\n",
    ),
    (
        "quiet before run",
        "quiet run",
        [PLACE, ""],
        0,
        0,
        6,
        "fault 6 words\n",
    ),
    (
        "a capital letter",
        "Sweep",
        [PLACE, ""],
        0,
        0,
        6,
        "fault 6 words\n",
    ),
    (
        "a word that goes on",
        "sweeps",
        [PLACE, ""],
        0,
        0,
        6,
        "fault 6 words\n",
    ),
    ("an empty word", "", [PLACE, ""], 0, 1, 6, ""),
];

/// A row's run.
fn row(
    rt: &impl Abort,
    alloc: Global,
    (shows, words): (&str, &str),
    script: [&str; 2],
    failing: (u32, u32),
    (status, report): (u8, &str),
) -> Result<(), Fail> {
    let script = joined(alloc, script)?;
    let rest = if status == 6 { 8 } else { 0 };
    let wanted = (status, report, rest);
    comes_to(rt, alloc, (shows, words), script, failing, wanted)
}

#[test]
fn runs(rt: HostRuntime) -> Result<(), Fail> {
    for &(shows, words, script, read, write, status, report) in &RUNS {
        row(
            &rt,
            rt.alloc(),
            (shows, words),
            script,
            (read, write),
            (status, report),
        )?;
    }
    Ok(())
}

/// A sink that fails at this call leaves so many entries.
fn fails_at(rt: &impl Abort, alloc: Global, call: u32, entries: usize) -> Result<(), Fail> {
    let words = words_of(alloc, "run quiet")?;
    let script = joined(
        alloc,
        [PLACE, "read 01020304\nread 01020304\nread 01020304"],
    )?;
    let mut source = MemSource::new(script, Vec::new(alloc));
    let mut sink = MemSink::new(alloc, 4000, vec![in alloc; call]?)?;
    let mut bench = Bench::new(alloc);
    let status = run_bench(alloc, &words, &mut source, &mut sink, &mut bench);
    assert_eq!(rt; (status, bench.journal().len()), (4, entries), "{call}");
    Ok(())
}

/// Each entry is written before the next line is read, in one call where its lines are few.
#[test]
fn a_sink_that_fails_at_a_call(rt: HostRuntime) -> Result<(), Fail> {
    for (call, entries) in [(1, 1), (2, 2), (3, 3), (4, 4)] {
        fails_at(&rt, rt.alloc(), call, entries)?;
    }
    Ok(())
}

/// Words that no run has come to this status and this text, and nothing is read.
fn is_no_run(
    rt: &impl Abort,
    alloc: Global,
    fault: WordsFault,
    wanted: (u8, &str),
) -> Result<(), Fail> {
    let mut source = MemSource::new(Vec::from_slice(alloc, b"find")?, Vec::new(alloc));
    let mut sink = MemSink::new(alloc, 1 << 8, Vec::new(alloc))?;
    let status = program(alloc, Err(fault), &mut source, &mut sink);
    assert_eq!(rt; (status, str::from_utf8(sink.content())?), wanted);
    assert_eq!(rt; source.read(&mut [0; 8])?, 4);
    Ok(())
}

#[test]
fn no_words(rt: HostRuntime) -> Result<(), Fail> {
    is_no_run(&rt, rt.alloc(), WordsFault::NoText, (6, "fault 6 words\n"))?;
    is_no_run(&rt, rt.alloc(), WordsFault::Memory, (5, ""))
}
