//! Whole sweeps: a write that is broken off at each of its transmissions.

use super::runs::words_of;
use super::*;
use bench_world::Entry;
use nfc_io::{MemSink, MemSource, PlainSource};
use std::process::Abort;
use std::test::Fail;

/// A Type 5 tag and a write of it, of 14 transmissions.
const SCRIPT: &str =
    "place t5 E004010203040506 4 32 E1400F000303D00000FE\nwrite E004010203040506 D101";

/// The status of a sweep over it, what the sink then holds, and how many runs are finished. The read and the write of
/// these numbers fail, counted from 1, and the sink has this much room.
fn outcome(alloc: Global, failing: (u32, u32), room: usize) -> Result<(u8, Vec<u8>, usize), Fail> {
    let words = words_of(alloc, "sweep")?;
    let script = Vec::from_slice(alloc, SCRIPT.as_bytes())?;
    let mut source = MemSource::new(script, vec![in alloc; failing.0]?);
    let mut sink = MemSink::new(alloc, room, vec![in alloc; failing.1]?)?;
    let mut bench = Bench::new(alloc);
    let status = run_bench(alloc, &words, &mut source, &mut sink, &mut bench);
    let written = Vec::from_slice(alloc, sink.content())?;
    Ok((status, written, bench.finished().len()))
}

/// What is shown, the calls that fail, the room of the sink; the status, what is written, and how many runs are
/// finished.
type Ends<'a> = (&'a str, (u32, u32), usize, (u8, &'a str, usize));

/// A sweep over ends that fail comes to that.
fn ends_so(rt: &impl Abort, alloc: Global, row: Ends) -> Result<(), Fail> {
    let (shows, failing, room, wanted) = row;
    let (status, written, runs) = outcome(alloc, failing, room)?;
    assert_eq!(rt;
        (status, str::from_utf8(&written)?, runs),
        wanted,
        "{shows}"
    );
    Ok(())
}

const ENDS: [Ends; 5] = [
    (
        "neither does",
        (9, 9),
        99,
        (0, "sweep 14 old 11 empty 2 new 1\n", 15),
    ),
    ("the source at once", (1, 9), 99, (3, "fault 3 read\n", 0)),
    (
        "the source behind the last line",
        (2, 9),
        99,
        (3, "fault 3 read\n", 0),
    ),
    ("the sink at once", (9, 1), 99, (4, "", 15)),
    ("a sink with room for ten bytes", (9, 9), 10, (4, "", 15)),
];

#[test]
fn ends_that_fail(rt: HostRuntime) -> Result<(), Fail> {
    for row in &ENDS {
        ends_so(&rt, rt.alloc(), *row)?;
    }
    Ok(())
}

/// The script of a run in which so many transmissions of the last line pass, by the lines before it, that line, and one
/// that reads its tag.
fn script_of(
    alloc: Global,
    (before, last, read): (&str, &str, &str),
    passes: usize,
) -> Result<Vec<u8>, Fail> {
    let mut script = Vec::from_slice(alloc, before.as_bytes())?;
    script.extend_from_slice(b"fates ")?;
    for _ in 0..passes {
        script.push(b'P')?;
    }
    for part in ["B\n", last, read] {
        script.extend_from_slice(part.as_bytes())?;
    }
    Ok(script)
}

/// A bench that these words were run on, with this script.
fn bench_of(alloc: Global, words: &str, script: Vec<u8>) -> Result<Bench, Fail> {
    let words = words_of(alloc, words)?;
    let mut source = PlainSource::new(script);
    let mut sink = MemSink::new(alloc, 1 << 16, Vec::new(alloc))?;
    let mut bench = Bench::new(alloc);
    run_bench(alloc, &words, &mut source, &mut sink, &mut bench);
    Ok(bench)
}

/// A run of a sweep, in which so many transmissions passed, has the journal that `run` gives for its lines.
fn has_journal(
    rt: &impl Abort,
    alloc: Global,
    run: &[Entry],
    parts: (&str, &str, &str),
    passes: usize,
) -> Result<(), Fail> {
    let bench = bench_of(alloc, "run", script_of(alloc, parts, passes)?)?;
    assert!(rt; run == bench.journal(), "{passes}");
    Ok(())
}

/// The script that is swept.
fn swept_script(alloc: Global, (before, last, _read): (&str, &str, &str)) -> Result<Vec<u8>, Fail> {
    let mut script = Vec::from_slice(alloc, before.as_bytes())?;
    script.extend_from_slice(last.as_bytes())?;
    Ok(script)
}

/// Each run with a Break has the journal that `run` gives for its lines.
fn same_as_runs(rt: &impl Abort, alloc: Global, parts: (&str, &str, &str)) -> Result<(), Fail> {
    let swept = bench_of(alloc, "sweep", swept_script(alloc, parts)?)?;
    for (passes, run) in swept.finished().iter().skip(1).enumerate() {
        has_journal(rt, alloc, run.journal(), parts, passes)?;
    }
    Ok(())
}

/// The lines before a write, the write, and a read of its tag.
const WRITES: [(&str, &str, &str); 3] = [
    (
        "place t5 E004010203040506 4 32 E1400F000303D00000FE\n",
        "write E004010203040506 D101\n",
        "read E004010203040506\n",
    ),
    (
        "place t2 01020304 16 000000000000000000000000E110060002032004040300FE0000000000000000AABBCCDD\n",
        "write 01020304 gen:12:1\n",
        "read 01020304\n",
    ),
    (
        "place t4 02030405 8 000F20003B000D0406E10402000000 0003D00000\nbusy 02030405 2 3\n",
        "write 02030405 D1\n",
        "read 02030405\n",
    ),
];

#[test]
fn journals_of_runs(rt: HostRuntime) -> Result<(), Fail> {
    for &parts in &WRITES {
        same_as_runs(&rt, rt.alloc(), parts)?;
    }
    Ok(())
}
