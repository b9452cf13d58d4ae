//! Whole runs over workloads.

use super::runs::{report, words_of};
use super::*;
use nfc_io::{Failed, MemSink, MemSource};
use std::process::Abort;
use std::test::Fail;
use workload::Workload;

/// A sink that takes at most five bytes a call, while it has room. It tells nothing of them.
#[derive(Drop)]
struct Drips {
    inner: MemSink,
}

impl Sink for Drips {
    ghost use Rattle.std.specs.Prelude.{None};

    ghost taken = { λ _. None };

    ghost faults = { λ s. s.inner.plan.faults };

    fn write(&mut self, bytes: &[u8]) -> Result<usize, Failed> {
        let size = bytes.len().min(5);
        self.inner.write(&bytes[..size])
    }
}

/// A sink with so much room that fails at this call took this part of the line, and the journal is whole.
fn breaks_off(
    rt: &impl Abort,
    alloc: Global,
    room: usize,
    failing: u32,
    line: &str,
) -> Result<(), Fail> {
    let words = words_of(alloc, "make 5 1")?;
    let mut source = MemSource::new(Vec::new(alloc), Vec::new(alloc));
    let inner = MemSink::new(alloc, room, vec![in alloc; failing]?)?;
    let mut sink = Drips { inner };
    let mut bench = Bench::new(alloc);
    let status = run_bench(alloc, &words, &mut source, &mut sink, &mut bench);
    assert_eq!(rt; (status, bench.journal().len()), (4, 7), "{room} {failing}");
    assert_eq!(rt; str::from_utf8(sink.inner.content())?, line);
    Ok(())
}

/// The line is written behind all commands, so a sink that fails leaves the journal whole.
#[test]
fn a_sink_that_fails(rt: HostRuntime) -> Result<(), Fail> {
    let rows = [
        (1 << 8, 1, ""),
        (1 << 8, 3, "made 5 1 w"),
        (10, 9, "made 5 1 w"),
    ];
    for (room, failing, line) in rows {
        breaks_off(&rt, rt.alloc(), room, failing, line)?;
    }
    Ok(())
}

/// The lines of a workload as a script.
fn script_of(alloc: Global, workload: &Workload) -> Result<String, Fail> {
    let mut script = String::new(alloc);
    for place in 0..workload.line_count() {
        script.push_str(str::from_utf8(&workload.line(place))?)?;
        script.push_str("\n")?;
    }
    Ok(script)
}

/// The same lines in a script have as many of these answers.
#[test]
fn a_workload_as_a_script(rt: HostRuntime) -> Result<(), Fail> {
    let script = script_of(rt.alloc(), &Workload::new(5, 3).unwrap())?;
    let (status, written) = report(rt.alloc(), "run quiet", script.as_str())?;
    assert_eq!(rt; status, 0);
    let text = str::from_utf8(&written)?;
    for answer in [" written\n", " message ", " success\n"] {
        assert_eq!(rt; text.split(answer).count(), 3 + 1, "{answer}");
    }
    Ok(())
}
