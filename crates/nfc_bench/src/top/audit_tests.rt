//! Inputs to be audited, and what is told of a legal one.

use super::audit_input::{Behind, read_input};
use super::audit_telling::{faulty_line, write_legal};
use super::obeying::obey_all;
use super::script::{Unread, read_script};
use super::*;
use nfc_io::{Failed, MemSink, MemSource, PlainSource};
use std::process::Abort;
use std::test::Fail;

/// A source that gives at most so many bytes a call. It tells nothing of them.
#[derive(Drop)]
struct Pieces {
    inner: MemSource,
    size: usize,
}

impl Source for Pieces {
    ghost use Rattle.std.specs.Prelude.{None};

    ghost left = { λ _. None };

    ghost faults = { λ s. s.inner.plan.faults };

    fn read(&mut self, buf: &mut [u8]) -> Result<usize, Failed> {
        let size = buf.len().min(self.size);
        self.inner.read(&mut buf[..size])
    }
}

/// What is read of an input: the lines of its script, and the report or the line that shows that it has none.
type Parts = Result<(Vec<u8>, Result<Vec<u8>, u32>), Unread>;

/// The parts of an input that comes in pieces of this size, of which the one with this number can't be read.
fn parts_of(alloc: Global, input: &[u8], size: usize, failing: u32) -> Result<Parts, Fail> {
    let content = Vec::from_slice(alloc, input)?;
    let inner = MemSource::new(content, vec![in alloc; failing]?);
    let mut source = Pieces { inner, size };
    Ok(match read_input(alloc, &mut source) {
        Ok(input) => Ok((
            input.script,
            match input.behind {
                Behind::Report(report) => Ok(report),
                Behind::NoReport(line) => Err(line),
            },
        )),
        Err(why) => Err(why),
    })
}

/// The sizes of pieces that each input comes in.
const SIZES: [usize; 3] = [1, 7, 4096];

/// An input has these parts, whatever pieces it comes in.
fn has_parts(
    rt: &impl Abort,
    alloc: Global,
    input: &[u8],
    script: &[u8],
    report: Result<&[u8], u32>,
) -> Result<(), Fail> {
    for size in SIZES {
        let report = match report {
            Ok(bytes) => Ok(Vec::from_slice(alloc, bytes)?),
            Err(line) => Err(line),
        };
        let parts = parts_of(alloc, input, size, 0)?;
        assert_eq!(rt; parts, Ok((Vec::from_slice(alloc, script)?, report)));
    }
    Ok(())
}

#[test]
fn an_input_is_parted_at_its_mark(rt: HostRuntime) -> Result<(), Fail> {
    const ROWS: [(&[u8], &[u8], Result<&[u8], u32>); 9] = [
        (b"", b"", Err(1)),
        (b"find", b"find\n", Err(2)),
        (b"find\n", b"find\n", Err(2)),
        (b"%%", b"", Ok(b"")),
        (b"%%\n", b"", Ok(b"")),
        (b"find\n%%\n1 found 0\n", b"find\n", Ok(b"1 found 0\n")),
        (b"fly\n\n%%\n%%\n\0", b"fly\n\n", Ok(b"%%\n\0")),
        (b"%%\r\n %%\n%%%", b"%%\r\n %%\n%%%\n", Err(4)),
        (b"find\n%%\n\xFF", b"find\n", Ok(b"\xFF")),
    ];
    for &(input, script, report) in &ROWS {
        has_parts(&rt, rt.alloc(), input, script, report)?;
    }
    Ok(())
}

/// So many comments, each a line of two bytes.
fn comments(alloc: Global, count: usize) -> Result<Vec<u8>, Fail> {
    let mut lines = Vec::new(alloc);
    for _ in 0..count {
        lines.extend_from_slice(b"#\n")?;
    }
    Ok(lines)
}

/// Behind 1,000 lines the mark may stand, and nothing else.
#[test]
fn a_script_has_limits(rt: HostRuntime) -> Result<(), Fail> {
    let script = comments(rt.alloc(), 1000)?;
    let mut input = comments(rt.alloc(), 1000)?;
    has_parts(&rt, rt.alloc(), &input, &script, Err(1001))?;
    input.extend_from_slice(b"%%")?;
    has_parts(&rt, rt.alloc(), &input, &script, Ok(b""))?;
    input.extend_from_slice(b"\nx")?;
    has_parts(&rt, rt.alloc(), &input, &script, Ok(b"x"))?;
    let input = comments(rt.alloc(), 1001)?;
    has_parts(&rt, rt.alloc(), &input, &script, Err(1001))?;
    let mut input = comments(rt.alloc(), 3)?;
    input.extend_from_slice(&vec![in rt.alloc(); b'%'; 4097]?)?;
    has_parts(&rt, rt.alloc(), &input, b"#\n#\n#\n", Err(4))
}

/// A report has at most 16,777,216 bytes; the line of the input is told in which the next one stands.
#[test]
fn a_report_has_a_limit(rt: HostRuntime) -> Result<(), Fail> {
    for (count, line) in [(16_777_216, None), (16_777_217, Some(16_777_219))] {
        let report = vec![in rt.alloc(); b'\n'; count]?;
        let mut input = Vec::from_slice(rt.alloc(), b"#\n%%\n")?;
        input.extend_from_slice(&report)?;
        let parts = parts_of(rt.alloc(), &input, 4096, 0)?;
        let wanted = match line {
            None => Ok(report),
            Some(line) => Err(line),
        };
        assert_eq!(rt; parts, Ok((comments(rt.alloc(), 1)?, wanted)));
    }
    Ok(())
}

#[test]
fn a_failed_read_ends_an_input(rt: HostRuntime) -> Result<(), Fail> {
    for failing in 1..12 {
        let parts = parts_of(rt.alloc(), b"find\n%%\nx\n", 1, failing)?;
        assert_eq!(rt; parts, Err(Unread::Fault), "{failing}");
    }
    Ok(())
}

/// What is told of a legal report of this script.
fn told_of(alloc: Global, script: &str) -> Result<Vec<u8>, Fail> {
    let mut source = PlainSource::new(Vec::from_slice(alloc, script.as_bytes())?);
    let mut sink = MemSink::new(alloc, 1 << 16, Vec::new(alloc))?;
    let mut bench = Bench::new(alloc);
    if let Ok(script) = read_script(alloc, &mut source) {
        if obey_all(alloc, &script, &mut bench).is_ok() && bench.journal().len() < 1000 {
            let _ = write_legal(&mut sink, &bench);
        }
    }
    Ok(Vec::from_slice(alloc, sink.content())?)
}

#[test]
fn what_each_peer_accepted_is_told(rt: HostRuntime) -> Result<(), Fail> {
    const ROWS: [(&str, &str); 4] = [
        ("", "legal 0\n"),
        ("# nothing\n\nfind", "legal 1\n"),
        (
            "place peer 08010203 3 128 1 1024\nlink 08010203 128 1\nput D1\nput -\nremove 08010203",
            "legal 5\naccepted 1:D1\naccepted 1:-\n",
        ),
        (
            "place peer 08010203 3 128 1 1024\nlink 08010203 128 1\nputs 0:D1 1:D20A 2:D3\nlink 08010203 128 1\nput 0AFF",
            "legal 5\naccepted 1:D1\naccepted 1.33:D20A\naccepted 1.34:D3\naccepted 2:0AFF\n",
        ),
    ];
    for &(script, text) in &ROWS {
        let told = told_of(rt.alloc(), script)?;
        assert_eq!(rt; str::from_utf8(&told)?, text);
    }
    assert_eq!(rt; str::from_utf8(&faulty_line(13))?, "faulty line 13\n");
    Ok(())
}
