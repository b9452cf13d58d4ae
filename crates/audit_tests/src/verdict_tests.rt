//! How reports are judged by their scripts.

use bench_world::Bench;
use std::alloc::{AllocError, Global};
use std::test::Fail;
use trace_audit::{AuditFault, Verdict, audit};

/// How many bytes the texts of these tests have at most.
const MOST_BYTES: usize = 4096;

/// A tag is placed and read.
const SCRIPT: &[u8] =
    b"place t2 01020304 16 000000000000000000000000E11006000303D00000FE0000\nread 01020304\n";

/// What that reports.
const REPORT: [&str; 13] = [
    "1 ok",
    "2 ! reset",
    "2 > 26/7 pass",
    "2 < 0400 pass",
    "2 > 9320 pass",
    "2 < 0102030404 pass",
    "2 > 93700102030404 pass",
    "2 < 00 pass",
    "2 > 3000 pass",
    "2 < 000000000000000000000000E1100600 pass",
    "2 > 3004 pass",
    "2 < 0303D00000FE00000000000000000000 pass",
    "2 message D00000 writable",
];

/// The report with another text at a line.
fn with_line(alloc: Global, at: u32, text: &str) -> Result<Vec<u8>, AllocError> {
    let mut report = Vec::new(alloc);
    for (i, line) in REPORT.iter().enumerate() {
        if i + 1 == at as usize {
            push_line(&mut report, text)?;
        } else {
            push_line(&mut report, line)?;
        }
    }
    Ok(report)
}

fn push_line(report: &mut Vec<u8>, text: &str) -> Result<(), AllocError> {
    report.extend_from_slice(text.as_bytes())?;
    report.push(b'\n')?;
    Ok(())
}

/// 0 for a legal report; 1 for a faulty one, 2 for a script that is refused, each with its line; 5 where memory is
/// wanting.
fn judged(alloc: Global, script: &[u8], report: &[u8]) -> (u8, u32) {
    if script.len() > MOST_BYTES || report.len() > MOST_BYTES {
        return (9, 0);
    }
    let mut bench = Bench::new(alloc);
    match audit(alloc, script, report, &mut bench) {
        Ok(Verdict::Legal) => (0, 0),
        Ok(Verdict::Faulty { line }) => (1, line),
        Err(AuditFault::Script { line }) => (2, line),
        Err(AuditFault::Memory) => (5, 0),
    }
}

#[test]
fn a_changed_line_is_the_faulty_one(rt: HostRuntime) -> Result<(), Fail> {
    const ROWS: [(u32, &str); 20] = [
        (1, "1 OK"),
        (1, "2 ok"),
        (1, ""),
        (2, "2 ! reset "),
        (2, "2 > 26/7 pass"),
        (3, "2 > 52/7 pass"),
        (3, "2 > 26/7 damage"),
        (4, "2 < 0401 pass"),
        (4, "2 * 0400 pass"),
        (5, "2 > 9320 lose"),
        (6, "2 < 0102030404 pass\r"),
        (7, "2 > 93700102030405 pass"),
        (8, "3 < 00 pass"),
        (9, "2  > 3000 pass"),
        (10, "2 < 000000000000000000000000e1100600 pass"),
        (11, "2 message D00000 writable"),
        (12, "2 < 0303D00000FE0000000000000000 pass"),
        (13, "2 message D10000 writable"),
        (13, "2 message D00000 readonly"),
        (13, "2 ! reset"),
    ];
    let alloc = rt.alloc();
    let report = with_line(alloc, 0, "")?;
    assert_eq!(rt; judged(alloc, SCRIPT, &report), (0, 0));
    for &(at, text) in &ROWS {
        let report = with_line(alloc, at, text)?;
        assert_eq!(rt; judged(alloc, SCRIPT, &report), (1, at), "{text}");
    }
    Ok(())
}

#[test]
fn a_report_ends_where_its_script_does(rt: HostRuntime) -> Result<(), Fail> {
    let alloc = rt.alloc();
    let whole = with_line(alloc, 0, "")?;
    for (behind, wanted) in [
        (b"".as_slice(), (0, 0)),
        (b"x", (1, 14)),
        (b"\n", (1, 14)),
        (b"3 ok\n", (1, 14)),
    ] {
        let mut report = Vec::from_slice(alloc, &whole)?;
        report.extend_from_slice(behind)?;
        assert_eq!(rt; judged(alloc, SCRIPT, &report), wanted);
    }
    for (size, wanted) in [(0, 1), (4, 1), (5, 2), (6, 2), (15, 3)] {
        let front = whole.get(..size).unwrap_or(b"");
        assert_eq!(rt; judged(alloc, SCRIPT, front), (1, wanted), "{size} bytes");
    }
    for missing in [1, 10, 26] {
        let front = whole
            .get(..whole.len().saturating_sub(missing))
            .unwrap_or(b"");
        assert_eq!(rt;
            judged(alloc, SCRIPT, front),
            (1, 13),
            "{missing} bytes less"
        );
    }
    Ok(())
}

#[test]
fn scripts_are_refused_whatever_the_report_is(rt: HostRuntime) -> Result<(), Fail> {
    const BESIDE: &[u8] = b"place peer 08010203 3 128 1 1024\nraw 08010203 3000\n";
    const ROWS: [(&[u8], &[u8], (u8, u32)); 13] = [
        (b"", b"", (0, 0)),
        (b"", b"x", (1, 1)),
        (b"# nothing\n\n", b"", (0, 0)),
        (b"# nothing", b"1 ok\n", (1, 1)),
        (b"put D1", b"1 no link\n", (0, 0)),
        (b"\nput D1", b"1 no link\n", (1, 1)),
        (b"\nput D1", b"2 no link\n", (0, 0)),
        (b"fly", b"", (2, 1)),
        (b"put D1\nfly", b"1 no link\n", (2, 2)),
        (b"put D1\nfly", b"nonsense\n", (2, 2)),
        (b"put D1\n\ndump 01020304\n", b"", (2, 3)),
        (BESIDE, b"1 ok\n", (2, 2)),
        (BESIDE, b"", (2, 2)),
    ];
    for &(script, report, wanted) in &ROWS {
        assert_eq!(rt; judged(rt.alloc(), script, report), wanted);
    }
    Ok(())
}
