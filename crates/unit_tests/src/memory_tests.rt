//! Ends in memory, whose calls fail as planned.

use nfc_io::{Failed, MemSink, MemSource, Sink, Source};
use std::test::Fail;

#[test]
fn planned_reads_fail(rt: HostRuntime) -> Result<(), Fail> {
    let alloc = rt.alloc();
    let failing = vec![in alloc; 2, 4]?;
    let mut source = MemSource::new(Vec::from_slice(alloc, b"abcdef")?, failing);
    const READS: [(Result<usize, Failed>, &[u8]); 6] = [
        (Ok(4), b"abcd"),
        (Err(Failed), b"...."),
        (Ok(2), b"ef.."),
        (Err(Failed), b"...."),
        (Ok(0), b"...."),
        (Ok(0), b"...."),
    ];
    for &(outcome, bytes) in &READS {
        let mut buf = *b"....";
        assert_eq!(rt; source.read(&mut buf), outcome);
        assert_eq!(rt; buf.as_slice(), bytes);
    }
    Ok(())
}

#[test]
fn planned_writes_and_those_past_the_limit_fail(rt: HostRuntime) -> Result<(), Fail> {
    let alloc = rt.alloc();
    let mut sink = MemSink::new(alloc, 4, vec![in alloc; 1, 5]?)?;
    const WRITES: [(&[u8], Result<usize, Failed>); 7] = [
        (b"ab", Err(Failed)),
        (b"ab", Ok(2)),
        (b"cde", Err(Failed)),
        (b"cd", Ok(2)),
        (b"", Err(Failed)),
        (b"", Ok(0)),
        (b"e", Err(Failed)),
    ];
    for &(bytes, outcome) in &WRITES {
        assert_eq!(rt; sink.write(bytes), outcome);
    }
    assert_eq!(rt; sink.content(), b"abcd".as_slice());
    Ok(())
}
