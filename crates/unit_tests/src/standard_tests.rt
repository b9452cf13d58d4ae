//! Ends over readers and writers that fail.

use nfc_io::{Failed, Sink, Source, StdSink, StdSource, write_all};
use std::io;
use std::io::{ErrorKind, Read, Write};

/// Fails in its first read, then reads one `x` at a time, three in all.
#[derive(Drop)]
struct Halting {
    reads: usize,
}

impl Read for Halting {
    fn read(&mut self, buf: &mut [u8]) -> io::Result<usize> {
        self.reads = self.reads.saturating_add(1);
        if self.reads == 1 {
            return Err(ErrorKind::TimedOut.into());
        }
        if self.reads > 4 || buf.is_empty() {
            return Ok(0);
        }
        buf[0] = b'x';
        Ok(1)
    }
}

#[test]
fn a_failing_reader_fails_and_goes_on(rt: HostRuntime) {
    let mut source = StdSource::new(Halting { reads: 0 });
    let outcomes = [Err(Failed), Ok(1), Ok(1), Ok(1), Ok(0)];
    for outcome in outcomes {
        let mut buf = [0; 8];
        assert_eq!(rt; source.read(&mut buf), outcome);
        assert_eq!(rt; buf[0] == b'x', outcome == Ok(1));
    }
}

/// Takes at most two bytes in a write, fails in its third, and takes none from the fifth on.
#[derive(Drop)]
struct Narrow {
    writes: usize,
}

impl Write for Narrow {
    fn write(&mut self, buf: &[u8]) -> io::Result<usize> {
        self.writes = self.writes.saturating_add(1);
        match self.writes {
            3 => Err(ErrorKind::BrokenPipe.into()),
            1 | 2 | 4 => Ok(buf.len().min(2)),
            _ => Ok(0),
        }
    }

    fn flush(&mut self) -> io::Result<()> {
        Ok(())
    }
}

#[test]
fn a_narrow_writer_takes_pieces_and_fails(rt: HostRuntime) {
    let mut sink = StdSink::new(Narrow { writes: 0 });
    const WRITES: [(&[u8], Result<(), Failed>); 4] = [
        (b"abcd", Ok(())),
        (b"ef", Err(Failed)),
        (b"ef", Ok(())),
        (b"g", Err(Failed)),
    ];
    for &(bytes, outcome) in &WRITES {
        assert_eq!(rt; write_all(&mut sink, bytes), outcome);
    }
    assert_eq!(rt; sink.write(b""), Ok(0));
}
