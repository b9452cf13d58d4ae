//! Lines, and what stands behind them, over sources that cut their bytes, and that fail.

use nfc_io::{LineReader, LineStop, MemSource, Rest, RestFault, StdSource};
use std::alloc::Global;
use std::io;
use std::io::{ErrorKind, Read};
use std::process::Abort;
use std::test::Fail;

/// Bytes in reads of at most `size` each, of which the one with the number `failing`, counted from 1, fails.
#[derive(Drop)]
struct Pieces {
    bytes: Vec<u8>,
    at: usize,
    size: usize,
    failing: usize,
    reads: usize,
}

impl Read for Pieces {
    fn read(&mut self, buf: &mut [u8]) -> io::Result<usize> {
        self.reads = self.reads.saturating_add(1);
        if self.reads == self.failing {
            return Err(ErrorKind::TimedOut.into());
        }
        let from = self.at.min(self.bytes.len());
        let count = (self.bytes.len() - from).min(buf.len()).min(self.size);
        buf[..count].copy_from_slice(&self.bytes[from..from + count]);
        self.at = from + count;
        Ok(count)
    }
}

/// The sizes of reads that each text is cut into.
const SIZES: [usize; 3] = [1, 7, 4096];

/// The lines that a reader gives, each with an LF, at most so many of them.
fn given(
    alloc: Global,
    reader: &mut LineReader,
    source: &mut StdSource<Pieces>,
    most: usize,
) -> Result<Vec<u8>, Fail> {
    let mut given = Vec::new(alloc);
    for _ in 0..most {
        if reader.advance(source) != Ok(true) {
            break;
        }
        given.extend_from_slice(reader.line())?;
        given.push(b'\n')?;
    }
    Ok(given)
}

/// A text, cut into reads of this size, of which the one with this number fails.
fn source_of(
    alloc: Global,
    text: &[u8],
    size: usize,
    failing: usize,
) -> Result<StdSource<Pieces>, Fail> {
    Ok(StdSource::new(Pieces {
        bytes: Vec::from_slice(alloc, text)?,
        at: 0,
        size,
        failing,
        reads: 0,
    }))
}

/// What is told twice behind the lines.
type Ends = [Result<bool, LineStop>; 2];

/// Whether a reader has no line at first, the lines that it gives of such a text, and what it tells behind them.
fn told(
    alloc: Global,
    text: &[u8],
    size: usize,
    failing: usize,
) -> Result<(bool, Vec<u8>, Ends), Fail> {
    let mut source = source_of(alloc, text, size, failing)?;
    let mut reader = LineReader::new(alloc)?;
    let empty = reader.line().is_empty();
    let lines = given(alloc, &mut reader, &mut source, text.len())?;
    let ends = [reader.advance(&mut source), reader.advance(&mut source)];
    Ok((empty, lines, ends))
}

/// Reads a text, of which the read with this number fails, and compares the lines, each with an LF, and what is told
/// behind them.
fn read_lines(
    rt: &impl Abort,
    alloc: Global,
    text: &[u8],
    (size, failing): (usize, usize),
    lines: &[u8],
    end: Result<bool, LineStop>,
) -> Result<(), Fail> {
    let (empty, given, ends) = told(alloc, text, size, failing)?;
    assert_eq!(rt; (empty, given.as_slice(), ends), (true, lines, [end, end]));
    Ok(())
}

#[test]
fn lines_are_cut_at_lf_alone(rt: HostRuntime) -> Result<(), Fail> {
    const TEXTS: [(&[u8], &[u8]); 6] = [
        (b"", b""),
        (b"\n", b"\n"),
        (b"a", b"a\n"),
        (b"a\n\nbc", b"a\n\nbc\n"),
        (b"find\r\n\rread\r", b"find\r\n\rread\r\n"),
        (
            b"a line of more than seven bytes\n",
            b"a line of more than seven bytes\n",
        ),
    ];
    for &(text, lines) in &TEXTS {
        for size in SIZES {
            read_lines(&rt, rt.alloc(), text, (size, 0), lines, Ok(false))?;
        }
    }
    Ok(())
}

/// A line of so many `a`, and one of so many `b`.
fn long_text(alloc: Global, ahead: usize, length: usize) -> Result<Vec<u8>, Fail> {
    let mut text = vec![in alloc; b'a'; ahead]?;
    text.push(b'\n')?;
    for _ in 0..length {
        text.push(b'b')?;
    }
    text.push(b'\n')?;
    Ok(text)
}

/// A line of 4,096 bytes behind one of so many is given, and one of 4,097 is not.
fn is_cut_at_4096(rt: &impl Abort, alloc: Global, ahead: usize, size: usize) -> Result<(), Fail> {
    let text = long_text(alloc, ahead, 4096)?;
    read_lines(rt, alloc, &text, (size, 0), &text, Ok(false))?;
    let text = long_text(alloc, ahead, 4097)?;
    let first = text
        .as_slice()
        .split_at(text.len().min(ahead.saturating_add(1)))
        .0;
    read_lines(rt, alloc, &text, (size, 0), first, Err(LineStop::TooLong))
}

#[test]
fn lines_of_4096_bytes_are_given_and_longer_ones_are_not(rt: HostRuntime) -> Result<(), Fail> {
    for ahead in [0, 1, 100, 4090, 4095, 4096] {
        for size in SIZES {
            is_cut_at_4096(&rt, rt.alloc(), ahead, size)?;
        }
    }
    Ok(())
}

#[test]
fn a_failed_read_ends_the_lines(rt: HostRuntime) -> Result<(), Fail> {
    let text = b"one\ntwo\r\n\nlast";
    let lines = b"one\ntwo\r\n\nlast\n".as_slice();
    // The size of each read, which of them fails, and how many bytes are whole lines before it.
    let cases = [
        (1, 1, 0),
        (1, 4, 0),
        (1, 5, 4),
        (1, 9, 4),
        (1, 10, 9),
        (1, 11, 10),
        (1, 15, 10),
        (7, 1, 0),
        (7, 2, 4),
        (7, 3, 10),
        (4096, 1, 0),
        (4096, 2, 10),
    ];
    for (size, failing, whole) in cases {
        let lines = lines.split_at(lines.len().min(whole)).0;
        read_lines(
            &rt,
            rt.alloc(),
            text,
            (size, failing),
            lines,
            Err(LineStop::ReadFault),
        )?;
    }
    read_lines(&rt, rt.alloc(), text, (1, 16), lines, Ok(false))
}

/// What a reader of one line tells twice, where the read with this number fails, and the line that it has then.
fn told_of_one(alloc: Global, failing: u32) -> Result<(Ends, Vec<u8>), Fail> {
    let text = Vec::from_slice(alloc, b"one\n")?;
    let mut source = MemSource::new(text, vec![in alloc; failing]?);
    let mut reader = LineReader::new(alloc)?;
    let ends = [reader.advance(&mut source), reader.advance(&mut source)];
    Ok((ends, Vec::from_slice(alloc, reader.line())?))
}

#[test]
fn the_last_line_stays_behind_the_end_and_a_fault(rt: HostRuntime) -> Result<(), Fail> {
    for (failing, end) in [(9, Ok(false)), (2, Err(LineStop::ReadFault))] {
        let (ends, line) = told_of_one(rt.alloc(), failing)?;
        assert_eq!(rt;
            (ends, line.as_slice()),
            ([Ok(true), end], b"one".as_slice())
        );
    }
    Ok(())
}

/// What a reader hands over behind so many lines, at most so many bytes of it: whether that is all, and the bytes, or
/// one more than so many.
fn rest_behind(
    alloc: Global,
    (text, size, failing): (&[u8], usize, usize),
    lines: usize,
    most: usize,
) -> Result<Result<(bool, Vec<u8>), RestFault>, Fail> {
    let mut source = source_of(alloc, text, size, failing)?;
    let mut reader = LineReader::new(alloc)?;
    given(alloc, &mut reader, &mut source, lines)?;
    Ok(match reader.into_rest(alloc, &mut source, most) {
        Ok(Rest::Whole(bytes)) => Ok((true, bytes)),
        Ok(Rest::TooLong(mut bytes)) => {
            bytes.truncate(most.saturating_add(1));
            Ok((false, bytes))
        }
        Err(fault) => Err(fault),
    })
}

#[test]
fn what_stands_behind_the_lines_is_handed_over(rt: HostRuntime) -> Result<(), Fail> {
    const INPUT: &[u8] = b"find\n%%\nlegal\r\n\n\x00\xFF";
    // The text, how many lines are given, and how many bytes are wanted; whether these are all, and the bytes.
    const ROWS: [(&[u8], usize, usize, bool, &[u8]); 11] = [
        (b"", 0, 0, true, b""),
        (b"", 1, 0, true, b""),
        (b"a", 1, 9, true, b""),
        (b"a\n", 1, 0, true, b""),
        (b"a\nb", 2, 9, true, b""),
        (INPUT, 0, 99, true, INPUT),
        (INPUT, 2, 99, true, b"legal\r\n\n\x00\xFF"),
        (INPUT, 2, 10, true, b"legal\r\n\n\x00\xFF"),
        (INPUT, 2, 9, false, b"legal\r\n\n\x00\xFF"),
        (INPUT, 2, 0, false, b"l"),
        (INPUT, 3, 3, true, b"\n\x00\xFF"),
    ];
    for &(text, lines, most, whole, bytes) in &ROWS {
        for size in SIZES {
            let rest = rest_behind(rt.alloc(), (text, size, 0), lines, most)?;
            assert_eq!(rt; rest, Ok((whole, Vec::from_slice(rt.alloc(), bytes)?)));
        }
    }
    Ok(())
}

#[test]
fn a_long_rest_is_handed_over_whole(rt: HostRuntime) -> Result<(), Fail> {
    let text = long_text(rt.alloc(), 9, 20_000)?;
    let behind = text.as_slice().split_at(text.len().min(10)).1;
    for size in SIZES {
        for (most, whole) in [(20_001, true), (20_000, false)] {
            let rest = rest_behind(rt.alloc(), (&text, size, 0), 1, most)?;
            assert_eq!(rt; rest, Ok((whole, Vec::from_slice(rt.alloc(), behind)?)));
        }
    }
    Ok(())
}

#[test]
fn a_failed_read_ends_the_rest(rt: HostRuntime) -> Result<(), Fail> {
    // The size of each read and which of them fails; behind the first line is the rest.
    let rows = [
        ((1, 4), RestFault::Stopped(LineStop::ReadFault)),
        ((1, 5), RestFault::ReadFault),
        ((1, 9), RestFault::ReadFault),
        ((7, 2), RestFault::ReadFault),
        ((4096, 2), RestFault::ReadFault),
    ];
    for ((size, failing), fault) in rows {
        let rest = rest_behind(rt.alloc(), (b"one\nrest", size, failing), 1, 99)?;
        assert_eq!(rt; rest, Err(fault));
    }
    Ok(())
}
