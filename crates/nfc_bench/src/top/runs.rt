//! Whole runs, from words and a script to a status and a report.

use super::*;
use nfc_io::{MemSink, PlainSource};
use std::alloc::AllocError;
use std::test::Fail;

/// Words that are parted by one space.
pub fn words_of(alloc: Global, text: &str) -> Result<Vec<String>, AllocError> {
    let mut words: Vec<String> = Vec::new(alloc);
    for word in text.split(' ') {
        words.push(String::from_str(alloc, word)?)?;
    }
    Ok(words)
}

/// What a run of these words with this script writes, and its status.
pub fn report(alloc: Global, words: &str, script: &str) -> Result<(u8, Vec<u8>), Fail> {
    let words = words_of(alloc, words)?;
    let mut source = PlainSource::new(Vec::from_slice(alloc, script.as_bytes())?);
    let mut sink = MemSink::new(alloc, 1 << 16, Vec::new(alloc))?;
    let mut bench = Bench::new(alloc);
    let status = run_bench(alloc, &words, &mut source, &mut sink, &mut bench);
    Ok((status, Vec::from_slice(alloc, sink.content())?))
}
