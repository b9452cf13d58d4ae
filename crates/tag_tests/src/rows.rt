//! What the tests' tables are made of, and what a row of each compares.

use nfc_base::Frame;
use std::alloc::Global;
use std::process::Abort;
use std::test::Fail;
use tag_writer::WriteFault;

/// A store of so many bytes that begins with zeros and goes on with these.
pub fn store_of(alloc: Global, zeros: usize, size: usize, head: &[u8]) -> Result<Vec<u8>, Fail> {
    let mut store = vec![in alloc; 0u8; zeros]?;
    store.extend_from_slice(head)?;
    store.resize(size, 0)?;
    Ok(store)
}

/// So many of the bytes from there on, none where they aren't all there.
pub fn part(bytes: &[u8], from: usize, count: usize) -> &[u8] {
    match bytes.get(from..from.saturating_add(count)) {
        Some(part) => part,
        None => &[],
    }
}

/// The bytes of the command that was answered as the n-th from the end.
pub fn asked_at(answered: &[Frame], n: usize) -> &[u8] {
    match answered.get(answered.len().wrapping_sub(n)) {
        Some(frame) => frame.view(),
        None => &[],
    }
}

/// Bytes at their places.
pub type Places<'a> = &'a [(usize, &'a [u8])];

/// One write of several to a tag.
#[derive(Clone, Copy)]
pub struct Row<'a> {
    pub message: &'a [u8],
    /// What it tells.
    pub told: Result<(), WriteFault>,
    /// How many commands were answered by then.
    pub answered: usize,
    /// Commands that were answered last, counted from the end, as far as the row has them.
    pub asked: Places<'a>,
    /// What stands in the store then.
    pub holds: Places<'a>,
}

/// A store has these bytes at these places.
pub fn holds(rt: &impl Abort, store: &[u8], places: Places) {
    for (at, bytes) in places {
        assert_eq!(rt; part(store, *at, bytes.len()), *bytes, "at {at}");
    }
}

/// These commands were the last that were answered.
pub fn were_asked(rt: &impl Abort, answered: &[Frame], commands: Places) {
    for (n, command) in commands {
        assert_eq!(rt;
            asked_at(answered, *n),
            *command,
            "at the {n}th from the end"
        );
    }
}

/// What a write told, and what was asked and stands in the store behind it, is the row's.
pub fn is_row(
    rt: &impl Abort,
    row: &Row,
    told: Result<(), WriteFault>,
    answered: &[Frame],
    store: &[u8],
) {
    assert_eq!(rt; told, row.told);
    assert_eq!(rt; answered.len(), row.answered);
    were_asked(rt, answered, row.asked);
    holds(rt, store, row.holds);
}
