//! The kinds of tags that a reader knows.

/// The kind of the tag behind a link. A Type 5 tag is named by its identifier, high byte first.
#[derive(Clone, Copy, Debug, PartialEq, Eq)]
pub enum How {
    T2,
    T4,
    T5([u8; 8]),
}
