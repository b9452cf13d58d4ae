//! What a reading gives.

/// The message of a tag, byte by byte, and whether another one may be written.
#[derive(Debug, Drop)]
pub struct Found3 {
    pub message: Vec<u8>,
    pub writable: bool,
}
