//! The file that a Type 4 tag has open.

/// The current file, which READ BINARY and UPDATE BINARY speak of: none, the capability container or the NDEF file
/// (NFC Forum Type 4 Tag).
#[derive(Clone, Copy, Debug, PartialEq, Eq)]
pub enum CurrentFile {
    NoFile,
    Container,
    Ndef,
}
