//! What a selected NFC-A device is.

/// The kinds that SEL_RES tells apart: a Type 2 tag, a Type 4 tag, or a peer (NFC Forum Digital Protocol).
#[derive(Clone, Copy, Debug, PartialEq, Eq)]
pub enum Kind {
    T2,
    T4,
    Peer,
}
