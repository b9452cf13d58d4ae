//! How a connection stands that an end asked for.

/// How a connection stands that an end asked for.
#[derive(Clone, Copy, Debug, Drop, PartialEq, Eq)]
pub enum Standing {
    /// None was asked for.
    Nothing,
    /// The answer to a CONNECT or a DISC is awaited.
    Waiting,
    /// The other end takes units of at most `miu` bytes.
    Open { miu: u16 },
    Refused,
    Closed,
}
