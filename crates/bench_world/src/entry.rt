//! What the journal keeps of a command.

use bench_devices::SeenKind;
use bench_script::{Command, DeviceId};
use nfc_base::{Event, Frame, Items};

/// A device that was found.
#[derive(Debug, Drop, PartialEq)]
pub struct Seen {
    pub id: DeviceId,
    pub kind: SeenKind,
}

/// A message that a peer's server accepted.
#[derive(Debug, Drop, PartialEq)]
pub struct Received {
    /// The number of the link on which it came, 0 where it came on none.
    pub link: u32,
    /// The SAP of the client that brought it.
    pub source: u8,
    pub message: Items<u8>,
}

/// How a link was lost: the field went dark, or nothing whole was heard in six tries.
#[derive(Clone, Copy, Debug, PartialEq, Eq)]
pub enum Loss {
    FieldLost,
    SixBad,
}

/// What was heard behind a frame that a script sent: one frame, nothing, one that was damaged, or several at once.
#[derive(Debug, Drop, PartialEq)]
pub enum RawHeard {
    Whole(Frame),
    Silent,
    Damaged,
    Clash,
}

/// What a client was told of its put, by the number of its slot: the peer's server took the message, or refused it.
#[derive(Clone, Copy, Debug, PartialEq, Eq)]
pub struct SlotDone {
    pub slot: u8,
    pub success: bool,
}

/// The bench's answer to a command.
#[derive(Debug, Drop, PartialEq)]
pub enum Answer {
    /// It is done, and there is nothing to tell.
    Done,
    /// What a tag holds: its memory, or its NDEF file.
    Store(Items<u8>),
    /// What a peer's server accepted, by its links.
    Inbox(Items<Received>),
    /// The devices that were found, and whether Type 5 tags stand in a crowd, which isn't among them.
    Found { devices: Items<Seen>, crowd: bool },
    /// The identifiers of the Type 5 tags that were found, ascending.
    Crowd(Items<[u8; 8]>),
    /// No Type 3 tag was found, the one with this identifier, or several.
    T3None,
    T3One([u8; 8]),
    T3Crowd,
    /// The message that a tag holds, and whether it may be written.
    Message { message: Items<u8>, writable: bool },
    /// The tag's container isn't that of an NDEF tag, has another version, forbids reading, names more than one sector
    /// or an area that can't be.
    NotNdef,
    Version,
    NoRead,
    Sectors,
    BadSize,
    /// Its area holds no NDEF TLV, or a TLV before one isn't whole.
    NoMessageTlv,
    BadTlv,
    /// A Type 3 tag says that a write of it wasn't finished.
    Unfinished,
    /// Noise ended each round of polling, or each of its tries.
    Disturbed,
    /// The field went dark.
    FieldLost,
    /// No device with this identifier was found.
    NotFound,
    /// The device is a peer, which holds no message as tags do, or, of a link, a tag, which has no link as peers do.
    WrongKind,
    /// Nothing whole was heard in six tries.
    SixBad,
    /// A tag holds the message now.
    Written,
    /// A tag refused a command, by this code: 0 of a Type 2 tag, the error of a Type 5 tag, the status of a Type 3 or a
    /// Type 4 tag.
    Refused(u16),
    /// Its container forbids writing.
    ReadOnly,
    /// A message is longer than the room for one, which is so many bytes.
    TooLong(u32),
    /// One update of the file brings fewer bytes than its length has.
    ShortMlc,
    /// A link to a peer is open, and this is its number.
    Linked(u32),
    /// The peer's server took the message, or it refused one that is too long.
    Success,
    Reject,
    /// It has this value for a key, or none, or a longer one than the client takes, or it has no values at all.
    Value(Items<u8>),
    NoValue,
    Excess,
    NotImplemented,
    /// The SAP of a service, 0 where the peer has none of this name.
    Sap(u8),
    /// The link was lost, and is no more.
    LinkEnded(Loss),
    /// The reply of a peer to each payload that was written by hand.
    Replies(Items<Items<u8>>),
    /// What was heard behind each frame that a script sent.
    Heard(Items<RawHeard>),
    /// What each client was told of its put, in the order of the line.
    Puts(Items<SlotDone>),
    /// The link was closed.
    Unlinked,
    /// No link is open.
    NoLink,
}

/// A command that was obeyed: the number of its line, from 1 on, what happened on the air meanwhile, and the answer.
#[derive(Debug, Drop, PartialEq)]
pub struct Entry {
    pub line: u32,
    pub command: Command,
    pub events: Items<Event>,
    pub answer: Answer,
}
