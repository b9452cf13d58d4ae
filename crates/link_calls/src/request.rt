//! What a client asks on an open link.

ghost use Rattle.std.specs.Prelude.{◌≡◌};
ghost use Rattle.link_calls.specs.Asking.{asking_of, is_closing};

use nfc_base::Items;

/// A message, and the slot of the client from which it is put.
#[derive(Debug, Drop)]
pub struct SlotMessage {
    pub slot: u8,
    pub message: Items<u8>,
}

/// What a client asks on an open link.
#[derive(Clone, Copy, Debug, Drop)]
pub enum LinkRequest<'a> {
    /// A message is put, from slot 0.
    Put(&'a [u8]),
    /// A value is got, of at most so many bytes, on the connection of a slot.
    Get { slot: u8, most: u32, key: &'a [u8] },
    /// A service is looked up by its name.
    Lookup(&'a str),
    /// Messages are put at once, each from its slot.
    Run(&'a [SlotMessage]),
    /// The link is closed.
    Close,
}

impl LinkRequest<'_> {
    /// Behind it the link is over.
    pub fn closes(&self) -> bool
        ensures { result ≡ is_closing (asking_of self.now) }
    {
        match self {
            LinkRequest::Put(_) | LinkRequest::Get { .. } => false,
            LinkRequest::Lookup(_) | LinkRequest::Run(_) => false,
            LinkRequest::Close => true,
        }
    }
}
