//! What a line of a script asks for.

ghost use Rattle.std.specs.Prelude.{◌≡◌, IfOk};
ghost use Rattle.bench_script.specs.DeviceIds.{bytes_of, tech_for};
ghost use Rattle.bench_script.specs.Slots.{has_slot, have_own_slots as all_own};

use crate::message::Msg;
use nfc_base::{Fate, Frame, Items, Tech};
use nfca_poll::Ident;
use std::alloc::{AllocError, Global};

/// The identifier of a device: of NFC-A, or of Type 3 or Type 5, which have one space of 8 bytes. Those of Type 5 stand
/// high byte first.
#[derive(Debug, Drop, PartialEq)]
pub enum DeviceId {
    A(Ident),
    V([u8; 8]),
}

impl DeviceId {
    pub fn bytes(&self) -> &[u8]
        ensures { result.now ≡ bytes_of self.now }
    {
        match self {
            DeviceId::A(id) => id.view(),
            DeviceId::V(id) => id.as_slice(),
        }
    }

    /// The same identifier again. It takes no memory.
    pub fn copy(&self) -> DeviceId
        ensures { result ≡ self.now }
    {
        match self {
            DeviceId::A(id) => DeviceId::A(id.copy()),
            DeviceId::V(id) => DeviceId::V(*id),
        }
    }

    /// The technology of frames that a script sends to it.
    pub fn tech(&self) -> Tech
        ensures { result ≡ tech_for self.now }
    {
        match self {
            DeviceId::A(_) => Tech::A,
            DeviceId::V(_) => Tech::V,
        }
    }
}

/// What one of a reader's clients puts, by the number of its slot.
#[derive(Debug, Drop, PartialEq)]
pub struct SlotPut {
    pub slot: u8,
    pub message: Msg,
}

impl SlotPut {
    /// The same put again.
    pub fn copy(&self, alloc: Global) -> Result<SlotPut, AllocError>
        ensures { IfOk result (λ p. p ≡ self.now) }
    {
        let message = self.message.copy(alloc)?;
        Ok(SlotPut {
            slot: self.slot,
            message,
        })
    }
}

/// Whether no two puts are of one client.
pub fn have_own_slots(puts: &[SlotPut]) -> bool
    ensures { result ≡ all_own puts.now }
{
    for (i, put) in puts.iter().enumerate() {
        if has_slot(&puts[i + 1..], put.slot) {
            return false;
        }
    }
    true
}

/// Whether one of the puts is of this client.
fn has_slot(puts: &[SlotPut], slot: u8) -> bool
    ensures { result ≡ has_slot slot puts.now }
{
    puts.iter().any(|put| put.slot == slot)
}

/// A command of a script (this project's own), with the values of its line's words in their order.
#[derive(Debug, Drop, PartialEq)]
pub enum Command {
    /// An empty line or a comment: it asks for nothing.
    Skip,
    /// Appends the fates of transmissions to come.
    Fates(Items<Fate>),
    /// Puts a Type 2 tag of so many blocks into the field; its memory begins with `head`, and the rest is 0.
    PlaceT2 {
        id: Ident,
        blocks: u16,
        head: Items<u8>,
    },
    /// Puts a Type 3 tag of so many blocks of 16 bytes into the field.
    PlaceT3 {
        id: [u8; 8],
        blocks: u16,
        head: Items<u8>,
    },
    /// Puts a Type 4 tag into the field, which takes frames of this size code (ISO/IEC 14443-4). It has this capability
    /// container; its NDEF file is as long as the container says, begins with `head`, and the rest is 0.
    PlaceT4 {
        id: Ident,
        code: u8,
        container: Items<u8>,
        head: Items<u8>,
    },
    /// Puts a Type 5 tag of so many blocks of `size` bytes into the field; its identifier stands high byte first.
    PlaceT5 {
        id: [u8; 8],
        blocks: u16,
        size: u8,
        head: Items<u8>,
    },
    /// Puts a peer into the field: a target of NFC-DEP that takes frames of this LR code, with an LLCP link of this MIU
    /// and window, and a SNEP server that takes messages of at most `limit` bytes.
    PlacePeer {
        id: Ident,
        lr: u8,
        miu: u16,
        rw: u8,
        limit: u32,
    },
    /// Locks a block of a Type 2, Type 3 or Type 5 tag against writing.
    Lock {
        id: DeviceId,
        block: u16,
    },
    /// From now on a device asks for more time before each answer: `count` extensions, each by `times`.
    Busy {
        id: DeviceId,
        count: u8,
        times: u8,
    },
    /// Gives a peer's server this value for a key.
    Offer {
        id: DeviceId,
        key: Items<u8>,
        value: Items<u8>,
    },
    /// Takes a device away.
    Remove {
        id: DeviceId,
    },
    /// Shows what a tag holds.
    Dump {
        id: DeviceId,
    },
    /// Shows the messages that a peer's server accepted.
    Inbox {
        id: DeviceId,
    },
    /// Finds all devices.
    Find,
    /// Finds all Type 5 tags.
    Crowd,
    /// Polls for Type 3 tags.
    Poll3,
    /// Reads the NDEF message of a tag.
    Read {
        id: DeviceId,
    },
    /// Reads the NDEF message of a Type 3 tag.
    Read3 {
        id: [u8; 8],
    },
    /// Puts a message in the place of the one that a tag holds.
    Write {
        id: DeviceId,
        message: Msg,
    },
    /// The same of a Type 3 tag.
    Write3 {
        id: [u8; 8],
        message: Msg,
    },
    /// Opens a link to a peer, with this MIU and window of the reader's end.
    Link {
        id: Ident,
        miu: u16,
        rw: u8,
    },
    /// Opens a link to a peer, sends these payloads of LLCP over it, one for each reply, and leaves the link.
    Forge {
        id: Ident,
        payloads: Items<Items<u8>>,
    },
    /// Selects a tag or activates a peer, and sends these frames as they are.
    Raw {
        id: DeviceId,
        frames: Items<Frame>,
    },
    /// Puts a message to the server of the link's peer.
    Put {
        message: Msg,
    },
    /// Gets the value of a key from that server, of at most `acceptable` bytes.
    Get {
        acceptable: u32,
        key: Items<u8>,
    },
    /// Asks the peer at which SAP the service with this name is.
    Lookup {
        name: Items<u8>,
    },
    /// A put by another client of the reader than that of the lines before.
    OnPut {
        slot: u8,
        message: Msg,
    },
    /// A get by such a client.
    OnGet {
        slot: u8,
        acceptable: u32,
        key: Items<u8>,
    },
    /// Puts by several clients, of which each goes on while it waits for no answer.
    Puts(Items<SlotPut>),
    /// Closes the link.
    Unlink,
}

impl Command {
    /// The same command again.
    pub fn copy(&self, alloc: Global) -> Result<Command, AllocError>
        ensures { IfOk result (λ c. c ≡ self.now) }
    {
        match self {
            Command::Skip => Ok(Command::Skip),
            Command::Fates(fates) => copy_fates(alloc, fates.as_slice()),
            Command::PlaceT2 { id, blocks, head } => copy_t2(alloc, id, *blocks, head.as_slice()),
            Command::PlaceT3 { id, blocks, head } => copy_t3(alloc, *id, *blocks, head.as_slice()),
            Command::PlaceT4 {
                id,
                code,
                container,
                head,
            } => copy_t4(alloc, id, *code, container.as_slice(), head.as_slice()),
            Command::PlaceT5 {
                id,
                blocks,
                size,
                head,
            } => copy_t5(alloc, *id, *blocks, *size, head.as_slice()),
            Command::PlacePeer {
                id,
                lr,
                miu,
                rw,
                limit,
            } => Ok(Command::PlacePeer {
                id: id.copy(),
                lr: *lr,
                miu: *miu,
                rw: *rw,
                limit: *limit,
            }),
            Command::Lock { id, block } => Ok(Command::Lock {
                id: id.copy(),
                block: *block,
            }),
            Command::Busy { id, count, times } => Ok(Command::Busy {
                id: id.copy(),
                count: *count,
                times: *times,
            }),
            Command::Offer { id, key, value } => {
                copy_offer(alloc, id, key.as_slice(), value.as_slice())
            }
            Command::Remove { id } => Ok(Command::Remove { id: id.copy() }),
            Command::Dump { id } => Ok(Command::Dump { id: id.copy() }),
            Command::Inbox { id } => Ok(Command::Inbox { id: id.copy() }),
            Command::Find => Ok(Command::Find),
            Command::Crowd => Ok(Command::Crowd),
            Command::Poll3 => Ok(Command::Poll3),
            Command::Read { id } => Ok(Command::Read { id: id.copy() }),
            Command::Read3 { id } => Ok(Command::Read3 { id: *id }),
            Command::Write { id, message } => copy_write(alloc, id, message),
            Command::Write3 { id, message } => copy_write_three(alloc, *id, message),
            Command::Link { id, miu, rw } => Ok(Command::Link {
                id: id.copy(),
                miu: *miu,
                rw: *rw,
            }),
            Command::Forge { id, payloads } => copy_forge(alloc, id, payloads.as_slice()),
            Command::Raw { id, frames } => copy_raw(alloc, id, frames.as_slice()),
            Command::Put { message } => copy_put(alloc, message),
            Command::Get { acceptable, key } => copy_get(alloc, *acceptable, key.as_slice()),
            Command::Lookup { name } => copy_lookup(alloc, name.as_slice()),
            Command::OnPut { slot, message } => copy_on_put(alloc, *slot, message),
            Command::OnGet {
                slot,
                acceptable,
                key,
            } => copy_on_get(alloc, *slot, *acceptable, key.as_slice()),
            Command::Puts(puts) => copy_puts(alloc, puts.as_slice()),
            Command::Unlink => Ok(Command::Unlink),
        }
    }
}

// Those that hold bytes are each copied by a function of their own. It takes memory first, so that nothing else is left
// to drop where there is none.

fn copy_fates(alloc: Global, fates: &[Fate]) -> Result<Command, AllocError>
    ensures { IfOk result (λ c. c ≡ Command.Fates fates.now) }
{
    let copy = Vec::from_slice(alloc, fates)?;
    Ok(Command::Fates(Items::new(copy)))
}

fn copy_t2(alloc: Global, id: &Ident, blocks: u16, head: &[u8]) -> Result<Command, AllocError>
    ensures { IfOk result (λ c. c ≡ Command.PlaceT2 id.now blocks head.now) }
{
    let head = Items::from_bytes(alloc, head)?;
    let id = id.copy();
    Ok(Command::PlaceT2 { id, blocks, head })
}

fn copy_t3(alloc: Global, id: [u8; 8], blocks: u16, head: &[u8]) -> Result<Command, AllocError>
    ensures { IfOk result (λ c. c ≡ Command.PlaceT3 id blocks head.now) }
{
    let head = Items::from_bytes(alloc, head)?;
    Ok(Command::PlaceT3 { id, blocks, head })
}

fn copy_t4(
    alloc: Global,
    id: &Ident,
    code: u8,
    container: &[u8],
    head: &[u8],
) -> Result<Command, AllocError>
    ensures { IfOk result (λ c. c ≡ Command.PlaceT4 id.now code container.now head.now) }
{
    let container = Items::from_bytes(alloc, container)?;
    let head = Items::from_bytes(alloc, head)?;
    let id = id.copy();
    Ok(Command::PlaceT4 {
        id,
        code,
        container,
        head,
    })
}

fn copy_t5(
    alloc: Global,
    id: [u8; 8],
    blocks: u16,
    size: u8,
    head: &[u8],
) -> Result<Command, AllocError>
    ensures { IfOk result (λ c. c ≡ Command.PlaceT5 id blocks size head.now) }
{
    let head = Items::from_bytes(alloc, head)?;
    Ok(Command::PlaceT5 {
        id,
        blocks,
        size,
        head,
    })
}

fn copy_offer(alloc: Global, id: &DeviceId, key: &[u8], value: &[u8]) -> Result<Command, AllocError>
    ensures { IfOk result (λ c. c ≡ Command.Offer id.now key.now value.now) }
{
    let key = Items::from_bytes(alloc, key)?;
    let value = Items::from_bytes(alloc, value)?;
    let id = id.copy();
    Ok(Command::Offer { id, key, value })
}

fn copy_write(alloc: Global, id: &DeviceId, message: &Msg) -> Result<Command, AllocError>
    ensures { IfOk result (λ c. c ≡ Command.Write id.now message.now) }
{
    let message = message.copy(alloc)?;
    let id = id.copy();
    Ok(Command::Write { id, message })
}

fn copy_write_three(alloc: Global, id: [u8; 8], message: &Msg) -> Result<Command, AllocError>
    ensures { IfOk result (λ c. c ≡ Command.Write3 id message.now) }
{
    let message = message.copy(alloc)?;
    Ok(Command::Write3 { id, message })
}

fn copy_forge(alloc: Global, id: &Ident, payloads: &[Items<u8>]) -> Result<Command, AllocError>
    ensures { IfOk result (λ c. c ≡ Command.Forge id.now payloads.now) }
{
    let payloads = copy_payloads(alloc, payloads)?;
    let id = id.copy();
    Ok(Command::Forge { id, payloads })
}

/// These payloads again.
fn copy_payloads(alloc: Global, payloads: &[Items<u8>]) -> Result<Items<Items<u8>>, AllocError>
    ensures { IfOk result (λ a. a ≡ payloads.now) }
{
    let mut copies = Vec::with_capacity(alloc, payloads.len())?;
    for payload in payloads {
        copies.push(Items::from_bytes(alloc, payload.as_slice())?)?;
    }
    Ok(Items::new(copies))
}

fn copy_raw(alloc: Global, id: &DeviceId, frames: &[Frame]) -> Result<Command, AllocError>
    ensures { IfOk result (λ c. c ≡ Command.Raw id.now frames.now) }
{
    let frames = copy_frames(alloc, frames)?;
    let id = id.copy();
    Ok(Command::Raw { id, frames })
}

/// These frames again.
fn copy_frames(alloc: Global, frames: &[Frame]) -> Result<Items<Frame>, AllocError>
    ensures { IfOk result (λ a. a ≡ frames.now) }
{
    let mut copies = Vec::with_capacity(alloc, frames.len())?;
    for frame in frames {
        copies.push(frame.copy())?;
    }
    Ok(Items::new(copies))
}

fn copy_put(alloc: Global, message: &Msg) -> Result<Command, AllocError>
    ensures { IfOk result (λ c. c ≡ Command.Put message.now) }
{
    let message = message.copy(alloc)?;
    Ok(Command::Put { message })
}

fn copy_get(alloc: Global, acceptable: u32, key: &[u8]) -> Result<Command, AllocError>
    ensures { IfOk result (λ c. c ≡ Command.Get acceptable key.now) }
{
    let key = Items::from_bytes(alloc, key)?;
    Ok(Command::Get { acceptable, key })
}

fn copy_lookup(alloc: Global, name: &[u8]) -> Result<Command, AllocError>
    ensures { IfOk result (λ c. c ≡ Command.Lookup name.now) }
{
    let name = Items::from_bytes(alloc, name)?;
    Ok(Command::Lookup { name })
}

fn copy_on_put(alloc: Global, slot: u8, message: &Msg) -> Result<Command, AllocError>
    ensures { IfOk result (λ c. c ≡ Command.OnPut slot message.now) }
{
    let message = message.copy(alloc)?;
    Ok(Command::OnPut { slot, message })
}

fn copy_on_get(alloc: Global, slot: u8, acceptable: u32, key: &[u8]) -> Result<Command, AllocError>
    ensures { IfOk result (λ c. c ≡ Command.OnGet slot acceptable key.now) }
{
    let key = Items::from_bytes(alloc, key)?;
    Ok(Command::OnGet {
        slot,
        acceptable,
        key,
    })
}

fn copy_puts(alloc: Global, puts: &[SlotPut]) -> Result<Command, AllocError>
    ensures { IfOk result (λ c. c ≡ Command.Puts puts.now) }
{
    let mut copies = Vec::with_capacity(alloc, puts.len())?;
    for put in puts {
        copies.push(put.copy(alloc)?)?;
    }
    Ok(Command::Puts(Items::new(copies)))
}
