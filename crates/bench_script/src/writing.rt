//! Writing a command as a line.

ghost use Rattle.std.specs.Prelude.{◌≡◌, ◌≤◌, ◌++◌, ◌∷◌, ℕ, List, map, length, codes, OnOk, OnErr};
ghost use Rattle.std.specs.Fmt.{decimal};
ghost use Rattle.hex.specs.Hex.{encode_upper};
ghost use Rattle.bench_script.specs.Script.{fate_letter, Spells};
ghost use Rattle.bench_script.specs.Canonical.{hex_text, id_text, message_text, fates_text, frame_text, slot_put_text};
ghost use Rattle.bench_script.specs.Canonical.{row_text, place_text, canonical, IsReadAs};

use crate::command::{Command, DeviceId, SlotPut};
use crate::message::Msg;
use nfc_base::{Fate, Frame, Items};
use nfca_poll::Ident;
use std::alloc::AllocError;

impl Command {
    /// Adds the command's canonical spelling to `target`: its digits are in upper case, and no LF ends it. It is
    /// written into memory of its own first.
    #[tactic(auto, using(crate::proofs::Canonical::read_back, crate::proofs::Canonical::none_shorter))]
    pub fn write_to(&self, target: &mut Vec<u8>) -> Result<(), AllocError>
        ensures ok { OnOk result (target.new.items ≡ target.old.items ++ canonical self.now) }
        ensures err { OnErr result (target.new.items ≡ target.old.items) }
        ensures back { (line : List ℕ) → Spells line self.now → IsReadAs (canonical self.now) self.now }
        ensures short { (line : List ℕ) → Spells line self.now → length (canonical self.now) ≤ length line }
    {
        let mut line = Vec::new(*target.allocator());
        self.append_to(&mut line)?;
        target.extend_from_slice(&line)
    }

    /// Adds its canonical spelling.
    fn append_to(&self, line: &mut Vec<u8>) -> Result<(), AllocError>
        ensures { OnOk result (line.new.items ≡ line.old.items ++ canonical self.now) }
    {
        match self {
            Command::Skip => Ok(()),
            Command::Fates(fates) => add_fates(line, fates.as_slice()),
            Command::PlaceT2 { id, blocks, head } => {
                add_place(line, b"t2", id.view(), *blocks as u32)?;
                add_hex(line, head.as_slice())
            }
            Command::PlaceT3 { id, blocks, head } => {
                add_place(line, b"t3", id.as_slice(), *blocks as u32)?;
                add_hex(line, head.as_slice())
            }
            Command::PlaceT4 {
                id,
                code,
                container,
                head,
            } => {
                add_place(line, b"t4", id.view(), *code as u32)?;
                add_hex(line, container.as_slice())?;
                add_hex(line, head.as_slice())
            }
            Command::PlaceT5 {
                id,
                blocks,
                size,
                head,
            } => {
                add_place(line, b"t5", id.as_slice(), *blocks as u32)?;
                add_number(line, *size as u32)?;
                add_hex(line, head.as_slice())
            }
            Command::PlacePeer {
                id,
                lr,
                miu,
                rw,
                limit,
            } => add_peer(line, id, *lr, *miu, *rw, *limit),
            Command::Lock { id, block } => {
                add_named(line, b"lock", id)?;
                add_number(line, *block as u32)
            }
            Command::Busy { id, count, times } => {
                add_named(line, b"busy", id)?;
                add_number(line, *count as u32)?;
                add_number(line, *times as u32)
            }
            Command::Offer { id, key, value } => {
                add_named(line, b"offer", id)?;
                add_hex(line, key.as_slice())?;
                add_hex(line, value.as_slice())
            }
            Command::Remove { id } => add_named(line, b"remove", id),
            Command::Dump { id } => add_named(line, b"dump", id),
            Command::Inbox { id } => add_named(line, b"inbox", id),
            Command::Find => line.extend_from_slice(b"find"),
            Command::Crowd => line.extend_from_slice(b"crowd"),
            Command::Poll3 => line.extend_from_slice(b"poll3"),
            Command::Read { id } => add_named(line, b"read", id),
            Command::Read3 { id } => {
                line.extend_from_slice(b"read3")?;
                add_digits(line, id.as_slice())
            }
            Command::Write { id, message } => {
                add_named(line, b"write", id)?;
                add_message(line, message)
            }
            Command::Write3 { id, message } => {
                line.extend_from_slice(b"write3")?;
                add_digits(line, id.as_slice())?;
                add_message(line, message)
            }
            Command::Link { id, miu, rw } => {
                line.extend_from_slice(b"link")?;
                add_digits(line, id.view())?;
                add_number(line, *miu as u32)?;
                add_number(line, *rw as u32)
            }
            Command::Forge { id, payloads } => add_forge(line, id, payloads.as_slice()),
            Command::Raw { id, frames } => add_raw(line, id, frames.as_slice()),
            Command::Put { message } => {
                line.extend_from_slice(b"put")?;
                add_message(line, message)
            }
            Command::Get { acceptable, key } => {
                line.extend_from_slice(b"get")?;
                add_number(line, *acceptable)?;
                add_hex(line, key.as_slice())
            }
            Command::Lookup { name } => {
                line.extend_from_slice(b"lookup ")?;
                line.extend_from_slice(name.as_slice())
            }
            Command::OnPut { slot, message } => {
                add_on(line, *slot, b"put")?;
                add_message(line, message)
            }
            Command::OnGet {
                slot,
                acceptable,
                key,
            } => {
                add_on(line, *slot, b"get")?;
                add_number(line, *acceptable)?;
                add_hex(line, key.as_slice())
            }
            Command::Puts(puts) => add_puts(line, puts.as_slice()),
            Command::Unlink => line.extend_from_slice(b"unlink"),
        }
    }
}

/// Adds `place`, a kind, an identifier and a number.
fn add_place(line: &mut Vec<u8>, kind: &[u8], id: &[u8], number: u32) -> Result<(), AllocError>
    ensures { OnOk result (line.new.items ≡ line.old.items ++ codes "place " ++ kind.now ++ 32 ∷ encode_upper id.now
        ++ 32 ∷ decimal number) }
{
    line.extend_from_slice(b"place ")?;
    line.extend_from_slice(kind)?;
    add_digits(line, id)?;
    add_number(line, number)
}

/// Adds `place peer`, and the values of its words.
fn add_peer(
    line: &mut Vec<u8>,
    id: &Ident,
    lr: u8,
    miu: u16,
    rw: u8,
    limit: u32,
) -> Result<(), AllocError>
    ensures { OnOk result (line.new.items ≡ line.old.items ++ canonical (Command.PlacePeer id.now lr miu rw limit)) }
{
    add_place(line, b"peer", id.view(), lr as u32)?;
    add_number(line, miu as u32)?;
    add_number(line, rw as u32)?;
    add_number(line, limit)
}

/// Adds `forge`, an identifier and payloads.
fn add_forge(line: &mut Vec<u8>, id: &Ident, payloads: &[Items<u8>]) -> Result<(), AllocError>
    ensures { OnOk result (line.new.items ≡ line.old.items ++ canonical (Command.Forge id.now payloads.now)) }
{
    line.extend_from_slice(b"forge")?;
    add_digits(line, id.view())?;
    add_payloads(line, payloads)
}

/// Adds payloads, each behind a space.
fn add_payloads(line: &mut Vec<u8>, payloads: &[Items<u8>]) -> Result<(), AllocError>
    ensures { OnOk result (line.new.items ≡ line.old.items ++ row_text (map encode_upper payloads.now)) }
{
    for payload in payloads {
        add_digits(line, payload.as_slice())?;
    }
    Ok(())
}

/// Adds `raw`, an identifier and frames.
fn add_raw(line: &mut Vec<u8>, id: &DeviceId, frames: &[Frame]) -> Result<(), AllocError>
    ensures { OnOk result (line.new.items ≡ line.old.items ++ canonical (Command.Raw id.now frames.now)) }
{
    add_named(line, b"raw", id)?;
    add_frames(line, frames)
}

/// Adds frames, each behind a space.
fn add_frames(line: &mut Vec<u8>, frames: &[Frame]) -> Result<(), AllocError>
    ensures { OnOk result (line.new.items ≡ line.old.items ++ row_text (map frame_text frames.now)) }
{
    for frame in frames {
        add_frame(line, frame)?;
    }
    Ok(())
}

/// Adds a space, and a frame.
fn add_frame(line: &mut Vec<u8>, frame: &Frame) -> Result<(), AllocError>
    ensures { OnOk result (line.new.items ≡ line.old.items ++ 32 ∷ frame_text frame.now) }
{
    add_hex(line, frame.view())?;
    if frame.tail() != 0 {
        line.push(b'/')?;
        add_decimal(line, frame.tail() as u32)?;
    }
    Ok(())
}

/// Adds `on`, the number of a slot, and what its client does.
fn add_on(line: &mut Vec<u8>, slot: u8, what: &[u8]) -> Result<(), AllocError>
    ensures { OnOk result (line.new.items ≡ line.old.items ++ codes "on " ++ decimal slot ++ 32 ∷ what.now) }
{
    line.extend_from_slice(b"on")?;
    add_number(line, slot as u32)?;
    line.push(b' ')?;
    line.extend_from_slice(what)
}

/// Adds `puts`, and what each client puts.
fn add_puts(line: &mut Vec<u8>, puts: &[SlotPut]) -> Result<(), AllocError>
    ensures { OnOk result (line.new.items ≡ line.old.items ++ canonical (Command.Puts puts.now)) }
{
    line.extend_from_slice(b"puts")?;
    add_slot_puts(line, puts)
}

/// Adds puts, each behind a space.
fn add_slot_puts(line: &mut Vec<u8>, puts: &[SlotPut]) -> Result<(), AllocError>
    ensures { OnOk result (line.new.items ≡ line.old.items ++ row_text (map slot_put_text puts.now)) }
{
    for put in puts {
        add_slot_put(line, put)?;
    }
    Ok(())
}

/// Adds a space, the number of a slot, and what its client puts.
fn add_slot_put(line: &mut Vec<u8>, put: &SlotPut) -> Result<(), AllocError>
    ensures { OnOk result (line.new.items ≡ line.old.items ++ 32 ∷ slot_put_text put.now) }
{
    add_number(line, put.slot as u32)?;
    line.push(b':')?;
    add_spelled(line, &put.message)
}

/// Adds a command's name and an identifier.
fn add_named(line: &mut Vec<u8>, name: &[u8], id: &DeviceId) -> Result<(), AllocError>
    ensures { OnOk result (line.new.items ≡ line.old.items ++ name.now ++ 32 ∷ id_text id.now) }
{
    line.extend_from_slice(name)?;
    add_digits(line, id.bytes())
}

/// Adds a space, and two digits a byte.
fn add_digits(line: &mut Vec<u8>, bytes: &[u8]) -> Result<(), AllocError>
    ensures { OnOk result (line.new.items ≡ line.old.items ++ 32 ∷ encode_upper bytes.now) }
{
    line.push(b' ')?;
    add_pairs(line, bytes)
}

/// Adds two digits a byte.
fn add_pairs(line: &mut Vec<u8>, bytes: &[u8]) -> Result<(), AllocError>
    ensures { OnOk result (line.new.items ≡ line.old.items ++ encode_upper bytes.now) }
{
    let digits = hex::encode_upper(*line.allocator(), bytes)?;
    line.extend_from_slice(digits.as_bytes())
}

/// Adds a space, and some bytes, or `-` for none.
fn add_hex(line: &mut Vec<u8>, bytes: &[u8]) -> Result<(), AllocError>
    ensures { OnOk result (line.new.items ≡ line.old.items ++ 32 ∷ hex_text bytes.now) }
{
    line.push(b' ')?;
    add_bytes(line, bytes)
}

/// Adds some bytes, or `-` for none.
fn add_bytes(line: &mut Vec<u8>, bytes: &[u8]) -> Result<(), AllocError>
    ensures { OnOk result (line.new.items ≡ line.old.items ++ hex_text bytes.now) }
{
    if bytes.is_empty() {
        line.extend_from_slice(b"-")
    } else {
        add_pairs(line, bytes)
    }
}

/// Adds a space, and a message as it was spelled.
fn add_message(line: &mut Vec<u8>, message: &Msg) -> Result<(), AllocError>
    ensures { OnOk result (line.new.items ≡ line.old.items ++ 32 ∷ message_text message.now) }
{
    line.push(b' ')?;
    add_spelled(line, message)
}

/// Adds a message as it was spelled.
fn add_spelled(line: &mut Vec<u8>, message: &Msg) -> Result<(), AllocError>
    ensures { OnOk result (line.new.items ≡ line.old.items ++ message_text message.now) }
{
    match message {
        Msg::Hex(bytes) => add_bytes(line, bytes.as_slice()),
        Msg::Gen { count, start } => {
            line.extend_from_slice(b"gen:")?;
            add_decimal(line, *count)?;
            line.push(b':')?;
            add_decimal(line, *start as u32)
        }
    }
}

/// Adds a space, and a number.
fn add_number(line: &mut Vec<u8>, number: u32) -> Result<(), AllocError>
    ensures { OnOk result (line.new.items ≡ line.old.items ++ 32 ∷ decimal number) }
{
    line.push(b' ')?;
    add_decimal(line, number)
}

/// Adds a number.
fn add_decimal(line: &mut Vec<u8>, number: u32) -> Result<(), AllocError>
    ensures { OnOk result (line.new.items ≡ line.old.items ++ decimal number) }
{
    let digits = number.to_string(*line.allocator())?;
    line.extend_from_slice(digits.as_bytes())
}

/// Adds `fates`, and a letter for each.
fn add_fates(line: &mut Vec<u8>, fates: &[Fate]) -> Result<(), AllocError>
    ensures { OnOk result (line.new.items ≡ line.old.items ++ codes "fates " ++ fates_text fates.now) }
{
    line.extend_from_slice(b"fates ")?;
    for fate in fates {
        line.push(letter_of(*fate))?;
    }
    Ok(())
}

/// The letter of a fate.
fn letter_of(fate: Fate) -> u8
    ensures { result ≡ fate_letter fate }
{
    match fate {
        Fate::Pass => b'P',
        Fate::Damage => b'D',
        Fate::Lose => b'L',
        Fate::Break => b'B',
    }
}
