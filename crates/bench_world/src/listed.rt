//! What an answer lists, an item at a time.

ghost use Rattle.std.specs.Prelude.{◌≡◌, ◌+◌, ◌<◌, ◌≤◌, ◌++◌, length};
ghost use Rattle.hex.specs.Hex.{encode_upper};
ghost use Rattle.bench_script.specs.Canonical.{hex_text};
ghost use Rattle.bench_world.specs.Report.{kind_text, seen_text, tag_text, source_text, received_text, reply_text};
ghost use Rattle.bench_world.specs.Report.{heard_text, outcome_text, slot_done_text};
ghost use Rattle.bench_world.specs.Listing.{listed_text, GivesItem};

use crate::entry::{RawHeard, Received, Seen, SlotDone};
use crate::event_lines::push_frame;
use crate::fixed_text::{push_hex, push_number, push_text};
use arrayvec::ArrayVec;
use bench_devices::SeenKind;
use bench_script::DeviceId;
use nfc_base::Items;
use snep_core::CLIENT_SAP;

/// The items that are left of what an answer lists.
#[derive(Debug, Drop)]
pub enum Listed<'a> {
    Nothing,
    Devices(&'a [Seen]),
    Messages(&'a [Received]),
    Tags(&'a [[u8; 8]]),
    Replies(&'a [Items<u8>]),
    Heard(&'a [RawHeard]),
    Puts(&'a [SlotDone]),
}

impl<'a> Listed<'a> {
    /// Takes the next item: its piece, and the bytes whose digits stand behind that.
    pub fn next_item(&mut self) -> Option<(ArrayVec<u8, 640>, &'a [u8])>
        ensures { GivesItem (listed_text self.old) result (listed_text self.new) }
    {
        match self {
            Listed::Nothing => None,
            Listed::Devices(all) => {
                let (seen, rest) = all.split_first()?;
                *all = rest;
                Some((device(seen), &[]))
            }
            Listed::Messages(all) => {
                let (received, rest) = all.split_first()?;
                *all = rest;
                Some((origin(received), received.message.as_slice()))
            }
            Listed::Tags(all) => {
                let (id, rest) = all.split_first()?;
                *all = rest;
                Some((tag(*id), &[]))
            }
            Listed::Replies(all) => {
                let (reply, rest) = all.split_first()?;
                *all = rest;
                Some((before_reply(reply), reply.as_slice()))
            }
            Listed::Heard(all) => {
                let (heard, rest) = all.split_first()?;
                *all = rest;
                Some((what_was_heard(heard), &[]))
            }
            Listed::Puts(all) => {
                let (done, rest) = all.split_first()?;
                *all = rest;
                Some((outcome(*done), &[]))
            }
        }
    }
}

/// What stands for no bytes in hex; nothing where there are some.
pub fn sign_of_none(bytes: &[u8]) -> &'static [u8]
    ensures value { hex_text bytes.now ≡ result.now ++ encode_upper bytes.now }
    ensures size { length result.now ≤ 1 }
{
    if bytes.is_empty() {
        b"-".as_slice()
    } else {
        b"".as_slice()
    }
}

/// A device that was found.
fn device(seen: &Seen) -> ArrayVec<u8, 640>
    ensures value { result.items ≡ seen_text seen.now }
    ensures some { 0 < length result.items }
{
    let mut piece = ArrayVec::new();
    push_text(&mut piece, b" ");
    match &seen.id {
        DeviceId::A(id) => push_hex(&mut piece, id.view()),
        DeviceId::V(id) => push_uid(&mut piece, *id),
    }
    push_text(&mut piece, b":");
    push_text(&mut piece, kind_name(seen.kind));
    piece
}

/// A Type 5 tag that was found.
fn tag(id: [u8; 8]) -> ArrayVec<u8, 640>
    ensures value { result.items ≡ tag_text id }
    ensures some { 0 < length result.items }
{
    let mut piece = ArrayVec::new();
    push_text(&mut piece, b" ");
    push_uid(&mut piece, id);
    piece
}

/// The identifier of a Type 5 tag.
fn push_uid(piece: &mut ArrayVec<u8, 640>, id: [u8; 8])
    requires { length piece.old.items ≤ 1 }
    ensures value { piece.new.items ≡ piece.old.items ++ hex_text id }
    ensures size { length piece.new.items ≤ length piece.old.items + 17 }
{
    push_hex(piece, &id);
}

fn kind_name(kind: SeenKind) -> &'static [u8]
    ensures value { result.now ≡ kind_text kind }
    ensures size { length result.now ≤ 4 }
{
    match kind {
        SeenKind::T2 => b"t2".as_slice(),
        SeenKind::T4 => b"t4".as_slice(),
        SeenKind::T5 => b"t5".as_slice(),
        SeenKind::Peer => b"peer".as_slice(),
    }
}

/// What stands before a message's digits: where it came from, and the sign that it has no bytes where it has none.
fn origin(received: &Received) -> ArrayVec<u8, 640>
    ensures value { received_text received.now ≡ result.items ++ encode_upper received.now.message }
    ensures some { 0 < length result.items }
{
    let mut piece = ArrayVec::new();
    push_text(&mut piece, b" ");
    push_number(&mut piece, received.link as u64);
    push_source(&mut piece, received.source);
    push_text(&mut piece, b":");
    push_text(&mut piece, sign_of_none(received.message.as_slice()));
    piece
}

/// What stands before a reply's digits: a space, and the sign that it has no bytes where it has none.
fn before_reply(reply: &Items<u8>) -> ArrayVec<u8, 640>
    ensures value { reply_text reply.now ≡ result.items ++ encode_upper reply.now }
    ensures some { 0 < length result.items }
{
    let mut piece = ArrayVec::new();
    push_text(&mut piece, b" ");
    push_text(&mut piece, sign_of_none(reply.as_slice()));
    piece
}

/// The SAP from which a message came, where it is another than the client's.
fn push_source(piece: &mut ArrayVec<u8, 640>, source: u8)
    requires { length piece.old.items ≤ 21 }
    ensures value { piece.new.items ≡ piece.old.items ++ source_text source }
    ensures size { length piece.new.items ≤ length piece.old.items + 21 }
{
    if source != CLIENT_SAP {
        push_text(piece, b".");
        push_number(piece, source as u64);
    }
}

/// What was heard behind a frame.
fn what_was_heard(heard: &RawHeard) -> ArrayVec<u8, 640>
    ensures value { result.items ≡ heard_text heard.now }
    ensures some { 0 < length result.items }
{
    let mut piece = ArrayVec::new();
    push_text(&mut piece, b" ");
    match heard {
        RawHeard::Whole(frame) => push_frame(&mut piece, frame),
        RawHeard::Silent => push_text(&mut piece, b"silent"),
        RawHeard::Damaged => push_text(&mut piece, b"damaged"),
        RawHeard::Clash => push_text(&mut piece, b"clash"),
    }
    piece
}

/// What a client was told of its put.
fn outcome(done: SlotDone) -> ArrayVec<u8, 640>
    ensures value { result.items ≡ slot_done_text done }
    ensures some { 0 < length result.items }
{
    let mut piece = ArrayVec::new();
    push_text(&mut piece, b" ");
    push_number(&mut piece, done.slot as u64);
    push_text(&mut piece, outcome_name(done.success));
    piece
}

fn outcome_name(success: bool) -> &'static [u8]
    ensures value { result.now ≡ outcome_text success }
    ensures size { length result.now ≤ 8 }
{
    if success {
        b":success".as_slice()
    } else {
        b":reject".as_slice()
    }
}
