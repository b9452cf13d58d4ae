//! The report's line of an answer, in pieces.

ghost use Rattle.std.specs.Prelude.{◌≡◌, ◌+◌, ◌*◌, ◌<◌, ◌≤◌, ◌++◌, [], length, codes, if◌then◌else◌};
ghost use Rattle.std.specs.Fmt.{decimal};
ghost use Rattle.hex.specs.Hex.{encode_upper};
ghost use Rattle.bench_script.specs.Canonical.{hex_text};
ghost use Rattle.bench_world.specs.Report.{access_text, found_text, tags_text, inbox_text, replies_text};
ghost use Rattle.bench_world.specs.Report.{all_heard_text, puts_text, answer_text, code_text, loss_text, line_text};

use crate::entry::{Answer, Entry, Loss, RawHeard, Received, Seen, SlotDone};
use crate::fixed_text::{push_digits, push_number, push_text};
use crate::listed::{Listed, sign_of_none};
use arrayvec::ArrayVec;
use nfc_base::Items;
use std::marker::Model;
use std::mem;

/// How many bytes one piece brings the digits of at most.
const MOST_BYTES: usize = 320;

/// Goes over the pieces of an answer's line, none of which is empty. Contracts see the text that is left. It takes no
/// memory.
#[derive(Debug, Drop)]
pub struct AnswerPieces<'a> {
    head: ArrayVec<u8, 640>,
    bytes: &'a [u8],
    listed: Listed<'a>,
    tail: ArrayVec<u8, 640>,
}

impl<'a> Model for AnswerPieces<'a> {
    ghost use Rattle.std.specs.Prelude.{ℕ, List, ◌++◌};
    ghost use Rattle.hex.specs.Hex.{encode_upper};
    ghost use Rattle.bench_world.specs.Listing.{listed_text};

    ghost Value = { List ℕ };

    ghost view = { λ p. p.head.items ++ (encode_upper p.bytes.now ++ (listed_text p.listed ++ p.tail.items)) };
}

/// The pieces of the line of an entry's answer.
pub fn answer_pieces(entry: &Entry) -> AnswerPieces<'_>
    ensures { result ≡ line_text entry.now.line (answer_text entry.now.answer) }
{
    let line = entry.line;
    match &entry.answer {
        Answer::Done => in_words(line, b"ok"),
        Answer::NotNdef => in_words(line, b"not ndef"),
        Answer::Version => in_words(line, b"version"),
        Answer::NoRead => in_words(line, b"no read"),
        Answer::Sectors => in_words(line, b"sectors"),
        Answer::BadSize => in_words(line, b"bad size"),
        Answer::NoMessageTlv => in_words(line, b"no message tlv"),
        Answer::BadTlv => in_words(line, b"bad tlv"),
        Answer::Unfinished => in_words(line, b"unfinished"),
        Answer::Disturbed => in_words(line, b"disturbed"),
        Answer::FieldLost => in_words(line, b"field lost"),
        Answer::NotFound => in_words(line, b"not found"),
        Answer::SixBad => in_words(line, b"six bad"),
        Answer::Written => in_words(line, b"written"),
        Answer::Refused(code) => refused(line, *code),
        Answer::ReadOnly => in_words(line, b"read only"),
        Answer::TooLong(room) => numbered(line, b"too long ", *room as u64),
        Answer::ShortMlc => in_words(line, b"short mlc"),
        Answer::WrongKind => in_words(line, b"wrong kind"),
        Answer::Store(bytes) => with_bytes(line, b"store ", bytes.as_slice(), b""),
        Answer::Inbox(messages) => inbox(line, messages.as_slice()),
        Answer::Found { devices, crowd } => found(line, devices.as_slice(), *crowd),
        Answer::Crowd(tags) => crowd(line, tags.as_slice()),
        Answer::T3None => in_words(line, b"t3 none"),
        Answer::T3One(id) => with_bytes(line, b"t3 ", id.as_slice(), b""),
        Answer::T3Crowd => in_words(line, b"t3 crowd"),
        Answer::Message { message, writable } => {
            with_bytes(line, b"message ", message.as_slice(), access(*writable))
        }
        Answer::Linked(link) => numbered(line, b"linked ", *link as u64),
        Answer::Success => in_words(line, b"success"),
        Answer::Reject => in_words(line, b"reject"),
        Answer::Value(value) => with_bytes(line, b"value ", value.as_slice(), b""),
        Answer::NoValue => in_words(line, b"no value"),
        Answer::Excess => in_words(line, b"excess"),
        Answer::NotImplemented => in_words(line, b"not implemented"),
        Answer::Sap(sap) => numbered(line, b"sap ", *sap as u64),
        Answer::LinkEnded(loss) => in_words(line, ended_by(*loss)),
        Answer::Replies(all) => replies(line, all.as_slice()),
        Answer::Heard(all) => heard(line, all.as_slice()),
        Answer::Puts(done) => puts(line, done.as_slice()),
        Answer::Unlinked => in_words(line, b"unlinked"),
        Answer::NoLink => in_words(line, b"no link"),
    }
}

/// The front of a line: its number, a space, and some words.
fn begun(line: u32, words: &[u8]) -> ArrayVec<u8, 640>
    requires { length words.now ≤ 32 }
    ensures value { result.items ≡ decimal line ++ codes " " ++ words.now }
    ensures size { length result.items ≤ 53 }
{
    let mut head = ArrayVec::new();
    push_number(&mut head, line as u64);
    push_text(&mut head, b" ");
    push_text(&mut head, words);
    head
}

/// The end of a line.
fn ended(text: &[u8]) -> ArrayVec<u8, 640>
    requires { length text.now ≤ 32 }
    ensures { result.items ≡ text.now ++ codes "\n" }
{
    let mut tail = ArrayVec::new();
    push_text(&mut tail, text);
    push_text(&mut tail, b"\n");
    tail
}

fn in_words<'a>(line: u32, words: &[u8]) -> AnswerPieces<'a>
    requires { length words.now ≤ 32 }
    ensures { result ≡ line_text line words.now }
{
    whole(begun(line, words))
}

/// A line that one piece holds, but for its end.
fn whole<'a>(text: ArrayVec<u8, 640>) -> AnswerPieces<'a>
    requires { length text.items ≤ 73 }
    ensures { result ≡ text.items ++ codes "\n" }
{
    let mut head = text;
    push_text(&mut head, b"\n");
    AnswerPieces {
        head,
        bytes: &[],
        listed: Listed::Nothing,
        tail: ArrayVec::new(),
    }
}

/// Words, some bytes in hex, and an end.
fn with_bytes<'a>(line: u32, words: &[u8], bytes: &'a [u8], end: &[u8]) -> AnswerPieces<'a>
    requires { (length words.now ≤ 32) × (length end.now ≤ 32) }
    ensures { result ≡ line_text line (words.now ++ hex_text bytes.now ++ end.now) }
{
    let mut head = begun(line, words);
    push_text(&mut head, sign_of_none(bytes));
    AnswerPieces {
        head,
        bytes,
        listed: Listed::Nothing,
        tail: ended(end),
    }
}

/// Whether the message may be written.
fn access(writable: bool) -> &'static [u8]
    ensures value { result.now ≡ codes " " ++ access_text writable }
    ensures size { length result.now ≤ 32 }
{
    if writable {
        b" writable".as_slice()
    } else {
        b" readonly".as_slice()
    }
}

/// The code by which a tag refused a command.
fn refused<'a>(line: u32, code: u16) -> AnswerPieces<'a>
    ensures { result ≡ line_text line (codes "refused " ++ code_text code) }
{
    let mut head = begun(line, b"refused ");
    push_digits(&mut head, &[(code / 256) as u8, (code % 256) as u8]);
    whole(head)
}

/// Words and a number.
fn numbered<'a>(line: u32, words: &[u8], number: u64) -> AnswerPieces<'a>
    requires { length words.now ≤ 32 }
    ensures { result ≡ line_text line (words.now ++ decimal number) }
{
    let mut head = begun(line, words);
    push_number(&mut head, number);
    whole(head)
}

/// How a link ended.
fn ended_by(loss: Loss) -> &'static [u8]
    ensures value { result.now ≡ codes "link ended " ++ loss_text loss }
    ensures size { length result.now ≤ 32 }
{
    match loss {
        Loss::FieldLost => b"link ended field lost".as_slice(),
        Loss::SixBad => b"link ended six bad".as_slice(),
    }
}

/// How many devices were found, which, and whether there is a crowd beside them.
fn found(line: u32, devices: &[Seen], crowd: bool) -> AnswerPieces<'_>
    ensures { result ≡ line_text line (found_text devices.now crowd) }
{
    let mut head = begun(line, b"found ");
    push_number(&mut head, devices.len() as u64);
    AnswerPieces {
        head,
        bytes: &[],
        listed: Listed::Devices(devices),
        tail: ended(crowd_text(crowd)),
    }
}

/// Whether there is a crowd beside the devices.
fn crowd_text(crowd: bool) -> &'static [u8]
    ensures value { result.now ≡ (if crowd then codes " crowd" else []) }
    ensures size { length result.now ≤ 32 }
{
    if crowd {
        b" crowd".as_slice()
    } else {
        b"".as_slice()
    }
}

/// How many messages a peer's server accepted, and which.
fn inbox(line: u32, messages: &[Received]) -> AnswerPieces<'_>
    ensures { result ≡ line_text line (inbox_text messages.now) }
{
    let mut head = begun(line, b"inbox ");
    push_number(&mut head, messages.len() as u64);
    AnswerPieces {
        head,
        bytes: &[],
        listed: Listed::Messages(messages),
        tail: ended(b""),
    }
}

/// How many Type 5 tags were found, and which.
fn crowd(line: u32, tags: &[[u8; 8]]) -> AnswerPieces<'_>
    ensures { result ≡ line_text line (tags_text tags.now) }
{
    let mut head = begun(line, b"crowd ");
    push_number(&mut head, tags.len() as u64);
    AnswerPieces {
        head,
        bytes: &[],
        listed: Listed::Tags(tags),
        tail: ended(b""),
    }
}

/// The reply to each payload that was written by hand.
fn replies(line: u32, replies: &[Items<u8>]) -> AnswerPieces<'_>
    ensures { result ≡ line_text line (replies_text replies.now) }
{
    AnswerPieces {
        head: begun(line, b"heard"),
        bytes: &[],
        listed: Listed::Replies(replies),
        tail: ended(b""),
    }
}

/// What was heard behind each frame that a script sent.
fn heard(line: u32, all: &[RawHeard]) -> AnswerPieces<'_>
    ensures { result ≡ line_text line (all_heard_text all.now) }
{
    AnswerPieces {
        head: begun(line, b"heard"),
        bytes: &[],
        listed: Listed::Heard(all),
        tail: ended(b""),
    }
}

/// What each client was told of its put.
fn puts(line: u32, done: &[SlotDone]) -> AnswerPieces<'_>
    ensures { result ≡ line_text line (puts_text done.now) }
{
    AnswerPieces {
        head: begun(line, b"puts"),
        bytes: &[],
        listed: Listed::Puts(done),
        tail: ended(b""),
    }
}

impl<'a> Iterator for AnswerPieces<'a> {
    ghost use Rattle.std.specs.Prelude.{length};
    ghost use Rattle.std.specs.Iterator.{at_most};
    ghost use Rattle.bench_world.specs.Report.{GivesPiece};

    type Item = ArrayVec<u8, 640>;

    ghost next_gives = { λ old piece new. GivesPiece old piece new };

    ghost remaining = { λ left. at_most (length left) };

    fn next(&mut self) -> Option<ArrayVec<u8, 640>> {
        if !self.head.is_empty() {
            return Some(mem::replace(&mut self.head, ArrayVec::new()));
        }
        if !self.bytes.is_empty() {
            let (front, rest) = self.bytes.split_at(self.bytes.len().min(MOST_BYTES));
            self.bytes = rest;
            return Some(digits(front));
        }
        if let Some((piece, bytes)) = self.listed.next_item() {
            self.bytes = bytes;
            return Some(piece);
        }
        if !self.tail.is_empty() {
            return Some(mem::replace(&mut self.tail, ArrayVec::new()));
        }
        None
    }
}

fn digits(bytes: &[u8]) -> ArrayVec<u8, 640>
    requires { length bytes.now ≤ 320 }
    ensures value { result.items ≡ encode_upper bytes.now }
    ensures size { length result.items ≡ 2 * length bytes.now }
{
    let mut piece = ArrayVec::new();
    push_digits(&mut piece, bytes);
    piece
}
