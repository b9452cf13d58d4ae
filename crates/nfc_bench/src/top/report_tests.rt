//! What the report says of events and answers that are made here, each kind of them.

use bench_script::{Command, DeviceId, parse_line};
use bench_world::{Answer, Entry, Loss, Received, Seen, SeenKind, answer_pieces, render};
use nfc_base::{Event, Fate, Frame, Items, Tech};
use std::alloc::Global;
use std::process::Abort;
use std::test::Fail;

/// An event: its mark in the report, the technology, bytes and tail of its frame, and the frame's fate.
type Sent = (u8, Tech, &'static [u8], u8, Fate);

/// What happened behind a reset.
const SENT: [Sent; 4] = [
    (b'>', Tech::A, &[0x26], 7, Fate::Pass),
    (b'<', Tech::A, &[0x04, 0xAB], 0, Fate::Damage),
    (b'*', Tech::A, &[], 0, Fate::Lose),
    (b'>', Tech::V, &[0x26, 0x01, 0x00], 0, Fate::Break),
];

fn event(row: &Sent) -> Result<Event, Fail> {
    let (mark, tech, bytes, tail, fate) = *row;
    let frame = Frame::part(tech, bytes, tail)?;
    Ok(match mark {
        b'>' => Event::Request { frame, fate },
        b'<' => Event::Answer { frame, fate },
        _ => Event::Clash { frame, fate },
    })
}

fn events(alloc: Global) -> Result<Items<Event>, Fail> {
    let mut events = vec![in alloc; Event::Reset]?;
    for row in &SENT {
        events.push(event(row)?)?;
    }
    Ok(Items::new(events))
}

/// An entry with each of these events.
fn eventful(alloc: Global) -> Result<Entry, Fail> {
    Ok(Entry {
        line: 12,
        command: parse_line(alloc, b"place t2 01020304 16 E110")?,
        events: events(alloc)?,
        answer: answer(alloc, Told::Message(&[0xD0, 0x0F], false))?,
    })
}

/// The text of an entry.
fn text(alloc: Global, entry: &Entry, quiet: bool) -> Result<String, Fail> {
    Ok(String::from_utf8(render(alloc, entry, quiet)?)?)
}

#[test]
fn every_event(rt: HostRuntime) -> Result<(), Fail> {
    let alloc = rt.alloc();
    let entry = eventful(alloc)?;
    let rows = [
        (
            false,
            "12 ! reset\n12 > 26/7 pass\n12 < 04AB damage\n12 * - lose\n12 > 260100 break\n12 message D00F readonly\n",
        ),
        (true, "12 message D00F readonly\n"),
    ];
    for (quiet, wanted) in rows {
        assert_eq!(rt; text(alloc, &entry, quiet)?.as_str(), wanted);
    }
    Ok(())
}

/// An answer as a table has it: of a message its link, its source and its bytes, of a device its identifier and its
/// kind.
#[derive(Clone, Copy)]
enum Told {
    Done,
    Store(&'static [u8]),
    Inbox(&'static [(u32, u8, &'static [u8])]),
    Found(&'static [(&'static str, SeenKind)], bool),
    Message(&'static [u8], bool),
    NotNdef,
    NoMessageTlv,
    Disturbed,
    FieldLost,
    NotFound,
    WrongKind,
    SixBad,
    Linked(u32),
    Success,
    Reject,
    Value(&'static [u8]),
    NoValue,
    Excess,
    NotImplemented,
    Sap(u8),
    LinkEnded(Loss),
    Unlinked,
    NoLink,
}

fn answer(alloc: Global, told: Told) -> Result<Answer, Fail> {
    Ok(match told {
        Told::Done => Answer::Done,
        Told::Store(bytes) => Answer::Store(Items::from_bytes(alloc, bytes)?),
        Told::Inbox(messages) => Answer::Inbox(accepted(alloc, messages)?),
        Told::Found(devices, crowd) => Answer::Found {
            devices: found(alloc, devices)?,
            crowd,
        },
        Told::Message(bytes, writable) => Answer::Message {
            message: Items::from_bytes(alloc, bytes)?,
            writable,
        },
        Told::NotNdef => Answer::NotNdef,
        Told::NoMessageTlv => Answer::NoMessageTlv,
        Told::Disturbed => Answer::Disturbed,
        Told::FieldLost => Answer::FieldLost,
        Told::NotFound => Answer::NotFound,
        Told::WrongKind => Answer::WrongKind,
        Told::SixBad => Answer::SixBad,
        Told::Linked(link) => Answer::Linked(link),
        Told::Success => Answer::Success,
        Told::Reject => Answer::Reject,
        Told::Value(bytes) => Answer::Value(Items::from_bytes(alloc, bytes)?),
        Told::NoValue => Answer::NoValue,
        Told::Excess => Answer::Excess,
        Told::NotImplemented => Answer::NotImplemented,
        Told::Sap(sap) => Answer::Sap(sap),
        Told::LinkEnded(loss) => Answer::LinkEnded(loss),
        Told::Unlinked => Answer::Unlinked,
        Told::NoLink => Answer::NoLink,
    })
}

fn accepted(alloc: Global, rows: &[(u32, u8, &[u8])]) -> Result<Items<Received>, Fail> {
    let mut messages = Vec::new(alloc);
    for (link, source, bytes) in rows {
        let message = Items::from_bytes(alloc, bytes)?;
        messages.push(Received {
            link: *link,
            source: *source,
            message,
        })?;
    }
    Ok(Items::new(messages))
}

/// The identifier of a device, as a line spells it.
fn id(alloc: Global, text: &str) -> Result<DeviceId, Fail> {
    let line = format!(in alloc; "read {text}")?;
    match parse_line(alloc, line.as_bytes())? {
        Command::Read { id } => Ok(id),
        _ => Err(Fail::new("no read")),
    }
}

fn found(alloc: Global, rows: &[(&str, SeenKind)]) -> Result<Items<Seen>, Fail> {
    let mut devices = Vec::new(alloc);
    for (text, kind) in rows {
        let id = id(alloc, text)?;
        devices.push(Seen { id, kind: *kind })?;
    }
    Ok(Items::new(devices))
}

/// An entry without events.
fn answered(alloc: Global, told: Told) -> Result<Entry, Fail> {
    Ok(Entry {
        line: 7,
        command: Command::Find,
        events: Items::new(Vec::new(alloc)),
        answer: answer(alloc, told)?,
    })
}

fn line(alloc: Global, told: Told) -> Result<String, Fail> {
    text(alloc, &answered(alloc, told)?, false)
}

/// The line of each answer is this.
fn reports(rt: &impl Abort, alloc: Global, rows: &[(Told, &str)]) -> Result<(), Fail> {
    for (told, wanted) in rows {
        assert_eq!(rt; line(alloc, *told)?.as_str(), *wanted);
    }
    Ok(())
}

/// Messages from another SAP and from the client's, an empty one, and one that came on no link.
const ACCEPTED: &[(u32, u8, &[u8])] = &[
    (1, 33, &[0xD1]),
    (1, 32, &[0xD0, 0x0F]),
    (4294967295, 32, &[]),
    (0, 4, &[0xAB]),
];

/// One device of each kind.
const DEVICES: &[(&str, SeenKind)] = &[
    ("030203FF", SeenKind::T2),
    ("04112233445566", SeenKind::T4),
    ("08010203", SeenKind::Peer),
    ("E0040102030405AB", SeenKind::T5),
];

const ANSWERS: [(Told, &str); 15] = [
    (Told::Done, "7 ok\n"),
    (Told::Store(&[0, 0xAB]), "7 store 00AB\n"),
    (Told::Store(&[]), "7 store -\n"),
    (Told::NotNdef, "7 not ndef\n"),
    (Told::NoMessageTlv, "7 no message tlv\n"),
    (Told::Disturbed, "7 disturbed\n"),
    (Told::FieldLost, "7 field lost\n"),
    (Told::NotFound, "7 not found\n"),
    (Told::WrongKind, "7 wrong kind\n"),
    (Told::SixBad, "7 six bad\n"),
    (Told::Inbox(&[]), "7 inbox 0\n"),
    (
        Told::Inbox(ACCEPTED),
        "7 inbox 4 1.33:D1 1:D00F 4294967295:- 0.4:AB\n",
    ),
    (Told::Found(&[], false), "7 found 0\n"),
    (Told::Found(&[], true), "7 found 0 crowd\n"),
    (
        Told::Found(DEVICES, true),
        "7 found 4 030203FF:t2 04112233445566:t4 08010203:peer E0040102030405AB:t5 crowd\n",
    ),
];

#[test]
fn answers(rt: HostRuntime) -> Result<(), Fail> {
    reports(&rt, rt.alloc(), &ANSWERS)
}

const ANSWERS_OF_LINKS: [(Told, &str); 14] = [
    (Told::Linked(4294967295), "7 linked 4294967295\n"),
    (Told::Success, "7 success\n"),
    (Told::Reject, "7 reject\n"),
    (Told::Value(&[0xA1, 0x0B]), "7 value A10B\n"),
    (Told::Value(&[]), "7 value -\n"),
    (Told::NoValue, "7 no value\n"),
    (Told::Excess, "7 excess\n"),
    (Told::NotImplemented, "7 not implemented\n"),
    (Told::Sap(0), "7 sap 0\n"),
    (Told::Sap(63), "7 sap 63\n"),
    (
        Told::LinkEnded(Loss::FieldLost),
        "7 link ended field lost\n",
    ),
    (Told::LinkEnded(Loss::SixBad), "7 link ended six bad\n"),
    (Told::Unlinked, "7 unlinked\n"),
    (Told::NoLink, "7 no link\n"),
];

#[test]
fn answers_of_links(rt: HostRuntime) -> Result<(), Fail> {
    reports(&rt, rt.alloc(), &ANSWERS_OF_LINKS)
}

/// How many bytes each piece of an answer has.
fn sizes(alloc: Global, told: Told) -> Result<Vec<usize>, Fail> {
    let entry = answered(alloc, told)?;
    let mut sizes = Vec::new(alloc);
    for piece in answer_pieces(&entry) {
        sizes.push(piece.len())?;
    }
    Ok(sizes)
}

/// The digits of a message take three pieces.
#[test]
fn pieces_of_a_long_message(rt: HostRuntime) -> Result<(), Fail> {
    let sizes = sizes(rt.alloc(), Told::Inbox(&[(1, 33, &[0xAB; 700])]))?;
    assert_eq!(rt; sizes.as_slice(), [9, 6, 640, 640, 120, 1].as_slice());
    Ok(())
}
