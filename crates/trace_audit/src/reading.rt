//! Reads the events of a command off a report.

ghost use Rattle.std.specs.Prelude.{◌≡◌, ◌≢◌, ℕ, List, MatchOption, IfOk};
ghost use Rattle.nfc_base.specs.Signal.{signal};
ghost use Rattle.nfc_base.specs.declared.event.Event.{Event as Happens};
ghost use Rattle.bench_world.specs.Report.{event_text, line_text};
ghost use Rattle.bench_world.specs.ReadBack.{IsOf};
ghost use Rattle.trace_audit.specs.Reading.{is_inventory as asks_all, sent_tech as tech_sent};
ghost use Rattle.trace_audit.specs.ReadEvents.{AreRead, IsInFront, IsNext, tech_behind as behind};

use crate::cutting::first_line;
use crate::event_texts::likely_event;
use bench_script::Command;
use bench_world::event_line;
use nfc_base::{Event, Frame, Tech};
use std::alloc::{AllocError, Global};

/// What was read of a report, and what is left of it.
#[derive(Drop)]
pub struct Read<'a> {
    pub events: Vec<Event>,
    pub left: &'a [u8],
}

/// Reads the events of a command off the front of a report, up to the first line that isn't one of its events.
pub fn read_events<'a>(
    alloc: Global,
    line: u32,
    command: &Command,
    report: &'a [u8],
) -> Result<Read<'a>, AllocError>
    ensures { IfOk result (λ r. AreRead line command.now report.now r.events.items r.left.now) }
{
    let mut events = Vec::new(alloc);
    let mut last = Tech::A;
    let mut left = report;
    'events: while let Some((event, rest)) = front_event(line, command, last, left) {
        last = tech_behind(last, &event);
        events.push(event)?;
        left = rest;
    }
    Ok(Read { events, left })
}

/// The technology of the last request.
fn tech_behind(last: Tech, event: &Event) -> Tech
    ensures { result ≡ behind last event.now }
{
    match event {
        Event::Request { frame, .. } => frame.tech(),
        _ => last,
    }
}

/// The event of a command whose line stands at the front of a text, behind a request of this technology, and what
/// stands behind it.
fn front_event<'a>(
    line: u32,
    command: &Command,
    last: Tech,
    text: &'a [u8],
) -> Option<(Event, &'a [u8])>
    ensures { MatchOption result ((e : Happens) (more : List ℕ) → IsInFront line command.now last text.now e more → ⊥)
        (λ x. IsInFront line command.now last text.now x.0 x.1.now) }
{
    let (first, rest) = first_line(text)?;
    let event = next_event(line, command, last, first)?;
    Some((event, rest))
}

/// The event of a command of which a text is the line, behind a request of this technology.
fn next_event(line: u32, command: &Command, last: Tech, text: &[u8]) -> Option<Event>
    ensures { MatchOption result ((e : Happens) → IsNext line command.now last text.now e → ⊥)
        (IsNext line command.now last text.now) }
{
    match read_event(line, last, text)? {
        Event::Request { frame, fate } => Some(Event::Request {
            frame: of_tech(sent_tech(command, frame.view(), frame.tail()), &frame),
            fate,
        }),
        event => Some(event),
    }
}

/// The event of this technology of which a text is the line, with its LF. It takes no memory.
pub fn read_event(line: u32, tech: Tech, text: &[u8]) -> Option<Event>
    ensures { MatchOption result ((e : Happens) → IsOf tech e → text.now ≢ line_text line (event_text e))
        (λ e. IsOf tech e × (text.now ≡ line_text line (event_text e))) }
{
    let event = likely_event(tech, text)?;
    if event_line(line, &event).as_slice() == text {
        Some(event)
    } else {
        None
    }
}

/// The same frame in another technology.
fn of_tech(tech: Tech, frame: &Frame) -> Frame
    ensures { result ≡ signal tech frame.now.bytes frame.now.tail }
{
    Frame::part(tech, frame.view(), frame.tail()).unwrap()
}

/// The technology of a command's request with these bytes and this tail.
fn sent_tech(command: &Command, bytes: &[u8], tail: u8) -> Tech
    ensures { result ≡ tech_sent command.now bytes.now tail }
{
    match command {
        Command::Find if is_inventory(bytes, tail) => Tech::V,
        Command::Crowd => Tech::V,
        Command::Poll3 | Command::Read3 { .. } | Command::Write3 { .. } => Tech::F,
        Command::Read { id } | Command::Write { id, .. } | Command::Raw { id, .. } => id.tech(),
        _ => Tech::A,
    }
}

/// Whether a frame asks all NFC-V devices for their identifiers.
fn is_inventory(bytes: &[u8], tail: u8) -> bool
    ensures { result ≡ asks_all bytes.now tail }
{
    bytes == b"\x26\x01\x00".as_slice() && tail == 0
}
