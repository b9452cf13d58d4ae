//! What the frames of a trace brought to the target.

ghost use Rattle.std.specs.Prelude.{◌≡◌, ◌<◌, ◌≤◌, length, drop};
ghost use Rattle.nfc_base.specs.LinkTurns.{arrived};
ghost use Rattle.dep_link.specs.Frames.{spelled};
ghost use Rattle.dep_link.specs.Payloads.{brings_payload};
ghost use Rattle.dep_link.specs.Exchange.{frames_of};
ghost use Rattle.dep_link.specs.private.Taking.{taken_as, taken_in};

use crate::frames::{after, spelled};
use dep_pdu::DepFrame;
use nfc_base::{Event, Fate, Frame};

/// What becomes of a frame that arrived.
#[derive(Clone, Copy, Debug, PartialEq, Eq)]
pub(crate) enum Taking {
    /// It isn't the next one.
    Passed,
    /// It is taken, and no payload is whole with it.
    Taken,
    /// The last piece of a payload is taken.
    Whole,
}

/// What becomes of a frame where this PNI is next.
fn taken_as(next: u8, frame: &Frame) -> Taking
    ensures { result ≡ taken_as next (spelled frame.now) }
{
    match spelled(frame) {
        Some(
            DepFrame::Info {
                up: false,
                more,
                pni,
                ..
            },
        ) if pni == next => { if more { Taking::Taken } else { Taking::Whole } }
        Some(DepFrame::Ack { up: false, pni }) if pni == next => Taking::Taken,
        _ => Taking::Passed,
    }
}

/// What becomes of the frame of an event, which may be none that arrived.
fn taken_in(next: u8, event: &Event) -> Taking
    ensures { result ≡ taken_in next event.now }
{
    match event {
        Event::Request { frame, fate } => match fate {
            Fate::Pass => taken_as(next, frame),
            _ => Taking::Passed,
        },
        _ => Taking::Passed,
    }
}

/// Whether some events brought a whole payload to the target, counted from this PNI.
fn brings_payload(events: &[Event], first: u8) -> bool
    requires { first < 4 }
    ensures { result ≡ brings_payload first (frames_of (arrived events.now)) }
{
    let mut next = first;
    for event in events {
        match taken_in(next, event) {
            Taking::Passed => {}
            Taking::Taken => next = after(next),
            Taking::Whole => return true,
        }
    }
    false
}

/// The same of the events of a trace from a place on.
pub(crate) fn brings_since(trace: &[Event], start: usize, first: u8) -> bool
    requires place { start ≤ length trace.now }
    requires number { first < 4 }
    ensures { result ≡ brings_payload first (frames_of (arrived (drop start trace.now))) }
{
    brings_payload(&trace[start..], first)
}
