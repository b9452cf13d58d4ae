//! Events with one of them changed.

use nfc_base::{Event, Fate, Frame};
use std::alloc::{AllocError, Global};

/// How one event is changed.
#[derive(Clone, Copy, Debug, PartialEq, Eq)]
pub(crate) enum Change {
    /// It isn't there.
    LeftOut,
    /// It stands twice.
    Doubled,
    /// A bit of its frame's first byte is another.
    Byte,
    /// Its fate is another.
    Fate,
}

/// The same event again.
pub(crate) fn copy_event(event: &Event) -> Event {
    match event {
        Event::Reset => Event::Reset,
        Event::Request { frame, fate } => Event::Request {
            frame: frame.copy(),
            fate: *fate,
        },
        Event::Answer { frame, fate } => Event::Answer {
            frame: frame.copy(),
            fate: *fate,
        },
        Event::Clash { frame, fate } => Event::Clash {
            frame: frame.copy(),
            fate: *fate,
        },
    }
}

/// A frame whose first byte has another lowest bit; the same where it has none.
fn other_frame(frame: &Frame) -> Frame {
    let mut bytes = [0; 288];
    let len = frame.view().len();
    bytes[..len].copy_from_slice(frame.view());
    bytes[0] ^= 1;
    match Frame::part(frame.tech(), &bytes[..len], frame.tail()) {
        Ok(other) => other,
        Err(_) => frame.copy(),
    }
}

/// Another fate.
fn other_fate(fate: Fate) -> Fate {
    if let Fate::Pass = fate {
        Fate::Damage
    } else {
        Fate::Pass
    }
}

/// A frame and a fate, of which one is changed.
fn other_sent(frame: &Frame, fate: Fate, change: Change) -> (Frame, Fate) {
    if let Change::Byte = change {
        (other_frame(frame), fate)
    } else {
        (frame.copy(), other_fate(fate))
    }
}

/// The event with a byte or its fate changed; a reset stays.
fn other_event(event: &Event, change: Change) -> Event {
    match event {
        Event::Reset => Event::Reset,
        Event::Request { frame, fate } => {
            let (frame, fate) = other_sent(frame, *fate, change);
            Event::Request { frame, fate }
        }
        Event::Answer { frame, fate } => {
            let (frame, fate) = other_sent(frame, *fate, change);
            Event::Answer { frame, fate }
        }
        Event::Clash { frame, fate } => {
            let (frame, fate) = other_sent(frame, *fate, change);
            Event::Clash { frame, fate }
        }
    }
}

/// The events, with that at a place changed so.
pub(crate) fn changed(
    alloc: Global,
    events: &[Event],
    place: usize,
    change: Change,
) -> Result<Vec<Event>, AllocError> {
    let mut other = Vec::new(alloc);
    for (at, event) in events.iter().enumerate() {
        if at != place {
            other.push(copy_event(event))?;
            continue;
        }
        match change {
            Change::LeftOut => {}
            Change::Doubled => {
                other.push(copy_event(event))?;
                other.push(copy_event(event))?;
            }
            Change::Byte | Change::Fate => other.push(other_event(event, change))?,
        }
    }
    Ok(other)
}

/// With how many events both begin.
pub(crate) fn front_of(events: &[Event], other: &[Event]) -> usize {
    for (place, (event, changed)) in events.iter().zip(other).enumerate() {
        if event != changed {
            return place;
        }
    }
    events.len().min(other.len())
}
