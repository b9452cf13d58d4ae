//! What events show.

use crate::{Shown, numbers_shown};
use nfc_base::{Event, Fate, Frame, FrameFault, Tech};
use std::alloc::Global;
use std::test::Fail;

/// Frames of NFC-DEP, one after the other, those with D5h from the target, and what is shown of them, counted from a
/// PNI.
#[derive(Clone, Copy)]
struct Row {
    says: &'static str,
    first: u8,
    frames: &'static [&'static [u8]],
    own: &'static [u32],
    far: &'static [u32],
}

const FATES: [Fate; 4] = [Fate::Pass, Fate::Lose, Fate::Damage, Fate::Break];

/// The event of a frame.
fn event(bytes: &[u8], fate: Fate) -> Result<Event, FrameFault> {
    let frame = Frame::whole(Tech::A, bytes)?;
    if bytes.get(2) == Some(&0xD5) {
        Ok(Event::Answer { frame, fate })
    } else {
        Ok(Event::Request { frame, fate })
    }
}

/// What is shown of a row.
fn shown(alloc: Global, row: &Row) -> Result<Shown, Fail> {
    let mut events = Vec::new(alloc);
    events.push(Event::Reset)?;
    for (at, bytes) in row.frames.iter().enumerate() {
        events.push(event(bytes, FATES[at % 4])?)?;
    }
    Ok(numbers_shown(alloc, row.first, &events)?)
}

/// An RR in an AGF: 0, 3, and the PDU 13h 60h N(R).
#[test]
fn numbers_are_those_of_the_frames(rt: HostRuntime) -> Result<(), Fail> {
    let rows = [
        Row {
            says: "nothing",
            first: 0,
            frames: &[&[0xF0, 0x03, 0xD4, 0x0A], &[0xF0, 0x03, 0xD5, 0x0B]],
            own: &[],
            far: &[],
        },
        Row {
            says: "one PDU whole, and a SYMM",
            first: 2,
            frames: &[
                &[0xF0, 0x07, 0xD4, 0x06, 0x02, 0x13, 0x60, 0x05],
                &[0xF0, 0x06, 0xD5, 0x07, 0x02, 0x00, 0x00],
            ],
            own: &[1],
            far: &[1],
        },
        Row {
            says: "an AGF of three in two pieces",
            first: 3,
            frames: &[
                &[
                    0xF0, 0x0C, 0xD4, 0x06, 0x13, 0x00, 0x80, 0, 3, 0x13, 0x60, 5, 0,
                ],
                &[0xF0, 0x04, 0xD5, 0x07, 0x43],
                &[
                    0xF0, 0x0C, 0xD4, 0x06, 0x00, 3, 0x13, 0x60, 6, 0, 2, 0x11, 0x60,
                ],
            ],
            own: &[3],
            far: &[],
        },
        Row {
            says: "a piece and a reply that are sent again",
            first: 0,
            frames: &[
                &[0xF0, 0x09, 0xD4, 0x06, 0x10, 0x00, 0x80, 0, 3, 0x13],
                &[0xF0, 0x04, 0xD4, 0x06, 0x80],
                &[0xF0, 0x04, 0xD5, 0x07, 0x80],
                &[0xF0, 0x09, 0xD4, 0x06, 0x10, 0x00, 0x80, 0, 3, 0x13],
                &[0xF0, 0x04, 0xD5, 0x07, 0x40],
                &[0xF0, 0x0B, 0xD4, 0x06, 0x01, 0x60, 5, 0, 3, 0x13, 0x60, 6],
                &[0xF0, 0x07, 0xD5, 0x07, 0x01, 0x83, 0x44, 0x01],
                &[0xF0, 0x04, 0xD4, 0x06, 0x51],
                &[0xF0, 0x07, 0xD5, 0x07, 0x01, 0x83, 0x44, 0x01],
            ],
            own: &[2],
            far: &[1],
        },
        Row {
            says: "a payload that is cut off behind an AGF's header",
            first: 0,
            frames: &[&[0xF0, 0x06, 0xD4, 0x06, 0x10, 0x00, 0x80]],
            own: &[0],
            far: &[],
        },
        Row {
            says: "a payload that is cut off behind the beginning of an I PDU",
            first: 0,
            frames: &[&[0xF0, 0x07, 0xD4, 0x06, 0x10, 0x13, 0x20, 0x50]],
            own: &[1],
            far: &[],
        },
        Row {
            says: "an AGF whose last PDU is cut short, and a frame without content",
            first: 0,
            frames: &[
                &[
                    0xF0, 0x0F, 0xD4, 0x06, 0x00, 0x00, 0x80, 0, 3, 0x13, 0x60, 5, 0, 4, 0x13, 0x60,
                ],
                &[0xF0, 0x04, 0xD5, 0x07, 0x00],
            ],
            own: &[0],
            far: &[],
        },
        Row {
            says: "both ends, the target's last payload cut off",
            first: 1,
            frames: &[
                &[0xF0, 0x07, 0xD4, 0x06, 0x01, 0x13, 0x60, 0x05],
                &[
                    0xF0, 0x10, 0xD5, 0x07, 0x01, 0x00, 0x80, 0, 3, 0x83, 0x44, 1, 0, 3, 0x83,
                    0x44, 2,
                ],
                &[
                    0xF0, 0x10, 0xD4, 0x06, 0x02, 0x00, 0x80, 0, 3, 0x13, 0x60, 5, 0, 3, 0x13,
                    0x60, 6,
                ],
                &[0xF0, 0x05, 0xD5, 0x07, 0x90, 0x01],
                &[0xF0, 0x05, 0xD4, 0x06, 0x90, 0x01],
                &[0xF0, 0x08, 0xD5, 0x07, 0x12, 0x00, 0x80, 0, 3],
            ],
            own: &[1, 2],
            far: &[2, 0],
        },
    ];
    for row in &rows {
        let Shown { own, far } = shown(rt.alloc(), row)?;
        assert_eq!(rt; own.as_slice(), row.own, "own of {}", row.says);
        assert_eq!(rt; far.as_slice(), row.far, "far of {}", row.says);
    }
    Ok(())
}
