//! A Type 3 tag as a device: in the light and in the dark, and read and written over a link on a field.

ghost use Rattle.std.specs.Prelude.{◌≡◌, IfOk};
ghost use Rattle.device_tests.specs.Threes.{own_id, HasThree};

use crate::rows::Step::{Dark, Hears, Light};
use crate::rows::{Step, goes_through};
use air_core::{Field, PlainLink};
use bench_devices::{Device, PoweredTag};
use nfc_base::{Event, Fate};
use std::alloc::Global;
use std::test::Fail;
use t3t_access::{read3, write3};
use t3t_tag::T3Tag;

const ID: [u8; 8] = [1, 2, 3, 4, 5, 6, 7, 8];

/// The attribute block of a tag of fourteen blocks that holds a message of three bytes.
const ATTRIBUTES: [u8; 16] = [0x10, 4, 1, 0, 0x0D, 0, 0, 0, 0, 0, 1, 0, 0, 3, 0, 0x26];

/// Polling, and what the tag answers.
const POLL: Step = Hears(
    &[6, 0, 0x12, 0xFC, 0, 0],
    0,
    &[0x12, 1, 1, 2, 3, 4, 5, 6, 7, 8, 0, 0, 0, 0, 0, 0, 0, 0],
);

const SILENT_POLL: Step = Hears(&[6, 0, 0x12, 0xFC, 0, 0], 0, &[]);

/// A Check for another tag.
const OTHER: Step = Hears(
    &[0x10, 6, 1, 2, 3, 4, 5, 6, 7, 9, 1, 0x0B, 0, 1, 0x80, 0],
    0,
    &[],
);

fn type_3_tag(alloc: Global) -> Result<T3Tag, Fail>
    ensures { IfOk result (λ t. t.id ≡ own_id) }
{
    let mut store = ATTRIBUTES.to_vec(alloc)?;
    store.push(0xD0)?;
    for _ in 1..208u8 {
        store.push(0)?;
    }
    Ok(T3Tag::new(ID, store)?)
}

#[test]
fn type_3_tag_has_power_in_the_light(rt: HostRuntime) -> Result<(), Fail> {
    let steps = [
        SILENT_POLL,
        Light,
        POLL,
        POLL,
        OTHER,
        Dark,
        SILENT_POLL,
        Light,
        POLL,
    ];
    let mut device = Device::T3(PoweredTag::new(type_3_tag(rt.alloc())?));
    goes_through(&rt, rt.alloc(), &mut device, &[&steps])
}

/// A lit field of one such tag, with these fates to come.
fn tag_field(alloc: Global, fates: &[Fate]) -> Result<Field<Device>, Fail>
    ensures { IfOk result (λ f. HasThree f) }
{
    let tag = type_3_tag(alloc)?;
    let mut field = Field::new(alloc);
    field.put_in(Device::T3(PoweredTag::new(tag)))?;
    field.add_fates(fates)?;
    field.reset()?;
    Ok(field)
}

/// What writing a message of one byte tells, 0 where it is written, and what reading it tells then: how many bytes it
/// has.
fn write_and_read(alloc: Global, field: &mut Field<Device>) -> (u8, Option<usize>)
    requires { HasThree field.old }
{
    let mut link = PlainLink::on(field, 0);
    let told = match write3(alloc, &mut link, ID, &[0xD1]) {
        Ok(()) => 0,
        Err(fault) => fault.number(),
    };
    match read3(alloc, &mut link, ID) {
        Ok(found) if found.writable => (told, Some(found.message.len())),
        _ => (told, None),
    }
}

/// The commands of a write of that message and of the reading behind it, and their answers.
const TALK: [(&[u8], &[u8]); 6] = [
    (
        &[0x10, 6, 1, 2, 3, 4, 5, 6, 7, 8, 1, 0x0B, 0, 1, 0x80, 0],
        &[
            0x1D, 7, 1, 2, 3, 4, 5, 6, 7, 8, 0, 0, 1, 0x10, 4, 1, 0, 0x0D, 0, 0, 0, 0, 0, 1, 0, 0,
            3, 0, 0x26,
        ],
    ),
    (
        &[
            0x20, 8, 1, 2, 3, 4, 5, 6, 7, 8, 1, 9, 0, 1, 0x80, 0, 0x10, 4, 1, 0, 0x0D, 0, 0, 0, 0,
            0x0F, 1, 0, 0, 3, 0, 0x35,
        ],
        &[0x0C, 9, 1, 2, 3, 4, 5, 6, 7, 8, 0, 0],
    ),
    (
        &[
            0x20, 8, 1, 2, 3, 4, 5, 6, 7, 8, 1, 9, 0, 1, 0x80, 1, 0xD1, 0, 0, 0, 0, 0, 0, 0, 0, 0,
            0, 0, 0, 0, 0, 0,
        ],
        &[0x0C, 9, 1, 2, 3, 4, 5, 6, 7, 8, 0, 0],
    ),
    (
        &[
            0x20, 8, 1, 2, 3, 4, 5, 6, 7, 8, 1, 9, 0, 1, 0x80, 0, 0x10, 4, 1, 0, 0x0D, 0, 0, 0, 0,
            0, 1, 0, 0, 1, 0, 0x24,
        ],
        &[0x0C, 9, 1, 2, 3, 4, 5, 6, 7, 8, 0, 0],
    ),
    (
        &[0x10, 6, 1, 2, 3, 4, 5, 6, 7, 8, 1, 0x0B, 0, 1, 0x80, 0],
        &[
            0x1D, 7, 1, 2, 3, 4, 5, 6, 7, 8, 0, 0, 1, 0x10, 4, 1, 0, 0x0D, 0, 0, 0, 0, 0, 1, 0, 0,
            1, 0, 0x24,
        ],
    ),
    (
        &[0x10, 6, 1, 2, 3, 4, 5, 6, 7, 8, 1, 0x0B, 0, 1, 0x80, 1],
        &[
            0x1D, 7, 1, 2, 3, 4, 5, 6, 7, 8, 0, 0, 1, 0xD1, 0, 0, 0, 0, 0, 0, 0, 0, 0, 0, 0, 0, 0,
            0, 0,
        ],
    ),
];

/// An event of this frame.
fn is_of(event: Option<&Event>, bytes: &[u8]) -> bool {
    match event {
        Some(Event::Request { frame, .. } | Event::Answer { frame, .. }) => frame.view() == bytes,
        _ => false,
    }
}

/// Whether these events are the talk, with the command of a number, and its answer, once more.
fn is_talk(events: &[Event], again: usize) -> bool {
    let mut left = events.iter();
    for (number, (command, answer)) in TALK.iter().enumerate() {
        let times: u8 = if number == again { 2 } else { 1 };
        for _ in 0..times {
            if !is_of(left.next(), command) || !is_of(left.next(), answer) {
                return false;
            }
        }
    }
    left.next().is_none()
}

/// The answer to no command, and to each command, is lost, or damaged: that command is sent once more, and every other
/// frame is the same.
#[test]
fn type_3_tag_is_written_and_read_over_a_link(rt: HostRuntime) -> Result<(), Fail> {
    for again in 0..7usize {
        for fate in [Fate::Lose, Fate::Damage] {
            let mut fates = Vec::new(rt.alloc());
            if again < 6 {
                for _ in 0..again {
                    fates.push(Fate::Pass)?;
                    fates.push(Fate::Pass)?;
                }
                fates.push(Fate::Pass)?;
                fates.push(fate)?;
            }
            let mut field = tag_field(rt.alloc(), &fates)?;
            assert_eq!(rt;
                write_and_read(rt.alloc(), &mut field),
                (0, Some(1)),
                "at {again}"
            );
            let told = match field.trace() {
                [Event::Reset, events @ ..] => is_talk(events, again),
                _ => false,
            };
            assert!(rt; told, "at {again} {fate:?}");
        }
    }
    Ok(())
}
