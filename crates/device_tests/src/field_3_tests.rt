//! Type 3 tags of a field: polled, selected, read and written, under some fates.

ghost use Rattle.std.specs.Prelude.{IfOk};
ghost use Rattle.bench_devices.specs.Phases.{IsIdle};
ghost use Rattle.device_tests.specs.Threes.{IsTagOf};

use air_core::Field;
use bench_devices::{
    Device, PoweredTag, Selection, poll_three, read_three, select_three, write_three,
};
use nfc_base::Fate::{Break, Damage, Lose, Pass};
use nfc_base::{Event, Fate};
use nfca_poll::PollFault;
use std::alloc::Global;
use std::test::Fail;
use t3t_access::Fcrowd;
use t3t_tag::T3Tag;

const FIRST: [u8; 8] = [1, 2, 3, 4, 5, 6, 7, 8];

const SECOND: [u8; 8] = [1, 2, 3, 4, 5, 6, 7, 9];

/// An identifier that no tag has.
const OTHER: [u8; 8] = [1, 2, 3, 4, 5, 6, 7, 10];

/// The attribute block of a tag of two blocks that holds a message of one byte.
const ATTRIBUTES: [u8; 16] = [0x10, 4, 1, 0, 1, 0, 0, 0, 0, 0, 1, 0, 0, 1, 0, 0x18];

fn tag(alloc: Global, id: [u8; 8]) -> Result<T3Tag, Fail>
    ensures { IfOk result (λ t. IsTagOf id t) }
{
    let mut store = ATTRIBUTES.to_vec(alloc)?;
    store.push(0xD0)?;
    for _ in 1..16u8 {
        store.push(0)?;
    }
    let tag = T3Tag::new(id, store)?;
    let _whole = tag.store();
    Ok(tag)
}

/// A field of the first tag, with these fates to come.
fn one_tag(alloc: Global, fates: &[Fate]) -> Result<Field<Device>, Fail>
    ensures { IfOk result (λ f. IsIdle f) }
{
    let tag = tag(alloc, FIRST)?;
    let mut field = Field::new(alloc);
    field.put_in(Device::T3(PoweredTag::new(tag)))?;
    field.add_fates(fates)?;
    Ok(field)
}

/// A field of both tags.
fn two_tags(alloc: Global, fates: &[Fate]) -> Result<Field<Device>, Fail>
    ensures { IfOk result (λ f. IsIdle f) }
{
    let first = tag(alloc, FIRST)?;
    let second = tag(alloc, SECOND)?;
    let mut field = Field::new(alloc);
    field.put_in(Device::T3(PoweredTag::new(first)))?;
    field.put_in(Device::T3(PoweredTag::new(second)))?;
    field.add_fates(fates)?;
    Ok(field)
}

/// A field of so many of them.
fn field_of(alloc: Global, both: bool, fates: &[Fate]) -> Result<Field<Device>, Fail>
    ensures { IfOk result (λ f. IsIdle f) }
{
    if both {
        two_tags(alloc, fates)
    } else {
        one_tag(alloc, fates)
    }
}

const LOST: [Fate; 4] = [Lose; 4];

/// Each request passes, and each answer is damaged.
const DAMAGED: [Fate; 8] = [Pass, Damage, Pass, Damage, Pass, Damage, Pass, Damage];

/// Whether there are two tags, the fates, what polling tells, and how many transmissions it takes.
const POLLED: [(bool, &[Fate], Result<Fcrowd, PollFault>, usize); 6] = [
    (false, &[], Ok(Fcrowd::One(FIRST)), 2),
    (true, &[], Ok(Fcrowd::Crowd), 2),
    (false, &LOST, Ok(Fcrowd::Nobody), 4),
    (true, &[Lose, Damage], Ok(Fcrowd::Crowd), 4),
    (true, &DAMAGED, Err(PollFault::Disturbed), 8),
    (false, &[Pass, Break], Err(PollFault::FieldLost), 2),
];

#[test]
fn what_polling_a_field_tells(rt: HostRuntime) -> Result<(), Fail> {
    for &(both, fates, told, sent) in &POLLED {
        let mut field = field_of(rt.alloc(), both, fates)?;
        let outcome = (poll_three(&mut field), transmissions(field.trace()));
        assert_eq!(rt; outcome, (told, sent), "{both} {fates:?}");
    }
    Ok(())
}

/// How many transmissions are in a trace.
fn transmissions(events: &[Event]) -> usize {
    let mut count: usize = 0;
    for event in events {
        if !matches!(event, Event::Reset) {
            count = count.saturating_add(1);
        }
    }
    count
}

/// What reading or writing a tag comes to: none is found, the number of a fault, or how many bytes were read, of a
/// write 0.
#[derive(Clone, Copy, Debug, PartialEq, Eq)]
enum Told {
    Missed(PollFault),
    Fault(u8),
    Bytes(usize),
}

fn read(alloc: Global, field: &mut Field<Device>, id: [u8; 8]) -> Result<Told, Fail>
    requires { IsIdle field.old }
{
    match select_three(field, id)? {
        Selection::Missed(fault) => Ok(Told::Missed(fault)),
        Selection::Place(place) => match read_three(alloc, field, place, id) {
            Ok(found) => Ok(Told::Bytes(found.message.len())),
            Err(fault) => Ok(Told::Fault(fault.number())),
        },
    }
}

/// Whether there are two tags, the fates, the tag that is read, what this comes to, and how many transmissions it
/// takes.
const READ: [(bool, &[Fate], [u8; 8], Told, usize); 9] = [
    (false, &[], FIRST, Told::Bytes(1), 6),
    (false, &[], SECOND, Told::Missed(PollFault::NotFound), 2),
    // both are read behind the clash, and none else is
    (true, &[], FIRST, Told::Bytes(1), 6),
    (true, &[], SECOND, Told::Bytes(1), 6),
    (true, &[], OTHER, Told::Missed(PollFault::NotFound), 2),
    // so behind a damaged answer
    (false, &[Pass, Damage], FIRST, Told::Bytes(1), 6),
    (
        false,
        &[Pass, Damage],
        SECOND,
        Told::Missed(PollFault::NotFound),
        2,
    ),
    (false, &LOST, FIRST, Told::Missed(PollFault::NotFound), 4),
    (false, &[Pass, Pass, Pass, Break], FIRST, Told::Fault(9), 4),
];

#[test]
fn what_reading_in_a_field_tells(rt: HostRuntime) -> Result<(), Fail> {
    for &(both, fates, id, told, sent) in &READ {
        let mut field = field_of(rt.alloc(), both, fates)?;
        let outcome = read(rt.alloc(), &mut field, id)?;
        let outcome = (outcome, transmissions(field.trace()));
        assert_eq!(rt; outcome, (told, sent), "{both} {fates:?} {id:?}");
    }
    Ok(())
}

fn write(
    alloc: Global,
    field: &mut Field<Device>,
    id: [u8; 8],
    message: &[u8],
) -> Result<Told, Fail>
    requires { IsIdle field.old }
{
    match select_three(field, id)? {
        Selection::Missed(fault) => Ok(Told::Missed(fault)),
        Selection::Place(place) => match write_three(alloc, field, place, id, message) {
            Ok(()) => Ok(Told::Bytes(0)),
            Err(fault) => Ok(Told::Fault(fault.number())),
        },
    }
}

/// The flag of a write, and how many bytes the message has, of a tag that holds less than 256 bytes.
fn held(device: Option<&Device>) -> Option<(u8, u8)> {
    let Some(Device::T3(powered)) = device else {
        return None;
    };
    let store = powered.tag().store();
    Some((*store.get(9)?, *store.get(13)?))
}

const MESSAGE: [u8; 3] = [0xD0, 0, 0];

/// Whether there are two tags, the fates, the tag that is written, what this comes to, and what the tags hold then.
type Writing = (
    bool,
    &'static [Fate],
    [u8; 8],
    Told,
    Option<(u8, u8)>,
    Option<(u8, u8)>,
);

const BREAK_AT_THE_LAST_UPDATE: [Fate; 9] = [Pass, Pass, Pass, Pass, Pass, Pass, Pass, Pass, Break];

const WRITTEN: [Writing; 5] = [
    (false, &[], FIRST, Told::Bytes(0), Some((0, 3)), None),
    // the other one isn't changed
    (
        true,
        &[],
        SECOND,
        Told::Bytes(0),
        Some((0, 1)),
        Some((0, 3)),
    ),
    (
        true,
        &[],
        OTHER,
        Told::Missed(PollFault::NotFound),
        Some((0, 1)),
        Some((0, 1)),
    ),
    // a write was begun and not ended
    (
        false,
        &BREAK_AT_THE_LAST_UPDATE,
        FIRST,
        Told::Fault(9),
        Some((15, 1)),
        None,
    ),
    (
        false,
        &[Break],
        FIRST,
        Told::Missed(PollFault::FieldLost),
        Some((0, 1)),
        None,
    ),
];

#[test]
fn what_writing_in_a_field_leaves(rt: HostRuntime) -> Result<(), Fail> {
    for &(both, fates, id, told, first, second) in &WRITTEN {
        let mut field = field_of(rt.alloc(), both, fates)?;
        let outcome = write(rt.alloc(), &mut field, id, &MESSAGE)?;
        let tags = field.listeners();
        let outcome = (outcome, held(tags.first()), held(tags.get(1)));
        assert_eq!(rt; outcome, (told, first, second), "{both} {fates:?} {id:?}");
    }
    Ok(())
}
