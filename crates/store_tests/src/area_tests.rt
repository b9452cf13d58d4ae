//! Stores of real tags and of tags at the borders of the rules, and what they hold.

ghost use Rattle.std.specs.Prelude.{◌≡◌, ◌≤◌, length};
ghost use Rattle.tlv_area.specs.Layout.{IsArea};
ghost use Rattle.tlv_area.specs.Map.{IsPlaced};

use std::process::Abort;
use std::test::Fail;
use tlv_area::{
    AreaMap, ContainerFault, Space, T5Container, Walk, Walker, container_t2, container_t4,
    container_t5, copy_message, find_message, message_byte, one_form, one_form_t2, one_form_t5,
};

/// What a store holds: a message, or the number of a container's fault, 6 for no message and 7 for a bad TLV.
#[derive(Debug, Drop)]
enum Holds {
    Message(Vec<u8>),
    Fault(u8),
}

/// A store of so many bytes, 0 but for these from an address on.
pub fn store(rt: &HostRuntime, size: usize, at: usize, bytes: &[u8]) -> Result<Vec<u8>, Fail> {
    let mut store = vec![in rt.alloc(); 0u8; at]?;
    store.extend_from_slice(bytes)?;
    store.resize(size, 0)?;
    Ok(store)
}

/// What the area of a memory holds; 8 where the memory ends too early.
fn area_holds(rt: &HostRuntime, space: &Space, memory: &[u8]) -> Result<Holds, Fail>
    requires { IsArea space.now }
{
    match find_message(space, memory) {
        Walk::Held { map } => {
            let message = copy_message(rt.alloc(), &map, memory)?;
            Ok(Holds::Message(message))
        }
        Walk::NoMessageTlv => Ok(Holds::Fault(6)),
        Walk::BadTlv => Ok(Holds::Fault(7)),
        Walk::More => Ok(Holds::Fault(8)),
    }
}

fn t2_holds(rt: &HostRuntime, store: &[u8]) -> Result<Holds, Fail>
    requires { 16 ≤ length store.now }
{
    match container_t2(&[store[12], store[13], store[14], store[15]]) {
        Ok(space) => {
            if space.end as usize <= store.len() {
                one_form_t2(store);
            }
            area_holds(rt, &space, store)
        }
        Err(fault) => Ok(Holds::Fault(fault.number())),
    }
}

/// What a Type 2 tag of so many bytes holds.
fn t2_tag_holds(rt: &HostRuntime, size: usize, bytes: &[u8]) -> Result<Holds, Fail> {
    let store = store(rt, size, 12, bytes)?;
    if store.len() < 16 {
        return Err(Fail::new("a store without a container"));
    }
    t2_holds(rt, &store)
}

/// Whether it is this message; or, where a number stands beside it, that fault.
fn is_held(held: &Holds, fault: u8, message: &[u8]) -> bool {
    match held {
        Holds::Message(bytes) => fault == 0 && bytes.as_slice() == message,
        Holds::Fault(number) => *number == fault && message.is_empty(),
    }
}

/// Type 2 tags: how many bytes they have, what stands there from byte 12 on, and the message.
const MESSAGES: [(usize, &[u8], &[u8]); 12] = [
    // as delivered, an NTAG203: lock bits behind the area
    (
        180,
        &[0xE1, 0x10, 0x12, 0, 1, 3, 0xA0, 0x0C, 0x34, 3, 0, 0xFE],
        &[],
    ),
    (
        180,
        &[
            0xE1, 0x10, 0x12, 0, 1, 3, 0xA0, 0x0C, 0x34, 3, 12, 0xD1, 1, 8, 0x55, 1, 0x65, 0x78,
            0x61, 0x6D, 0x70, 0x6C, 0x65, 0xFE,
        ],
        &[
            0xD1, 1, 8, 0x55, 1, 0x65, 0x78, 0x61, 0x6D, 0x70, 0x6C, 0x65,
        ],
    ),
    (
        280,
        &[
            0xE1, 0x10, 0x21, 0, 1, 3, 0x90, 0x10, 0x35, 3, 3, 0xD0, 0, 0, 0xFE,
        ],
        &[0xD0, 0, 0],
    ),
    // four reserved bytes from address 32 on, before and after a message was written round them
    (
        64,
        &[
            0xE1, 0x10, 6, 0, 2, 3, 0x20, 4, 4, 3, 0, 0xFE, 0, 0, 0, 0, 0, 0, 0, 0, 0xAA, 0xBB,
            0xCC, 0xDD,
        ],
        &[],
    ),
    (
        64,
        &[
            0xE1, 0x10, 6, 0, 2, 3, 0x20, 4, 4, 3, 12, 1, 2, 3, 4, 5, 6, 7, 8, 9, 0xAA, 0xBB, 0xCC,
            0xDD, 10, 11, 12, 0xFE,
        ],
        &[1, 2, 3, 4, 5, 6, 7, 8, 9, 10, 11, 12],
    ),
    // three bytes for a length below 255, of the message and of a control TLV
    (
        64,
        &[0xE1, 0x10, 6, 0, 3, 0xFF, 0, 3, 0xD0, 0, 0, 0xFE],
        &[0xD0, 0, 0],
    ),
    (
        64,
        &[
            0xE1, 0x10, 6, 0, 1, 0xFF, 0, 3, 0x19, 9, 4, 3, 2, 0xAA, 0xBB, 0xCA, 0xCB,
        ],
        &[0xCA, 0xCB],
    ),
    // a range that begins at address 16 reserves only what lies past its own TLV
    (
        64,
        &[0xE1, 0x10, 6, 0, 2, 3, 0x10, 6, 4, 0xAA, 3, 1, 0x55, 0xFE],
        &[0x55],
    ),
    // two ranges, the later one named first: addresses 56 to 59 and 44 to 47
    (
        80,
        &[
            0xE1, 0x10, 8, 0, 2, 3, 0x38, 4, 4, 2, 3, 0x2C, 4, 4, 3, 24, 1, 2, 3, 4, 5, 6, 7, 8, 9,
            10, 11, 12, 13, 14, 15, 16, 0xAA, 0xAA, 0xAA, 0xAA, 17, 18, 19, 20, 21, 22, 23, 24,
            0xBB, 0xBB, 0xBB, 0xBB, 0xFE,
        ],
        &[
            1, 2, 3, 4, 5, 6, 7, 8, 9, 10, 11, 12, 13, 14, 15, 16, 17, 18, 19, 20, 21, 22, 23, 24,
        ],
    ),
    // the first message counts, and what stands behind it is not read
    (
        64,
        &[
            0xE1, 0x10, 6, 0, 3, 4, 0xDE, 0xAD, 0xBE, 0xEF, 3, 1, 0x42, 0xFE,
        ],
        &[0xDE, 0xAD, 0xBE, 0xEF],
    ),
    (
        64,
        &[
            0xE1, 0x10, 6, 0, 3, 8, 0x65, 0x6C, 0x65, 0x70, 0x68, 0x61, 0x6E, 0x74, 0xFE,
        ],
        b"elephant",
    ),
    // read-only, with no terminator
    (
        64,
        &[
            0xE1, 0x10, 6, 0x0F, 3, 0x21, 0xD1, 2, 0x1C, 0x53, 0x70, 0x91, 1, 9, 0x54, 2, 0x65,
            0x6E, 0x4C, 0x69, 0x62, 0x6E, 0x66, 0x63, 0x51, 1, 0x0B, 0x55, 3, 0x6C, 0x69, 0x62,
            0x6E, 0x66, 0x63, 0x2E, 0x6F, 0x72, 0x67,
        ],
        &[
            0xD1, 2, 0x1C, 0x53, 0x70, 0x91, 1, 9, 0x54, 2, 0x65, 0x6E, 0x4C, 0x69, 0x62, 0x6E,
            0x66, 0x63, 0x51, 1, 0x0B, 0x55, 3, 0x6C, 0x69, 0x62, 0x6E, 0x66, 0x63, 0x2E, 0x6F,
            0x72, 0x67,
        ],
    ),
];

#[test]
fn type_2_messages(rt: HostRuntime) -> Result<(), Fail> {
    for (size, bytes, message) in MESSAGES.iter() {
        let held = t2_tag_holds(&rt, *size, bytes)?;
        assert!(rt; is_held(&held, 0, message), "at {bytes:?}: {held:?}");
    }
    Ok(())
}

#[test]
fn type_2_faults(rt: HostRuntime) -> Result<(), Fail> {
    const ROWS: [(&[u8], u8); 11] = [
        (&[0, 0, 0, 0], 1),
        (&[0xE1, 0x20, 6, 0xF0], 2),
        (&[0xE1, 0x10, 6, 0xF0], 3),
        (&[0xE1, 0x10, 0x7F, 0], 4),
        (&[0xE1, 0x10, 0, 0], 5),
        (&[0xE1, 0x10, 6, 0, 0xFE], 6),
        (&[0xE1, 0x10, 6, 0], 6),
        (&[0xE1, 0x10, 6, 0, 0xFE, 3, 1, 0x42], 6),
        (&[0xE1, 0x10, 6, 0, 3, 0x30], 7),
        (&[0xE1, 0x10, 6, 0, 3, 0xFF, 0xFF, 0xFF], 7),
        (&[0xE1, 0x10, 6, 0, 5, 0xFF, 0, 0xFF, 3, 0], 7),
    ];
    for &(bytes, fault) in &ROWS {
        let held = t2_tag_holds(&rt, 64, bytes)?;
        assert!(rt; is_held(&held, fault, &[]), "at {bytes:?}: {held:?}");
    }
    Ok(())
}

fn t5_holds(rt: &HostRuntime, store: &[u8]) -> Result<Holds, Fail>
    requires { 4 ≤ length store.now }
{
    match container_t5(store) {
        Ok(
            T5Container::Ready {
                space,
                wide,
                many: _,
            },
        ) => {
            if wide != (store[0] == 0xE2) {
                return Err(Fail::new("another size of block numbers"));
            }
            area_holds(rt, &space, store)
        }
        Ok(T5Container::More) => Ok(Holds::Fault(8)),
        Err(fault) => Ok(Holds::Fault(fault.number())),
    }
}

/// What a Type 5 tag of so many bytes holds.
fn t5_tag_holds(rt: &HostRuntime, size: usize, bytes: &[u8]) -> Result<Holds, Fail> {
    let store = store(rt, size, 0, bytes)?;
    if store.len() < 4 {
        return Err(Fail::new("a store without a container"));
    }
    one_form_t5(&store, 4);
    t5_holds(rt, &store)
}

/// Type 5 tags: how many bytes they have, what they begin with, and what they hold: a fault's number, or a message.
const AREAS: [(usize, &[u8], u8, &[u8]); 11] = [
    // a tag that ends before its area
    (
        16,
        &[0xE1, 0x40, 6, 0, 3, 3, 0xD0, 0, 0, 0xFE],
        0,
        &[0xD0, 0, 0],
    ),
    (
        128,
        &[0xE1, 0x40, 0x0F, 0, 3, 3, 0xD0, 0, 0, 0xFE],
        0,
        &[0xD0, 0, 0],
    ),
    // a control TLV reserves nothing, and one that is passed over needs its last byte
    (
        16,
        &[0xE1, 0x40, 1, 0, 1, 3, 0x0B, 8, 4, 3, 1, 0x55],
        0,
        &[0x55],
    ),
    (16, &[0xE1, 0x40, 6, 0, 7, 12], 8, &[]),
    (16, &[0xE1, 0x80, 6, 0], 2, &[]),
    (16, &[0xE3, 0x40, 6, 0], 1, &[]),
    // containers of eight bytes: their area begins behind them, and is counted in bytes 6 and 7
    (
        16,
        &[0xE2, 0x40, 0, 0, 0, 0, 0, 1, 3, 3, 0xD0, 0, 0, 0xFE],
        0,
        &[0xD0, 0, 0],
    ),
    (
        16,
        &[0xE1, 0x40, 0, 0, 0xFF, 0xFF, 0, 1, 3, 3, 0xD0, 0, 0, 0xFE],
        0,
        &[0xD0, 0, 0],
    ),
    (16, &[0xE2, 0x40, 0, 0, 0, 1, 0, 0], 5, &[]),
    (16, &[0xE2, 0x4C, 0, 0], 3, &[]),
    (4, &[0xE1, 0x40, 0, 0], 8, &[]),
];

#[test]
fn type_5_areas(rt: HostRuntime) -> Result<(), Fail> {
    for (size, bytes, fault, message) in AREAS.iter() {
        let held = t5_tag_holds(&rt, *size, bytes)?;
        assert!(rt; is_held(&held, *fault, message), "at {bytes:?}: {held:?}");
    }
    Ok(())
}

/// What is open until its last byte, and where the area lies then.
#[test]
fn type_5_containers(rt: HostRuntime) {
    let largest = [0xE2, 0x43, 0, 3, 0, 0, 0xFF, 0xFF];
    for known in 0..8 {
        assert_eq!(rt;
            container_t5(&largest[..known]),
            Ok(T5Container::More),
            "at {known}"
        );
    }
    let space = Space {
        start: 8,
        end: 524_288,
        control: false,
        writable: false,
    };
    let (wide, many) = (true, true);
    assert_eq!(rt;
        container_t5(&largest),
        Ok(T5Container::Ready { space, wide, many })
    );
    let short = [0xE1, 0x40, 6, 2, 0, 0];
    let space = Space {
        start: 4,
        end: 52,
        control: false,
        writable: true,
    };
    let (wide, many) = (false, false);
    for known in 4..6 {
        assert_eq!(rt;
            container_t5(&short[..known]),
            Ok(T5Container::Ready { space, wide, many })
        );
    }
}

#[test]
fn type_4_files(rt: HostRuntime) {
    let whole = [0, 15, 0x20, 0, 0x3B, 0, 0x0D, 4, 6, 0xE1, 4, 2, 0, 0, 0];
    let file = container_t4(&whole).unwrap();
    assert_eq!(rt;
        (file.id, file.size, file.mle, file.mlc),
        (0xE104, 0x200, 59, 13)
    );
    assert!(rt; file.writable);
    let changes = [
        (7, 5, ContainerFault::NotNdef),
        (2, 0x10, ContainerFault::Version),
        (13, 0x80, ContainerFault::NoRead),
        (1, 14, ContainerFault::BadSize),
        (4, 14, ContainerFault::BadSize),
        (11, 0x80, ContainerFault::BadSize),
    ];
    for (at, byte, fault) in changes {
        let mut bytes = whole;
        if at < 15 {
            bytes[at] = byte;
        }
        assert_eq!(rt; container_t4(&bytes), Err(fault), "at {at}");
    }
}

/// An area of 48 bytes, from address 16 on.
fn space_of_48() -> Space
    ensures area { IsArea result }
    ensures end { result.end ≡ 64 }
{
    Space {
        start: 16,
        end: 64,
        control: true,
        writable: true,
    }
}

/// The walk over so many bytes of a store settles where they are as many as it needs, or more.
fn settles_at(rt: &impl Abort, store: &[u8], least: usize) {
    let space = space_of_48();
    for (known, _) in store.iter().enumerate() {
        let more = matches!(find_message(&space, store.split_at(known).0), Walk::More);
        assert_eq!(rt; more, known < least, "with {known}");
    }
}

/// The byte that shows a message, a fault or a terminator: with it the walk settles, without it the answer is More.
#[test]
fn fronts_settle_by_one_byte(rt: HostRuntime) -> Result<(), Fail> {
    const ROWS: [(usize, &[u8]); 7] = [
        (21, &[3, 3, 0xD0, 0, 0, 0xFE]),
        (18, &[3, 0, 0xFE]),
        (17, &[0xFE]),
        (18, &[3, 0x30]),
        (20, &[3, 0xFF, 0xFF, 0xFF]),
        (20, &[3, 0xFF, 1, 0]),
        (24, &[7, 5, 1, 2, 3, 4, 5, 0xFE]),
    ];
    for &(least, area) in &ROWS {
        let store = store(&rt, 64, 16, area)?;
        assert_eq!(rt; store.len(), 64, "at {area:?}");
        settles_at(&rt, &store, least);
    }
    Ok(())
}

/// The walk over a front of a memory, and then over all of it.
fn walk_twice(space: &Space, memory: &[u8], front: usize) -> Walk
    requires area { IsArea space.now }
    requires front { front ≤ length memory.now }
{
    let mut walker = Walker::new(space);
    if walker.needs_more(&memory[..front]) {
        walker.find_message(memory)
    } else {
        walker.find_message(&memory[..front])
    }
}

/// A walk that goes on at any byte of a store finds what one over all of it finds.
fn walk_goes_on(rt: &impl Abort, store: &[u8]) {
    let space = space_of_48();
    let whole = place_of(&find_message(&space, store));
    for (front, _) in store.iter().enumerate() {
        let again = walk_twice(&space, store, front);
        assert_eq!(rt; place_of(&again), whole, "with {front}");
    }
}

#[test]
fn walks_go_on(rt: HostRuntime) -> Result<(), Fail> {
    const ROWS: [&[u8]; 3] = [
        &[
            0, 2, 3, 0x28, 4, 4, 7, 2, 0xAA, 0xAA, 3, 12, 1, 2, 3, 4, 5, 6, 7, 8, 9, 10, 11, 12,
        ],
        &[2, 3, 0x1C, 4, 4, 0, 0, 0xFE],
        &[3, 0xFF, 0xFF, 0xFF],
    ];
    for &area in &ROWS {
        walk_goes_on(&rt, &store(&rt, 64, 16, area)?);
    }
    Ok(())
}

/// Where the message lies that a walk tells, by its ranges, its place and its length; or which other answer it is.
fn place_of(walk: &Walk) -> (usize, u32, u32) {
    match walk {
        Walk::Held { map } => (map.reserved.len(), map.tlv, map.length),
        Walk::NoMessageTlv => (0, 0, 1),
        Walk::BadTlv => (0, 0, 2),
        Walk::More => (0, 0, 3),
    }
}

/// Four bytes of which the last one locks the area or doesn't.
fn containers_tell_locks(rt: &impl Abort) {
    let space = space_of_48();
    assert_eq!(rt; container_t2(&[0xE1, 0x10, 6, 0]), Ok(space));
    let locked = Space {
        writable: false,
        ..space
    };
    assert_eq!(rt; container_t2(&[0xE1, 0x10, 6, 0x0F]), Ok(locked));
}

/// A message of twelve bytes lies round four reserved ones.
fn lies_round(rt: &impl Abort, map: &AreaMap)
    requires { IsPlaced map.now }
{
    assert_eq!(rt; map.reserved.as_slice(), [(32, 36)].as_slice());
    assert_eq!(rt; (map.tlv, map.long, map.length), (5, true, 12));
    for (index, place) in [(0, 25), (6, 31), (7, 36), (11, 40)] {
        if index < map.length {
            assert_eq!(rt; message_byte(map, index), place);
        }
    }
}

#[test]
fn maps_tell_where(rt: HostRuntime) -> Result<(), Fail> {
    let head = [
        0xE1, 0x10, 6, 0, 2, 3, 0x20, 4, 4, 3, 0xFF, 0, 12, 1, 2, 3, 4, 5, 6, 7, 0xAA, 0xBB, 0xCC,
        0xDD, 8, 9, 10, 11, 12, 0xFE,
    ];
    let store = store(&rt, 64, 12, &head)?;
    let space = space_of_48();
    match find_message(&space, &store) {
        Walk::Held { map } => lies_round(&rt, &map),
        _ => panic!(rt; "no message"),
    }
    containers_tell_locks(&rt);
    if store.len() == 64 {
        one_form(&space, &store);
    }
    Ok(())
}
