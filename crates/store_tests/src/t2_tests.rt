//! What Type 2 tags answer frame by frame, and the stores that they take.

use nfc_base::{Frame, Tech};
use std::process::Abort;
use std::test::Fail;
use t2t_tag::T2Tag;

/// A store of this many bytes, each of them its own address.
fn addresses(rt: &HostRuntime, length: usize) -> Result<Vec<u8>, Fail> {
    let mut store = vec![in rt.alloc(); 0u8; length]?;
    for (address, byte) in store.iter_mut().enumerate() {
        *byte = (address & 0xff) as u8;
    }
    Ok(store)
}

/// Whether an answer has these bytes and this tail; where it has no bytes, whether there is none.
fn is_answer(told: &Option<Frame>, bytes: &[u8], tail: u8) -> bool {
    match told {
        Some(frame) => {
            !bytes.is_empty()
                && frame.tech() == Tech::A
                && frame.view() == bytes
                && frame.tail() == tail
        }
        None => bytes.is_empty(),
    }
}

/// What the tag answers to these bytes, and that it is silent to them in the other technology.
fn obeys(
    rt: &impl Abort,
    tag: &mut T2Tag,
    request: &[u8],
    answer: &[u8],
    tail: u8,
) -> Result<(), Fail> {
    let told = tag.obey(&Frame::whole(Tech::A, request)?);
    assert!(rt; is_answer(&told, answer, tail), "at {request:?}: {told:?}");
    let other = tag.obey(&Frame::whole(Tech::V, request)?);
    assert!(rt; other.is_none(), "at {request:?}: {other:?}");
    Ok(())
}

#[test]
fn obeys_each_frame(rt: HostRuntime) -> Result<(), Fail> {
    let mut tag = T2Tag::new(addresses(&rt, 64)?)?;
    const STEPS: [(&[u8], &[u8], u8); 10] = [
        (
            &[0x30, 0],
            &[0, 1, 2, 3, 4, 5, 6, 7, 8, 9, 10, 11, 12, 13, 14, 15],
            0,
        ),
        (
            &[0x30, 13],
            &[52, 53, 54, 55, 56, 57, 58, 59, 60, 61, 62, 63, 0, 1, 2, 3],
            0,
        ),
        (
            &[0x30, 15],
            &[60, 61, 62, 63, 0, 1, 2, 3, 4, 5, 6, 7, 8, 9, 10, 11],
            0,
        ),
        (&[0x30, 16], &[0], 4),
        (&[0xA2, 3, 9, 9, 9, 9], &[0], 4),
        (&[0xA2, 16, 9, 9, 9, 9], &[0], 4),
        (&[0xA2, 4, 9, 8, 7, 6], &[0xA], 4),
        (
            &[0x30, 3],
            &[12, 13, 14, 15, 9, 8, 7, 6, 20, 21, 22, 23, 24, 25, 26, 27],
            0,
        ),
        (&[0x30], &[], 0),
        (&[0xA2, 4, 9, 8, 7, 6, 5], &[], 0),
    ];
    for &(request, answer, tail) in &STEPS {
        obeys(&rt, &mut tag, request, answer, tail)?;
    }
    Ok(())
}

/// A tag of 16 blocks, two of which are locked.
fn locked_tag(rt: &HostRuntime) -> Result<T2Tag, Fail> {
    let mut tag = T2Tag::new(vec![in rt.alloc(); 0u8; 64]?)?;
    tag.lock(5);
    tag.lock(15);
    Ok(tag)
}

#[test]
fn writes_no_locked_block(rt: HostRuntime) -> Result<(), Fail> {
    let mut tag = locked_tag(&rt)?;
    let steps = [(4, 0xA), (5, 0), (6, 0xA), (13, 0xA), (14, 0xA), (15, 0)];
    for (block, answer) in steps {
        obeys(&rt, &mut tag, &[0xA2, block, 9, 8, 7, 6], &[answer], 4)?;
    }
    let content = [9, 8, 7, 6, 0, 0, 0, 0, 9, 8, 7, 6, 0, 0, 0, 0];
    obeys(&rt, &mut tag, &[0x30, 4], &content, 0)
}

/// Whether a tag takes a store of this many bytes with these two in its container.
fn is_taken(rt: &HostRuntime, length: usize, magic: u8, area: u8) -> Result<bool, Fail> {
    let mut store = addresses(rt, length)?;
    if let Some(byte) = store.get_mut(12) {
        *byte = magic;
    }
    if let Some(byte) = store.get_mut(14) {
        *byte = area;
    }
    Ok(T2Tag::new(store).is_ok())
}

/// A store's length, the byte that says that it is one of an NDEF tag, the area's size, and whether a tag takes it.
const STORES: [(usize, u8, u8, bool); 9] = [
    (12, 0, 0, false),
    (16, 0, 0, true),
    (18, 0, 0, false),
    (1024, 0xE1, 0x7E, true),
    (1020, 0xE1, 0x7E, false),
    (16, 0xE1, 0x7F, true),
    (16, 0xE1, 1, false),
    (24, 0xE1, 1, true),
    (1028, 0, 0, false),
];

#[test]
fn takes_its_stores_alone(rt: HostRuntime) -> Result<(), Fail> {
    for (length, magic, area, taken) in STORES.iter() {
        let told = is_taken(&rt, *length, *magic, *area)?;
        assert_eq!(rt; told, *taken, "at {length} {magic} {area}");
    }
    Ok(())
}
