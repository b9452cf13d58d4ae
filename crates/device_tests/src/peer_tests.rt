//! A peer as a device: selected, linked, put to sleep, in the dark, and found among others.

ghost use Rattle.std.specs.Prelude.{◌<◌};
ghost use Rattle.llcp_pdu.specs.General.{IsMiu};

use crate::rows::Step::{Dark, Hears, Light};
use crate::rows::{Step, goes_through};
use air_core::Field;
use bench_devices::{Device, PeerUpper, T2Upper};
use nfca_poll::{Front, Ident, Kind, find_all};
use std::alloc::Global;
use std::test::Fail;
use t2t_tag::T2Tag;

pub fn peer(id: &[u8], lr: u8, miu: u16) -> Result<Device, Fail>
    requires lr { lr < 4 }
    requires miu { IsMiu miu }
{
    let id = Ident::new(id)?;
    let upper = PeerUpper::new(&id, lr, miu);
    Ok(Device::Peer(Front::new(id, upper)))
}

/// A tag with zeros.
pub fn tag(alloc: Global) -> Result<Device, Fail> {
    let tag = T2Tag::new(vec![in alloc; 0u8; 16]?)?;
    let id = Ident::new(&[1, 2, 3, 4])?;
    Ok(Device::T2(Front::new(id, T2Upper::new(tag))))
}

/// A call of all devices, and the selection of this one.
const SELECTION: &[Step] = &[
    Hears(&[0x52], 7, &[0x04, 0]),
    Hears(&[0x93, 0x20], 0, &[8, 1, 2, 3, 8]),
    Hears(&[0x93, 0x70, 8, 1, 2, 3, 8], 0, &[0x40]),
];

pub const ATR_REQ: &[u8] =
    b"\xF0\x1B\xD4\x00\x00\x01\x02\x03\x04\x05\x06\x07\x08\x09\x00\x00\x00\x32Ffm\x01\x01\x13\x03\x02\x00\x03";

const ATR_RES: &[u8] =
    b"\xF0\x1C\xD5\x01\x08\x01\x02\x03\x00\x00\x00\x00\x00\x00\x00\x00\x00\x08\x32Ffm\x01\x01\x13\x03\x02\x00\x13";

const ATR: Step = Hears(ATR_REQ, 0, ATR_RES);

const SLP_REQ: Step = Hears(&[0x50, 0], 0, &[]);

const SENS_REQ: Step = Hears(&[0x26], 7, &[]);

const PAYLOAD: &[u8] = &[0xF0, 0x06, 0xD4, 0x06, 0x00, 0x11, 0x20];

/// The empty payload that a mute far end replies.
const REPLY: &[u8] = &[0xF0, 0x04, 0xD5, 0x07, 0x00];

const RELEASE: Step = Hears(&[0xF0, 0x03, 0xD4, 0x0A], 0, &[0xF0, 0x03, 0xD5, 0x0B]);

const LINKED: &[Step] = &[
    ATR,
    SLP_REQ,
    SENS_REQ,
    Hears(PAYLOAD, 0, REPLY),
    RELEASE,
    SLP_REQ,
];

#[test]
fn link_to_a_peer_takes_every_frame(rt: HostRuntime) -> Result<(), Fail> {
    const PARTS: [&[Step]; 8] = [
        &[Light, Hears(ATR_REQ, 0, &[])],
        SELECTION,
        &[SLP_REQ, SENS_REQ],
        SELECTION,
        LINKED,
        SELECTION,
        &[ATR, Dark, Light, Hears(PAYLOAD, 0, &[])],
        SELECTION,
    ];
    let mut device = peer(&[8, 1, 2, 3], 3, 128)?;
    goes_through(&rt, rt.alloc(), &mut device, &PARTS)
}

/// A field of a peer and a tag.
fn field(alloc: Global) -> Result<Field<Device>, Fail> {
    let mut field = Field::new(alloc);
    field.put_in(peer(&[8, 1, 2, 3], 0, 2175)?)?;
    field.put_in(tag(alloc)?)?;
    Ok(field)
}

/// How many devices are found, and how many of them are peers.
fn found(alloc: Global) -> Result<(usize, usize), Fail> {
    let found = find_all(alloc, &mut field(alloc)?)?;
    let mut peers = 0usize;
    for one in found.iter() {
        if one.kind == Kind::Peer {
            peers = peers.saturating_add(1);
        }
    }
    Ok((found.len(), peers))
}

#[test]
fn a_peer_is_found_beside_a_tag(rt: HostRuntime) -> Result<(), Fail> {
    assert_eq!(rt; found(rt.alloc())?, (2, 1));
    Ok(())
}
