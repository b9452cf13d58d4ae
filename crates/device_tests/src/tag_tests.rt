//! Tags as devices: selected, linked, put to sleep, in the light and in the dark.

use crate::rows::Step::{Dark, Hears, Light};
use crate::rows::{Step, goes_through};
use bench_devices::{Device, PoweredTag, T2Upper, T4Upper};
use nfca_poll::{Front, Ident};
use std::alloc::Global;
use std::test::Fail;
use t2t_tag::T2Tag;
use t4t_tag::T4Tag;
use t5t_tag::T5Tag;

const INVENTORY: &[u8] = &[0x26, 0x01, 0x00];

/// An INVENTORY that a tag answers, and one at which it is silent.
const FOUND: Step = Hears(
    INVENTORY,
    0,
    &[0, 0, 0x06, 0x05, 0x04, 0x03, 0x02, 0x01, 0x04, 0xE0],
);

const NOT_FOUND: Step = Hears(INVENTORY, 0, &[]);

const STAY_QUIET: Step = Hears(
    &[0x22, 0x02, 0x06, 0x05, 0x04, 0x03, 0x02, 0x01, 0x04, 0xE0],
    0,
    &[],
);

fn type_5_tag(alloc: Global) -> Result<Device, Fail> {
    let id = [0xE0, 0x04, 0x01, 0x02, 0x03, 0x04, 0x05, 0x06];
    let tag = T5Tag::new(id, vec![in alloc; 0u8; 16]?, 4)?;
    Ok(Device::T5(PoweredTag::new(tag)))
}

#[test]
fn type_5_tag_has_power_in_the_light(rt: HostRuntime) -> Result<(), Fail> {
    let alloc = rt.alloc();
    let steps = [
        NOT_FOUND, Light, FOUND, STAY_QUIET, NOT_FOUND, Light, NOT_FOUND, Dark, NOT_FOUND, Light,
        FOUND,
    ];
    goes_through(&rt, alloc, &mut type_5_tag(alloc)?, &[&steps])
}

fn type_2_tag(alloc: Global) -> Result<Device, Fail> {
    let store = [
        1, 2, 3, 4, 5, 6, 7, 8, 9, 10, 11, 12, 13, 14, 15, 16, 17, 18, 19, 20,
    ];
    let tag = T2Tag::new(store.to_vec(alloc)?)?;
    let id = Ident::new(&[1, 2, 3, 4])?;
    Ok(Device::T2(Front::new(id, T2Upper::new(tag))))
}

#[test]
fn type_2_tag_is_read_once_it_is_selected(rt: HostRuntime) -> Result<(), Fail> {
    let alloc = rt.alloc();
    let steps = [
        Hears(&[0x26], 7, &[]),
        Light,
        Hears(&[0x30, 1], 0, &[]),
        Hears(&[0x26], 7, &[0x04, 0]),
        Hears(&[0x93, 0x20], 0, &[1, 2, 3, 4, 4]),
        Hears(&[0x93, 0x70, 1, 2, 3, 4, 4], 0, &[0]),
        Hears(
            &[0x30, 1],
            0,
            &[5, 6, 7, 8, 9, 10, 11, 12, 13, 14, 15, 16, 17, 18, 19, 20],
        ),
        Hears(&[0x50, 0], 0, &[]),
        Hears(&[0x30, 1], 0, &[]),
        Hears(&[0x26], 7, &[]),
        Dark,
        Hears(&[0x52], 7, &[]),
    ];
    goes_through(&rt, alloc, &mut type_2_tag(alloc)?, &[&steps])
}

/// A call of all devices, at which one is silent in the dark.
const CALL_IN_THE_DARK: Step = Hears(&[0x52], 7, &[]);

/// A call of all devices, and the selection of this one.
const SELECTION: &[Step] = &[
    Hears(&[0x52], 7, &[0x04, 0]),
    Hears(&[0x93, 0x20], 0, &[1, 2, 3, 4, 4]),
    Hears(&[0x93, 0x70, 1, 2, 3, 4, 4], 0, &[0x20]),
];

const RATS: Step = Hears(&[0xE0, 0x80], 0, &[0x02, 0x00]);

/// SLP_REQ, and a call of those that don't sleep, which are silent.
const SLP_REQ: Step = Hears(&[0x50, 0], 0, &[]);

const SENS_REQ: Step = Hears(&[0x26], 7, &[]);

const DESELECT: Step = Hears(&[0xC2], 0, &[0xC2]);

/// SELECT of the NDEF application in a block, which is done.
const SELECT: Step = Hears(
    &[
        0x02, 0x00, 0xA4, 0x04, 0x00, 0x07, 0xD2, 0x76, 0x00, 0x00, 0x85, 0x01, 0x01,
    ],
    0,
    &[0x02, 0x90, 0x00],
);

fn type_4_tag(alloc: Global) -> Result<Device, Fail> {
    let container = [
        0x00, 0x0F, 0x20, 0x00, 0x3B, 0x00, 0x0D, 0x04, 0x06, 0xE1, 0x04, 0x00, 0x02, 0x00, 0x00,
    ];
    let tag = T4Tag::new(0, container.to_vec(alloc)?, vec![in alloc; 0u8; 2]?)?;
    let id = Ident::new(&[1, 2, 3, 4])?;
    Ok(Device::T4(Front::new(id, T4Upper::new(tag))))
}

#[test]
fn type_4_tag_sleeps_without_a_link(rt: HostRuntime) -> Result<(), Fail> {
    let alloc = rt.alloc();
    let parts: [&[Step]; 3] = [&[Light], SELECTION, &[SLP_REQ, SENS_REQ]];
    goes_through(&rt, alloc, &mut type_4_tag(alloc)?, &parts)
}

#[test]
fn link_to_a_type_4_tag_takes_every_frame(rt: HostRuntime) -> Result<(), Fail> {
    let alloc = rt.alloc();
    const PARTS: [&[Step]; 5] = [
        &[CALL_IN_THE_DARK, Light, Hears(&[0xE0, 0x80], 0, &[])],
        SELECTION,
        &[RATS, SLP_REQ, SELECT, DESELECT, SENS_REQ],
        SELECTION,
        &[
            Hears(&[0xE0, 0x51], 0, &[0x02, 0x00]),
            SELECT,
            Dark,
            CALL_IN_THE_DARK,
        ],
    ];
    goes_through(&rt, alloc, &mut type_4_tag(alloc)?, &PARTS)
}
