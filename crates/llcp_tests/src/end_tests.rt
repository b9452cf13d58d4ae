//! An end, payload by payload.

use crate::ends::{Notes, SNEP, answers, gives, replies_by, sending_server, server};
use llcp_link::{Llc, LlcFault};
use nfc_base::Answerer;
use std::alloc::{AllocError, Global};
use std::process::Abort;
use std::test::Fail;

/// General bytes of an end of MIU 128.
const GENERAL: [u8; 10] = [0x46, 0x66, 0x6D, 0x01, 0x01, 0x13, 0x02, 0x02, 0x00, 0x00];

const SYMM: [u8; 2] = [0x00, 0x00];

/// What is handed to a new server, the payload that it gives then, and what its service noted.
type Row<'a> = (&'a [&'a [u8]], &'a [u8], &'a [u8]);

fn takes(rt: &impl Abort, llc: &mut Llc<Notes>, payloads: &[&[u8]]) {
    for payload in payloads {
        assert_eq!(rt; llc.take(payload), Ok(()), "at {payload:?}");
    }
}

/// A server that is lent comes to what the row at this place says.
fn comes_to(
    rt: &impl Abort,
    alloc: Global,
    llc: &mut Llc<Notes>,
    row: &Row<'_>,
    at: usize,
) -> Result<(), Fail> {
    let (payloads, payload, units) = *row;
    takes(rt, llc, payloads);
    assert_eq!(rt; llc.as_service().units.as_slice(), units, "in row {at}");
    gives(rt, alloc, llc, 0, payload)
}

/// A new server comes to what each row says.
fn brings(rt: &impl Abort, alloc: Global, rows: &[Row<'_>]) -> Result<(), Fail> {
    for (at, row) in rows.iter().enumerate() {
        let mut llc = server(rt, alloc)?;
        llc.restart(&GENERAL);
        comes_to(rt, alloc, &mut llc, row, at)?;
    }
    Ok(())
}

const CONNECT: &[u8] = &[0x11, 0x20];

const CC: &[u8] = &[0x81, 0x84];

const UNIT: &[u8] = &[0x13, 0x20, 0x00, 0xAA];

/// A CC, and an RR that acknowledges a unit.
const CC_AND_RR: &[u8] = &[
    0x00, 0x80, 0x00, 0x02, 0x81, 0x84, 0x00, 0x03, 0x83, 0x44, 0x01,
];

#[test]
fn connections(rt: HostRuntime) -> Result<(), Fail> {
    let wrong: &[u8] = &[0x13, 0x20, 0x10, 0xAA];
    let short: &[u8] = &[0x13, 0x60];
    let linux: &[u8] = &[0x11, 0x20, 0x02, 0x02, 0x07, 0xFF, 0x05, 0x01, 0x0F];
    let rnr: &[u8] = &[0x13, 0xA0, 0x00];
    let two: &[u8] = &[0x00, 0x80, 0x00, 0x02, 0x11, 0x20, 0x00, 0x02, 0x11, 0x21];
    // a FRMR for a wrong N(S), and one for a RR without its sequence byte
    let wrong_told: &[u8] = &[
        0x00, 0x80, 0x00, 0x02, 0x81, 0x84, 0x00, 0x06, 0x82, 0x04, 0x1C, 0x10, 0x00, 0x00,
    ];
    let short_told: &[u8] = &[
        0x00, 0x80, 0x00, 0x02, 0x81, 0x84, 0x00, 0x06, 0x82, 0x04, 0x8D, 0x00, 0x00, 0x00,
    ];
    let cc_and_dm: &[u8] = &[
        0x00, 0x80, 0x00, 0x02, 0x81, 0x84, 0x00, 0x03, 0x81, 0xC4, 0x20,
    ];
    let two_told: &[u8] = &[0x00, 0x80, 0x00, 0x02, 0x81, 0x84, 0x00, 0x02, 0x85, 0x84];
    let rows: [Row<'_>; 9] = [
        (&[CONNECT], CC, &[]),
        (&[CONNECT, UNIT], CC_AND_RR, &[32, 0xAA]),
        (&[UNIT], &[0x81, 0xC4, 0x01], &[]),
        (&[CONNECT, wrong], wrong_told, &[]),
        (&[CONNECT, short], short_told, &[]),
        (&[CONNECT, CONNECT], cc_and_dm, &[]),
        (&[linux, UNIT], CC_AND_RR, &[32, 0xAA]),
        (&[CONNECT, rnr, UNIT], CC_AND_RR, &[32, 0xAA]),
        (&[two], two_told, &[]),
    ];
    brings(&rt, rt.alloc(), &rows)
}

#[test]
fn refusals_and_names(rt: HostRuntime) -> Result<(), Fail> {
    let named: &[u8] = b"\x05\x20\x06\x0Furn:nfc:sn:snep";
    let no_window: &[u8] = &[0x11, 0x20, 0x05, 0x01, 0x10];
    let unbound: &[u8] = &[0x15, 0x20];
    let lookups: &[u8] = b"\x06\x41\x08\x10\x00urn:nfc:sn:snep\x08\x02\x01x";
    let found: &[u8] = &[0x06, 0x41, 0x09, 0x02, 0x00, 0x04, 0x09, 0x02, 0x01, 0x00];
    let malformed: &[u8] = &[0x11, 0x20, 0x05];
    let rows: [Row<'_>; 5] = [
        (&[named], CC, &[]),
        (&[no_window], &[0x81, 0xC4, 0x03], &[]),
        (&[unbound], &[0x81, 0xC5, 0x02], &[]),
        (&[lookups], found, &[]),
        (&[malformed, &[0x11]], &SYMM, &[]),
    ];
    brings(&rt, rt.alloc(), &rows)
}

/// Eight CC, and a DM for the ninth.
const EIGHT_AND_ONE: [u8; 39] = [
    0x00, 0x80, 0x00, 0x02, 0x81, 0x84, 0x00, 0x02, 0x85, 0x84, 0x00, 0x02, 0x89, 0x84, 0x00, 0x02,
    0x8D, 0x84, 0x00, 0x02, 0x91, 0x84, 0x00, 0x02, 0x95, 0x84, 0x00, 0x02, 0x99, 0x84, 0x00, 0x02,
    0x9D, 0x84, 0x00, 0x03, 0xA1, 0xC4, 0x20,
];

/// Nine clients ask for connections; eight have one then.
fn nine_ask(rt: &impl Abort, alloc: Global, llc: &mut Llc<Notes>) -> Result<(), Fail> {
    for client in 32..41u8 {
        assert_eq!(rt; llc.take(&[0x11, client]), Ok(()));
    }
    gives(rt, alloc, llc, 0, &EIGHT_AND_ONE)
}

/// Seventeen PDUs come, each of which a DM answers.
fn seventeen_come(rt: &impl Abort, llc: &mut Llc<Notes>) {
    for _ in 0..17 {
        assert_eq!(rt; llc.take(&[0x13, 0x60, 0x00]), Ok(()));
    }
}

/// Sixteen of them are given in one payload of 82 bytes.
fn gives_sixteen(rt: &impl Abort, alloc: Global, llc: &mut Llc<Notes>) {
    let mut got = Vec::new(alloc);
    assert_eq!(rt; llc.give(0, &mut got), Ok(()));
    assert_eq!(rt; got.len(), 82);
}

/// The queue is full then, and a new link begins with none of this.
fn fills_up(rt: &impl Abort, alloc: Global, llc: &mut Llc<Notes>) -> Result<(), Fail> {
    nine_ask(rt, alloc, llc)?;
    llc.restart(&GENERAL);
    seventeen_come(rt, llc);
    gives_sixteen(rt, alloc, llc);
    seventeen_come(rt, llc);
    llc.restart(&GENERAL);
    gives(rt, alloc, llc, 0, &SYMM)?;
    answers(rt, alloc, llc, CONNECT, CC)
}

#[test]
fn nine_clients_and_seventeen_answers(rt: HostRuntime) -> Result<(), Fail> {
    let alloc = rt.alloc();
    fills_up(&rt, alloc, &mut server(&rt, alloc)?)
}

/// To general bytes that can't be read nothing is answered.
fn answers_nothing(rt: &impl Abort, alloc: Global, llc: &mut Llc<Notes>) -> Result<(), Fail> {
    llc.restart(&[0x46, 0x66, 0x6D]);
    let rows: [(&[u8], &[u8]); 3] = [(&[0x11, 0x20], &[]), (&[0x00, 0x00], &[]), (&[0x11], &[])];
    replies_by(rt, alloc, llc, &rows)
}

/// The replies of a new end at SAP 4, one after the other.
fn replies_of(rt: &impl Abort, alloc: Global, llc: &mut Llc<Notes>) -> Result<(), Fail> {
    const ROWS: [(&[u8], &[u8]); 8] = [
        (&[0x11, 0x20, 0x05], &[0, 0]),
        (&[0x11], &[0, 0]),
        (
            &[0x00, 0x80, 0x00, 0x02, 0x11, 0x20, 0x00, 0x02, 0x11, 0x21],
            &[0x00, 0x80, 0x00, 0x02, 0x81, 0x84, 0x00, 0x02, 0x85, 0x84],
        ),
        (&[0, 0], &[0, 0]),
        (&[0x13, 0x20, 0x00, 0xAA], &[0x83, 0x44, 0x01]),
        (
            &[0x13, 0x20, 0x00, 0xAA],
            &[0x82, 0x04, 0x1C, 0x00, 0x01, 0x01],
        ),
        (&[0x13, 0x21, 0x00, 0xBB], &[0x87, 0x44, 0x01]),
        (&[0x13, 0x60, 0x01], &[0x81, 0xC4, 0x01]),
    ];
    replies_by(rt, alloc, llc, &ROWS)?;
    answers_nothing(rt, alloc, llc)
}

#[test]
fn replies(rt: HostRuntime) -> Result<(), Fail> {
    let alloc = rt.alloc();
    replies_of(&rt, alloc, &mut server(&rt, alloc)?)
}

#[test]
fn units_of_three_clients_and_their_windows(rt: HostRuntime) -> Result<(), Fail> {
    let alloc = rt.alloc();
    const ROWS: [(&[u8], &[u8]); 3] = [
        (
            &[
                0x00, 0x80, 0x00, 0x02, 0x11, 0x20, 0x00, 0x02, 0x11, 0x21, 0x00, 0x02, 0x11, 0x22,
            ],
            &[
                0x00, 0x80, 0x00, 0x02, 0x81, 0x84, 0x00, 0x02, 0x85, 0x84, 0x00, 0x02, 0x89, 0x84,
                0x00, 0x04, 0x83, 0x04, 0x00, 0x20, 0x00, 0x04, 0x87, 0x04, 0x00, 0x21, 0x00, 0x04,
                0x8B, 0x04, 0x00, 0x22,
            ],
        ),
        // the first isn't ready, the second acknowledges, and the third brings a unit
        (
            &[
                0x00, 0x80, 0x00, 0x03, 0x13, 0xA0, 0x01, 0x00, 0x03, 0x13, 0x61, 0x01, 0x00, 0x04,
                0x13, 0x22, 0x01, 0xAA,
            ],
            &[
                0x00, 0x80, 0x00, 0x04, 0x87, 0x04, 0x10, 0x21, 0x00, 0x04, 0x8B, 0x04, 0x11, 0x22,
            ],
        ),
        // the service has no unit left: an acknowledgement is owed
        (&[0x13, 0x20, 0x01, 0xAA], &[0x83, 0x44, 0x01]),
    ];
    replies_by(&rt, alloc, &mut sending_server(&rt, alloc, 5)?, &ROWS)
}

/// An AGF of seventeen PDUs, each of which a DM answers.
fn seventeen(alloc: Global) -> Result<Vec<u8>, AllocError> {
    let mut acks = Vec::from_slice(alloc, &[0x00, 0x80])?;
    for _ in 0..17 {
        acks.extend_from_slice(&[0x00, 0x03, 0x13, 0x60, 0x01])?;
    }
    Ok(acks)
}

fn joins_sixteen(rt: &impl Abort, alloc: Global, llc: &mut Llc<Notes>) -> Result<(), Fail> {
    assert_eq!(rt; llc.take(&seventeen(alloc)?), Ok(()));
    gives_sixteen(rt, alloc, llc);
    answers(rt, alloc, llc, &[0x00, 0x00], &[0x00, 0x00])
}

#[test]
fn sixteen_answers_joined(rt: HostRuntime) -> Result<(), Fail> {
    let alloc = rt.alloc();
    joins_sixteen(&rt, alloc, &mut server(&rt, alloc)?)
}

fn listens(rt: &impl Abort, llc: &mut Llc<Notes>, name: &str, sap: u8) -> Result<(), LlcFault> {
    assert!(rt; name.len() <= 64);
    assert!(rt; sap < 64);
    llc.listen(name, sap)
}

fn binds(rt: &impl Abort, llc: &mut Llc<Notes>) {
    let name_taken = Err(LlcFault::NameTaken);
    let sap_taken = Err(LlcFault::SapTaken);
    let rows = [
        (SNEP, 4, name_taken),
        ("urn:nfc:sn:sdp", 5, name_taken),
        ("x", 4, sap_taken),
        ("x", 1, sap_taken),
        ("x", 5, Ok(())),
    ];
    for (name, sap, told) in rows {
        assert_eq!(rt; listens(rt, llc, name, sap), told, "at {name} {sap}");
    }
}

#[test]
fn names(rt: HostRuntime) -> Result<(), Fail> {
    binds(&rt, &mut server(&rt, rt.alloc())?);
    Ok(())
}
