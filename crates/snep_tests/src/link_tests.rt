//! A server as the service of an end, payload by payload.

ghost use Rattle.std.specs.Prelude.{◌≤◌, length};

use llcp_link::Llc;
use llcp_pdu::LinkParams;
use nfc_base::Answerer;
use snep_core::Server;
use std::alloc::Global;
use std::process::Abort;
use std::test::Fail;

/// General bytes of an end of MIU 128.
const GENERAL: [u8; 10] = [0x46, 0x66, 0x6D, 0x01, 0x01, 0x13, 0x03, 0x02, 0x00, 0x03];

/// An end of MIU 128 and window 1 with a server of limit 1,024 at SAP 4, at the begin of a link.
fn peer(rt: &impl Abort, alloc: Global) -> Result<Llc<Server>, Fail> {
    let params = LinkParams {
        version: 0x13,
        miu: 128,
        wks: 0x13,
    };
    let mut llc = Llc::new(alloc, params, 1, Server::new(alloc, 1024));
    assert_eq!(rt; llc.listen("urn:nfc:sn:snep", 4), Ok(()));
    llc.restart(&GENERAL);
    Ok(llc)
}

/// The reply to a payload.
fn answers(
    rt: &impl Abort,
    alloc: Global,
    llc: &mut Llc<Server>,
    payload: &[u8],
    reply: &[u8],
) -> Result<(), Fail> {
    let mut got = Vec::new(alloc);
    assert!(rt; payload.len() < 1000);
    assert_eq!(rt; llc.answer(alloc, payload, &mut got), Ok(()));
    assert_eq!(rt; got.as_slice(), reply, "at {payload:?}");
    Ok(())
}

/// An end answers payloads, one after the other, by these replies.
fn replies_by(
    rt: &impl Abort,
    alloc: Global,
    llc: &mut Llc<Server>,
    rows: &[(&[u8], &[u8])],
) -> Result<(), Fail> {
    for (payload, reply) in rows {
        answers(rt, alloc, llc, payload, reply)?;
    }
    Ok(())
}

/// The same, and then its server has one message from each of these clients.
fn accepts_from(
    rt: &impl Abort,
    alloc: Global,
    llc: &mut Llc<Server>,
    rows: &[(&[u8], &[u8])],
    clients: &[u8],
) -> Result<(), Fail> {
    replies_by(rt, alloc, llc, rows)?;
    assert_eq!(rt; llc.as_service().accepted().len(), clients.len());
    assert_eq!(rt; llc.as_service().sources(), clients);
    Ok(())
}

const CONNECT: &[u8] = &[0x11, 0x20];

const CC: &[u8] = &[0x81, 0x84];

/// A unit of 128 bytes that begins a put of so many bytes, as the first I PDU from 32.
fn first_unit(alloc: Global, high: u8, low: u8) -> Result<Vec<u8>, Fail> {
    let mut payload = Vec::new(alloc);
    payload.extend_from_slice(&[0x13, 0x20, 0x00])?;
    payload.extend_from_slice(&[0x10, 2, 0, 0, high, low])?;
    payload.extend_from_slice(&[7; 122])?;
    Ok(payload)
}

/// A whole unit, as the I PDU of this number from 32, is acknowledged.
fn goes_on(rt: &impl Abort, alloc: Global, llc: &mut Llc<Server>, count: u8) -> Result<(), Fail> {
    assert!(rt; count < 15);
    let mut payload = Vec::from_slice(alloc, &[0x13, 0x20, count * 16 + 1])?;
    payload.extend_from_slice(&[count; 128])?;
    answers(rt, alloc, llc, &payload, &[0x83, 0x44, count + 1])
}

fn nine_units(rt: &impl Abort, alloc: Global, llc: &mut Llc<Server>) -> Result<(), Fail> {
    let first = first_unit(alloc, 4, 0)?;
    let rows: [(&[u8], &[u8]); 2] = [
        (CONNECT, CC),
        (&first, &[0x83, 0x04, 0x01, 0x10, 0x80, 0, 0, 0, 0]),
    ];
    replies_by(rt, alloc, llc, &rows)?;
    for count in 1..8u8 {
        goes_on(rt, alloc, llc, count)?;
    }
    assert_eq!(rt; llc.as_service().accepted().len(), 0);
    let last = [0x13, 0x20, 0x81, 8, 8, 8, 8, 8, 8];
    answers(
        rt,
        alloc,
        llc,
        &last,
        &[0x83, 0x04, 0x19, 0x10, 0x81, 0, 0, 0, 0],
    )
}

#[test]
fn a_put_of_1024_bytes_goes_in_nine_units(rt: HostRuntime) -> Result<(), Fail> {
    let alloc = rt.alloc();
    let mut llc = peer(&rt, alloc)?;
    nine_units(&rt, alloc, &mut llc)?;
    let size = llc
        .as_service()
        .accepted()
        .first()
        .map(|m| m.as_slice().len());
    assert_eq!(rt; size, Some(1024usize));
    Ok(())
}

#[test]
fn a_put_of_1025_bytes_is_rejected(rt: HostRuntime) -> Result<(), Fail> {
    let alloc = rt.alloc();
    let first = first_unit(alloc, 4, 1)?;
    let rows: [(&[u8], &[u8]); 3] = [
        (CONNECT, CC),
        (&first, &[0x83, 0x04, 0x01, 0x10, 0xFF, 0, 0, 0, 0]),
        (
            &[0x13, 0x20, 0x11, 0x10, 2, 0, 0, 0, 1, 0xD0],
            &[0x83, 0x04, 0x12, 0x10, 0x81, 0, 0, 0, 0],
        ),
    ];
    accepts_from(&rt, alloc, &mut peer(&rt, alloc)?, &rows, &[32])
}

/// An end whose server has 130 nines under the empty key.
fn with_nines(rt: &impl Abort, alloc: Global) -> Result<Llc<Server>, Fail> {
    let mut llc = peer(rt, alloc)?;
    llc.service().offer(&[], &[9; 130])?;
    Ok(llc)
}

/// The first unit of a value of 130 nines.
fn front(alloc: Global) -> Result<Vec<u8>, Fail> {
    let mut front = Vec::from_slice(alloc, &[0x83, 0x04, 0x02, 0x10, 0x81, 0, 0, 0, 130])?;
    front.extend_from_slice(&[9; 122])?;
    Ok(front)
}

#[test]
fn a_get_and_its_continue_in_one_payload(rt: HostRuntime) -> Result<(), Fail> {
    let alloc = rt.alloc();
    let front = front(alloc)?;
    let ahead = [
        0x00, 0x80, 0x00, 0x02, 0x11, 0x20, 0x00, 0x0D, 0x13, 0x20, 0x00, 0x10, 1, 0, 0, 0, 4, 0,
        0, 0x0F, 0xFF, 0x00, 0x09, 0x13, 0x20, 0x10, 0x10, 0, 0, 0, 0, 0,
    ];
    let rows: [(&[u8], &[u8]); 3] = [
        (&ahead, CC),
        (&[0, 0], &front),
        (
            &[0x13, 0x60, 0x01],
            &[0x83, 0x04, 0x12, 9, 9, 9, 9, 9, 9, 9, 9],
        ),
    ];
    replies_by(&rt, alloc, &mut with_nines(&rt, alloc)?, &rows)
}

#[test]
fn clients_put_one_after_the_other(rt: HostRuntime) -> Result<(), Fail> {
    let alloc = rt.alloc();
    let rows: [(&[u8], &[u8]); 3] = [
        (
            &[0x00, 0x80, 0x00, 0x02, 0x11, 0x20, 0x00, 0x02, 0x11, 0x21],
            &[0x00, 0x80, 0x00, 0x02, 0x81, 0x84, 0x00, 0x02, 0x85, 0x84],
        ),
        (
            &[0x13, 0x21, 0x00, 0x10, 2, 0, 0, 0, 1, 0xD1],
            &[0x87, 0x04, 0x01, 0x10, 0x81, 0, 0, 0, 0],
        ),
        (
            &[0x13, 0x20, 0x00, 0x10, 2, 0, 0, 0, 0],
            &[0x83, 0x04, 0x01, 0x10, 0x81, 0, 0, 0, 0],
        ),
    ];
    accepts_from(&rt, alloc, &mut peer(&rt, alloc)?, &rows, &[33, 32])
}
