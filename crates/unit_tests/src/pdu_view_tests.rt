//! PDUs that are seen in place, and the walks over what they hold.

use llcp_pdu::{
    ConnectParams, InnerWalk, ParamWalk, Pdu, PduFault, PduKind, PduRefusal, PduView, view,
};
use std::alloc::{AllocError, Global};
use std::fmt::Write;
use std::process::Abort;
use std::test::Fail;

const LINUX_CONNECT: &[u8] = b"\x05\x20\x06\x0Furn:nfc:sn:snep\x02\x02\x07\xFF\x05\x01\x0F";

/// Each payload is seen as this text says.
fn seen_so(rt: &impl Abort, alloc: Global, rows: &[(&[u8], &str)]) -> Result<(), Fail> {
    for (bytes, wanted) in rows {
        let text = format!(in alloc; "{:?}", view(bytes))?;
        assert_eq!(rt; text.as_str(), *wanted, "at {bytes:?}");
    }
    Ok(())
}

#[test]
fn payloads_are_seen_in_place(rt: HostRuntime) -> Result<(), Fail> {
    const ROWS: [(&[u8], &str); 13] = [
        (&[0x00, 0x00], "Ok(Symm)"),
        (
            &[0x11, 0x20],
            "Ok(Connect { dsap: 4, ssap: 32, params: [] })",
        ),
        (
            &[0x81, 0x84, 0x02, 0x02, 0x07, 0xFF, 0x05, 0x01, 0x0F],
            "Ok(Cc { dsap: 32, ssap: 4, params: [2, 2, 7, 255, 5, 1, 15] })",
        ),
        (&[0x11, 0x60], "Ok(Disc { dsap: 4, ssap: 32 })"),
        (
            &[0x81, 0xC4, 0x02],
            "Ok(Dm { dsap: 32, ssap: 4, reason: 2 })",
        ),
        (&[0x13, 0x60, 0x05], "Ok(Rr { dsap: 4, ssap: 32, nr: 5 })"),
        (&[0x13, 0xA0, 0xF5], "Ok(Rnr { dsap: 4, ssap: 32, nr: 5 })"),
        (
            &[0x10, 0xE0, 0xAA],
            "Ok(Ui { dsap: 4, ssap: 32, info: [170] })",
        ),
        (
            &[0x13, 0x20, 0x50, 0xBB],
            "Ok(Info { dsap: 4, ssap: 32, ns: 5, nr: 0, info: [187] })",
        ),
        (
            &[0x13, 0x20, 0x10],
            "Ok(Info { dsap: 4, ssap: 32, ns: 1, nr: 0, info: [] })",
        ),
        (
            &[0x06, 0x41, 0x09, 0x02, 0x00, 0x04],
            "Ok(Snl([9, 2, 0, 4]))",
        ),
        (&[0x00, 0x80], "Ok(Agf([]))"),
        (
            &[0x00, 0x80, 0, 2, 0x11, 0x20, 0, 4, 0x13, 0x20, 0x00, 0x01],
            "Ok(Agf([0, 2, 17, 32, 0, 4, 19, 32, 0, 1]))",
        ),
    ];
    seen_so(&rt, rt.alloc(), &ROWS)?;
    let linux = PduView::Connect {
        dsap: 1,
        ssap: 32,
        params: b"\x06\x0Furn:nfc:sn:snep\x02\x02\x07\xFF\x05\x01\x0F",
    };
    assert_eq!(rt; view(LINUX_CONNECT), Ok(linux));
    Ok(())
}

/// What a Linux device and its tools send and show.
#[test]
fn payloads_of_another_stack_are_seen(rt: HostRuntime) -> Result<(), Fail> {
    let rows: [(&[u8], &str); 6] = [
        (
            &[0x11, 0x20, 0x02, 0x02, 0x07, 0xFF, 0x05, 0x01, 0x0F],
            "Ok(Connect { dsap: 4, ssap: 32, params: [2, 2, 7, 255, 5, 1, 15] })",
        ),
        (
            &[0x81, 0x84, 0x02, 0x02, 0x00, 0x78, 0x05, 0x01, 0x04],
            "Ok(Cc { dsap: 32, ssap: 4, params: [2, 2, 0, 120, 5, 1, 4] })",
        ),
        (
            &[0x81, 0xC4, 0x00],
            "Ok(Dm { dsap: 32, ssap: 4, reason: 0 })",
        ),
        (
            &[0x82, 0x04, 0x1C, 0x10, 0x00, 0x00],
            "Ok(Frmr { dsap: 32, ssap: 4, report: FrmrReport { flags: 16, ptype: 12, sequence: 16, \
             vs: 0, vr: 0, vsa: 0, vra: 0 } })",
        ),
        (&[0x83, 0x44, 0x01], "Ok(Rr { dsap: 32, ssap: 4, nr: 1 })"),
        (
            &[0x13, 0x20, 0x00, 0xAA],
            "Ok(Info { dsap: 4, ssap: 32, ns: 0, nr: 0, info: [170] })",
        ),
    ];
    seen_so(&rt, rt.alloc(), &rows)?;
    let request = PduView::Snl(b"\x08\x10\x00urn:nfc:sn:snep");
    assert_eq!(rt; view(b"\x06\x41\x08\x10\x00urn:nfc:sn:snep"), Ok(request));
    Ok(())
}

#[test]
fn a_view_tells_the_first_fault(rt: HostRuntime) {
    const ROWS: [(&[u8], u16, PduKind); 12] = [
        (&[0x11], 1, PduKind::Short),
        (&[0x13, 0x20], 2, PduKind::Short),
        (&[0x00, 0x40], 0, PduKind::Ptype),
        (&[0x04, 0x00], 0, PduKind::Sap),
        (&[0x11, 0x20, 0x05, 0x02, 0x00], 2, PduKind::Parameter),
        (&[0x11, 0x20, 0x63, 0x04, 0x00], 2, PduKind::Parameter),
        (&[0x00, 0x80, 0x00, 0x02, 0x00, 0x80], 2, PduKind::Nested),
        (&[0x00, 0x80, 0x00, 0x02, 0x04, 0x80], 2, PduKind::Nested),
        (&[0x00, 0x00, 0x00], 2, PduKind::Trailing),
        (&[0x00, 0x80, 0x00, 0x05, 0x00, 0x00], 6, PduKind::Short),
        // A kernel hands the first PDU of this one up.
        (
            &[
                0x00, 0x80, 0, 4, 0x13, 0x20, 0x00, 0xAA, 0x00, 0xFF, 0x13, 0x20,
            ],
            12,
            PduKind::Short,
        ),
        (
            &[0x00, 0x80, 0, 3, 0x13, 0x60, 0x00, 0, 3, 0x13, 0x60],
            11,
            PduKind::Short,
        ),
    ];
    for &(bytes, place, kind) in &ROWS {
        assert_eq!(rt;
            view(bytes),
            Err(PduRefusal { place, kind }),
            "at {bytes:?}"
        );
    }
}

/// The parameters that a walk gives.
fn walked(alloc: Global, params: ParamWalk<'_>) -> Result<String, Fail> {
    let mut text = String::new(alloc);
    for param in params {
        write!(text, "{param:?} ")?;
    }
    Ok(text)
}

/// The PDUs that a walk gives.
fn walked_inside(alloc: Global, inner: InnerWalk<'_>) -> Result<String, Fail> {
    let mut text = String::new(alloc);
    for pdu in inner {
        write!(text, "{pdu:?} ")?;
    }
    Ok(text)
}

/// What a walk of a payload's parameters or PDUs gives.
fn walks(alloc: Global, bytes: &[u8]) -> Result<String, Fail> {
    match view(bytes) {
        Ok(PduView::Connect { params, .. }) => walked(alloc, ParamWalk::new(params)),
        Ok(PduView::Agf(inner)) => walked_inside(alloc, InnerWalk::new(inner)),
        _ => Err(Fail::new("another PDU")),
    }
}

/// A parameter of an unknown type is skipped.
#[test]
fn walks_give_all_that_was_checked(rt: HostRuntime) -> Result<(), Fail> {
    const ROWS: [(&[u8], &str); 3] = [
        // of the name "urn:nfc:sn:snep"
        (
            LINUX_CONNECT,
            "Sn([117, 114, 110, 58, 110, 102, 99, 58, 115, 110, 58, 115, 110, 101, 112]) Miux(2047) Rw(15) ",
        ),
        (
            &[
                0x00, 0x80, 0, 5, 0x11, 0x20, 0x63, 1, 7, 0, 3, 0x13, 0x60, 0x02,
            ],
            "Connect { dsap: 4, ssap: 32, params: [99, 1, 7] } Rr { dsap: 4, ssap: 32, nr: 2 } ",
        ),
        (&[0x11, 0x20, 0x63, 1, 7], ""),
    ];
    for &(bytes, wanted) in &ROWS {
        let text = walks(rt.alloc(), bytes)?;
        assert_eq!(rt; text.as_str(), wanted, "at {bytes:?}");
    }
    Ok(())
}

/// Of repeated parameters the last counts.
#[test]
fn a_connect_is_heard_whole(rt: HostRuntime) -> Result<(), Fail> {
    const ROWS: [(&[u8], Option<u16>, Option<u8>, Option<&[u8]>); 3] = [
        (
            LINUX_CONNECT,
            Some(0x7FF),
            Some(15),
            Some(b"urn:nfc:sn:snep"),
        ),
        (
            &[0x11, 0x20, 0x02, 0x02, 0x00, 0x78, 0x05, 0x01, 0x04],
            Some(120),
            Some(4),
            None,
        ),
        (
            &[
                0x11, 0x20, 2, 2, 0, 1, 5, 1, 2, 6, 1, 0x41, 2, 2, 0xF8, 2, 5, 1, 0x13, 6, 0,
            ],
            Some(2),
            Some(3),
            Some(&[]),
        ),
    ];
    for &(bytes, miux, rw, name) in &ROWS {
        let Ok(PduView::Connect { params, .. }) = view(bytes) else {
            return Err(Fail::new("another PDU"));
        };
        assert_eq!(rt;
            ConnectParams::new(params),
            ConnectParams { miux, rw, name },
            "at {bytes:?}"
        );
    }
    Ok(())
}

/// What a view tells of a payload, with ample memory.
fn told_in_place(alloc: Global, bytes: &[u8]) -> Result<Result<Pdu, PduFault>, AllocError> {
    match view(bytes) {
        Ok(seen) => Ok(Ok(Pdu::from_view(alloc, seen)?)),
        Err(PduRefusal { place, kind }) => Ok(Err(PduFault::Refused { place, kind })),
    }
}

/// The same answer in place and, with ample memory, copied.
fn reads_alike(rt: &impl Abort, alloc: Global, bytes: &[u8]) -> Result<(), Fail> {
    let told = told_in_place(alloc, bytes)?;
    assert_eq!(rt; Pdu::read_from(alloc, bytes), told, "at {bytes:?}");
    Ok(())
}

/// Each byte of a PDU changed to each other value.
fn changes_read_alike(rt: &impl Abort, alloc: Global, bytes: &[u8]) -> Result<(), Fail> {
    let mut changed = Vec::from_slice(alloc, bytes)?;
    for place in 0..changed.len() {
        let was = changed[place];
        for value in 0..=255 {
            changed[place] = value;
            reads_alike(rt, alloc, &changed)?;
        }
        changed[place] = was;
    }
    Ok(())
}

#[test]
fn changed_bytes_are_read_alike(rt: HostRuntime) -> Result<(), Fail> {
    const ROWS: [&[u8]; 10] = [
        &[0x00, 0x00],
        LINUX_CONNECT,
        &[0x81, 0x84, 0x02, 0x02, 0x07, 0xFF, 0x05, 0x01, 0x0F],
        &[0x81, 0xC4, 0x02],
        &[0x82, 0x04, 0x1C, 0x10, 0x00, 0x00],
        &[0x06, 0x41, 0x09, 0x02, 0x00, 0x04],
        &[0x13, 0x20, 0x00, 0x10, 0x02, 0, 0, 0, 3, 0xD0, 0, 0],
        &[0x13, 0x60, 0x05],
        &[0x10, 0xE0, 0xAA],
        &[0x00, 0x80, 0, 2, 0x11, 0x20, 0, 4, 0x13, 0x20, 0x00, 0x01],
    ];
    for &bytes in &ROWS {
        changes_read_alike(&rt, rt.alloc(), bytes)?;
    }
    Ok(())
}

/// Strings of 0 to 23 bytes by a fixed generator, of which every second begins as an AGF.
#[test]
fn ten_thousand_strings_are_read_alike(rt: HostRuntime) -> Result<(), Fail> {
    let alloc = rt.alloc();
    let mut state: u32 = 1;
    for turn in 0..10_000u32 {
        let mut bytes = Vec::new(alloc);
        if turn % 2 == 0 {
            bytes.extend_from_slice(&[0x00, 0x80, 0x00])?;
        }
        for _ in 0..turn % 24 {
            state = state.wrapping_mul(1_664_525).wrapping_add(1_013_904_223);
            bytes.push((state >> 24) as u8 & 0x1F)?;
        }
        reads_alike(&rt, alloc, &bytes)?;
    }
    Ok(())
}
