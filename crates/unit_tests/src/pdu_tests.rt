//! PDUs and general bytes that are read and written.

use llcp_pdu::{
    FrmrReport, GeneralFault, LinkParams, Param, Part, Pdu, PduFault, PduKind, general_read,
    general_write,
};
use nfc_base::Items;
use std::alloc::{AllocError, Global};
use std::process::Abort;
use std::test::Fail;

const SNEP: &[u8] = b"urn:nfc:sn:snep";

/// What these bytes are read as, and the bytes that are written of it.
fn both_ways(alloc: Global, bytes: &[u8]) -> Result<(Pdu, Vec<u8>), PduFault> {
    let pdu = Pdu::read_from(alloc, bytes)?;
    let mut written = Vec::new(alloc);
    pdu.write_to(&mut written)?;
    Ok((pdu, written))
}

/// A list of parameters.
fn listed<const N: usize>(alloc: Global, params: [Param; N]) -> Result<Items<Param>, AllocError> {
    Ok(Items::new(Vec::from_array(alloc, params)?))
}

/// The CONNECT by name of a Linux peer.
fn linux_connect(alloc: Global) -> Result<Part, AllocError> {
    let params = [
        Param::Sn(Items::from_bytes(alloc, SNEP)?),
        Param::Miux(0x7FF),
        Param::Rw(15),
    ];
    Ok(Part::Connect {
        dsap: 1,
        ssap: 32,
        params: listed(alloc, params)?,
    })
}

/// Its CC.
fn linux_cc(alloc: Global) -> Result<Part, AllocError> {
    Ok(Part::Cc {
        dsap: 32,
        ssap: 4,
        params: listed(alloc, [Param::Miux(0x7FF), Param::Rw(15)])?,
    })
}

/// The lookup of a name, and its answer.
fn lookup(alloc: Global) -> Result<Part, AllocError> {
    let request = Param::SdReq {
        tid: 0,
        name: Items::from_bytes(alloc, SNEP)?,
    };
    Ok(Part::Snl(listed(alloc, [request])?))
}

fn lookup_answer(alloc: Global) -> Result<Part, AllocError> {
    Ok(Part::Snl(listed(alloc, [Param::SdRes { tid: 0, sap: 4 }])?))
}

/// A unit of a server, and one without connection.
fn unit(alloc: Global) -> Result<Part, AllocError> {
    Ok(Part::Info {
        dsap: 32,
        ssap: 4,
        ns: 0,
        nr: 1,
        info: Items::from_bytes(alloc, &[0x10, 0x81, 0x00, 0x00, 0x00, 0x00])?,
    })
}

fn datagram(alloc: Global) -> Result<Part, AllocError> {
    Ok(Part::Ui {
        dsap: 4,
        ssap: 32,
        info: Items::from_bytes(alloc, &[0xAA])?,
    })
}

/// These bytes are read as that PDU, and written of it.
fn comes_back(rt: &impl Abort, alloc: Global, bytes: &[u8], part: Part) -> Result<(), PduFault> {
    let (pdu, written) = both_ways(alloc, bytes)?;
    assert_eq!(rt; pdu, Pdu::One(part), "at {bytes:?}");
    assert_eq!(rt; written.as_slice(), bytes);
    Ok(())
}

#[test]
fn pdus_with_lists_come_back(rt: HostRuntime) -> Result<(), Fail> {
    let alloc = rt.alloc();
    let connect = b"\x05\x20\x06\x0Furn:nfc:sn:snep\x02\x02\x07\xFF\x05\x01\x0F";
    comes_back(&rt, alloc, connect, linux_connect(alloc)?)?;
    let cc = [0x81, 0x84, 0x02, 0x02, 0x07, 0xFF, 0x05, 0x01, 0x0F];
    comes_back(&rt, alloc, &cc, linux_cc(alloc)?)?;
    let request = b"\x06\x41\x08\x10\x00urn:nfc:sn:snep";
    comes_back(&rt, alloc, request, lookup(alloc)?)?;
    let answer = [0x06, 0x41, 0x09, 0x02, 0x00, 0x04];
    comes_back(&rt, alloc, &answer, lookup_answer(alloc)?)?;
    let info = [0x83, 0x04, 0x01, 0x10, 0x81, 0x00, 0x00, 0x00, 0x00];
    comes_back(&rt, alloc, &info, unit(alloc)?)?;
    comes_back(&rt, alloc, &[0x10, 0xE0, 0xAA], datagram(alloc)?)?;
    Ok(())
}

#[test]
fn plain_pdus_come_back(rt: HostRuntime) -> Result<(), Fail> {
    let report = FrmrReport {
        flags: 0x10,
        ptype: 12,
        sequence: 0x10,
        vs: 0,
        vr: 0,
        vsa: 0,
        vra: 0,
    };
    let (dsap, ssap) = (32, 4);
    let rows: [(&[u8], Part); 6] = [
        (&[0x00, 0x00], Part::Symm),
        (&[0x81, 0x44], Part::Disc { dsap, ssap }),
        (
            &[0x81, 0xC4, 0x02],
            Part::Dm {
                dsap,
                ssap,
                reason: 2,
            },
        ),
        (
            &[0x82, 0x04, 0x1C, 0x10, 0x00, 0x00],
            Part::Frmr { dsap, ssap, report },
        ),
        (&[0x83, 0x44, 0x02], Part::Rr { dsap, ssap, nr: 2 }),
        (&[0x83, 0x84, 0x0F], Part::Rnr { dsap, ssap, nr: 15 }),
    ];
    for (bytes, part) in rows {
        comes_back(&rt, rt.alloc(), bytes, part)?;
    }
    Ok(())
}

/// Units of a client, parameters of unknown types, ignored bits, and AGFs.
#[test]
fn bytes_come_back_without_what_is_ignored(rt: HostRuntime) -> Result<(), Fail> {
    let alloc = rt.alloc();
    let put = [0x13, 0x20, 0x00, 0x10, 0x02, 0, 0, 0, 3, 0xD0, 0, 0];
    let rows: [(&[u8], &[u8]); 7] = [
        (&[0x11, 0x20], &[0x11, 0x20]),
        (&put, &put),
        (&[0x13, 0x20, 0x10, 0xAA], &[0x13, 0x20, 0x10, 0xAA]),
        (
            &[0x11, 0x20, 0x63, 0x01, 0x07, 0x05, 0x01, 0x14],
            &[0x11, 0x20, 0x05, 0x01, 0x04],
        ),
        (&[0x83, 0x84, 0xF2], &[0x83, 0x84, 0x02]),
        (
            &[0x00, 0x80, 0, 2, 0x11, 0x20, 0, 4, 0x13, 0x20, 0x00, 0x01],
            &[0x00, 0x80, 0, 2, 0x11, 0x20, 0, 4, 0x13, 0x20, 0x00, 0x01],
        ),
        (&[0x00, 0x80], &[0x00, 0x80]),
    ];
    for (bytes, expected) in rows {
        let (_, written) = both_ways(alloc, bytes)?;
        assert_eq!(rt; written.as_slice(), expected, "at {bytes:?}");
    }
    Ok(())
}

fn fault_of(alloc: Global, bytes: &[u8]) -> Option<PduFault> {
    Pdu::read_from(alloc, bytes).err()
}

#[test]
fn faults_have_their_places(rt: HostRuntime) -> Result<(), Fail> {
    const ROWS: [(&[u8], u16, PduKind); 12] = [
        (&[], 0, PduKind::Short),
        (&[0x11], 1, PduKind::Short),
        (&[0x13, 0x20], 2, PduKind::Short),
        (&[0x00, 0x40], 0, PduKind::Ptype),
        (&[0x04, 0x00], 0, PduKind::Sap),
        (&[0x0A, 0x41], 0, PduKind::Sap),
        (&[0x11, 0x20, 0x05, 0x02, 0x00], 2, PduKind::Parameter),
        (&[0x00, 0x80, 0x00, 0x02, 0x00, 0x80], 2, PduKind::Nested),
        (&[0x00, 0x00, 0x00], 2, PduKind::Trailing),
        (&[0x00, 0x80, 0x00, 0x05, 0x00, 0x00], 6, PduKind::Short),
        (
            &[0x00, 0x80, 0, 3, 0x13, 0x20, 0x00, 0x00, 0xFF, 0x13, 0x20],
            11,
            PduKind::Short,
        ),
        (&[0x81, 0xC4], 2, PduKind::Short),
    ];
    for &(bytes, place, kind) in &ROWS {
        let wanted = PduFault::Refused { place, kind };
        assert_eq!(rt; fault_of(rt.alloc(), bytes), Some(wanted), "at {bytes:?}");
    }
    Ok(())
}

#[test]
fn general_bytes_are_read(rt: HostRuntime) {
    let linux = LinkParams {
        version: 0x11,
        miu: 2175,
        wks: 0x11,
    };
    let rows: [(&[u8], Result<LinkParams, GeneralFault>); 8] = [
        (
            b"Ffm\x01\x01\x11\x04\x01\x96\x03\x02\x00\x11\x02\x02\x07\xFF",
            Ok(linux),
        ),
        (
            b"Ffm\x02\x02\x00\x01\x01\x01\x11\x02\x02\xFF\xFF\x03\x02\x00\x11",
            Ok(linux),
        ),
        (b"Ffn\x01\x01\x13", Err(GeneralFault::NoMagic)),
        (b"Ff", Err(GeneralFault::NoMagic)),
        (b"Ffm", Err(GeneralFault::NoVersion)),
        (b"Ffm\x01\x01\x23\x02\x01\x00", Err(GeneralFault::Malformed)),
        (b"Ffm\x01\x01\x23", Err(GeneralFault::OtherMajor)),
        (b"Ffm\x03\x02\x00\x01\x01", Err(GeneralFault::Malformed)),
    ];
    for (bytes, expected) in rows {
        assert_eq!(rt; general_read(bytes), expected, "at {bytes:?}");
    }
}

/// The general bytes of an end of version 1.3 with this MIU and these well-known services.
fn are_written(rt: &impl Abort, miu: u16, wks: u16, bytes: &[u8]) {
    assert!(rt; 128 <= miu && miu <= 2175);
    let version = 0x13;
    let params = LinkParams { version, miu, wks };
    assert_eq!(rt; general_write(&params).as_slice(), bytes);
}

#[test]
fn general_bytes_are_written(rt: HostRuntime) {
    const ROWS: [(u16, u16, &[u8]); 2] = [
        (128, 0x0003, b"Ffm\x01\x01\x13\x03\x02\x00\x03"),
        (
            2175,
            0x0013,
            b"Ffm\x01\x01\x13\x02\x02\x07\xFF\x03\x02\x00\x13",
        ),
    ];
    for &(miu, wks, bytes) in &ROWS {
        are_written(&rt, miu, wks, bytes);
    }
}
