//! Frames of NFC-DEP and refusals, read and written.

use dep_pdu::{DepFrame, DepKind, DepRefusal};
use std::alloc::Global;
use std::process::Abort;
use std::test::Fail;

/// ATR_REQ of a Linux initiator, and ATR_RES of a Linux target.
const LINUX_ATR_REQ: [u8; 35] = [
    0xF0, 0x22, 0xD4, 0x00, 1, 2, 3, 4, 5, 6, 7, 8, 9, 10, 0, 0, 0, 0x32, 0x46, 0x66, 0x6D, 0x01,
    0x01, 0x11, 0x04, 0x01, 0x96, 0x03, 0x02, 0x00, 0x01, 0x02, 0x02, 0x07, 0xFF,
];

const LINUX_ATR_RES: [u8; 36] = [
    0xF0, 0x23, 0xD5, 0x01, 1, 2, 3, 4, 5, 6, 7, 8, 9, 10, 0, 0, 0, 0x0E, 0x32, 0x46, 0x66, 0x6D,
    0x01, 0x01, 0x11, 0x04, 0x01, 0x96, 0x03, 0x02, 0x00, 0x01, 0x02, 0x02, 0x07, 0xFF,
];

/// These bytes are read as the frame of this text, and written of it.
fn comes_back(rt: &impl Abort, alloc: Global, bytes: &[u8], wanted: &str) -> Result<(), Fail> {
    let frame = DepFrame::read_from(bytes)?;
    let text = format!(in alloc; "{frame:?}")?;
    assert_eq!(rt; text.as_str(), wanted, "at {bytes:?}");
    assert_eq!(rt; frame.to_bytes().as_slice(), bytes);
    Ok(())
}

#[test]
fn frames(rt: HostRuntime) -> Result<(), Fail> {
    let rows: [(&[u8], &str); 10] = [
        (
            &LINUX_ATR_REQ,
            "AtrReq { id: [1, 2, 3, 4, 5, 6, 7, 8, 9, 10], lr: 3, general: \
             [70, 102, 109, 1, 1, 17, 4, 1, 150, 3, 2, 0, 1, 2, 2, 7, 255] }",
        ),
        (
            &LINUX_ATR_RES,
            "AtrRes { id: [1, 2, 3, 4, 5, 6, 7, 8, 9, 10], timeout: 14, lr: 3, general: \
             [70, 102, 109, 1, 1, 17, 4, 1, 150, 3, 2, 0, 1, 2, 2, 7, 255] }",
        ),
        (
            &[0xF0, 0x06, 0xD4, 0x06, 0x12, 0, 0],
            "Info { up: false, more: true, pni: 2, content: [0, 0] }",
        ),
        (
            &[0xF0, 0x04, 0xD5, 0x07, 0x00],
            "Info { up: true, more: false, pni: 0, content: [] }",
        ),
        (&[0xF0, 0x04, 0xD5, 0x07, 0x40], "Ack { up: true, pni: 0 }"),
        (&[0xF0, 0x04, 0xD4, 0x06, 0x53], "Nack { pni: 3 }"),
        (&[0xF0, 0x04, 0xD4, 0x06, 0x80], "Attention { up: false }"),
        (
            &[0xF0, 0x05, 0xD5, 0x07, 0x90, 59],
            "Extend { up: true, times: 59 }",
        ),
        (&[0xF0, 0x03, 0xD4, 0x08], "DslReq"),
        (&[0xF0, 0x03, 0xD5, 0x0B], "RlsRes"),
    ];
    for (bytes, wanted) in rows {
        comes_back(&rt, rt.alloc(), bytes, wanted)?;
    }
    Ok(())
}

#[test]
fn refusals(rt: HostRuntime) -> Result<(), Fail> {
    const ROWS: [(&[u8], u16, DepKind); 16] = [
        (&[0xF1, 0x03, 0xD4, 0x0A], 0, DepKind::Start),
        (&[], 0, DepKind::Start),
        (&[0xF0, 0x00], 1, DepKind::Length),
        (&[0xF0, 0x05, 0xD4, 0x06, 0x00], 1, DepKind::Length),
        (&[0xF0], 1, DepKind::Length),
        (&[0xF0, 0x01], 2, DepKind::Short),
        (&[0xF0, 0x03, 0xD4, 0x06], 4, DepKind::Short),
        (&[0xF0, 0x04, 0xD5, 0x07, 0x90], 5, DepKind::Short),
        (&[0xF0, 0x04, 0xD6, 0x06, 0x80], 2, DepKind::Direction),
        (&[0xF0, 0x04, 0xD4, 0x07, 0x80], 3, DepKind::Command),
        // PSL_REQ of a Linux initiator that also polls NFC-F
        (
            &[0xF0, 0x06, 0xD4, 0x04, 0x00, 0x12, 0x03],
            3,
            DepKind::Command,
        ),
        (&[0xF0, 0x04, 0xD4, 0x06, 0xE0], 4, DepKind::Field),
        (&[0xF0, 0x04, 0xD5, 0x07, 0x50], 4, DepKind::Field),
        (&[0xF0, 0x05, 0xD5, 0x07, 0x90, 60], 5, DepKind::Field),
        (&[0xF0, 0x04, 0xD4, 0x0A, 0x00], 4, DepKind::Trailing),
        (&[0xF0, 0x05, 0xD4, 0x06, 0x80, 0x00], 5, DepKind::Trailing),
    ];
    for &(bytes, place, kind) in &ROWS {
        let refusal = DepRefusal { place, kind };
        assert_eq!(rt; DepFrame::read_from(bytes), Err(refusal), "at {bytes:?}");
    }
    Ok(())
}

/// The ATR_REQ with one byte changed is refused at this place, unless it is read.
fn changed(rt: &impl Abort, place: usize, byte: u8, refused: Option<u16>) {
    let mut bytes = LINUX_ATR_REQ;
    assert!(rt; place < bytes.len());
    bytes[place] = byte;
    let kind = DepKind::Field;
    let refusal = refused.map(|place| DepRefusal { place, kind });
    assert_eq!(rt; DepFrame::read_from(&bytes).err(), refusal, "at {place}");
}

/// One byte of the ATR_REQ changed, and where that is refused.
#[test]
fn changed_bytes(rt: HostRuntime) -> Result<(), Fail> {
    let rows = [
        (14, 1, Some(14)),
        (15, 0x0F, None),
        (16, 0xFF, None),
        (17, 0x33, Some(17)),
        (17, 0x30, Some(17)),
    ];
    for (place, byte, refused) in rows {
        changed(&rt, place, byte, refused);
    }
    Ok(())
}
