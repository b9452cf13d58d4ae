//! The calls of a reader, told by their frames.

use nfc_base::{Frame, Tech};
use nfca_poll::CallKind;
use std::test::Fail;

/// A call's name, and its level where it has one.
fn told(call: Option<CallKind>) -> (&'static str, u8) {
    match call {
        None => ("none", 0),
        Some(CallKind::Sens) => ("SENS_REQ", 0),
        Some(CallKind::All) => ("ALL_REQ", 0),
        Some(CallKind::Slp) => ("SLP_REQ", 0),
        Some(CallKind::Sdd { level }) => ("SDD_REQ", level),
        Some(CallKind::Sel { level }) => ("SEL_REQ", level),
    }
}

#[test]
fn calls(rt: HostRuntime) -> Result<(), Fail> {
    const ROWS: [(&[u8], u8, (&str, u8)); 10] = [
        (&[0x26], 7, ("SENS_REQ", 0)),
        (&[0x52], 7, ("ALL_REQ", 0)),
        (&[0x26], 0, ("none", 0)),
        (&[0x50, 0], 0, ("SLP_REQ", 0)),
        (&[0x93, 0x20], 0, ("SDD_REQ", 1)),
        (&[0x97, 0x23, 5], 3, ("SDD_REQ", 3)),
        (&[0x97, 0x23, 5], 4, ("none", 0)),
        (&[0x95, 0x70, 1, 2, 3, 4, 4], 0, ("SEL_REQ", 2)),
        (&[0x95, 0x70, 1, 2, 3, 4], 0, ("none", 0)),
        (&[0x99, 0x20], 0, ("none", 0)),
    ];
    for &(bytes, tail, wanted) in &ROWS {
        let frame = Frame::part(Tech::A, bytes, tail)?;
        assert_eq!(rt; told(CallKind::read_from(&frame)), wanted, "at {bytes:?}");
    }
    Ok(())
}
