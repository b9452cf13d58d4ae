//! Dumps with a message, and dumps with none.

use crate::dump::told;
use std::test::Fail;

/// The container of an area of 48 bytes, with what stands before it.
const HEAD: &str = "04A1B29FC3D4E58072480000 E1100600";

#[test]
fn dumps(rt: HostRuntime) -> Result<(), Fail> {
    let rows: [(&str, Result<&str, u8>); 9] = [
        ("0303D00000FE", Ok("D00000")),
        ("0303d00000 fe\n", Ok("D00000")),
        ("0300FE", Ok("")),
        ("0102034400 FE", Err(7)),
        ("0331D00000FE", Err(8)),
        ("0303D000", Err(6)),
        ("0303D0000", Err(2)),
        ("0303D0000g", Err(2)),
        ("00", Err(6)),
    ];
    for (tail, wanted) in rows {
        let text = format!(in rt.alloc(); "{HEAD}\n{tail}")?;
        match (told(rt.alloc(), text.as_str()), wanted) {
            (Ok(message), Ok(wanted)) => assert_eq!(rt; message.as_str(), wanted, "at {tail}"),
            (Err(fault), Err(wanted)) => assert_eq!(rt; fault.status(), wanted, "at {tail}"),
            _ => assert!(rt; false, "at {tail}"),
        }
    }
    Ok(())
}

#[test]
fn containers(rt: HostRuntime) -> Result<(), Fail> {
    for (container, wanted) in [
        ("E010", 6),
        ("E0100600", 11),
        ("E1200600", 12),
        ("E1100601", 7),
        ("E11006F0", 13),
        ("E110FF00", 14),
        ("E1100000", 15),
    ] {
        let text = format!(in rt.alloc(); "000000000000000000000000{container}FE")?;
        match told(rt.alloc(), text.as_str()) {
            Ok(_) => assert!(rt; false, "at {container}"),
            Err(fault) => assert_eq!(rt; fault.status(), wanted, "at {container}"),
        }
    }
    Ok(())
}
