//! The bytes of the messages of lines.

use bench_script::Msg;
use nfc_base::Items;
use std::alloc::Global;
use std::test::Fail;

/// How many bytes a message of so many counted bytes has, and those behind the first so many.
fn counted_from(
    alloc: Global,
    count: u32,
    start: u8,
    skipped: usize,
) -> Result<(usize, Vec<u8>), Fail> {
    let bytes = Msg::Gen { count, start }.bytes(alloc)?;
    let end = bytes.get(skipped..).unwrap_or(&[]);
    Ok((bytes.len(), Vec::from_slice(alloc, end)?))
}

#[test]
fn counted_bytes_begin_again_at_0(rt: HostRuntime) -> Result<(), Fail> {
    const ROWS: [(u32, u8, usize, &[u8]); 3] = [
        (0, 9, 0, &[]),
        (4, 254, 0, &[254, 255, 0, 1]),
        (65536, 3, 65535, &[2]),
    ];
    for &(count, start, skipped, wanted) in &ROWS {
        let (size, end) = counted_from(rt.alloc(), count, start, skipped)?;
        assert_eq!(rt;
            (size, end.as_slice()),
            (count as usize, wanted),
            "{count} from {start}"
        );
    }
    Ok(())
}

#[test]
fn bytes_that_are_spelled_stay(rt: HostRuntime) -> Result<(), Fail> {
    let alloc = rt.alloc();
    let spelled = Msg::Hex(Items::from_bytes(alloc, &[208, 0])?);
    assert_eq!(rt; spelled.bytes(alloc)?.as_slice(), [208, 0].as_slice());
    Ok(())
}
