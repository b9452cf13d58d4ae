//! The phases of a write, called one by one.

use crate::MemLink;
use crate::rows::part;
use crate::write_tests::{PLAIN, left_t2, tag_t2};
use std::alloc::Global;
use std::process::Abort;
use std::test::Fail;
use t2t_tag::T2Tag;
use tag_reader::How;
use tag_writer::{Phase, Stopped, WriteFault, prepare};

const NEW: [u8; 9] = [9; 9];

/// The plan, and so many of the three phases behind it.
fn write_up_to(alloc: Global, link: &mut MemLink<T2Tag>, phases: u8) -> Result<(), Stopped> {
    let prepared = match prepare(alloc, link, How::T2, &NEW) {
        Ok(prepared) => prepared,
        Err(cause) => {
            return Err(Stopped {
                phase: Phase::Prepared,
                cause,
            });
        }
    };
    if phases == 0 {
        return Ok(());
    }
    let emptied = prepared.empty(alloc, link)?;
    if phases == 1 {
        return Ok(());
    }
    let filled = emptied.fill(alloc, link)?;
    if phases == 2 {
        return Ok(());
    }
    filled.finish(alloc, link)?;
    Ok(())
}

/// So many phases are answered with so many commands, and leave these blocks from the length's on, and this message.
fn leaves(
    rt: &impl Abort,
    alloc: Global,
    (phases, answered): (u8, usize),
    message: &[u8],
    blocks: &[u8],
) -> Result<(), Fail> {
    let mut link = MemLink::new(alloc, tag_t2(alloc, 64, &PLAIN)?);
    assert_eq!(rt; write_up_to(alloc, &mut link, phases), Ok(()));
    assert_eq!(rt; link.answered.len(), answered);
    assert_eq!(rt; part(link.card.store(), 16, 12), blocks);
    assert_eq!(rt; left_t2(alloc, &mut link)?.as_slice(), message);
    Ok(())
}

#[test]
fn a_caller_may_stop_behind_each_phase(rt: HostRuntime) -> Result<(), Fail> {
    // the phases, the commands that are answered, what the tag holds then, and its blocks from the length's on
    const ROWS: [(u8, usize, &[u8], [u8; 12]); 4] = [
        (
            0,
            4,
            &[0xD0, 0, 0],
            [3, 3, 0xD0, 0, 0, 0xFE, 0, 0, 0, 0, 0, 0],
        ),
        (1, 5, &[], [3, 0, 0xD0, 0, 0, 0xFE, 0, 0, 0, 0, 0, 0]),
        (2, 7, &[], [3, 0, 0xD0, 0, 9, 9, 9, 9, 9, 9, 9, 0xFE]),
        (3, 8, &NEW, [3, 9, 9, 9, 9, 9, 9, 9, 9, 9, 9, 0xFE]),
    ];
    for (phases, answered, message, blocks) in &ROWS {
        leaves(&rt, rt.alloc(), (*phases, *answered), message, blocks)?;
    }
    Ok(())
}

/// A link that is lost after so many commands stops the write behind this phase, and leaves this message.
fn stops(
    rt: &impl Abort,
    alloc: Global,
    left: u16,
    phase: Phase,
    message: &[u8],
) -> Result<(), Fail> {
    let mut link = MemLink::lost_after(alloc, tag_t2(alloc, 64, &PLAIN)?, left, false);
    let cause = WriteFault::FieldLost;
    let stopped = Stopped { phase, cause };
    assert_eq!(rt; write_up_to(alloc, &mut link, 3), Err(stopped));
    assert_eq!(rt; left_t2(alloc, &mut link)?.as_slice(), message);
    Ok(())
}

#[test]
fn a_stop_tells_the_last_phase_that_was_reached(rt: HostRuntime) -> Result<(), Fail> {
    // after how many commands the link is lost, and what the tag holds then
    const ROWS: [(u16, Phase, &[u8]); 5] = [
        (3, Phase::Prepared, &[0xD0, 0, 0]),
        (4, Phase::Prepared, &[0xD0, 0, 0]),
        (5, Phase::Emptied, &[]),
        (6, Phase::Emptied, &[]),
        (7, Phase::Filled, &[]),
    ];
    for &(left, phase, message) in &ROWS {
        stops(&rt, rt.alloc(), left, phase, message)?;
    }
    Ok(())
}
