//! How many PDUs stand in a payload.

use crate::ends::{Notes, gives, replies_by, server};
use llcp_link::{Counted, Counts, Llc};
use std::alloc::Global;
use std::process::Abort;
use std::test::Fail;

/// Three clients ask for connections.
const THREE: [u8; 14] = [
    0x00, 0x80, 0x00, 0x02, 0x11, 0x20, 0x00, 0x02, 0x11, 0x21, 0x00, 0x02, 0x11, 0x22,
];

/// Five do.
const FIVE: [u8; 22] = [
    0x00, 0x80, 0x00, 0x02, 0x11, 0x20, 0x00, 0x02, 0x11, 0x21, 0x00, 0x02, 0x11, 0x22, 0x00, 0x02,
    0x11, 0x23, 0x00, 0x02, 0x11, 0x24,
];

const SYMM: [u8; 2] = [0x00, 0x00];

/// It gives these payloads, one after the other, each by the number before it.
fn gives_all(
    rt: &impl Abort,
    alloc: Global,
    llc: &mut Llc<Notes>,
    rows: &[(u32, &[u8])],
) -> Result<(), Fail> {
    for (count, payload) in rows {
        gives(rt, alloc, llc, *count, payload)?;
    }
    Ok(())
}

/// A server that three clients ask does so.
fn gives_three(rt: &impl Abort, alloc: Global, rows: &[(u32, &[u8])]) -> Result<(), Fail> {
    let mut llc = server(rt, alloc)?;
    assert_eq!(rt; llc.take(&THREE), Ok(()));
    gives_all(rt, alloc, &mut llc, rows)
}

#[test]
fn a_payload_has_as_many_pdus_as_asked(rt: HostRuntime) -> Result<(), Fail> {
    let two = [0x00, 0x80, 0x00, 0x02, 0x81, 0x84, 0x00, 0x02, 0x85, 0x84];
    gives_three(
        &rt,
        rt.alloc(),
        &[(2, &two), (0, &[0x89, 0x84]), (2, &SYMM)],
    )
}

#[test]
fn one_pdu_alone_leaves_the_others(rt: HostRuntime) -> Result<(), Fail> {
    let others = [0x00, 0x80, 0x00, 0x02, 0x85, 0x84, 0x00, 0x02, 0x89, 0x84];
    gives_three(&rt, rt.alloc(), &[(1, &[0x81, 0x84]), (0, &others)])
}

#[test]
fn of_more_than_are_due_a_payload_has_all(rt: HostRuntime) -> Result<(), Fail> {
    let all = [
        0x00, 0x80, 0x00, 0x02, 0x81, 0x84, 0x00, 0x02, 0x85, 0x84, 0x00, 0x02, 0x89, 0x84,
    ];
    gives_three(&rt, rt.alloc(), &[(7, &all), (7, &SYMM)])
}

/// A server that gives as many PDUs as these numbers say.
fn counted(rt: &impl Abort, alloc: Global, numbers: &[u32]) -> Result<Counted<Notes>, Fail> {
    let numbers = Vec::from_slice(alloc, numbers)?;
    Ok(Counted::new(server(rt, alloc)?, Counts::new(numbers)))
}

fn gives_nothing(rt: &impl Abort, alloc: Global, end: Counted<Notes>) -> Result<(), Fail> {
    gives(rt, alloc, &mut end.into_end(), 0, &SYMM)
}

#[test]
fn payloads_have_the_given_numbers_and_then_as_many_as_fit(rt: HostRuntime) -> Result<(), Fail> {
    let alloc = rt.alloc();
    let mut end = counted(&rt, alloc, &[1, 2])?;
    const ROWS: [(&[u8], &[u8]); 3] = [
        (&FIVE, &[0x81, 0x84]),
        (
            &SYMM,
            &[0x00, 0x80, 0x00, 0x02, 0x85, 0x84, 0x00, 0x02, 0x89, 0x84],
        ),
        (
            &SYMM,
            &[0x00, 0x80, 0x00, 0x02, 0x8D, 0x84, 0x00, 0x02, 0x91, 0x84],
        ),
    ];
    replies_by(&rt, alloc, &mut end, &ROWS)?;
    gives_nothing(&rt, alloc, end)
}

#[test]
fn with_no_numbers_payloads_have_as_many_as_fit(rt: HostRuntime) -> Result<(), Fail> {
    let alloc = rt.alloc();
    let mut end = Counted::new(server(&rt, alloc)?, Counts::most(alloc));
    let two = [0x00, 0x80, 0x00, 0x02, 0x11, 0x20, 0x00, 0x02, 0x11, 0x21];
    let joined = [0x00, 0x80, 0x00, 0x02, 0x81, 0x84, 0x00, 0x02, 0x85, 0x84];
    replies_by(&rt, alloc, &mut end, &[(&two, &joined)])
}
