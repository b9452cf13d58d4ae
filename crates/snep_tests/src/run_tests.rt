//! A client puts several messages at once, each from its slot.

use crate::ends::{Step, Straight, client, follows, new_ends, outcome, peer, staged};
use llcp_link::{Counts, Llc};
use nfc_base::EndCause;
use snep_core::{Client, Outcome, Server, SnepFault};
use std::alloc::Global;
use std::process::Abort;
use std::test::Fail;

/// One PDU in each payload.
const ONE_BY_ONE: &[u32] = &[1; 24];

#[test]
fn two_messages_alternate(rt: HostRuntime) -> Result<(), Fail> {
    let rows = [
        (Step::Outcome(0), "NoMessage"),
        (Step::Stage(0, &[7; 300]), "Ok(())"),
        (Step::Stage(1, &[8; 300]), "Ok(())"),
        (Step::Outcome(1), "Staged"),
        (Step::Run(ONE_BY_ONE), "Ok(())"),
        (Step::Outcome(0), "Success"),
        (Step::Outcome(1), "Success"),
        // both CONNECTs, the first units, and behind their continues the others in turn
        (Step::Payload(0), "1120"),
        (Step::Payload(1), "1121"),
        (Step::Begin(2), "132000"),
        (Step::Begin(3), "132100"),
        (Step::Begin(4), "132011"),
        (Step::Begin(5), "132111"),
        (Step::Begin(6), "132021"),
        (Step::Begin(7), "132121"),
        (Step::Handed, "8"),
        (Step::Message(0), "300 of 07"),
        (Step::Source(0), "Some(32)"),
        (Step::Message(1), "300 of 08"),
        (Step::Source(1), "Some(33)"),
        (Step::Accepted, "2"),
    ];
    new_ends(&rt, rt.alloc(), &rows)
}

#[test]
fn eight_messages_are_told_one_by_one(rt: HostRuntime) -> Result<(), Fail> {
    let rows = [
        (Step::Stage(7, &[7; 200]), "Ok(())"),
        (Step::Stage(0, &[]), "Ok(())"),
        (Step::Stage(1, &[1; 1025]), "Ok(())"),
        (Step::Stage(2, &[2; 1024]), "Ok(())"),
        (Step::Stage(3, &[3]), "Ok(())"),
        (Step::Stage(4, &[4; 122]), "Ok(())"),
        (Step::Stage(5, &[5; 123]), "Ok(())"),
        (Step::Stage(6, &[6; 2]), "Ok(())"),
        (Step::Run(&[]), "Ok(())"),
        (Step::Outcome(0), "Success"),
        (Step::Outcome(1), "Rejected"),
        (Step::Outcome(2), "Success"),
        (Step::Outcome(3), "Success"),
        (Step::Outcome(4), "Success"),
        (Step::Outcome(5), "Success"),
        (Step::Outcome(6), "Success"),
        (Step::Outcome(7), "Success"),
        (Step::Accepted, "7"),
    ];
    new_ends(&rt, rt.alloc(), &rows)
}

#[test]
fn nothing_is_put_where_nothing_waits(rt: HostRuntime) -> Result<(), Fail> {
    let rows = [
        (Step::Run(&[]), "Ok(())"),
        (Step::Handed, "0"),
        (Step::Outcome(3), "NoMessage"),
    ];
    new_ends(&rt, rt.alloc(), &rows)
}

#[test]
fn a_slot_takes_a_message_once_its_last_is_answered(rt: HostRuntime) -> Result<(), Fail> {
    let rows = [
        (Step::Stage(3, &[1]), "Ok(())"),
        (Step::Stage(3, &[2]), "Err(SlotBusy)"),
        // what waits stays as other calls are made
        (Step::Put(&[3]), "Ok(())"),
        (Step::Outcome(3), "Staged"),
        (Step::Outcome(0), "Success"),
        (Step::Run(&[]), "Ok(())"),
        (Step::Stage(3, &[4]), "Ok(())"),
        (Step::Outcome(3), "Staged"),
        (Step::Run(&[]), "Ok(())"),
        (Step::Lookup("urn:nfc:sn:snep"), "Ok(4)"),
        (Step::Get(16, b"k1"), "NotImplemented"),
        (Step::Accepted, "3"),
        (Step::Message(0), "03"),
        (Step::Message(1), "01"),
        (Step::Message(2), "04"),
        (Step::Source(2), "Some(35)"),
    ];
    new_ends(&rt, rt.alloc(), &rows)
}

/// Two messages are put over a link that is lost behind so many payloads.
fn lost_run(
    rt: &impl Abort,
    alloc: Global,
    client: &mut Client,
    far: &mut Llc<Server>,
    passes: u8,
    answers: bool,
) -> Result<(), SnepFault> {
    staged(rt, client, 0, &[7])?;
    staged(rt, client, 5, &[8; 200])?;
    let mut link = Straight::lost(alloc, passes, answers);
    client.run(&mut link, far, Counts::most(alloc))
}

fn loses(rt: &impl Abort, alloc: Global, row: (u8, bool, Outcome, usize)) -> Result<(), Fail> {
    let (passes, answers, first, accepted) = row;
    let mut client = client(alloc);
    let mut far = peer(rt, alloc)?;
    let lost = Err(SnepFault::LinkEnded(EndCause::FieldLost));
    assert_eq!(rt;
        lost_run(rt, alloc, &mut client, &mut far, passes, answers),
        lost,
        "behind {passes}"
    );
    assert_eq!(rt; outcome(rt, &client, 0), first, "behind {passes}");
    assert_eq!(rt; outcome(rt, &client, 5), Outcome::Staged, "behind {passes}");
    assert_eq!(rt;
        far.as_service().accepted().len(),
        accepted,
        "behind {passes}"
    );
    Ok(())
}

#[test]
fn a_link_that_is_lost_leaves_what_was_answered(rt: HostRuntime) -> Result<(), Fail> {
    let rows = [
        (0, false, Outcome::Staged, 0usize),
        (0, true, Outcome::Staged, 0),
        (1, false, Outcome::Staged, 0),
        (1, true, Outcome::Staged, 1),
        (2, false, Outcome::Success, 1),
        (2, true, Outcome::Success, 1),
        (3, false, Outcome::Success, 1),
        (3, true, Outcome::Success, 2),
    ];
    for row in rows {
        loses(&rt, rt.alloc(), row)?;
    }
    Ok(())
}

#[test]
fn a_fault_at_a_slot_has_a_number(rt: HostRuntime) -> Result<(), Fail> {
    assert_eq!(rt; SnepFault::SlotBusy.number(), 8);
    let alloc = rt.alloc();
    let rows = [(Step::Stage(0, &[1]), "Ok(())")];
    follows(
        &rt,
        alloc,
        &mut client(alloc),
        &mut peer(&rt, alloc)?,
        &rows,
    )
}
