//! What an end asks of the other.

use crate::ends::{Notes, SNEP, server};
use llcp_link::{Llc, Standing};
use nfc_base::Answerer;
use std::alloc::Global;
use std::fmt::Write;
use std::process::Abort;
use std::test::Fail;

/// One call at an end, or what two ends do with each other.
#[derive(Clone, Copy)]
enum Step {
    /// It asks for a connection from SAP 32 to SAP 4.
    Connect,
    /// It asks for one from SAP 33 to SAP 5, to which nothing is bound.
    ConnectUnbound,
    Lookup(&'static str),
    Found(u8),
    Submit(u8, &'static [u8]),
    Acked(u8),
    Standing(u8),
    /// It gives an open connection up.
    Leave(u8),
    Forget(u8),
    Unit(u8),
    /// It answers a payload.
    Answers(&'static [u8]),
    /// It gives a payload, and the other end takes it.
    Gives,
    /// The other end gives a payload, and it takes this.
    Takes,
}

/// A payload of an end comes to the other.
fn passes(
    rt: &impl Abort,
    alloc: Global,
    from: &mut Llc<Notes>,
    to: &mut Llc<Notes>,
) -> Result<String, Fail> {
    let mut payload = Vec::new(alloc);
    assert_eq!(rt; from.give(0, &mut payload), Ok(()));
    Ok(format!(in alloc; "{:?}", to.take(&payload))?)
}

/// Gives an open connection up.
#[tactic(auto, using(llcp_link::proofs::Asked::open_standing))]
fn leaves(alloc: Global, llc: &mut Llc<Notes>, ssap: u8) -> Result<String, Fail> {
    match llc.standing(ssap) {
        Standing::Open { .. } => Ok(format!(in alloc; "{:?}", llc.disconnect(ssap))?),
        other => Ok(format!(in alloc; "{other:?}")?),
    }
}

fn looks_up(
    rt: &impl Abort,
    alloc: Global,
    llc: &mut Llc<Notes>,
    name: &str,
) -> Result<String, Fail> {
    assert!(rt; name.len() <= 64);
    Ok(format!(in alloc; "{:?}", llc.lookup(name))?)
}

fn forgets(alloc: Global, llc: &mut Llc<Notes>, ssap: u8) -> Result<String, Fail> {
    llc.forget(ssap);
    Ok(format!(in alloc; "forgotten")?)
}

fn in_hex(alloc: Global, bytes: &[u8]) -> Result<String, Fail> {
    let mut text = String::new(alloc);
    for byte in bytes {
        write!(text, "{byte:02X}")?;
    }
    Ok(text)
}

fn hands_up(alloc: Global, llc: &mut Llc<Notes>, ssap: u8) -> Result<String, Fail> {
    match llc.unit(ssap) {
        None => Ok(format!(in alloc; "None")?),
        Some(unit) => in_hex(alloc, unit.as_slice()),
    }
}

/// The reply to a payload.
fn answers(
    rt: &impl Abort,
    alloc: Global,
    llc: &mut Llc<Notes>,
    payload: &[u8],
) -> Result<String, Fail> {
    let mut reply = Vec::new(alloc);
    assert!(rt; payload.len() < 64);
    assert_eq!(rt; llc.answer(alloc, payload, &mut reply), Ok(()));
    in_hex(alloc, &reply)
}

/// What the step comes to.
fn told(
    rt: &impl Abort,
    alloc: Global,
    near: &mut Llc<Notes>,
    far: &mut Llc<Notes>,
    step: Step,
) -> Result<String, Fail> {
    match step {
        Step::Connect => Ok(format!(in alloc; "{:?}", near.connect(4))?),
        Step::ConnectUnbound => Ok(format!(in alloc; "{:?}", near.connect_from(33, 5))?),
        Step::Lookup(name) => looks_up(rt, alloc, near, name),
        Step::Found(tid) => Ok(format!(in alloc; "{:?}", near.found(tid))?),
        Step::Submit(ssap, unit) => Ok(format!(in alloc; "{:?}", near.submit(ssap, unit))?),
        Step::Acked(ssap) => Ok(format!(in alloc; "{}", near.acked(ssap))?),
        Step::Standing(ssap) => Ok(format!(in alloc; "{:?}", near.standing(ssap))?),
        Step::Leave(ssap) => leaves(alloc, near, ssap),
        Step::Forget(ssap) => forgets(alloc, near, ssap),
        Step::Unit(ssap) => hands_up(alloc, near, ssap),
        Step::Answers(payload) => answers(rt, alloc, near, payload),
        Step::Gives => passes(rt, alloc, near, far),
        Step::Takes => passes(rt, alloc, far, near),
    }
}

/// The steps come to these texts, one after the other.
fn follows(
    rt: &impl Abort,
    alloc: Global,
    near: &mut Llc<Notes>,
    far: &mut Llc<Notes>,
    rows: &[(Step, &str)],
) -> Result<(), Fail> {
    for (at, (step, wanted)) in rows.iter().enumerate() {
        let text = told(rt, alloc, near, far, *step)?;
        assert_eq!(rt; text.as_str(), *wanted, "at row {at}");
    }
    Ok(())
}

/// The same of two new ends.
fn two_ends(rt: &impl Abort, alloc: Global, rows: &[(Step, &str)]) -> Result<(), Fail> {
    let mut near = server(rt, alloc)?;
    follows(rt, alloc, &mut near, &mut server(rt, alloc)?, rows)
}

#[test]
fn two_ends_connect(rt: HostRuntime) -> Result<(), Fail> {
    let rows = [
        (Step::Standing(32), "Nothing"),
        (Step::Connect, "Ok(())"),
        (Step::Connect, "Err(Busy)"),
        (Step::ConnectUnbound, "Ok(())"),
        (Step::Standing(33), "Waiting"),
        (Step::Gives, "Ok(())"),
        (Step::Takes, "Ok(())"),
        (Step::Standing(32), "Open { miu: 128 }"),
        (Step::Standing(33), "Refused"),
    ];
    two_ends(&rt, rt.alloc(), &rows)
}

#[test]
fn two_ends_look_names_up(rt: HostRuntime) -> Result<(), Fail> {
    let rows = [
        (Step::Lookup(SNEP), "Ok(0)"),
        (Step::Lookup("x"), "Ok(1)"),
        (Step::Found(0), "None"),
        (Step::Gives, "Ok(())"),
        (Step::Takes, "Ok(())"),
        (Step::Found(0), "Some(4)"),
        (Step::Found(1), "Some(0)"),
        (Step::Found(2), "None"),
    ];
    two_ends(&rt, rt.alloc(), &rows)
}

#[test]
fn a_unit_goes_over_an_own_connection(rt: HostRuntime) -> Result<(), Fail> {
    let rows = [
        (Step::Connect, "Ok(())"),
        (Step::Submit(32, &[7]), "Err(NotOpen)"),
        (Step::Gives, "Ok(())"),
        (Step::Takes, "Ok(())"),
        (Step::Submit(32, &[7]), "Ok(())"),
        (Step::Submit(32, &[8]), "Err(WindowFull)"),
        (Step::Acked(32), "0"),
        (Step::Gives, "Ok(())"),
        (Step::Takes, "Ok(())"),
        (Step::Acked(32), "1"),
    ];
    two_ends(&rt, rt.alloc(), &rows)
}

#[test]
fn an_own_connection_is_given_up(rt: HostRuntime) -> Result<(), Fail> {
    let rows = [
        (Step::Connect, "Ok(())"),
        (Step::Gives, "Ok(())"),
        (Step::Takes, "Ok(())"),
        (Step::Leave(32), "Ok(())"),
        (Step::Gives, "Ok(())"),
        (Step::Standing(32), "Waiting"),
        (Step::Takes, "Ok(())"),
        (Step::Standing(32), "Closed"),
        (Step::Forget(32), "forgotten"),
        (Step::Standing(32), "Nothing"),
    ];
    two_ends(&rt, rt.alloc(), &rows)
}

#[test]
fn an_own_connection(rt: HostRuntime) -> Result<(), Fail> {
    let rows = [
        (Step::Connect, "Ok(())"),
        (Step::Answers(&[0, 0]), "1120"),
        // a CC of another SAP isn't awaited
        (Step::Answers(&[0x81, 0x85]), "0000"),
        (Step::Standing(32), "Waiting"),
        (Step::Answers(&[0x81, 0x84]), "0000"),
        (Step::Answers(&[0x83, 0x04, 0x00, 0xAA]), "136001"),
        (Step::Answers(&[0x83, 0x04, 0x20, 0xBB]), "12201C200101"),
        (Step::Standing(32), "Closed"),
        (Step::Unit(32), "AA"),
        (Step::Unit(32), "None"),
        (Step::Connect, "Ok(())"),
        (Step::Answers(&[0, 0]), "1120"),
        (Step::Standing(32), "Waiting"),
        (Step::Answers(&[0x81, 0x84]), "0000"),
        (Step::Answers(&[0x81, 0x44]), "11E000"),
        (Step::Standing(32), "Closed"),
    ];
    two_ends(&rt, rt.alloc(), &rows)
}
