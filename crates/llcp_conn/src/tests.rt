//! One end call by call, and two ends with each other.

use crate::{Conn, Taken};
use bytes::Bytes;
use llcp_pdu::{Part, Pdu, view};
use std::alloc::{AllocError, Global};
use std::process::Abort;
use std::test::Fail;

/// One call at an end.
#[derive(Clone, Copy, Debug)]
enum Step {
    /// A unit goes in.
    Submit(&'static [u8]),
    /// A unit that its caller shares goes in.
    Share(&'static [u8]),
    /// A PDU is taken, read in place.
    Take(&'static [u8]),
    /// A PDU is taken that has memory of its own.
    TakeOwned(&'static [u8]),
    /// What is next is given.
    Give,
    /// What the end says of itself is read.
    See,
}

/// An end at SAP 4 of a connection with SAP 32, both MIUs 128, both windows 15.
fn server(alloc: Global) -> Result<Conn, AllocError> {
    Conn::new(alloc, 4, 32, 128, 15, 128, 15)
}

/// What the call comes to.
fn told(rt: &impl Abort, alloc: Global, conn: &mut Conn, step: Step) -> Result<String, Fail> {
    match step {
        Step::Submit(unit) => Ok(format!(in alloc; "{:?}", conn.submit(unit))?),
        Step::Share(unit) => shared(alloc, conn, unit),
        Step::Take(bytes) => taken(rt, alloc, conn, bytes),
        Step::TakeOwned(bytes) => taken_owned(rt, alloc, conn, bytes),
        Step::Give => given(alloc, conn),
        Step::See => seen(alloc, conn),
    }
}

/// A unit that is refused comes back.
fn shared(alloc: Global, conn: &mut Conn, unit: &'static [u8]) -> Result<String, Fail> {
    match conn.submit_shared(Bytes::from_static(unit)) {
        Ok(()) => Ok(format!(in alloc; "Ok(())")?),
        Err(refused) => {
            let back = refused.unit.as_slice() == unit;
            Ok(format!(in alloc; "{:?}, back {back}", refused.cause)?)
        }
    }
}

fn taken(rt: &impl Abort, alloc: Global, conn: &mut Conn, bytes: &[u8]) -> Result<String, Fail> {
    let Ok(pdu) = view(bytes) else {
        return Err(Fail::new("no PDU"));
    };
    assert!(rt; conn.may_take_view(&pdu), "at {bytes:?}");
    let taken = conn.take_view(&pdu)?;
    written(alloc, &taken)
}

fn taken_owned(
    rt: &impl Abort,
    alloc: Global,
    conn: &mut Conn,
    bytes: &[u8],
) -> Result<String, Fail> {
    let Pdu::One(part) = Pdu::read_from(alloc, bytes)? else {
        return Err(Fail::new("an AGF"));
    };
    assert!(rt; conn.may_take(&part), "at {bytes:?}");
    let taken = conn.take(&part)?;
    written(alloc, &taken)
}

/// Of a unit its bytes, of a fault what is reported: flags, PTYPE, sequence byte, V(S), V(R), V(SA) and V(RA).
fn written(alloc: Global, taken: &Taken) -> Result<String, Fail> {
    match taken {
        Taken::Nothing => Ok(format!(in alloc; "nothing")?),
        Taken::Unit(unit) => Ok(format!(in alloc; "unit {:?}", unit.as_slice())?),
        Taken::Closed(it) => {
            let told = [
                it.flags,
                it.ptype,
                it.sequence,
                it.vs,
                it.vr,
                it.vsa,
                it.vra,
            ];
            Ok(format!(in alloc; "closed {told:?}")?)
        }
    }
}

fn given(alloc: Global, conn: &mut Conn) -> Result<String, Fail> {
    match conn.give()? {
        None => Ok(format!(in alloc; "none")?),
        Some(part) => spelled(alloc, &part),
    }
}

/// Of an I PDU its SAPs, N(S), N(R) and its unit, of a RR its SAPs and N(R).
fn spelled(alloc: Global, part: &Part) -> Result<String, Fail> {
    match part {
        Part::Info {
            dsap,
            ssap,
            ns,
            nr,
            info,
        } => {
            let numbers = [*dsap, *ssap, *ns, *nr];
            Ok(format!(in alloc; "I {numbers:?} {:?}", info.as_slice())?)
        }
        Part::Rr { dsap, ssap, nr } => Ok(format!(in alloc; "RR {:?}", [*dsap, *ssap, *nr])?),
        _ => Ok(format!(in alloc; "another")?),
    }
}

fn seen(alloc: Global, conn: &Conn) -> Result<String, Fail> {
    let it = conn.numbers();
    let numbers = [it.vs, it.vr, it.vsa, it.vra];
    let (due, room, acked) = (conn.due(), conn.room(), conn.acked());
    Ok(format!(in alloc; "due {due:?} room {room} acked {acked} at {numbers:?}")?)
}

/// The calls come to these texts, one after the other.
fn follows(
    rt: &impl Abort,
    alloc: Global,
    conn: &mut Conn,
    rows: &[(Step, &str)],
) -> Result<(), Fail> {
    for (at, (step, wanted)) in rows.iter().enumerate() {
        let text = told(rt, alloc, conn, *step)?;
        assert_eq!(rt; text.as_str(), *wanted, "at {at}, {step:?}");
    }
    Ok(())
}

#[test]
fn one_unit_at_a_time(rt: HostRuntime) -> Result<(), Fail> {
    let alloc = rt.alloc();
    let mut conn = Conn::new(alloc, 32, 4, 128, 1, 128, 1)?;
    let rows = [
        (Step::See, "due None room true acked 0 at [0, 0, 0, 0]"),
        (Step::Submit(&[0xAA]), "Ok(())"),
        (Step::Submit(&[0xBB]), "Err(WindowFull)"),
        (Step::Submit(&[0; 129]), "Err(TooLong)"),
        (Step::See, "due Some(1) room false acked 0 at [0, 0, 0, 0]"),
        (Step::Give, "I [4, 32, 0, 0] [170]"),
        (Step::See, "due None room false acked 0 at [1, 0, 0, 0]"),
        (Step::TakeOwned(&[0x83, 0x44, 0x01]), "nothing"),
        (Step::See, "due None room true acked 1 at [1, 0, 1, 0]"),
        (
            Step::TakeOwned(&[0x83, 0x04, 0x11]),
            "closed [16, 12, 17, 1, 0, 1, 0]",
        ),
        (Step::Submit(&[0xCC]), "Err(NotOpen)"),
        (Step::Give, "none"),
        (Step::See, "due None room true acked 1 at [1, 0, 1, 0]"),
    ];
    follows(&rt, alloc, &mut conn, &rows)
}

/// An end that took fifteen units in.
fn filled(rt: &impl Abort, alloc: Global) -> Result<Conn, Fail> {
    let mut conn = server(alloc)?;
    for unit in 0..15u8 {
        assert_eq!(rt; conn.submit(&[unit]), Ok(()));
    }
    Ok(conn)
}

/// Fifteen units under way, and one more once one is acknowledged; an acknowledgement of some leaves the others.
#[test]
fn a_window_of_fifteen(rt: HostRuntime) -> Result<(), Fail> {
    let alloc = rt.alloc();
    let mut conn = filled(&rt, alloc)?;
    let rows = [
        (Step::Submit(&[15]), "Err(WindowFull)"),
        (Step::Give, "I [32, 4, 0, 0] [0]"),
        (Step::Take(&[0x13, 0x60, 0x01]), "nothing"),
        (Step::Submit(&[15]), "Ok(())"),
        (Step::Submit(&[16]), "Err(WindowFull)"),
        (Step::Give, "I [32, 4, 1, 0] [1]"),
        (Step::Give, "I [32, 4, 2, 0] [2]"),
        (Step::Give, "I [32, 4, 3, 0] [3]"),
        (Step::Give, "I [32, 4, 4, 0] [4]"),
        // Of four units under way a kernel drops one at this, and sends others again.
        (Step::Take(&[0x13, 0x60, 0x02]), "nothing"),
        (Step::See, "due Some(1) room true acked 2 at [5, 0, 2, 0]"),
        (Step::Give, "I [32, 4, 5, 0] [5]"),
    ];
    follows(&rt, alloc, &mut conn, &rows)
}

/// Gives what it has to the other end.
fn passes(rt: &impl Abort, from: &mut Conn, to: &mut Conn, got: &mut Vec<u8>) -> Result<(), Fail> {
    for _ in 0..3 {
        let Some(part) = from.give()? else {
            return Ok(());
        };
        assert!(rt; to.may_take(&part));
        if let Taken::Unit(unit) = to.take(&part)? {
            got.extend_from_slice(unit.as_slice())?;
        }
    }
    Ok(())
}

/// Both ends take this unit in.
fn both_submit(rt: &impl Abort, client: &mut Conn, server: &mut Conn, unit: u8) {
    assert_eq!(rt; client.submit(&[unit]), Ok(()));
    assert_eq!(rt; server.submit(&[unit]), Ok(()));
}

/// This unit goes over, up and then down.
fn goes_over(
    rt: &impl Abort,
    alloc: Global,
    client: &mut Conn,
    server: &mut Conn,
    unit: u8,
) -> Result<(), Fail> {
    both_submit(rt, client, server, unit);
    let mut got = Vec::new(alloc);
    passes(rt, client, server, &mut got)?;
    passes(rt, server, client, &mut got)?;
    assert_eq!(rt; got.as_slice(), [unit, unit].as_slice());
    Ok(())
}

/// Twenty units go in at both ends, and over.
fn twenty_go_over(
    rt: &impl Abort,
    alloc: Global,
    client: &mut Conn,
    server: &mut Conn,
) -> Result<(), Fail> {
    for unit in 0..20u8 {
        goes_over(rt, alloc, client, server, unit)?;
    }
    passes(rt, client, server, &mut Vec::new(alloc))?;
    assert_eq!(rt; server.acked(), 20);
    let row = (Step::See, "due None room true acked 20 at [4, 4, 4, 4]");
    follows(rt, alloc, client, &[row])
}

#[test]
fn twenty_units_each_way(rt: HostRuntime) -> Result<(), Fail> {
    let alloc = rt.alloc();
    let mut client = Conn::new(alloc, 32, 4, 128, 15, 128, 15)?;
    twenty_go_over(&rt, alloc, &mut client, &mut server(alloc)?)
}

/// An end that handed sixteen units up.
fn brought(rt: &impl Abort, alloc: Global) -> Result<Conn, Fail> {
    let mut conn = server(alloc)?;
    for ns in 0..16u8 {
        let text = taken(rt, alloc, &mut conn, &[0x13, 0x20, 16 * (ns % 16), ns])?;
        assert_eq!(rt; text, format!(in alloc; "unit [{ns}]")?);
    }
    Ok(conn)
}

/// After sixteen units V(R) equals V(RA) again, and an acknowledgement is owed all the same.
#[test]
fn sixteen_units_in_a_row(rt: HostRuntime) -> Result<(), Fail> {
    let alloc = rt.alloc();
    let rows = [
        (Step::See, "due None room true acked 0 at [0, 0, 0, 0]"),
        (Step::Give, "RR [32, 4, 0]"),
        (Step::Give, "none"),
    ];
    follows(&rt, alloc, &mut brought(&rt, alloc)?, &rows)
}

/// An RNR acknowledges and holds up; an I PDU doesn't lift it, an RR does.
#[test]
fn a_receiver_that_is_not_ready(rt: HostRuntime) -> Result<(), Fail> {
    let alloc = rt.alloc();
    let rows = [
        (Step::Submit(&[0xAA]), "Ok(())"),
        (Step::Submit(&[]), "Ok(())"),
        (Step::Give, "I [32, 4, 0, 0] [170]"),
        (Step::Take(&[0x13, 0xA0, 0x01]), "nothing"),
        (Step::See, "due None room true acked 1 at [1, 0, 1, 0]"),
        (Step::Give, "none"),
        (Step::Take(&[0x13, 0x20, 0x01, 0xBB]), "unit [187]"),
        (Step::See, "due None room true acked 1 at [1, 1, 1, 0]"),
        (Step::Give, "RR [32, 4, 1]"),
        (Step::Take(&[0x13, 0x60, 0x01]), "nothing"),
        (Step::See, "due Some(0) room true acked 1 at [1, 1, 1, 1]"),
        (Step::Give, "I [32, 4, 1, 1] []"),
    ];
    follows(&rt, alloc, &mut server(alloc)?, &rows)
}

/// What an end comes to that closed at its first PDU.
const CLOSED: [(Step, &str); 3] = [
    (Step::Submit(&[]), "Err(NotOpen)"),
    (Step::See, "due None room true acked 0 at [0, 0, 0, 0]"),
    (Step::Give, "none"),
];

/// At this PDU an end closes and reports so, and then neither takes units in nor gives any.
fn closes(
    rt: &impl Abort,
    alloc: Global,
    conn: &mut Conn,
    bytes: &[u8],
    report: &str,
) -> Result<(), Fail> {
    let text = taken(rt, alloc, conn, bytes)?;
    assert_eq!(rt; text.as_str(), report, "at {bytes:?}");
    follows(rt, alloc, conn, &CLOSED)
}

fn new_closes(rt: &impl Abort, alloc: Global, bytes: &[u8], report: &str) -> Result<(), Fail> {
    closes(rt, alloc, &mut server(alloc)?, bytes, report)
}

/// A field that is too long comes before a wrong N(R), and that before a wrong N(S). Nothing is handed up.
#[test]
fn a_fault_closes_and_reports(rt: HostRuntime) -> Result<(), Fail> {
    let mut long = [0; 132];
    [long[0], long[1], long[2]] = [0x13, 0x20, 0x01];
    let mut fits = [0; 131];
    [fits[0], fits[1], fits[2]] = [0x13, 0x20, 0x10];
    let rows: [(&[u8], &str); 7] = [
        (&[0x13, 0x20, 0x10, 0xAA], "closed [16, 12, 16, 0, 0, 0, 0]"),
        (&[0x13, 0x20, 0x01, 0xAA], "closed [32, 12, 1, 0, 0, 0, 0]"),
        (&[0x13, 0x20, 0x1F, 0xAA], "closed [32, 12, 31, 0, 0, 0, 0]"),
        (&long, "closed [64, 12, 1, 0, 0, 0, 0]"),
        (&fits, "closed [16, 12, 16, 0, 0, 0, 0]"),
        (&[0x13, 0x60, 0xF1], "closed [32, 13, 1, 0, 0, 0, 0]"),
        (&[0x13, 0xA0, 0x02], "closed [32, 14, 2, 0, 0, 0, 0]"),
    ];
    let alloc = rt.alloc();
    for (bytes, report) in rows {
        new_closes(&rt, alloc, bytes, report)?;
    }
    Ok(())
}

/// A kernel hands a repeated unit up twice.
#[test]
fn a_repeated_unit_closes(rt: HostRuntime) -> Result<(), Fail> {
    let alloc = rt.alloc();
    let repeated = Step::Take(&[0x13, 0x20, 0x00, 0xAA]);
    let rows = [
        (repeated, "unit [170]"),
        (repeated, "closed [16, 12, 0, 0, 1, 0, 0]"),
    ];
    follows(&rt, alloc, &mut server(alloc)?, &rows)
}

/// A whole unit is given.
fn gives_sevens(rt: &impl Abort, alloc: Global, conn: &mut Conn) -> Result<(), Fail> {
    let whole = format!(in alloc; "I [4, 32, 0, 0] {:?}", [7; 128])?;
    assert_eq!(rt; given(alloc, conn)?, whole);
    Ok(())
}

/// A shared unit goes in without memory, and comes back where it is refused.
#[test]
fn shared_units(rt: HostRuntime) -> Result<(), Fail> {
    let alloc = rt.alloc();
    let mut conn = Conn::new(alloc, 32, 4, 128, 15, 128, 1)?;
    let rows = [
        (Step::Share(&[7; 129]), "TooLong, back true"),
        (Step::Share(&[7; 128]), "Ok(())"),
        (
            Step::See,
            "due Some(128) room false acked 0 at [0, 0, 0, 0]",
        ),
        (Step::Share(&[1]), "WindowFull, back true"),
    ];
    follows(&rt, alloc, &mut conn, &rows)?;
    gives_sevens(&rt, alloc, &mut conn)
}
