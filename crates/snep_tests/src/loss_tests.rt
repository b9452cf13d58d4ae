//! Messages of several slots over a link that is lost behind each payload in turn, compared with a plain definition.
//!
//! A message is accepted as the payload with its last unit reaches the server, and its slot tells the answer once the
//! reply to that payload is heard. So a table says which reply brings the answer of each message, and all else follows.

use crate::ends::{Step, Straight, client, new_ends, numbered, outcome, peer, roomy_ends, staged};
use llcp_link::Llc;
use nfc_base::EndCause;
use snep_core::{Client, Outcome, Server, SnepFault};
use std::alloc::Global;
use std::process::Abort;
use std::test::Fail;

/// A message that is put, and how the server answers it.
#[derive(Clone, Copy)]
struct Message {
    slot: u8,
    /// The SAP of that slot.
    source: u8,
    bytes: &'static [u8],
    answer: Outcome,
}

/// One in three units, one above the server's limit, and an empty one.
const MESSAGES: &[Message] = &[
    Message {
        slot: 0,
        source: 32,
        bytes: &[7; 300],
        answer: Outcome::Success,
    },
    Message {
        slot: 1,
        source: 33,
        bytes: &[8; 1025],
        answer: Outcome::Rejected,
    },
    Message {
        slot: 5,
        source: 37,
        bytes: &[],
        answer: Outcome::Success,
    },
];

/// How they are put.
#[derive(Clone, Copy)]
struct Way {
    /// The far end takes 2,047 bytes in a payload and not 128. A unit has at most 128 of either.
    roomy: bool,
    /// How many PDUs the client gives in each payload.
    numbers: &'static [u32],
    /// Which reply brings the answer of each message, counted from 1.
    replies: &'static [u8],
    /// How many payloads all take.
    payloads: u8,
}

/// One PDU in each payload.
const ONE_BY_ONE: &[u32] = &[1; 24];

const WAYS: &[Way] = &[
    // three CONNECTs, three first units, and the other two of the long message
    Way {
        roomy: false,
        numbers: ONE_BY_ONE,
        replies: &[8, 5, 6],
        payloads: 8,
    },
    // the CONNECTs in one payload
    Way {
        roomy: false,
        numbers: &[],
        replies: &[6, 3, 4],
        payloads: 6,
    },
    // the CONNECTs, the first units, and the other two
    Way {
        roomy: true,
        numbers: &[],
        replies: &[3, 2, 2],
        payloads: 3,
    },
];

/// Behind how many payloads the link is lost, and whether the far end is handed the next one before.
type Loss = (u8, bool);

/// How many payloads reach the far end.
fn reach(loss: Loss) -> u8 {
    let (passes, answers) = loss;
    if answers {
        passes.saturating_add(1)
    } else {
        passes
    }
}

/// What the slot of a message tells where so many replies are heard and that of this number brings its answer.
fn told(message: &Message, reply: u8, heard: u8) -> Outcome {
    if heard < reply {
        Outcome::Staged
    } else {
        message.answer
    }
}

/// How often it is accepted where so many payloads reach the server.
fn due(message: &Message, reply: u8, reached: u8) -> usize {
    match message.answer {
        Outcome::Success if reached >= reply => 1,
        _ => 0,
    }
}

/// How often a server accepted these bytes from this SAP.
fn accepted(server: &Server, source: u8, bytes: &[u8]) -> usize {
    let mut times = 0usize;
    for (from, one) in server.sources().iter().zip(server.accepted()) {
        if *from == source && one.as_slice() == bytes {
            times = times.saturating_add(1);
        }
    }
    times
}

/// Of one message: its slot tells what was heard of it, and the server has it as often as it is due.
fn is_told(
    rt: &impl Abort,
    client: &Client,
    server: &Server,
    message: &Message,
    reply: u8,
    loss: Loss,
) {
    let (heard, answers) = loss;
    assert_eq!(rt;
        outcome(rt, client, message.slot),
        told(message, reply, heard),
        "of slot {} behind {heard}, {answers}",
        message.slot
    );
    assert_eq!(rt;
        accepted(server, message.source, message.bytes),
        due(message, reply, reach(loss)),
        "of slot {} behind {heard}, {answers}",
        message.slot
    );
}

/// Of all messages; and the server has nothing else.
fn are_told(rt: &impl Abort, client: &Client, server: &Server, way: &Way, loss: Loss) {
    let mut all = 0usize;
    for (message, reply) in MESSAGES.iter().zip(way.replies) {
        is_told(rt, client, server, message, *reply, loss);
        all = all.saturating_add(due(message, *reply, reach(loss)));
    }
    assert_eq!(rt; server.accepted().len(), all, "behind {}", loss.0);
    assert_eq!(rt; server.sources().len(), all, "behind {}", loss.0);
}

fn stage_all(rt: &impl Abort, client: &mut Client) -> Result<(), SnepFault> {
    for message in MESSAGES {
        staged(rt, client, message.slot, message.bytes)?;
    }
    Ok(())
}

/// A client and a far end at the begin of a link.
fn ends(rt: &impl Abort, alloc: Global, roomy: bool) -> Result<(Client, Llc<Server>), Fail> {
    if roomy {
        return roomy_ends(rt, alloc);
    }
    Ok((client(alloc), peer(rt, alloc)?))
}

/// The run is over with the link, unless all payloads pass.
fn runs(
    rt: &impl Abort,
    alloc: Global,
    client: &mut Client,
    far: &mut Llc<Server>,
    way: &Way,
    loss: Loss,
) -> Result<(), Fail> {
    let (passes, answers) = loss;
    let wanted = if passes < way.payloads {
        Err(SnepFault::LinkEnded(EndCause::FieldLost))
    } else {
        Ok(())
    };
    let mut link = Straight::lost(alloc, passes, answers);
    let told = client.run(&mut link, far, numbered(alloc, way.numbers)?);
    assert_eq!(rt; told, wanted, "behind {passes}, {answers}");
    Ok(())
}

fn loses(rt: &impl Abort, alloc: Global, way: &Way, loss: Loss) -> Result<(), Fail> {
    let (mut client, mut far) = ends(rt, alloc, way.roomy)?;
    stage_all(rt, &mut client)?;
    runs(rt, alloc, &mut client, &mut far, way, loss)?;
    are_told(rt, &client, far.as_service(), way, loss);
    Ok(())
}

/// The link is lost behind each number of payloads, before the far end is handed the next one and behind that; last of
/// all it stays.
fn loses_each(rt: &impl Abort, alloc: Global, way: &Way, answers: bool) -> Result<(), Fail> {
    for passes in 0..=way.payloads {
        loses(rt, alloc, way, (passes, answers))?;
    }
    Ok(())
}

#[test]
fn a_link_that_is_lost_at_any_payload_leaves_what_was_answered(
    rt: HostRuntime,
) -> Result<(), Fail> {
    for way in WAYS {
        loses_each(&rt, rt.alloc(), way, false)?;
        loses_each(&rt, rt.alloc(), way, true)?;
    }
    Ok(())
}

/// What is put one by one, and what becomes of it where the link stays.
const STAYS: &[(Step, &str)] = &[
    (Step::Stage(0, &[7; 300]), "Ok(())"),
    (Step::Stage(1, &[8; 1025]), "Ok(())"),
    (Step::Stage(5, &[]), "Ok(())"),
    (Step::Run(ONE_BY_ONE), "Ok(())"),
    (Step::Payload(0), "1120"),
    (Step::Payload(1), "1121"),
    (Step::Payload(2), "1125"),
    (Step::Begin(3), "132000"),
    (Step::Begin(4), "132100"),
    (Step::Payload(5), "132500100200000000"),
    (Step::Begin(6), "132011"),
    (Step::Begin(7), "132021"),
    (Step::Handed, "8"),
    (Step::Outcome(0), "Success"),
    (Step::Outcome(1), "Rejected"),
    (Step::Outcome(5), "Success"),
    (Step::Accepted, "2"),
    (Step::Source(0), "Some(37)"),
    (Step::Message(0), ""),
    (Step::Source(1), "Some(32)"),
    (Step::Message(1), "300 of 07"),
];

#[test]
fn the_last_unit_of_each_message_is_answered(rt: HostRuntime) -> Result<(), Fail> {
    new_ends(&rt, rt.alloc(), STAYS)
}
