//! What becomes of messages on slots: on a busy one, by any numbers of PDUs, and at a far end that isn't this
//! project's.

ghost use Rattle.std.specs.Prelude.{◌≤◌, length};

use crate::ends::{
    Step, Straight, client, follows, new_ends, numbered, outcome, peer, roomy_ends, staged,
    widest_ends,
};
use llcp_link::{Counted, Counts, Llc};
use nfc_base::{Answerer, EndCause};
use snep_core::{Client, Outcome, Server, SnepFault};
use std::alloc::{AllocError, Global};
use std::process::Abort;
use std::test::Fail;

#[test]
fn a_put_is_the_message_of_the_first_slot(rt: HostRuntime) -> Result<(), Fail> {
    let rows = [
        (Step::Stage(0, &[1]), "Ok(())"),
        (Step::Stage(2, &[2]), "Ok(())"),
        (Step::Put(&[3]), "Err(SlotBusy)"),
        (Step::Handed, "0"),
        (Step::Outcome(0), "Staged"),
        (Step::Run(&[]), "Ok(())"),
        (Step::Put(&[4]), "Ok(())"),
        (Step::Outcome(0), "Success"),
        (Step::Put(&[5; 1025]), "Err(Reject)"),
        (Step::Outcome(0), "Rejected"),
        (Step::Outcome(2), "Success"),
        (Step::Stage(0, &[6]), "Ok(())"),
        (Step::Outcome(0), "Staged"),
        (Step::Accepted, "3"),
        (Step::Message(0), "01"),
        (Step::Message(1), "02"),
        (Step::Message(2), "04"),
    ];
    new_ends(&rt, rt.alloc(), &rows)
}

/// A put over a link that is lost at its first payload, and one behind it.
fn two_puts(
    rt: &impl Abort,
    alloc: Global,
    client: &mut Client,
    far: &mut Llc<Server>,
) -> Result<(), SnepFault> {
    let lost = Err(SnepFault::LinkEnded(EndCause::FieldLost));
    let mut link = Straight::lost(alloc, 0, false);
    assert_eq!(rt; client.put(&mut link, far, Counts::most(alloc), &[7]), lost);
    client.put(&mut link, far, Counts::most(alloc), &[8])
}

#[test]
fn a_put_that_the_link_ended_waits_in_its_slot(rt: HostRuntime) -> Result<(), Fail> {
    let alloc = rt.alloc();
    let mut client = client(alloc);
    let told = two_puts(&rt, alloc, &mut client, &mut peer(&rt, alloc)?);
    assert_eq!(rt; told, Err(SnepFault::SlotBusy));
    assert_eq!(rt; outcome(&rt, &client, 0), Outcome::Staged);
    assert_eq!(rt; outcome(&rt, &client, 1), Outcome::NoMessage);
    Ok(())
}

#[test]
fn two_long_messages_go_in_wide_units(rt: HostRuntime) -> Result<(), Fail> {
    let (mut client, mut far) = widest_ends(&rt, rt.alloc())?;
    let rows = [
        (Step::Stage(0, &[7; 3000]), "Ok(())"),
        (Step::Stage(1, &[8; 3000]), "Ok(())"),
        (Step::Run(&[]), "Ok(())"),
        (Step::Outcome(0), "Success"),
        (Step::Outcome(1), "Success"),
        // both CONNECTs in one payload, a first unit of 2,175 bytes in each of two, and the rests of 831 in one
        (Step::Handed, "4"),
        (Step::Begin(0), "008000"),
        (Step::Begin(1), "132000"),
        (Step::Begin(2), "132100"),
        (Step::Begin(3), "008003"),
        (Step::Accepted, "2"),
        (Step::Message(0), "3000 of 07"),
        (Step::Message(1), "3000 of 08"),
        (Step::Source(1), "Some(33)"),
    ];
    follows(&rt, rt.alloc(), &mut client, &mut far, &rows)
}

/// Two messages of three units are put where both ends give as many PDUs as these numbers say, in so many payloads.
fn runs_by(
    rt: &impl Abort,
    alloc: Global,
    client: &mut Client,
    far: &mut Counted<Server>,
    row: (&[u32], usize),
) -> Result<(), Fail> {
    let (numbers, handed) = row;
    staged(rt, client, 0, &[7; 300])?;
    staged(rt, client, 1, &[8; 300])?;
    let mut link = Straight::new(alloc, None);
    let told = client.run(&mut link, far, numbered(alloc, numbers)?);
    assert_eq!(rt; told, Ok(()), "by {numbers:?}");
    assert_eq!(rt; link.handed.len(), handed, "by {numbers:?}");
    Ok(())
}

/// Each is accepted once, whatever the numbers.
fn both_accepted(rt: &impl Abort, alloc: Global, row: (&[u32], usize)) -> Result<(), Fail> {
    let (mut client, end) = roomy_ends(rt, alloc)?;
    let mut far = Counted::new(end, numbered(alloc, row.0)?);
    runs_by(rt, alloc, &mut client, &mut far, row)?;
    let rows = [
        (Step::Outcome(0), "Success"),
        (Step::Outcome(1), "Success"),
        (Step::Accepted, "2"),
        (Step::Message(0), "300 of 07"),
        (Step::Source(0), "Some(32)"),
        (Step::Message(1), "300 of 08"),
        (Step::Source(1), "Some(33)"),
    ];
    follows(rt, alloc, &mut client, &mut far.into_end(), &rows)
}

#[test]
fn messages_are_put_by_any_numbers_of_pdus(rt: HostRuntime) -> Result<(), Fail> {
    let rows: [(&[u32], usize); 5] = [
        // each PDU by itself: two CONNECTs, and six units
        (&[1; 12], 8),
        // both CONNECTs, both first units, and the other four
        (&[], 3),
        (&[2], 3),
        (&[2, 1, 1], 4),
        (&[1, 1, 2], 4),
    ];
    for row in rows {
        both_accepted(&rt, rt.alloc(), row)?;
    }
    Ok(())
}

/// A reply of a far end that isn't this project's, to a client of two slots.
#[derive(Clone, Copy, Debug)]
enum Reply {
    Symm,
    FirstConnects,
    SecondConnects,
    SecondRefused,
    /// Success on the first connection, which acknowledges a unit.
    FirstTaken,
    /// Success on the second, on which no unit came.
    SecondTaken,
}

impl Reply {
    fn bytes(self) -> &'static [u8]
        ensures { length result.now ≤ 2178 }
    {
        match self {
            Reply::Symm => &[0, 0],
            Reply::FirstConnects => &[0x81, 0x84],
            Reply::SecondConnects => &[0x85, 0x84],
            Reply::SecondRefused => &[0x85, 0xC4, 3],
            Reply::FirstTaken => &[0x83, 0x04, 0x01, 0x10, 0x81, 0, 0, 0, 0],
            Reply::SecondTaken => &[0x87, 0x04, 0x00, 0x10, 0x81, 0, 0, 0, 0],
        }
    }
}

/// A far end that gives these replies, one after the other, and then SYMMs.
#[derive(Drop)]
struct Scripted {
    replies: &'static [Reply],
    stuck: bool,
}

impl Answerer for Scripted {
    ghost use Rattle.std.specs.Prelude.{◌≤◌, length, ⊤};
    ghost use Rattle.std.proofs.Common.{rules};

    ghost is_stuck = { λ d. d.stuck };

    ghost restarts = { λ old general new. ⊤ };

    ghost steps = { λ old payload reply new. length reply ≤ 2178 };

    ghost stops = { λ old payload new. ⊤ };

    fn restart(&mut self, _general: &[u8]) {
        self.stuck = false;
    }

    fn answer(
        &mut self,
        _alloc: Global,
        _payload: &[u8],
        reply: &mut Vec<u8>,
    ) -> Result<(), AllocError> {
        let mut now = Reply::Symm;
        if let [first, more @ ..] = self.replies {
            now = *first;
            self.replies = more;
        }
        reply.clear();
        if self.stuck || reply.extend_from_slice(now.bytes()).is_err() {
            self.stuck = true;
            return Err(AllocError);
        }
        Ok(())
    }

    ghost fits = { Prim.search rules };
}

/// Two messages of a unit, at a far end that gives these replies: it is given up behind so many payloads, and a later
/// call puts nothing of them.
fn gives_up(
    rt: &impl Abort,
    alloc: Global,
    client: &mut Client,
    replies: &'static [Reply],
    handed: usize,
) -> Result<(), Fail> {
    let mut far = Scripted {
        replies,
        stuck: false,
    };
    let mut link = Straight::new(alloc, None);
    staged(rt, client, 0, &[7])?;
    staged(rt, client, 1, &[8])?;
    let told = client.run(&mut link, &mut far, numbered(alloc, &[1; 20])?);
    assert_eq!(rt; told, Err(SnepFault::BadPeer), "at {replies:?}");
    let again = client.run(&mut link, &mut far, Counts::most(alloc));
    assert_eq!(rt; again, Ok(()), "at {replies:?}");
    assert_eq!(rt; link.handed.len(), handed, "at {replies:?}");
    Ok(())
}

/// Replies, how many payloads are handed over, and what the two slots tell then.
type Row = (&'static [Reply], usize, Outcome, Outcome);

fn given_up_so(rt: &impl Abort, alloc: Global, row: Row) -> Result<(), Fail> {
    let (replies, handed, first, second) = row;
    let mut client = client(alloc);
    gives_up(rt, alloc, &mut client, replies, handed)?;
    assert_eq!(rt; outcome(rt, &client, 0), first, "at {replies:?}");
    assert_eq!(rt; outcome(rt, &client, 1), second, "at {replies:?}");
    Ok(())
}

#[test]
fn a_bad_peer_leaves_what_was_answered(rt: HostRuntime) -> Result<(), Fail> {
    use Outcome::{NoMessage, Success};
    use Reply::{FirstConnects, FirstTaken, SecondConnects, SecondRefused, SecondTaken, Symm};
    let rows: [Row; 4] = [
        (&[], 16, NoMessage, NoMessage),
        (&[FirstConnects, SecondRefused], 2, NoMessage, NoMessage),
        (
            &[FirstConnects, Symm, FirstTaken, SecondRefused],
            4,
            Success,
            NoMessage,
        ),
        // as the first unit of the first was given
        (
            &[FirstConnects, SecondConnects, SecondTaken],
            3,
            NoMessage,
            NoMessage,
        ),
    ];
    for row in rows {
        given_up_so(&rt, rt.alloc(), row)?;
    }
    Ok(())
}

/// A put at a far end that gives these replies.
fn put_at(alloc: Global, client: &mut Client, replies: &'static [Reply]) -> Result<(), SnepFault> {
    let mut far = Scripted {
        replies,
        stuck: false,
    };
    let mut link = Straight::new(alloc, None);
    client.put(&mut link, &mut far, Counts::most(alloc), &[7])
}

#[test]
fn a_put_at_a_bad_peer_leaves_no_message_of_its_own(rt: HostRuntime) -> Result<(), Fail> {
    let mut client = client(rt.alloc());
    staged(&rt, &mut client, 1, &[8])?;
    let told = put_at(rt.alloc(), &mut client, &[Reply::FirstConnects]);
    assert_eq!(rt; told, Err(SnepFault::BadPeer));
    assert_eq!(rt; outcome(&rt, &client, 0), Outcome::NoMessage);
    assert_eq!(rt; outcome(&rt, &client, 1), Outcome::Staged);
    let taken = put_at(
        rt.alloc(),
        &mut client,
        &[Reply::FirstConnects, Reply::FirstTaken],
    );
    assert_eq!(rt; taken, Ok(()));
    assert_eq!(rt; outcome(&rt, &client, 0), Outcome::Success);
    Ok(())
}
