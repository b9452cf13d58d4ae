//! A client at a far end that isn't this project's.

use crate::ends::{Straight, client};
use llcp_link::Counts;
use nfc_base::Answerer;
use snep_core::{Client, SnepFault};
use std::alloc::{AllocError, Global};
use std::process::Abort;
use std::test::Fail;

/// What a stranger answers to a CONNECT.
#[derive(Clone, Copy, Debug)]
enum Meets {
    Symm,
    Dm,
    /// A CC with window 1.
    Cc,
    /// One with window 15.
    WideCc,
}

/// A far end that answers the first unit and the second by these codes without information, and all else by a SYMM.
#[derive(Drop)]
struct Stranger {
    meets: Meets,
    first: u8,
    second: u8,
    heard: u8,
    stuck: bool,
}

const SYMM: [u8; 2] = [0, 0];

const DM: [u8; 3] = [0x81, 0xC4, 3];

const CC: [u8; 2] = [0x81, 0x84];

const WIDE_CC: [u8; 5] = [0x81, 0x84, 5, 1, 15];

/// A continue.
const GO_ON: u8 = 0x80;

impl Answerer for Stranger {
    ghost use Rattle.std.specs.Prelude.{◌≤◌, length, ⊤};
    ghost use Rattle.std.proofs.Common.{rules};

    ghost is_stuck = { λ d. d.stuck };

    ghost restarts = { λ old general new. ⊤ };

    ghost steps = { λ old payload reply new. length reply ≤ 2178 };

    ghost stops = { λ old payload new. ⊤ };

    fn restart(&mut self, _general: &[u8]) {
        self.stuck = false;
    }

    fn answer(
        &mut self,
        _alloc: Global,
        payload: &[u8],
        reply: &mut Vec<u8>,
    ) -> Result<(), AllocError> {
        let first = [0x83, 0x04, 0x01, 0x10, self.first, 0, 0, 0, 0];
        let second = [0x83, 0x04, 0x12, 0x10, self.second, 0, 0, 0, 0];
        let says: &[u8] = match (payload, self.meets, self.heard) {
            ([0x11, ..], Meets::Dm, _) => &DM,
            ([0x11, ..], Meets::Cc, _) => &CC,
            ([0x11, ..], Meets::WideCc, _) => &WIDE_CC,
            ([0x13, ..], _, 0) => &first,
            ([0x13, ..], _, 1) => &second,
            _ => &SYMM,
        };
        if let [0x13, ..] = payload {
            self.heard = self.heard.saturating_add(1);
        }
        reply.clear();
        if self.stuck || reply.extend_from_slice(says).is_err() {
            self.stuck = true;
            return Err(AllocError);
        }
        Ok(())
    }

    ghost fits = { Prim.search rules };
}

/// A stranger that answers a CONNECT so, and the first unit and the second by these codes.
fn far_end(meets: Meets, first: u8, second: u8) -> Stranger {
    Stranger {
        meets,
        first,
        second,
        heard: 0,
        stuck: false,
    }
}

/// A message or key that goes in one unit, and one whose request is four.
const ONE_UNIT: &[u8] = &[7];

const FOUR_UNITS: &[u8] = &[7; 400];

/// What a put comes to.
fn put(rt: &impl Abort, alloc: Global, mut far: Stranger, message: &[u8]) -> Result<(), SnepFault> {
    let mut link = Straight::new(alloc, None);
    assert!(rt; message.len() <= 65536);
    client(alloc).put(&mut link, &mut far, Counts::most(alloc), message)
}

/// What a get of at most 16 bytes comes to.
fn get(rt: &impl Abort, alloc: Global, mut far: Stranger, key: &[u8]) -> Result<(), SnepFault> {
    let mut link = Straight::new(alloc, None);
    assert!(rt; key.len() <= 65536);
    match client(alloc).get(&mut link, &mut far, Counts::most(alloc), 16, key) {
        Ok(_) => Ok(()),
        Err(fault) => Err(fault),
    }
}

/// A code, and what a put and a get come to by it.
type Row = (u8, Result<(), SnepFault>, Result<(), SnepFault>);

const BAD: Result<(), SnepFault> = Err(SnepFault::BadPeer);

/// A request in so many units comes to this, where the first is answered by the code.
fn comes_to(rt: &impl Abort, alloc: Global, bytes: &[u8], row: Row) {
    let (code, told, got) = row;
    assert_eq!(rt;
        put(rt, alloc, far_end(Meets::Cc, code, code), bytes),
        told,
        "at {code}"
    );
    assert_eq!(rt;
        get(rt, alloc, far_end(Meets::Cc, code, code), bytes),
        got,
        "at {code}"
    );
}

#[test]
fn each_code_is_told_by_its_row(rt: HostRuntime) -> Result<(), Fail> {
    let rows: [Row; 9] = [
        (0x81, Ok(()), Ok(())),
        (0xFF, Err(SnepFault::Reject), Err(SnepFault::Reject)),
        (0xC0, BAD, Err(SnepFault::NotFound)),
        (0xC1, BAD, Err(SnepFault::Excess)),
        (0xE0, BAD, Err(SnepFault::NotImplemented)),
        (GO_ON, BAD, BAD),
        (0x82, BAD, BAD),
        (0xC2, BAD, BAD),
        (0xE1, BAD, BAD),
    ];
    for row in rows {
        comes_to(&rt, rt.alloc(), ONE_UNIT, row);
    }
    Ok(())
}

#[test]
fn while_a_continue_is_awaited_a_refusal_is_told_as_itself(rt: HostRuntime) -> Result<(), Fail> {
    let rows: [Row; 6] = [
        (0x81, BAD, BAD),
        (0xFF, Err(SnepFault::Reject), Err(SnepFault::Reject)),
        (0xC0, BAD, Err(SnepFault::NotFound)),
        (0xC1, BAD, Err(SnepFault::Excess)),
        (0xE0, BAD, Err(SnepFault::NotImplemented)),
        (0xC2, BAD, BAD),
    ];
    for row in rows {
        comes_to(&rt, rt.alloc(), FOUR_UNITS, row);
    }
    Ok(())
}

/// Of four units the second is answered by this code: the far end is at fault, whatever the code and the window.
fn is_too_early(rt: &impl Abort, alloc: Global, meets: Meets, code: u8) {
    let told = put(rt, alloc, far_end(meets, GO_ON, code), FOUR_UNITS);
    let got = get(rt, alloc, far_end(meets, GO_ON, code), FOUR_UNITS);
    assert_eq!(rt; (told, got), (BAD, BAD), "at {meets:?} {code}");
}

#[test]
fn an_answer_before_all_was_given_is_a_bad_peer(rt: HostRuntime) -> Result<(), Fail> {
    for code in [0x81, 0xFF, 0xC0, GO_ON] {
        is_too_early(&rt, rt.alloc(), Meets::Cc, code);
        is_too_early(&rt, rt.alloc(), Meets::WideCc, code);
    }
    Ok(())
}

/// Two puts of a client at a stranger that answers the second of four units by success: the second put is one of a
/// byte.
fn puts_twice(
    rt: &impl Abort,
    alloc: Global,
    link: &mut Straight,
    client: &mut Client,
    far: &mut Stranger,
) {
    assert_eq!(rt; client.put(link, far, Counts::most(alloc), &[7; 400]), BAD);
    assert_eq!(rt; client.put(link, far, Counts::most(alloc), &[8]), BAD);
}

/// The second put begins with a CONNECT, and nothing of the first message goes out ahead of it.
fn begins_anew(rt: &impl Abort, alloc: Global, meets: Meets) {
    let mut link = Straight::new(alloc, None);
    puts_twice(
        rt,
        alloc,
        &mut link,
        &mut client(alloc),
        &mut far_end(meets, GO_ON, 0x81),
    );
    let fourth = link.handed.get(3).map(|payload| payload.as_slice());
    let fifth = link.handed.get(4).map(|payload| payload.as_slice());
    assert_eq!(rt; fourth, Some([0x11u8, 0x20].as_slice()), "at {meets:?}");
    assert_eq!(rt;
        fifth,
        Some([0x13u8, 0x20, 0, 0x10, 2, 0, 0, 0, 1, 8].as_slice()),
        "at {meets:?}"
    );
}

#[test]
fn nothing_of_a_put_is_left_behind_such_an_answer(rt: HostRuntime) -> Result<(), Fail> {
    begins_anew(&rt, rt.alloc(), Meets::Cc);
    begins_anew(&rt, rt.alloc(), Meets::WideCc);
    Ok(())
}

#[test]
fn a_refused_and_an_unanswered_connect_are_a_bad_peer(rt: HostRuntime) -> Result<(), Fail> {
    for meets in [Meets::Dm, Meets::Symm] {
        let told = put(&rt, rt.alloc(), far_end(meets, 0x81, 0x81), ONE_UNIT);
        assert_eq!(rt; told, BAD, "at {meets:?}");
    }
    Ok(())
}
