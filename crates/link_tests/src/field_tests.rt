//! A peer in a field: activated, swapped with, and let go.

ghost use Rattle.std.specs.Prelude.{◌≤◌, ℕ, List, length};
ghost use Rattle.dep_link.specs.Activating.{HasTarget};

use crate::Phone;
use crate::meeting::{OWN, PHONES, bytes_of, met};
use air_core::{Field, Listener};
use dep_link::{DepPair, Initiator, activate, release};
use nfc_base::{Answerer, Carrier, EndCause, Event, Fate, Frame, Heard, LinkEnd, Tech};
use std::alloc::{AllocError, Global};
use std::process::Abort;
use std::test::Fail;

/// A far end that answers a CONNECT by a CC, a put by its success, what begins with 00h by itself and all else by
/// nothing, and gives up at a byte FFh.
#[derive(Drop)]
struct Desk {
    links: u32,
    swaps: u32,
    stuck: bool,
}

const CONNECT: [u8; 2] = [0x11, 0x20];

const CC: [u8; 2] = [0x81, 0x84];

const PUT: [u8; 12] = [0x13, 0x20, 0x00, 0x10, 0x02, 0, 0, 0, 3, 0xD0, 0, 0];

const DONE: [u8; 9] = [0x83, 0x04, 0x01, 0x10, 0x81, 0, 0, 0, 0];

impl Answerer for Desk {
    ghost use Rattle.std.specs.Prelude.{◌≤◌, length, ⊤};
    ghost use Rattle.std.proofs.Common.{rules};

    ghost is_stuck = { λ d. d.stuck };

    ghost restarts = { λ old general new. ⊤ };

    ghost steps = { λ old payload reply new. length reply ≤ 2178 };

    ghost stops = { λ old payload new. ⊤ };

    fn restart(&mut self, _general: &[u8]) {
        self.links = self.links.wrapping_add(1);
        self.stuck = false;
    }

    fn answer(
        &mut self,
        _alloc: Global,
        payload: &[u8],
        reply: &mut Vec<u8>,
    ) -> Result<(), AllocError> {
        let says: &[u8] = match payload {
            [0x11, ..] => &CC,
            [0x13, ..] => &DONE,
            [0, ..] => payload,
            _ => &[],
        };
        reply.clear();
        if self.stuck || payload.first() == Some(&0xFF) || reply.extend_from_slice(says).is_err() {
            self.stuck = true;
            return Err(AllocError);
        }
        self.swaps = self.swaps.wrapping_add(1);
        Ok(())
    }

    ghost fits = { Prim.search rules };
}

fn new_desk() -> Desk {
    Desk {
        links: 0,
        swaps: 0,
        stuck: false,
    }
}

/// ATR_REQ and ATR_RES of an activation with `OWN` and `PHONES`.
const ATR_REQ: &[u8] =
    b"\xF0\x1B\xD4\x00\x00\x01\x02\x03\x04\x05\x06\x07\x08\x09\x00\x00\x00\x32Ffm\x01\x01\x13\x03\x02\x00\x03";

const ATR_RES: &[u8] =
    b"\xF0\x1C\xD5\x01\x08\x01\x02\x03\x00\x00\x00\x00\x00\x00\x00\x00\x00\x08\x32Ffm\x01\x01\x13\x03\x02\x00\x13";

/// These bytes went over the air, behind a reset, as requests and answers.
fn went(rt: &impl Abort, events: &[Event], frames: &[&[u8]]) {
    assert_eq!(rt; events.len(), frames.len() + 1);
    for (event, expected) in events.iter().skip(1).zip(frames) {
        assert_eq!(rt; bytes_of(event), *expected);
    }
}

/// A link is made, two payloads are swapped, and it is released.
fn talk(
    rt: &impl Abort,
    alloc: Global,
    field: &mut Field<Phone>,
    far: &mut Desk,
) -> Result<(), Fail>
    requires { (bytes : List ℕ) → HasTarget ⟦<Phone as Listener>⟧ (λ l. l.target) field.old bytes }
{
    let (mut initiator, general) = activate(field, OWN, far)?;
    assert_eq!(rt; general.as_slice(), PHONES);
    let mut pair = DepPair::on(field, &mut initiator);
    let connected = pair.swap(alloc, &CONNECT, far)?;
    assert_eq!(rt; connected.as_slice(), CC.as_slice());
    let put = pair.swap(alloc, &PUT, far)?;
    assert_eq!(rt; put.as_slice(), DONE.as_slice());
    release(pair, far)?;
    assert_eq!(rt; (far.links, far.swaps), (1, 2));
    Ok(())
}

#[test]
fn payloads_come_through_noise(rt: HostRuntime) -> Result<(), Fail> {
    use Fate::{Damage, Lose, Pass};
    let alloc = rt.alloc();
    let mut field = met(alloc, PHONES, &[Lose, Pass, Pass, Pass, Pass, Pass, Damage])?;
    talk(&rt, alloc, &mut field, &mut new_desk())?;
    const FRAMES: [&[u8]; 13] = [
        ATR_REQ,
        ATR_RES,
        &[0xF0, 0x06, 0xD4, 0x06, 0x00, 0x11, 0x20],
        &[0xF0, 0x04, 0xD4, 0x06, 0x80],
        &[0xF0, 0x04, 0xD5, 0x07, 0x80],
        &[0xF0, 0x06, 0xD4, 0x06, 0x00, 0x11, 0x20],
        &[0xF0, 0x06, 0xD5, 0x07, 0x00, 0x81, 0x84],
        b"\xF0\x10\xD4\x06\x01\x13\x20\x00\x10\x02\x00\x00\x00\x03\xD0\x00\x00",
        b"\xF0\x0D\xD5\x07\x01\x83\x04\x01\x10\x81\x00\x00\x00\x00",
        &[0xF0, 0x04, 0xD4, 0x06, 0x51],
        b"\xF0\x0D\xD5\x07\x01\x83\x04\x01\x10\x81\x00\x00\x00\x00",
        &[0xF0, 0x03, 0xD4, 0x0A],
        &[0xF0, 0x03, 0xD5, 0x0B],
    ];
    went(&rt, field.trace(), &FRAMES);
    Ok(())
}

#[test]
fn a_lost_request_is_asked_after(rt: HostRuntime) -> Result<(), Fail> {
    let alloc = rt.alloc();
    let mut far = new_desk();
    let mut field = met(alloc, PHONES, &[Fate::Lose])?;
    let (mut initiator, _) = activate(&mut field, OWN, &mut far)?;
    let mut pair = DepPair::on(&mut field, &mut initiator);
    let reply = pair.swap(alloc, &[0, 0], &mut far)?;
    assert_eq!(rt; reply.as_slice(), [0, 0].as_slice());
    const FRAMES: [&[u8]; 7] = [
        ATR_REQ,
        ATR_RES,
        &[0xF0, 0x06, 0xD4, 0x06, 0x00, 0x00, 0x00],
        &[0xF0, 0x04, 0xD4, 0x06, 0x80],
        &[0xF0, 0x04, 0xD5, 0x07, 0x80],
        &[0xF0, 0x06, 0xD4, 0x06, 0x00, 0x00, 0x00],
        &[0xF0, 0x06, 0xD5, 0x07, 0x00, 0x00, 0x00],
    ];
    went(&rt, field.trace(), &FRAMES);
    Ok(())
}

/// How a swap ends that breaks, and how one on the link that is made anew over the same initiator.
fn ends(
    alloc: Global,
    fates: &[Fate],
    payload: &[u8],
) -> Result<(Result<usize, LinkEnd>, Result<usize, LinkEnd>, u32), Fail>
    requires { length payload.now ≤ 2178 }
{
    let mut far = new_desk();
    let mut field = met(alloc, PHONES, fates)?;
    let (mut initiator, _) = activate(&mut field, OWN, &mut far)?;
    let mut pair = DepPair::on(&mut field, &mut initiator);
    let first = pair.swap(alloc, payload, &mut far).map(|reply| reply.len());
    let again = pair.swap(alloc, payload, &mut far).map(|reply| reply.len());
    Ok((first, again, far.swaps))
}

/// A swap ends so, the next one tells the cause again, and the far end was handed so many payloads.
fn ends_so(
    rt: &impl Abort,
    alloc: Global,
    swap: (&[Fate], &[u8]),
    first: Result<usize, LinkEnd>,
    cause: EndCause,
    swaps: u32,
) -> Result<(), Fail> {
    let (fates, payload) = swap;
    assert!(rt; payload.len() <= 2178);
    let answered = false;
    let told = ends(alloc, fates, payload)?;
    assert_eq!(rt;
        told,
        (first, Err(LinkEnd { cause, answered }), swaps),
        "at {fates:?}"
    );
    Ok(())
}

#[test]
fn a_link_that_is_over_tells_why(rt: HostRuntime) -> Result<(), Fail> {
    use Fate::{Break, Damage, Lose, Pass};
    let damaged = [
        Pass, Damage, Pass, Damage, Pass, Damage, Pass, Damage, Pass, Damage, Pass, Damage,
    ];
    let rows: [(&[Fate], &[u8], EndCause, bool, u32); 5] = [
        (&[Break], &CONNECT, EndCause::FieldLost, false, 0),
        (&[Pass, Break], &CONNECT, EndCause::FieldLost, true, 1),
        (&[Lose; 6], &CONNECT, EndCause::SixBad, false, 0),
        (&damaged, &CONNECT, EndCause::SixBad, true, 1),
        (&[], &[0xFF], EndCause::Memory, false, 0),
    ];
    for (fates, payload, cause, answered, swaps) in rows {
        let first = Err(LinkEnd { cause, answered });
        ends_so(&rt, rt.alloc(), (fates, payload), first, cause, swaps)?;
    }
    Ok(())
}

/// How a swap of 300 bytes ends where the field is lost at this transmission, and the next one.
fn lost_at(rt: &impl Abort, alloc: Global, at: usize) -> Result<(), Fail> {
    let mut fates = [Fate::Pass; 7];
    assert!(rt; at < 7);
    fates[at] = Fate::Break;
    let cause = EndCause::FieldLost;
    let answered = at > 2;
    let first = if at == 6 {
        Ok(300)
    } else {
        Err(LinkEnd { cause, answered })
    };
    ends_so(
        rt,
        alloc,
        (&fates, &[0; 300]),
        first,
        cause,
        answered as u32,
    )
}

/// Two pieces go out and two come back: six transmissions. The payload is handed over as its second piece arrives,
/// which is the third.
#[test]
fn the_field_lost_at_each_transmission(rt: HostRuntime) -> Result<(), Fail> {
    for at in 0..7usize {
        lost_at(&rt, rt.alloc(), at)?;
    }
    Ok(())
}

/// What a swap answers on a link that is made over this field with an initiator that is new, or that refused a frame,
/// and how many events there are then.
fn swapped_on(
    alloc: Global,
    field: &mut Field<Phone>,
    refused: &Frame,
) -> Result<(Result<usize, LinkEnd>, usize), Fail> {
    let mut far = new_desk();
    let mut initiator = Initiator::new(3);
    let _ = initiator.next(&Heard::Whole(refused.copy()));
    let mut pair = DepPair::on(field, &mut initiator);
    let reply = pair
        .swap(alloc, &CONNECT, &mut far)
        .map(|reply| reply.len());
    Ok((reply, field.trace().len()))
}

#[test]
fn a_new_pair_over_an_ended_initiator(rt: HostRuntime) -> Result<(), Fail> {
    let alloc = rt.alloc();
    let over = Err(LinkEnd {
        cause: EndCause::Protocol,
        answered: false,
    });
    let refused = Frame::whole(Tech::A, &[0xAA])?;
    let mut lit = met(alloc, PHONES, &[])?;
    assert_eq!(rt; swapped_on(alloc, &mut lit, &refused)?, (over, 1));
    let mut dark: Field<Phone> = Field::new(alloc);
    assert_eq!(rt; swapped_on(alloc, &mut dark, &refused)?, (over, 0));
    Ok(())
}

#[test]
fn a_new_pair_over_a_dark_field(rt: HostRuntime) -> Result<(), Fail> {
    let alloc = rt.alloc();
    let mut far = new_desk();
    let mut field: Field<Phone> = Field::new(alloc);
    let mut initiator = Initiator::new(3);
    let mut pair = DepPair::on(&mut field, &mut initiator);
    let reply = pair
        .swap(alloc, &CONNECT, &mut far)
        .map(|reply| reply.len());
    let over = LinkEnd {
        cause: EndCause::FieldLost,
        answered: false,
    };
    assert_eq!(rt; reply, Err(over));
    assert!(rt; field.trace().is_empty());
    Ok(())
}
