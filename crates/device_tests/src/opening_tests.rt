//! Links to a peer that stands beside a tag.

use crate::peer_tests::{ATR_REQ, peer, tag};
use air_core::Field;
use arrayvec::ArrayVec;
use bench_devices::{Device, open_link};
use nfc_base::{EndCause, Event, Fate, Frame, LinkEnd, Mute, Tech};
use nfca_poll::{Ident, pick};
use std::alloc::Global;
use std::process::Abort;
use std::test::Fail;

/// The general bytes of the initiator and of the peer.
const OWN: &[u8] = b"Ffm\x01\x01\x13\x03\x02\x00\x03";

const PEERS: &[u8] = b"Ffm\x01\x01\x13\x03\x02\x00\x13";

/// A field in which the peer is selected.
fn selected(alloc: Global) -> Result<Field<Device>, Fail> {
    let mut field = Field::new(alloc);
    field.put_in(tag(alloc)?)?;
    field.put_in(peer(&[8, 1, 2, 3], 3, 128)?)?;
    pick(alloc, &mut field, &Ident::new(&[8, 1, 2, 3])?)?;
    field.take_trace();
    Ok(field)
}

/// What opening a link tells: the general bytes of the peer, or why there is no link.
fn opened(field: &mut Field<Device>) -> Result<ArrayVec<u8, 47>, LinkEnd> {
    match open_link(field, OWN, &mut Mute) {
        Ok((_, general)) => Ok(general),
        Err(end) => Err(end),
    }
}

/// Whether ATR_REQ is all that was asked.
fn asked_for_a_link_alone(events: &[Event]) -> Result<bool, Fail> {
    let asked = Frame::whole(Tech::A, ATR_REQ)?;
    for event in events {
        if let Event::Request { frame, .. } = event {
            if *frame != asked {
                return Ok(false);
            }
        }
    }
    Ok(true)
}

/// What opening a link with these fates tells, how many transmissions it takes, and whether ATR_REQ is all that is
/// asked.
fn open_with(
    alloc: Global,
    fates: &[Fate],
) -> Result<(Result<ArrayVec<u8, 47>, LinkEnd>, usize, bool), Fail> {
    let mut field = selected(alloc)?;
    field.add_fates(fates)?;
    let end = opened(&mut field);
    let alone = asked_for_a_link_alone(field.trace())?;
    Ok((end, field.trace().len(), alone))
}

fn wanted(cause: Option<EndCause>) -> Result<Result<ArrayVec<u8, 47>, LinkEnd>, Fail> {
    if let Some(cause) = cause {
        return Ok(Err(LinkEnd {
            cause,
            answered: false,
        }));
    }
    let mut general = ArrayVec::new();
    general.try_extend_from_slice(PEERS)?;
    Ok(Ok(general))
}

/// With these fates a link is opened, or none for this cause, in so many transmissions.
fn opens(
    rt: &impl Abort,
    alloc: Global,
    fates: &[Fate],
    cause: Option<EndCause>,
    sent: usize,
) -> Result<(), Fail> {
    let told = open_with(alloc, fates)?;
    assert_eq!(rt; told, (wanted(cause)?, sent, true), "at {fates:?}");
    Ok(())
}

#[test]
fn a_link_is_opened_through_noise(rt: HostRuntime) -> Result<(), Fail> {
    const ROWS: [(&[Fate], Option<EndCause>, usize); 6] = [
        (&[], None, 2),
        (&[Fate::Lose], None, 3),
        (&[Fate::Pass, Fate::Lose], None, 4),
        (&[Fate::Break], Some(EndCause::FieldLost), 1),
        (&[Fate::Pass, Fate::Break], Some(EndCause::FieldLost), 2),
        (&[Fate::Lose; 6], Some(EndCause::SixBad), 6),
    ];
    for &(fates, cause, sent) in &ROWS {
        opens(&rt, rt.alloc(), fates, cause, sent)?;
    }
    Ok(())
}
