//! A client over a carrier without an air.

use crate::ends::{Step, Straight, client, follows, new_ends, peer};
use llcp_link::{Counts, Llc};
use nfc_base::{EndCause, Mute};
use snep_core::{Client, Server, SnepFault};
use std::alloc::Global;
use std::process::Abort;
use std::test::Fail;

#[test]
fn names_are_looked_up(rt: HostRuntime) -> Result<(), Fail> {
    let rows = [
        (Step::Lookup("urn:nfc:sn:snep"), "Ok(4)"),
        (Step::Lookup("urn:nfc:sn:none"), "Ok(0)"),
        (Step::Lookup("urn:nfc:sn:sdp"), "Ok(1)"),
        (Step::Close(&[]), "Ok(())"),
        (Step::Handed, "3"),
        // an SNL with the number 0 and "urn:nfc:sn:snep"
        (Step::Payload(0), "064108100075726E3A6E66633A736E3A736E6570"),
    ];
    new_ends(&rt, rt.alloc(), &rows)
}

#[test]
fn an_open_connection_is_closed(rt: HostRuntime) -> Result<(), Fail> {
    let rows = [
        (Step::Put(&[7]), "Ok(())"),
        (Step::Lookup("urn:nfc:sn:snep"), "Ok(4)"),
        (Step::Close(&[]), "Ok(())"),
        (Step::Close(&[]), "Ok(())"),
        // behind a CONNECT, the put and an SNL
        (Step::Payload(3), "1160"),
        (Step::Handed, "4"),
    ];
    new_ends(&rt, rt.alloc(), &rows)
}

/// Connections from three SAPs, which end in so many payloads by these numbers of PDUs.
fn three_end(
    rt: &impl Abort,
    alloc: Global,
    numbers: &'static [u32],
    handed: &'static str,
    first: &'static str,
) -> Result<(), Fail> {
    let rows = [
        (Step::GetOn(7, 16, b"k1", &[]), "NotImplemented"),
        (Step::Put(&[7]), "Ok(())"),
        (Step::GetOn(3, 16, b"k1", &[]), "NotImplemented"),
        (Step::Handed, "6"),
        (Step::Close(numbers), "Ok(())"),
        (Step::Payload(6), first),
        (Step::Handed, handed),
        // none is open now
        (Step::Close(&[]), "Ok(())"),
        (Step::Handed, handed),
        (Step::Put(&[8]), "Ok(())"),
        (Step::Accepted, "2"),
    ];
    new_ends(rt, alloc, &rows)
}

#[test]
fn all_connections_end_at_once(rt: HostRuntime) -> Result<(), Fail> {
    // in one payload the DISCs from SAPs 32, 35 and 39
    three_end(&rt, rt.alloc(), &[], "7", "0080000211600002116300021167")?;
    // or one behind the other
    three_end(&rt, rt.alloc(), &[1, 1, 1], "9", "1160")?;
    three_end(&rt, rt.alloc(), &[1, 2], "8", "1160")
}

#[test]
fn sixteen_replies_that_give_nothing_are_enough(rt: HostRuntime) -> Result<(), Fail> {
    let alloc = rt.alloc();
    let mut link = Straight::new(alloc, None);
    let told = client(alloc).lookup(&mut link, &mut Mute, Counts::most(alloc), "urn:nfc:sn:snep");
    assert_eq!(rt; told, Err(SnepFault::BadPeer));
    assert_eq!(rt; link.handed.len(), 16);
    Ok(())
}

/// What a lookup comes to over a link that is over by this cause.
fn lookup_over(
    alloc: Global,
    client: &mut Client,
    far: &mut Llc<Server>,
    cause: EndCause,
) -> Result<u8, SnepFault> {
    let mut link = Straight::new(alloc, Some(cause));
    client.lookup(&mut link, far, Counts::most(alloc), "urn:nfc:sn:snep")
}

/// The causes are told, and behind want of memory the client is spent.
fn causes(
    rt: &impl Abort,
    alloc: Global,
    client: &mut Client,
    far: &mut Llc<Server>,
) -> Result<(), Fail> {
    let six_bad = Err(SnepFault::LinkEnded(EndCause::SixBad));
    assert_eq!(rt; lookup_over(alloc, client, far, EndCause::SixBad), six_bad);
    assert_eq!(rt;
        lookup_over(alloc, client, far, EndCause::Memory),
        Err(SnepFault::Memory)
    );
    follows(rt, alloc, client, far, &[(Step::Close(&[]), "Err(Memory)")])
}

#[test]
fn a_link_that_is_over_is_told_by_its_cause(rt: HostRuntime) -> Result<(), Fail> {
    let alloc = rt.alloc();
    assert_eq!(rt; SnepFault::BadPeer.number(), 7);
    causes(&rt, alloc, &mut client(alloc), &mut peer(&rt, alloc)?)
}
