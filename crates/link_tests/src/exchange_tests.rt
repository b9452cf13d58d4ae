//! Payloads that were written by hand, exchanged with a phone.

ghost use Rattle.std.specs.Prelude.{ℕ, List, IfOk};
ghost use Rattle.dep_link.specs.Activating.{HasTarget};
ghost use Rattle.link_calls.specs.Calls.{IsOpen};
ghost use Rattle.link_calls.specs.Exchanging.{AreCarriable};

use crate::Phone;
use crate::meeting::{OWN, PHONES, met};
use air_core::{Field, Listener};
use dep_link::{Initiator, activate};
use link_calls::exchange_all;
use llcp_link::{Counted, Counts, Llc};
use llcp_pdu::LinkParams;
use nfc_base::{EndCause, Fate, Items};
use snep_core::Server;
use std::alloc::Global;
use std::process::Abort;
use std::test::Fail;

const PARAMS: LinkParams = LinkParams {
    version: 0x13,
    miu: 128,
    wks: 0x13,
};

/// Payloads, and what the phone's end replies to each.
type Rows = &'static [(&'static [u8], &'static [u8])];

/// Two clients of one server, each with a message; a disconnect of a connection that isn't there; a payload of nothing.
const TWO_CLIENTS: Rows = &[
    (&[0x11, 0x21], &[0x85, 0x84]),
    (
        &[0x13, 0x21, 0x00, 0x10, 0x02, 0, 0, 0, 1, 0xAA],
        &[0x87, 0x04, 0x01, 0x10, 0x81, 0, 0, 0, 0],
    ),
    (&[0x11, 0x20], &[0x81, 0x84]),
    (
        &[0x13, 0x20, 0x00, 0x10, 0x02, 0, 0, 0, 1, 0xBB],
        &[0x83, 0x04, 0x01, 0x10, 0x81, 0, 0, 0, 0],
    ),
    (&[0x11, 0x62], &[0x89, 0xC4, 0x01]),
    (&[0x00, 0x00], &[0x00, 0x00]),
];

/// The phone's end, with a server.
fn server(rt: &impl Abort, alloc: Global) -> Counted<Server> {
    let mut llc = Llc::new(alloc, PARAMS, 1, Server::new(alloc, 1024));
    assert_eq!(rt; llc.listen("urn:nfc:sn:snep", 4), Ok(()));
    Counted::new(llc, Counts::most(alloc))
}

/// The payloads of rows, of which none is longer than one may be.
fn payloads_of(alloc: Global, rows: Rows) -> Result<Vec<Items<u8>>, Fail>
    ensures { IfOk result (λ v. AreCarriable v.items) }
{
    let mut payloads = Vec::new(alloc);
    for row in rows {
        if row.0.len() <= 2178 {
            payloads.push(Items::from_bytes(alloc, row.0)?)?;
        }
    }
    Ok(payloads)
}

/// A link to the phone.
fn opened(field: &mut Field<Phone>, far: &mut Counted<Server>) -> Result<Initiator, Fail>
    requires { (bytes : List ℕ) → HasTarget ⟦<Phone as Listener>⟧ (λ l. l.target) field.old bytes }
    ensures { IfOk result (λ i. IsOpen ⟦<Phone as Listener>⟧ (λ l. l.target) field.new i) }
{
    let (initiator, _general) = activate(field, OWN, far)?;
    Ok(initiator)
}

/// What comes of these payloads on a link to the phone, over these fates.
fn exchanged(
    alloc: Global,
    far: &mut Counted<Server>,
    rows: Rows,
    fates: &[Fate],
) -> Result<Result<Items<Items<u8>>, EndCause>, Fail> {
    let payloads = payloads_of(alloc, rows)?;
    let mut field = met(alloc, PHONES, fates)?;
    let mut initiator = opened(&mut field, far)?;
    let payloads = payloads.as_slice();
    Ok(exchange_all(alloc, &mut field, &mut initiator, far, payloads))
}

/// These are the replies of the rows.
fn are_replies(rt: &impl Abort, replies: &[Items<u8>], rows: Rows) {
    assert_eq!(rt; replies.len(), rows.len());
    for (reply, row) in replies.iter().zip(rows) {
        assert_eq!(rt; reply.as_slice(), row.1);
    }
}

#[test]
fn each_payload_has_its_reply(rt: HostRuntime) -> Result<(), Fail> {
    let alloc = rt.alloc();
    let mut far = server(&rt, alloc);
    match exchanged(alloc, &mut far, TWO_CLIENTS, &[])? {
        Ok(replies) => are_replies(&rt, replies.as_slice(), TWO_CLIENTS),
        Err(cause) => assert!(rt; false, "{cause:?}"),
    }
    assert_eq!(rt; far.into_end().as_service().accepted().len(), 2);
    Ok(())
}

/// Fates, why the link ended, and how many messages the phone had then.
type Ends = &'static [(&'static [Fate], EndCause, usize)];

const ENDS: Ends = &[
    (&[Fate::Break], EndCause::FieldLost, 0),
    (
        &[Fate::Pass, Fate::Pass, Fate::Pass, Fate::Break],
        EndCause::FieldLost,
        1,
    ),
    (&[Fate::Lose; 6], EndCause::SixBad, 0),
];

#[test]
fn links_that_end(rt: HostRuntime) -> Result<(), Fail> {
    let alloc = rt.alloc();
    for (fates, cause, accepted) in ENDS {
        let mut far = server(&rt, alloc);
        let came = exchanged(alloc, &mut far, TWO_CLIENTS, fates)?;
        assert!(rt; matches!(came, Err(why) if why == *cause), "{cause:?}");
        assert_eq!(rt; far.into_end().as_service().accepted().len(), *accepted);
    }
    Ok(())
}
