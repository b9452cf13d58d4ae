//! Calls over a link to a phone.

ghost use Rattle.std.specs.Prelude.{◌≡◌, ◌≤◌, ℕ, List, length, false, IfOk, OnOk};
ghost use Rattle.dep_link.specs.Activating.{HasTarget};
ghost use Rattle.link_calls.specs.AtOnce.{AreApart, IsAtRest};
ghost use Rattle.link_calls.specs.Calls.{IsOpen};
ghost use Rattle.snep_core.specs.Slots.{is_staged_at};

use crate::Phone;
use crate::meeting::{OWN, PHONES, bytes_of, met};
use air_core::{Field, Listener};
use dep_link::{Initiator, activate};
use link_calls::{SlotMessage, close_and_release, get_on, lookup_on, put_on, run_on};
use llcp_link::{Counted, Counts, Llc};
use llcp_pdu::LinkParams;
use nfc_base::{Answerer, EndCause, Event, Fate, Items};
use snep_core::{Client, NoService, Outcome, Server, SnepFault};
use std::alloc::{AllocError, Global};
use std::process::Abort;
use std::test::Fail;

// with an MIUX of 1,919
const WIDE: &[u8] = b"Ffm\x01\x01\x13\x02\x02\x07\x7F\x03\x02\x00\x13";

const PARAMS: LinkParams = LinkParams {
    version: 0x13,
    miu: 128,
    wks: 0x13,
};

/// The phone's end, with a server.
fn server(rt: &impl Abort, alloc: Global) -> Llc<Server> {
    let mut llc = Llc::new(alloc, PARAMS, 1, Server::new(alloc, 1024));
    assert_eq!(rt; llc.listen("urn:nfc:sn:snep", 4), Ok(()));
    llc
}

/// A link to the phone, and a client on it.
fn linked(
    alloc: Global,
    field: &mut Field<Phone>,
    far: &mut Counted<Server>,
) -> Result<(Initiator, Client), Fail>
    requires { (bytes : List ℕ) → HasTarget ⟦<Phone as Listener>⟧ (λ l. l.target) field.old bytes }
    ensures open_ { IfOk result (λ p. IsOpen ⟦<Phone as Listener>⟧ (λ l. l.target) field.new p.0) }
    ensures going { IfOk result (λ p. p.1.spent ≡ false) }
    ensures free { IfOk result (λ p. is_staged_at p.1.slots 0 ≡ false) }
    ensures rest { IfOk result (λ p. IsAtRest p.1.slots) }
{
    let (initiator, general) = activate(field, OWN, far)?;
    let mut llc = Llc::new(alloc, PARAMS, 1, NoService);
    llc.restart(&general);
    Ok((initiator, Client::new(alloc, llc)))
}

// The calls, with what a test needs to know of them: the link is open again.

fn looks_up(
    alloc: Global,
    field: &mut Field<Phone>,
    initiator: &mut Initiator,
    client: &mut Client,
    far: &mut Counted<Server>,
) -> Result<u8, SnepFault>
    requires open_ { IsOpen ⟦<Phone as Listener>⟧ (λ l. l.target) field.old initiator.old }
    requires going { client.old.spent ≡ false }
    requires free { is_staged_at client.old.slots 0 ≡ false }
    ensures open_ { OnOk result (IsOpen ⟦<Phone as Listener>⟧ (λ l. l.target) field.new initiator.new) }
    ensures going { OnOk result (client.new.spent ≡ false) }
    ensures free { OnOk result (is_staged_at client.new.slots 0 ≡ false) }
{
    let sap = lookup_on(
        field,
        initiator,
        client,
        far,
        Counts::most(alloc),
        "urn:nfc:sn:snep",
    )?;
    Ok(sap)
}

fn puts(
    field: &mut Field<Phone>,
    initiator: &mut Initiator,
    client: &mut Client,
    far: &mut Counted<Server>,
    counts: Counts,
    message: &[u8],
) -> Result<(), SnepFault>
    requires open_ { IsOpen ⟦<Phone as Listener>⟧ (λ l. l.target) field.old initiator.old }
    requires going { client.old.spent ≡ false }
    requires free { is_staged_at client.old.slots 0 ≡ false }
    requires message { length message.now ≤ 65536 }
    ensures open_ { OnOk result (IsOpen ⟦<Phone as Listener>⟧ (λ l. l.target) field.new initiator.new) }
    ensures going { OnOk result (client.new.spent ≡ false) }
{
    put_on(field, initiator, client, far, counts, message)?;
    Ok(())
}

fn gets(
    alloc: Global,
    field: &mut Field<Phone>,
    initiator: &mut Initiator,
    client: &mut Client,
    far: &mut Counted<Server>,
    acceptable: u32,
) -> Result<Vec<u8>, SnepFault>
    requires open_ { IsOpen ⟦<Phone as Listener>⟧ (λ l. l.target) field.old initiator.old }
    requires going { client.old.spent ≡ false }
    ensures open_ { OnOk result (IsOpen ⟦<Phone as Listener>⟧ (λ l. l.target) field.new initiator.new) }
    ensures going { OnOk result (client.new.spent ≡ false) }
{
    let value = get_on(
        field,
        initiator,
        client,
        far,
        Counts::most(alloc),
        0,
        acceptable,
        b"k1",
    )?;
    Ok(value)
}

fn closes(
    alloc: Global,
    field: &mut Field<Phone>,
    initiator: &mut Initiator,
    client: &mut Client,
    far: &mut Counted<Server>,
) -> Result<(), SnepFault>
    requires open_ { IsOpen ⟦<Phone as Listener>⟧ (λ l. l.target) field.old initiator.old }
    requires going { client.old.spent ≡ false }
{
    close_and_release(field, initiator, client, far, Counts::most(alloc))
}

/// A lookup, a put and a close, one after the other.
fn three_calls(
    rt: &impl Abort,
    alloc: Global,
    field: &mut Field<Phone>,
    initiator: &mut Initiator,
    client: &mut Client,
    far: &mut Counted<Server>,
) -> Result<(), SnepFault>
    requires open_ { IsOpen ⟦<Phone as Listener>⟧ (λ l. l.target) field.old initiator.old }
    requires going { client.old.spent ≡ false }
    requires free { is_staged_at client.old.slots 0 ≡ false }
{
    assert_eq!(rt; looks_up(alloc, field, initiator, client, far)?, 4);
    puts(
        field,
        initiator,
        client,
        far,
        Counts::most(alloc),
        &[0xD0, 0, 0],
    )?;
    closes(alloc, field, initiator, client, far)
}

/// What went over behind the activation's frames and before those of the close.
const CALLS: [&[u8]; 6] = [
    b"\xF0\x18\xD4\x06\x00\x06\x41\x08\x10\x00urn:nfc:sn:snep",
    &[
        0xF0, 0x0A, 0xD5, 0x07, 0x00, 0x06, 0x41, 0x09, 0x02, 0x00, 0x04,
    ],
    &[0xF0, 0x06, 0xD4, 0x06, 0x01, 0x11, 0x20],
    &[0xF0, 0x06, 0xD5, 0x07, 0x01, 0x81, 0x84],
    b"\xF0\x10\xD4\x06\x02\x13\x20\x00\x10\x02\x00\x00\x00\x03\xD0\x00\x00",
    b"\xF0\x0D\xD5\x07\x02\x83\x04\x01\x10\x81\x00\x00\x00\x00",
];

/// The last two frames, the last one first.
const RELEASE: [&[u8]; 2] = [&[0xF0, 0x03, 0xD5, 0x0B], &[0xF0, 0x03, 0xD4, 0x0A]];

fn calls_went_over(rt: &impl Abort, events: &[Event]) {
    for (event, expected) in events.iter().skip(3).zip(&CALLS) {
        assert_eq!(rt; bytes_of(event), *expected);
    }
}

fn release_went_over(rt: &impl Abort, events: &[Event]) {
    for (event, expected) in events.iter().rev().take(2).zip(&RELEASE) {
        assert_eq!(rt; bytes_of(event), *expected);
    }
}

/// A message goes over to this far end.
fn message_over(rt: &impl Abort, alloc: Global, far: &mut Counted<Server>) -> Result<(), Fail> {
    let mut field = met(alloc, PHONES, &[])?;
    let (mut initiator, mut client) = linked(alloc, &mut field, far)?;
    three_calls(rt, alloc, &mut field, &mut initiator, &mut client, far)?;
    calls_went_over(rt, field.trace());
    release_went_over(rt, field.trace());
    assert_eq!(rt; field.trace().len(), 13);
    Ok(())
}

#[test]
fn a_message_goes_over(rt: HostRuntime) -> Result<(), Fail> {
    let alloc = rt.alloc();
    let mut far = Counted::new(server(&rt, alloc), Counts::most(alloc));
    message_over(&rt, alloc, &mut far)
}

/// The phone's end, with a server that has the value `A1A2A3` under the key `k1`.
fn offering(rt: &impl Abort, alloc: Global) -> Result<Counted<Server>, Fail> {
    let mut end = server(rt, alloc);
    end.service().offer(b"k1", &[0xA1, 0xA2, 0xA3])?;
    Ok(Counted::new(end, Counts::most(alloc)))
}

/// A value, and one that is too long.
fn two_values(
    rt: &impl Abort,
    alloc: Global,
    field: &mut Field<Phone>,
    initiator: &mut Initiator,
    client: &mut Client,
    far: &mut Counted<Server>,
) -> Result<(), SnepFault>
    requires open_ { IsOpen ⟦<Phone as Listener>⟧ (λ l. l.target) field.old initiator.old }
    requires going { client.old.spent ≡ false }
{
    let value = gets(alloc, field, initiator, client, far, 16)?;
    assert_eq!(rt; value.as_slice(), [0xA1u8, 0xA2, 0xA3].as_slice());
    let long = gets(alloc, field, initiator, client, far, 2);
    assert_eq!(rt; long.map(|value| value.len()), Err(SnepFault::Excess));
    Ok(())
}

/// Values are got from this far end.
fn values_from(rt: &impl Abort, alloc: Global, far: &mut Counted<Server>) -> Result<(), Fail> {
    let mut field = met(alloc, PHONES, &[])?;
    let (mut initiator, mut client) = linked(alloc, &mut field, far)?;
    two_values(rt, alloc, &mut field, &mut initiator, &mut client, far)?;
    Ok(())
}

#[test]
fn values_are_got(rt: HostRuntime) -> Result<(), Fail> {
    let alloc = rt.alloc();
    values_from(&rt, alloc, &mut offering(&rt, alloc)?)
}

/// How many messages a phone has.
fn messages_of(far: Counted<Server>) -> usize {
    far.into_end().as_service().accepted().len()
}

/// How a put ends over these fates.
fn put_ends(
    alloc: Global,
    far: &mut Counted<Server>,
    fates: &[Fate],
) -> Result<Result<(), SnepFault>, Fail> {
    let mut field = met(alloc, PHONES, fates)?;
    let (mut initiator, mut client) = linked(alloc, &mut field, far)?;
    Ok(puts(
        &mut field,
        &mut initiator,
        &mut client,
        far,
        Counts::most(alloc),
        &[0xD0, 0, 0],
    ))
}

/// How it ends, and how many messages a new phone has then.
fn ends_so(
    rt: &impl Abort,
    alloc: Global,
    row: (&[Fate], Result<(), SnepFault>, usize),
) -> Result<(), Fail> {
    let (fates, put, accepted) = row;
    let mut far = Counted::new(server(rt, alloc), Counts::most(alloc));
    assert_eq!(rt; put_ends(alloc, &mut far, fates)?, put, "at {fates:?}");
    assert_eq!(rt;
        far.into_end().as_service().accepted().len(),
        accepted,
        "at {fates:?}"
    );
    Ok(())
}

#[test]
fn a_link_that_ends_is_told(rt: HostRuntime) -> Result<(), Fail> {
    use Fate::{Break, Damage, Lose, Pass};
    let late = [
        Pass, Pass, Pass, Damage, Pass, Damage, Pass, Damage, Pass, Damage, Pass, Damage, Pass,
        Damage,
    ];
    let lost_field = Err(SnepFault::LinkEnded(EndCause::FieldLost));
    let six_bad = Err(SnepFault::LinkEnded(EndCause::SixBad));
    let rows: [(&[Fate], Result<(), SnepFault>, usize); 4] = [
        (&[], Ok(()), 1),
        (&[Break], lost_field, 0),
        (&[Lose; 6], six_bad, 0),
        (&late, six_bad, 1),
    ];
    for row in rows {
        ends_so(&rt, rt.alloc(), row)?;
    }
    Ok(())
}

/// A frame of NFC-DEP that begins an AGF.
fn begins_agf(frame: &[u8]) -> bool {
    frame.len() > 6 && frame[5] == 0x00 && frame[6] == 0x80
}

/// Whether an AGF went over.
fn has_agf(events: &[Event]) -> bool {
    for event in events {
        if begins_agf(bytes_of(event)) {
            return true;
        }
    }
    false
}

fn numbered(alloc: Global, numbers: &[u32]) -> Result<Counts, AllocError> {
    Ok(Counts::new(Vec::from_slice(alloc, numbers)?))
}

/// A far end that takes units of 128 bytes, four at a time, and gives as many PDUs as these numbers say.
fn roomy(rt: &impl Abort, alloc: Global, numbers: &[u32]) -> Result<Counted<Server>, Fail> {
    let counts = numbered(alloc, numbers)?;
    let mut end = Llc::new(alloc, PARAMS, 4, Server::new(alloc, 1024));
    assert_eq!(rt; end.listen("urn:nfc:sn:snep", 4), Ok(()));
    Ok(Counted::new(end, counts))
}

/// Whether an AGF went over in a put of 500 bytes, to a phone that takes payloads of 2,047 bytes, where the near end
/// gives as many PDUs as these numbers say.
fn joined(alloc: Global, far: &mut Counted<Server>, numbers: &[u32]) -> Result<bool, Fail> {
    let counts = numbered(alloc, numbers)?;
    let mut field = met(alloc, WIDE, &[])?;
    let (mut initiator, mut client) = linked(alloc, &mut field, far)?;
    puts(
        &mut field,
        &mut initiator,
        &mut client,
        far,
        counts,
        &[7; 500],
    )?;
    Ok(has_agf(field.trace()))
}

/// The same where both ends have these numbers, and how many messages the phone has then.
fn joined_by(rt: &impl Abort, alloc: Global, numbers: &[u32]) -> Result<(bool, usize), Fail> {
    let mut far = roomy(rt, alloc, numbers)?;
    let joined = joined(alloc, &mut far, numbers)?;
    Ok((joined, messages_of(far)))
}

#[test]
fn payloads_of_one_pdu_have_no_agf_and_bring_a_put_once(rt: HostRuntime) -> Result<(), Fail> {
    let alloc = rt.alloc();
    assert_eq!(rt; joined_by(&rt, alloc, &[1; 8])?, (false, 1));
    assert_eq!(rt; joined_by(&rt, alloc, &[])?, (true, 1));
    Ok(())
}

/// A message of slot 2, and an empty one of slot 1.
fn two_messages(alloc: Global) -> Result<Vec<SlotMessage>, AllocError>
    ensures apart { IfOk result (λ v. AreApart v.items) }
{
    let mut messages = Vec::with_capacity(alloc, 2)?;
    let long = Items::new(Vec::from_slice(alloc, &[0xD0, 0, 0])?);
    messages.push(SlotMessage {
        slot: 2,
        message: long,
    })?;
    let message = Items::new(Vec::new(alloc));
    messages.push(SlotMessage { slot: 1, message })?;
    Ok(messages)
}

/// What three slots tell, where messages of two were put at once to this far end.
fn slots_behind(alloc: Global, far: &mut Counted<Server>) -> Result<[Outcome; 3], Fail> {
    let mut field = met(alloc, PHONES, &[])?;
    let (mut initiator, mut client) = linked(alloc, &mut field, far)?;
    let messages = two_messages(alloc)?;
    run_on(
        &mut field,
        &mut initiator,
        &mut client,
        far,
        Counts::most(alloc),
        &messages,
    )?;
    Ok([client.outcome(0), client.outcome(1), client.outcome(2)])
}

#[test]
fn messages_of_two_slots_go_over_at_once(rt: HostRuntime) -> Result<(), Fail> {
    let alloc = rt.alloc();
    let mut far = Counted::new(server(&rt, alloc), Counts::most(alloc));
    let told = [Outcome::NoMessage, Outcome::Success, Outcome::Success];
    assert_eq!(rt; slots_behind(alloc, &mut far)?, told);
    assert_eq!(rt; messages_of(far), 2);
    Ok(())
}
