//! What is told of a command on the open link: by how its call ended, and of messages that were put at once by what
//! each slot tells.

ghost use Rattle.std.specs.Prelude.{◌≡◌, ◌<◌, length, map, IfOk};
ghost use Rattle.std.specs.List.{All};
ghost use Rattle.snep_core.specs.Slots.{slot_count};
ghost use Rattle.link_calls.specs.Asking.{MayAsk};
ghost use Rattle.link_calls.specs.AtOnce.{AreApart};
ghost use Rattle.bench_world.specs.Calls.{told_ending};
ghost use Rattle.bench_world.specs.private.LinkTaken.{HasRoom, fault_told, is_success, marked_done, not_yet};
ghost use Rattle.bench_world.specs.private.LinkTaken.{told_request, told_slots};

use crate::bench::ObeyFault;
use crate::entry::{Answer, Loss, SlotDone};
use link_calls::{LinkRequest, SlotMessage};
use nfc_base::{EndCause, Items};
use snep_core::{Client, Ending, Outcome, Refusal, SnepFault};
use std::alloc::{AllocError, Global};

/// The answer that tells how a call ended.
fn answer_of(ending: Ending) -> Answer
    ensures { result ≡ told_ending ending }
{
    match ending {
        Ending::Done => Answer::Success,
        Ending::Value(value) => Answer::Value(value),
        Ending::Sap(sap) => Answer::Sap(sap),
        Ending::Refused(Refusal::Reject) => Answer::Reject,
        Ending::Refused(Refusal::NotFound) => Answer::NoValue,
        Ending::Refused(Refusal::Excess) => Answer::Excess,
        Ending::Refused(Refusal::NotImplemented) => Answer::NotImplemented,
    }
}

/// What is told of a call that has no ending.
pub(crate) fn fault_told(fault: SnepFault) -> Result<Answer, ObeyFault>
    ensures { result ≡ fault_told fault }
{
    match fault {
        SnepFault::LinkEnded(EndCause::FieldLost) => Ok(Answer::LinkEnded(Loss::FieldLost)),
        SnepFault::LinkEnded(EndCause::SixBad) => Ok(Answer::LinkEnded(Loss::SixBad)),
        _ => Err(ObeyFault::Memory),
    }
}

/// Whether a message was told to be taken.
fn is_success(outcome: Outcome) -> bool
    ensures { result ≡ is_success outcome }
{
    match outcome {
        Outcome::Success => true,
        Outcome::NoMessage | Outcome::Staged | Outcome::Rejected => false,
    }
}

/// Each message is told of as its slot tells.
fn mark_done(done: &mut [SlotDone], client: &Client)
    requires { All (λ d. d.slot < slot_count) done.old }
    ensures { done.new ≡ map (marked_done client.now.slots) done.old }
{
    for one in done.iter_mut() {
        one.success = is_success(client.outcome(one.slot));
    }
}

/// What is told of messages that were put at once, once all were answered.
fn told_of(client: &Client, messages: &[SlotMessage], done: Vec<SlotDone>) -> Answer
    requires apart { AreApart messages.now }
    requires done { (length messages.now ≡ 1 → ⊥) → done.items ≡ map not_yet messages.now }
    ensures { result ≡ told_slots messages.now client.now.slots }
{
    if messages.len() == 1 {
        if is_success(client.outcome(messages[0].slot)) {
            return Answer::Success;
        }
        return Answer::Reject;
    }
    let mut done = done;
    mark_done(&mut done, client);
    Answer::Puts(Items::new(done))
}

/// Of each message that it isn't answered yet.
fn none_done(alloc: Global, messages: &[SlotMessage]) -> Result<Vec<SlotDone>, AllocError>
    ensures { IfOk result (λ v. v.items ≡ map not_yet messages.now) }
{
    let mut done = Vec::with_capacity(alloc, messages.len())?;
    for one in messages {
        done.push(SlotDone {
            slot: one.slot,
            success: false,
        })?;
    }
    Ok(done)
}

/// Room to tell of each of several messages that are put at once, before anything is sent.
pub(crate) fn room_for(
    alloc: Global,
    request: &LinkRequest<'_>,
) -> Result<Vec<SlotDone>, AllocError>
    ensures { IfOk result (λ v. HasRoom request.now v.items) }
{
    match *request {
        LinkRequest::Run(messages) => none_done(alloc, messages),
        LinkRequest::Put(_)
        | LinkRequest::Get { .. }
        | LinkRequest::Lookup(_)
        | LinkRequest::Close => Ok(Vec::new(alloc)),
    }
}

/// What is told of a request that came to its end.
pub(crate) fn answer_to(
    request: &LinkRequest<'_>,
    ending: Ending,
    client: &Client,
    done: Vec<SlotDone>,
) -> Answer
    requires may { MayAsk request.now }
    requires done { HasRoom request.now done.items }
    ensures { result ≡ told_request request.now ending client.now.slots }
{
    match *request {
        LinkRequest::Run(messages) => told_of(client, messages, done),
        LinkRequest::Put(_)
        | LinkRequest::Get { .. }
        | LinkRequest::Lookup(_)
        | LinkRequest::Close => answer_of(ending),
    }
}
