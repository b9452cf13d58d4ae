//! Messages that several clients of the reader put at once over the open link, each from its slot, and a value that one
//! of them gets.

ghost use Rattle.std.specs.Prelude.{◌≡◌, ◌↔◌, [], ◌∷◌, IsTrue, IfOk, IsErrOf};
ghost use Rattle.std.specs.List.{All};
ghost use Rattle.bench_world.specs.Asked.{slot_messages};
ghost use Rattle.bench_world.specs.Legal.{Accepts, IsSlotPut, MayPutOn, MayPuts};
ghost use Rattle.bench_world.specs.Obeying.{IsSettled, ObeyedBy, IsCutOffBy, RefusedOnly};

use crate::bench::ObeyFault;
use crate::calling::{LONGEST_MESSAGE, is_too_long, talk};
use crate::entry::Answer;
use crate::joins::Joins;
use crate::machines::Machines;
use bench_script::{Command, Msg, SlotPut, have_own_slots};
use link_calls::{LinkRequest, SlotMessage};
use nfc_base::Items;
use std::alloc::{AllocError, Global};

/// The last of a client's slots.
const LAST_SLOT: u8 = 7;

/// How few and how many messages are put at once.
const LEAST_PUTS: usize = 2;

const MOST_PUTS: usize = 8;

/// A message and its slot, alone.
fn alone(alloc: Global, slot: u8, message: &Msg) -> Result<Vec<SlotMessage>, AllocError>
    ensures { IfOk result (λ v. v.items ≡ slot_messages (record { slot = slot; message = message.now } ∷ [])) }
{
    let mut messages = Vec::with_capacity(alloc, 1)?;
    let message = Items::new(message.bytes(alloc)?);
    messages.push(SlotMessage { slot, message })?;
    Ok(messages)
}

/// Puts a message to the server of the link's peer, on the connection of a slot.
pub fn on_put(
    alloc: Global,
    machines: &mut Machines,
    joins: Joins,
    slot: u8,
    message: &Msg,
) -> Result<Answer, ObeyFault>
    requires { IsSettled machines.old }
    ensures ok { IfOk result (λ a. ObeyedBy joins machines.old machines.new (Command.OnPut slot message.now) a) }
    ensures refused { IsErrOf result ObeyFault.Refused → (machines.new ≡ machines.old) }
    ensures cause { RefusedOnly result machines.old (Command.OnPut slot message.now) }
    ensures cut { IsErrOf result ObeyFault.Memory → IsCutOffBy joins machines.old machines.new
        (Command.OnPut slot message.now) }
{
    if slot < 1 || slot > LAST_SLOT || is_too_long(message) {
        return Err(ObeyFault::Refused);
    }
    let Ok(messages) = alone(alloc, slot, message) else {
        return Err(ObeyFault::Memory);
    };
    talk(alloc, machines, joins, &LinkRequest::Run(&messages))
}

/// Gets a value of at most so many bytes from the server of the link's peer, on the connection of a slot.
pub fn on_get(
    alloc: Global,
    machines: &mut Machines,
    joins: Joins,
    slot: u8,
    acceptable: u32,
    key: &[u8],
) -> Result<Answer, ObeyFault>
    requires { IsSettled machines.old }
    ensures ok { IfOk result (λ a. ObeyedBy joins machines.old machines.new (Command.OnGet slot acceptable key.now) a) }
    ensures refused { IsErrOf result ObeyFault.Refused → (machines.new ≡ machines.old) }
    ensures cause { RefusedOnly result machines.old (Command.OnGet slot acceptable key.now) }
    ensures cut { IsErrOf result ObeyFault.Memory → IsCutOffBy joins machines.old machines.new
        (Command.OnGet slot acceptable key.now) }
{
    if slot < 1 || slot > LAST_SLOT {
        return Err(ObeyFault::Refused);
    }
    if acceptable as usize > LONGEST_MESSAGE || key.len() > LONGEST_MESSAGE {
        return Err(ObeyFault::Refused);
    }
    let request = LinkRequest::Get {
        slot,
        most: acceptable,
        key,
    };
    talk(alloc, machines, joins, &request)
}

/// Whether each names a slot, and no message is longer than one may be.
fn are_within(puts: &[SlotPut]) -> bool
    ensures { IsTrue result ↔ All IsSlotPut puts.now }
{
    for put in puts {
        if put.slot > LAST_SLOT || is_too_long(&put.message) {
            return false;
        }
    }
    true
}

/// Whether these may be put at once.
fn may_put(puts: &[SlotPut]) -> bool
    ensures { IsTrue result ↔ MayPuts puts.now }
{
    if puts.len() < LEAST_PUTS || puts.len() > MOST_PUTS {
        return false;
    }
    have_own_slots(puts) && are_within(puts)
}

/// The message of each put, with its slot, in their order.
fn messages_of(alloc: Global, puts: &[SlotPut]) -> Result<Vec<SlotMessage>, AllocError>
    ensures { IfOk result (λ v. v.items ≡ slot_messages puts.now) }
{
    let mut messages = Vec::with_capacity(alloc, puts.len())?;
    for put in puts {
        let message = Items::new(put.message.bytes(alloc)?);
        messages.push(SlotMessage {
            slot: put.slot,
            message,
        })?;
    }
    Ok(messages)
}

/// Puts messages at once, each on the connection of its slot.
pub fn puts(
    alloc: Global,
    machines: &mut Machines,
    joins: Joins,
    all: &[SlotPut],
) -> Result<Answer, ObeyFault>
    requires { IsSettled machines.old }
    ensures ok { IfOk result (λ a. ObeyedBy joins machines.old machines.new (Command.Puts all.now) a) }
    ensures refused { IsErrOf result ObeyFault.Refused → (machines.new ≡ machines.old) }
    ensures cause { RefusedOnly result machines.old (Command.Puts all.now) }
    ensures cut { IsErrOf result ObeyFault.Memory → IsCutOffBy joins machines.old machines.new (Command.Puts all.now) }
{
    if !may_put(all) {
        return Err(ObeyFault::Refused);
    }
    let Ok(messages) = messages_of(alloc, all) else {
        return Err(ObeyFault::Memory);
    };
    talk(alloc, machines, joins, &LinkRequest::Run(&messages))
}
