//! Messages that are put at once over the open link of a field, each from a slot of its client.

ghost use Rattle.std.specs.Prelude.{◌≡◌, false, IfErr, OnOk};
ghost use Rattle.snep_core.specs.declared.fault.SnepFault.{SnepFault};
ghost use Rattle.snep_core.specs.Slots.{NoneStaged};
ghost use Rattle.link_calls.specs.AtOnce.{AreApart, IsAtRest, all_staged};
ghost use Rattle.link_calls.specs.Called.{AllCalled, AllFailed};
ghost use Rattle.link_calls.specs.Calls.{IsOpen};

use crate::request::SlotMessage;
use air_core::Field;
use dep_link::{DepPair, Initiator, PeerListener};
use llcp_link::{Counted, Counts};
use snep_core::{Client, Server, SnepFault};

/// Stages each message on its slot. Nothing is sent.
fn stage_all(client: &mut Client, messages: &[SlotMessage]) -> Result<(), SnepFault>
    requires going { client.old.spent ≡ false }
    requires rest { IsAtRest client.old.slots }
    requires apart { AreApart messages.now }
    ensures ok { OnOk result (client.new ≡ record client.old { slots = all_staged messages.now client.old.slots }) }
    ensures err { IfErr result (λ e. e ≡ SnepFault.Memory) }
{
    for one in messages {
        match client.stage(one.slot, one.message.as_slice()) {
            Ok(()) => {}
            Err(fault) => return Err(fault),
        }
    }
    Ok(())
}

/// Puts messages at once, each from its slot. Where memory is wanting while they are staged, nothing is sent.
pub fn run_on<L: PeerListener>(
    field: &mut Field<L>,
    initiator: &mut Initiator,
    client: &mut Client,
    far: &mut Counted<Server>,
    counts: Counts,
    messages: &[SlotMessage],
) -> Result<(), SnepFault>
    requires open_ { IsOpen L.Listener L.target field.old initiator.old }
    requires going { client.old.spent ≡ false }
    requires rest { IsAtRest client.old.slots }
    requires apart { AreApart messages.now }
    ensures ok { OnOk result (AllCalled L.Listener L.target counts messages.now client.old.llc client.old.slots
        (record { air = field.old; initiator = initiator.old; far = far.old })
        client.new.llc client.new.slots (record { air = field.new; initiator = initiator.new; far = far.new })) }
    ensures going { OnOk result (client.new.spent ≡ false) }
    ensures err { IfErr result (λ e. AllFailed L.Listener L.target counts messages.now client.old.llc
        (record { air = field.old; initiator = initiator.old; far = far.old }) e
        client.new.llc (record { air = field.new; initiator = initiator.new; far = far.new })) }
{
    match stage_all(client, messages) {
        Err(fault) => return Err(fault),
        Ok(()) => {}
    }
    let mut pair = DepPair::on(field, initiator);
    client.run(&mut pair, far, counts)
}
