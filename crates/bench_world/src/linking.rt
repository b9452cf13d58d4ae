//! A link to a peer is opened.

ghost use Rattle.std.specs.Prelude.{◌≡◌, ◌↔◌, ◌⊎◌, ◌+◌, ◌^◌, ◌<◌, Some, None, length, IsSome, IfOk, IfErr, OnErr};
ghost use Rattle.std.specs.Prelude.{IsErrOf, IsTrue};
ghost use Rattle.llcp_conn.specs.Conn.{IsWindow};
ghost use Rattle.llcp_pdu.specs.General.{IsMiu};
ghost use Rattle.nfca_poll.specs.declared.fault.PollFault.TheVariants as faults;
ghost use Rattle.bench_world.specs.Answering.{poll_answer};
ghost use Rattle.bench_world.specs.Legal.{CutFront, no_joins};
ghost use Rattle.bench_world.specs.Obeying.{IsSettled, Obeyed, IsCutOff, RefusedOnly, state_at};

use crate::answering::missed;
use crate::bench::ObeyFault;
use crate::entry::Answer;
use crate::machines::Machines;
use bench_devices::{Selection, select};
use bench_script::{Command, DeviceId};
use nfca_poll::{Ident, PollFault};
use std::alloc::Global;

/// Whether an end may have this MIU and receive window.
pub(crate) fn are_link_sizes(miu: u16, rw: u8) -> bool
    ensures { IsTrue result ↔ (IsMiu miu × IsWindow rw) }
{
    (128 <= miu && miu < 2176) && (1 <= rw && rw <= 15)
}

/// The answer that tells of a fault of polling.
pub(crate) fn not_found(fault: PollFault) -> Result<Answer, ObeyFault>
    requires { IsSome (poll_answer fault) ⊎ (fault ≡ faults.Memory) }
    ensures told { IfOk result (λ answer. poll_answer fault ≡ Some answer) }
    ensures memory { IfErr result (λ e. e ≡ ObeyFault.Memory) }
{
    match missed(fault) {
        Ok(answer) => Ok(answer),
        Err(_) => Err(ObeyFault::Memory),
    }
}

/// Selects a device, and opens a link to it where it is a peer.
fn select_and_open(
    alloc: Global,
    machines: &mut Machines,
    id: &Ident,
    miu: u16,
    rw: u8,
) -> Result<Answer, ObeyFault>
    requires settled { IsSettled machines.old }
    requires unlinked { machines.old.link ≡ None }
    requires few { length machines.old.peers.links + 1 < 2 ^ 32 }
    requires miu { IsMiu miu }
    requires window { IsWindow rw }
    ensures ok { IfOk result (λ a. Obeyed machines.old machines.new (Command.Link id.now miu rw) a) }
    ensures cut { OnErr result (CutFront no_joins (state_at machines.old) (Command.Link id.now miu rw)
        machines.new.air.trace (state_at machines.new)) }
    ensures memory { IfErr result (λ e. e ≡ ObeyFault.Memory) }
{
    let device = DeviceId::A(id.copy());
    let Ok(selection) = select(alloc, &mut machines.field, &device) else {
        return Err(ObeyFault::Memory);
    };
    let place = match selection {
        Selection::Missed(fault) => return not_found(fault),
        Selection::Place(place) => place,
    };
    if machines.devices()[place].is_tag() {
        return Ok(Answer::WrongKind);
    }
    machines.open(alloc, place, miu, rw)
}

/// Opens a link to a peer, from a reset on, which ends the open link.
pub fn link(
    alloc: Global,
    machines: &mut Machines,
    id: &Ident,
    miu: u16,
    rw: u8,
) -> Result<Answer, ObeyFault>
    requires { IsSettled machines.old }
    ensures ok { IfOk result (λ a. Obeyed machines.old machines.new (Command.Link id.now miu rw) a) }
    ensures cut { IsErrOf result ObeyFault.Memory → IsCutOff machines.old machines.new (Command.Link id.now miu rw) }
    ensures refused { IsErrOf result ObeyFault.Refused → (machines.new ≡ machines.old) }
    ensures cause { RefusedOnly result machines.old (Command.Link id.now miu rw) }
{
    if !are_link_sizes(miu, rw) {
        return Err(ObeyFault::Refused);
    }
    if machines.is_full() {
        return Err(ObeyFault::Memory);
    }
    machines.end_link();
    select_and_open(alloc, machines, id, miu, rw)
}
