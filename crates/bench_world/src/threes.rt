//! The commands that ask Type 3 tags something: they are searched for, and one is read or written.

ghost use Rattle.std.specs.Prelude.{◌≡◌, IfOk, OnErr, IsErrOf};
ghost use Rattle.bench_devices.specs.Phases.{IsIdle};
ghost use Rattle.bench_script.specs.Messages.{message_of};
ghost use Rattle.bench_world.specs.Threes.{AreWellStored};
ghost use Rattle.bench_world.specs.Obeying.{IsSettled, Obeyed, IsCutOff, ObeyedUnlinked, CutOffUnlinked};

use crate::answering::{missed, sensed, told_three, written_three};
use crate::bench::ObeyFault;
use crate::entry::Answer;
use crate::machines::Machines;
use air_core::Field;
use bench_devices::{Device, Selection, poll_three, read_three, select_three, write_three};
use bench_script::{Command, Msg};
use std::alloc::{AllocError, Global};

/// Polls for Type 3 tags, and tells which are there.
fn sense(field: &mut Field<Device>) -> Result<Answer, AllocError>
    requires { IsIdle field.old }
    ensures ok { IfOk result (λ a. ObeyedUnlinked field.old field.new Command.Poll3 a) }
    ensures cut { OnErr result (CutOffUnlinked field.old field.new Command.Poll3) }
{
    match poll_three(field) {
        Ok(found) => Ok(sensed(found)),
        Err(fault) => missed(fault),
    }
}

/// Finds which Type 3 tags are there, from a reset on, which ends the open link.
pub fn find_threes(machines: &mut Machines) -> Result<Answer, ObeyFault>
    requires { IsSettled machines.old }
    ensures ok { IfOk result (λ a. Obeyed machines.old machines.new Command.Poll3 a) }
    ensures cut { OnErr result (IsCutOff machines.old machines.new Command.Poll3) }
    ensures never { IsErrOf result ObeyFault.Refused → ⊥ }
{
    machines.end_link();
    match sense(&mut machines.field) {
        Ok(answer) => Ok(answer),
        Err(_) => Err(ObeyFault::Memory),
    }
}

/// Selects a Type 3 tag and reads it.
fn select_and_read(
    alloc: Global,
    field: &mut Field<Device>,
    id: [u8; 8],
) -> Result<Answer, AllocError>
    requires idle { IsIdle field.old }
    requires stored { AreWellStored field.old.listeners }
    ensures ok { IfOk result (λ a. ObeyedUnlinked field.old field.new (Command.Read3 id) a) }
    ensures cut { OnErr result (CutOffUnlinked field.old field.new (Command.Read3 id)) }
{
    match select_three(field, id)? {
        Selection::Place(place) => told_three(read_three(alloc, field, place, id)),
        Selection::Missed(fault) => missed(fault),
    }
}

/// Reads a Type 3 tag, from a reset on, which ends the open link.
pub fn read_tag_three(
    alloc: Global,
    machines: &mut Machines,
    id: [u8; 8],
) -> Result<Answer, ObeyFault>
    requires { IsSettled machines.old }
    ensures ok { IfOk result (λ a. Obeyed machines.old machines.new (Command.Read3 id) a) }
    ensures cut { OnErr result (IsCutOff machines.old machines.new (Command.Read3 id)) }
    ensures never { IsErrOf result ObeyFault.Refused → ⊥ }
{
    machines.end_link();
    match select_and_read(alloc, &mut machines.field, id) {
        Ok(answer) => Ok(answer),
        Err(_) => Err(ObeyFault::Memory),
    }
}

/// Selects a Type 3 tag and writes a message to it.
fn select_and_write(
    alloc: Global,
    field: &mut Field<Device>,
    id: [u8; 8],
    bytes: &[u8],
) -> Result<Answer, AllocError>
    requires idle { IsIdle field.old }
    requires stored { AreWellStored field.old.listeners }
    ensures ok { IfOk result (λ a. (m : Msg) → message_of m ≡ bytes.now
        → ObeyedUnlinked field.old field.new (Command.Write3 id m) a) }
    ensures cut { OnErr result ((m : Msg) → message_of m ≡ bytes.now
        → CutOffUnlinked field.old field.new (Command.Write3 id m)) }
{
    match select_three(field, id)? {
        Selection::Place(place) => written_three(write_three(alloc, field, place, id, bytes)),
        Selection::Missed(fault) => missed(fault),
    }
}

/// Writes a message to a Type 3 tag, from a reset on, which ends the open link.
pub fn write_tag_three(
    alloc: Global,
    machines: &mut Machines,
    id: [u8; 8],
    message: &Msg,
) -> Result<Answer, ObeyFault>
    requires { IsSettled machines.old }
    ensures ok { IfOk result (λ a. Obeyed machines.old machines.new (Command.Write3 id message.now) a) }
    ensures cut { OnErr result (IsCutOff machines.old machines.new (Command.Write3 id message.now)) }
    ensures never { IsErrOf result ObeyFault.Refused → ⊥ }
{
    let Ok(bytes) = message.bytes(alloc) else {
        return Err(ObeyFault::Memory);
    };
    machines.end_link();
    match select_and_write(alloc, &mut machines.field, id, &bytes) {
        Ok(answer) => Ok(answer),
        Err(_) => Err(ObeyFault::Memory),
    }
}
