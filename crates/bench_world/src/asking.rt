//! The commands that ask the devices something: a tag is read or written, and all are searched for.

ghost use Rattle.std.specs.Prelude.{◌≡◌, IfOk, OnErr, IsErrOf};
ghost use Rattle.bench_devices.specs.Phases.{IsIdle};
ghost use Rattle.bench_script.specs.Messages.{message_of};
ghost use Rattle.bench_world.specs.Obeying.{IsSettled, Obeyed, IsCutOff, ObeyedUnlinked, CutOffUnlinked};

use crate::answering::{found, missed, told, written};
use crate::bench::ObeyFault;
use crate::entry::Answer;
use crate::machines::Machines;
use air_core::Field;
use bench_devices::{Device, Selection, read, select, sweep_field, sweep_tags, write};
use bench_script::{Command, DeviceId, Msg};
use nfc_base::Items;
use std::alloc::{AllocError, Global};

/// Selects a device and reads it. A peer isn't read.
fn select_and_read(
    alloc: Global,
    field: &mut Field<Device>,
    id: &DeviceId,
) -> Result<Answer, AllocError>
    requires { IsIdle field.old }
    ensures ok { IfOk result (λ a. ObeyedUnlinked field.old field.new (Command.Read id.now) a) }
    ensures cut { OnErr result (CutOffUnlinked field.old field.new (Command.Read id.now)) }
{
    match select(alloc, field, id)? {
        Selection::Place(place) if field.listeners()[place].may_be_read() => {
            told(read(alloc, field, place))
        }
        Selection::Place(_) => Ok(Answer::WrongKind),
        Selection::Missed(fault) => missed(fault),
    }
}

/// Reads a tag, from a reset on, which ends the open link.
pub fn read_tag(alloc: Global, machines: &mut Machines, id: &DeviceId) -> Result<Answer, ObeyFault>
    requires { IsSettled machines.old }
    ensures ok { IfOk result (λ a. Obeyed machines.old machines.new (Command.Read id.now) a) }
    ensures cut { OnErr result (IsCutOff machines.old machines.new (Command.Read id.now)) }
    ensures never { IsErrOf result ObeyFault.Refused → ⊥ }
{
    machines.end_link();
    match select_and_read(alloc, &mut machines.field, id) {
        Ok(answer) => Ok(answer),
        Err(_) => Err(ObeyFault::Memory),
    }
}

/// Selects a device and writes a message to it. A peer isn't written.
fn select_and_write(
    alloc: Global,
    field: &mut Field<Device>,
    id: &DeviceId,
    bytes: &[u8],
) -> Result<Answer, AllocError>
    requires { IsIdle field.old }
    ensures ok { IfOk result (λ a. (m : Msg) → message_of m ≡ bytes.now
        → ObeyedUnlinked field.old field.new (Command.Write id.now m) a) }
    ensures cut { OnErr result ((m : Msg) → message_of m ≡ bytes.now
        → CutOffUnlinked field.old field.new (Command.Write id.now m)) }
{
    match select(alloc, field, id)? {
        Selection::Place(place) if field.listeners()[place].may_be_read() => {
            written(write(alloc, field, place, bytes))
        }
        Selection::Place(_) => Ok(Answer::WrongKind),
        Selection::Missed(fault) => missed(fault),
    }
}

/// Writes a message to a tag, from a reset on, which ends the open link.
pub fn write_message(
    alloc: Global,
    machines: &mut Machines,
    id: &DeviceId,
    message: &Msg,
) -> Result<Answer, ObeyFault>
    requires { IsSettled machines.old }
    ensures ok { IfOk result (λ a. Obeyed machines.old machines.new (Command.Write id.now message.now) a) }
    ensures cut { OnErr result (IsCutOff machines.old machines.new (Command.Write id.now message.now)) }
    ensures never { IsErrOf result ObeyFault.Refused → ⊥ }
{
    let Ok(bytes) = message.bytes(alloc) else {
        return Err(ObeyFault::Memory);
    };
    machines.end_link();
    match select_and_write(alloc, &mut machines.field, id, &bytes) {
        Ok(answer) => Ok(answer),
        Err(_) => Err(ObeyFault::Memory),
    }
}

/// Searches for all devices, and tells which were found.
fn search(alloc: Global, field: &mut Field<Device>) -> Result<Answer, AllocError>
    requires { IsIdle field.old }
    ensures ok { IfOk result (λ a. ObeyedUnlinked field.old field.new Command.Find a) }
    ensures cut { OnErr result (CutOffUnlinked field.old field.new Command.Find) }
{
    match sweep_field(alloc, field) {
        Ok(everybody) => found(alloc, everybody),
        Err(fault) => missed(fault),
    }
}

/// Searches for all Type 5 tags, and tells which were found.
fn search_tags(alloc: Global, field: &mut Field<Device>) -> Result<Answer, AllocError>
    requires { IsIdle field.old }
    ensures ok { IfOk result (λ a. ObeyedUnlinked field.old field.new Command.Crowd a) }
    ensures cut { OnErr result (CutOffUnlinked field.old field.new Command.Crowd) }
{
    match sweep_tags(alloc, field) {
        Ok(tags) => Ok(Answer::Crowd(Items::new(tags))),
        Err(fault) => missed(fault),
    }
}

/// Finds all Type 5 tags, from a reset on, which ends the open link.
pub fn find_tags(alloc: Global, machines: &mut Machines) -> Result<Answer, ObeyFault>
    requires { IsSettled machines.old }
    ensures ok { IfOk result (λ a. Obeyed machines.old machines.new Command.Crowd a) }
    ensures cut { OnErr result (IsCutOff machines.old machines.new Command.Crowd) }
    ensures never { IsErrOf result ObeyFault.Refused → ⊥ }
{
    machines.end_link();
    match search_tags(alloc, &mut machines.field) {
        Ok(answer) => Ok(answer),
        Err(_) => Err(ObeyFault::Memory),
    }
}

/// Finds all devices, from a reset on, which ends the open link.
pub fn find(alloc: Global, machines: &mut Machines) -> Result<Answer, ObeyFault>
    requires { IsSettled machines.old }
    ensures ok { IfOk result (λ a. Obeyed machines.old machines.new Command.Find a) }
    ensures cut { OnErr result (IsCutOff machines.old machines.new Command.Find) }
    ensures never { IsErrOf result ObeyFault.Refused → ⊥ }
{
    machines.end_link();
    match search(alloc, &mut machines.field) {
        Ok(answer) => Ok(answer),
        Err(_) => Err(ObeyFault::Memory),
    }
}
