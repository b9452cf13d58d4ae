//! Finding a tag in the field.

ghost use Rattle.std.specs.Prelude.{◌≡◌, ◌⊎◌, Some, IfOk, OnErr, IsSome, nat_eq};
ghost use Rattle.std.specs.Cmp.Lexicographic.{pointwise};
ghost use Rattle.air_core.specs.Turn.{moment};
ghost use Rattle.bench_devices.specs.Device.{device_id};
ghost use Rattle.bench_devices.specs.Placed.{device_with};
ghost use Rattle.bench_devices.specs.Phases.{IsIdle};
ghost use Rattle.nfca_poll.specs.declared.fault.PollFault.TheVariants as faults;
ghost use Rattle.bench_devices.specs.Phases.{SelectsTo, SelectionCut};
ghost use Rattle.bench_devices.specs.Choosing.{StandsAt};
ghost use Rattle.bench_devices.specs.declared.polling.Selection.TheVariants.{Missed};

use crate::device::Device;
use air_core::Field;
use bench_script::DeviceId;
use nfca_poll::{Ident, PollFault, pick, pick_v};
use std::alloc::{AllocError, Global};

/// What kind of device a reader sees one to be.
#[derive(Clone, Copy, Debug, PartialEq, Eq)]
pub enum SeenKind {
    T2,
    T4,
    T5,
    Peer,
}

/// What selecting a tag has come to: it stands at this place, or none was selected.
pub enum Selection {
    Place(usize),
    Missed(PollFault),
}

/// Whether this is a device's identifier.
pub fn is_named(device: &Device, id: &[u8]) -> bool
    ensures { result ≡ pointwise nat_eq (device_id device.now) id.now }
{
    match device {
        Device::T2(front) => front.id().view() == id,
        Device::T4(front) => front.id().view() == id,
        Device::Peer(front) => front.id().view() == id,
        Device::T5(powered) => powered.tag().id().as_slice() == id,
        Device::T3(powered) => powered.tag().id().as_slice() == id,
    }
}

/// The place of the device with this identifier.
pub fn place_of(devices: &[Device], id: &[u8]) -> usize
    requires { IsSome (device_with id.now devices.now) }
    ensures { StandsAt id.now devices.now result }
{
    for place in 0..devices.len() {
        if is_named(&devices[place], id) {
            return place;
        }
    }
    unreachable!()
}

/// What selecting came to by a fault: no tag was selected, unless memory was wanting.
pub(crate) fn none_selected(fault: PollFault) -> Result<Selection, AllocError>
    ensures { IfOk result (λ s. (s ≡ Missed fault) × (fault ≡ faults.Memory → ⊥)) }
{
    match fault {
        PollFault::Memory => Err(AllocError),
        other => Ok(Selection::Missed(other)),
    }
}

/// Selects the NFC-A device with this identifier.
fn select_a(alloc: Global, field: &mut Field<Device>, id: &Ident) -> Result<Selection, AllocError>
    requires idle { IsIdle field.old }
    ensures ok { IfOk result (λ s. SelectsTo (DeviceId.A id.now) s (moment field.old) (moment field.new)) }
    ensures cut { OnErr result (SelectionCut (DeviceId.A id.now) (moment field.old) (moment field.new)) }
{
    let wanted = id.view();
    match pick(alloc, field, id) {
        Ok(_) => Ok(Selection::Place(place_of(field.listeners(), wanted))),
        Err(fault) => none_selected(fault),
    }
}

/// Selects the Type 5 tag with this identifier, high byte first.
fn select_v(field: &mut Field<Device>, id: [u8; 8]) -> Result<Selection, AllocError>
    requires idle { IsIdle field.old }
    ensures ok { IfOk result (λ s. SelectsTo (DeviceId.V id) s (moment field.old) (moment field.new)) }
    ensures cut { OnErr result (SelectionCut (DeviceId.V id) (moment field.old) (moment field.new)) }
{
    if field.reset().is_err() {
        return Err(AllocError);
    }
    match pick_v(field, id) {
        Ok(()) => Ok(Selection::Place(place_of(field.listeners(), &id))),
        Err(fault) => none_selected(fault),
    }
}

/// Selects the tag with this identifier, from a reset on.
pub fn select(
    alloc: Global,
    field: &mut Field<Device>,
    id: &DeviceId,
) -> Result<Selection, AllocError>
    requires idle { IsIdle field.old }
    ensures ok { IfOk result (λ s. SelectsTo id.now s (moment field.old) (moment field.new)) }
    ensures cut { OnErr result (SelectionCut id.now (moment field.old) (moment field.new)) }
{
    match id {
        DeviceId::A(id) => select_a(alloc, field, id),
        DeviceId::V(id) => select_v(field, *id),
    }
}
