//! Finding Type 3 tags in the field, which no other search hears.

ghost use Rattle.std.specs.Prelude.{◌≡◌, IfOk, OnErr};
ghost use Rattle.air_core.specs.Turn.{moment};
ghost use Rattle.bench_devices.specs.Phases.{IsIdle};
ghost use Rattle.bench_devices.specs.Sensing.{is_three, FindsThree, SensesField, SensingCut, SeeksTo, SeekingCut};

use crate::device::Device;
use crate::polling::{Selection, none_selected};
use air_core::Field;
use nfca_poll::PollFault;
use std::alloc::AllocError;
use t3t_access::{Fcrowd, pick_f, poll_f};

/// Which Type 3 tags are there, from a reset on: none, one, or several.
pub fn poll_three(field: &mut Field<Device>) -> Result<Fcrowd, PollFault>
    requires idle { IsIdle field.old }
    ensures tells { SensesField (moment field.old) (moment field.new) result }
    ensures cut { SensingCut (moment field.old) (moment field.new) result }
{
    if field.reset().is_err() {
        return Err(PollFault::Memory);
    }
    poll_f(field)
}

/// Whether this is the Type 3 tag with this identifier.
fn is_three(device: &Device, id: &[u8]) -> bool
    ensures { result ≡ is_three id.now device.now }
{
    match device {
        Device::T3(powered) => powered.tag().id().as_slice() == id,
        Device::T2(_) | Device::T4(_) | Device::Peer(_) | Device::T5(_) => false,
    }
}

/// Where the Type 3 tag with this identifier stands.
fn find_three(devices: &[Device], id: &[u8]) -> Selection
    ensures { FindsThree id.now devices.now result }
{
    for place in 0..devices.len() {
        if is_three(&devices[place], id) {
            return Selection::Place(place);
        }
    }
    Selection::Missed(PollFault::NotFound)
}

/// Selects the Type 3 tag with this identifier, from a reset on.
///
/// A clash and a damaged answer may hide it. Then it is selected where it stands in the field, and else it isn't found.
pub fn select_three(field: &mut Field<Device>, id: [u8; 8]) -> Result<Selection, AllocError>
    requires idle { IsIdle field.old }
    ensures ok { IfOk result (λ s. SeeksTo id s (moment field.old) (moment field.new)) }
    ensures cut { OnErr result (SeekingCut id (moment field.old) (moment field.new)) }
{
    if field.reset().is_err() {
        return Err(AllocError);
    }
    match pick_f(field, id) {
        Ok(()) => Ok(find_three(field.listeners(), &id)),
        Err(fault) => none_selected(fault),
    }
}
