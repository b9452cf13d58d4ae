//! Finding every Type 5 tag of the field.

ghost use Rattle.air_core.specs.Turn.{moment};
ghost use Rattle.nfcv_poll.specs.Finding.{identifiers};
ghost use Rattle.bench_devices.specs.Crowding.{CrowdCut, CrowdsField};
ghost use Rattle.bench_devices.specs.Phases.{IsIdle};

use crate::device::Device;
use air_core::Field;
use nfca_poll::PollFault;
use nfcv_poll::find_all_v;
use std::alloc::Global;

/// Finds every Type 5 tag, from a reset on: their identifiers, ascending.
pub fn sweep_tags(alloc: Global, field: &mut Field<Device>) -> Result<Vec<[u8; 8]>, PollFault>
    requires idle { IsIdle field.old }
    ensures tells { CrowdsField (moment field.old) (moment field.new) (identifiers result) }
    ensures cut { CrowdCut (moment field.old) (moment field.new) (identifiers result) }
{
    find_all_v(alloc, field)
}
