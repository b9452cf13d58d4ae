//! Finding all devices of the field.

ghost use Rattle.air_core.specs.Turn.{moment};
ghost use Rattle.bench_devices.specs.Phases.{IsIdle, SearchesField, SearchCut};

use crate::device::Device;
use air_core::Field;
use nfc_base::Items;
use nfca_poll::{Picked, PollFault, Vcrowd, find_all, inventory_one};
use std::alloc::Global;

/// What a search for all devices has come to: those of NFC-A, in the order in which they were found, and then what the
/// inventory of NFC-V told.
#[derive(Debug, Drop)]
pub struct Everybody {
    pub cards: Items<Picked>,
    pub others: Vcrowd,
}

/// Finds all devices, from a reset on: those of NFC-A, and then those of NFC-V in the field that is lit.
pub fn sweep_field(alloc: Global, field: &mut Field<Device>) -> Result<Everybody, PollFault>
    requires idle { IsIdle field.old }
    ensures tells { SearchesField (moment field.old) (moment field.new) result }
    ensures cut { SearchCut (moment field.old) (moment field.new) result }
{
    let cards = Items::new(find_all(alloc, field)?);
    let others = inventory_one(field)?;
    Ok(Everybody { cards, others })
}
