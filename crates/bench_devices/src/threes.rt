//! Reading and writing the selected Type 3 tag.

ghost use Rattle.std.specs.Prelude.{◌≡◌};
ghost use Rattle.air_core.specs.Turn.{moment};
ghost use Rattle.bench_devices.specs.declared.device.Device.{Device as Placed};
ghost use Rattle.bench_devices.specs.private.Linking.{seen_plain, IsNew};
ghost use Rattle.bench_devices.specs.Phases.{Stands};
ghost use Rattle.bench_devices.specs.Sensing.{IsThree};
ghost use Rattle.bench_devices.specs.Threes.{ReadsThreeAt, CutThreeAt, WritesThreeAt, CutThreeWriteAt};

use crate::device::Device;
use air_core::{Field, PlainLink};
use std::alloc::Global;
use t3t_access::{Found3, T3Fault, read3, write3};

/// What the selected Type 3 tag at a place holds, or why the reading of it ended.
pub fn read_three(
    alloc: Global,
    field: &mut Field<Device>,
    place: usize,
    id: [u8; 8],
) -> Result<Found3, T3Fault>
    requires { (d : Placed) × Stands (moment field.old) place d × IsThree id d }
    ensures tells { ReadsThreeAt id (moment field.old) (moment field.new) place result }
    ensures cut { CutThreeAt id (moment field.old) (moment field.new) place result }
{
    let mut link = PlainLink::on(field, place);
    read_behind(alloc, &mut link, id)
}

/// What the Type 3 tag behind a new link holds.
fn read_behind(alloc: Global, link: &mut PlainLink<Device>, id: [u8; 8]) -> Result<Found3, T3Fault>
    requires tag { (d : Placed) × Stands (moment link.old.field.now) link.old.place d × IsThree id d }
    requires fresh { IsNew (seen_plain link.old) }
    ensures same { link.new.field.ghost_name ≡ link.old.field.ghost_name }
    ensures tells { ReadsThreeAt id (moment link.old.field.now) (moment link.new.field.now) link.old.place result }
    ensures cut { CutThreeAt id (moment link.old.field.now) (moment link.new.field.now) link.old.place result }
{
    read3(alloc, link, id)
}

/// Writes a message to the selected Type 3 tag at a place, in the place of the one that it holds, or tells why it isn't
/// written. Whatever stops it, the tag holds the old message or the new one, or says that a write wasn't finished.
pub fn write_three(
    alloc: Global,
    field: &mut Field<Device>,
    place: usize,
    id: [u8; 8],
    message: &[u8],
) -> Result<(), T3Fault>
    requires { (d : Placed) × Stands (moment field.old) place d × IsThree id d }
    ensures tells { WritesThreeAt id (moment field.old) (moment field.new) place message.now result }
    ensures cut { CutThreeWriteAt id (moment field.old) (moment field.new) place message.now result }
{
    let mut link = PlainLink::on(field, place);
    write_behind(alloc, &mut link, id, message)
}

/// Writes to the Type 3 tag behind a new link.
fn write_behind(
    alloc: Global,
    link: &mut PlainLink<Device>,
    id: [u8; 8],
    message: &[u8],
) -> Result<(), T3Fault>
    requires tag { (d : Placed) × Stands (moment link.old.field.now) link.old.place d × IsThree id d }
    requires fresh { IsNew (seen_plain link.old) }
    ensures same { link.new.field.ghost_name ≡ link.old.field.ghost_name }
    ensures tells { WritesThreeAt id (moment link.old.field.now) (moment link.new.field.now) link.old.place message.now
        result }
    ensures cut { CutThreeWriteAt id (moment link.old.field.now) (moment link.new.field.now) link.old.place message.now
        result }
{
    write3(alloc, link, id, message)
}
