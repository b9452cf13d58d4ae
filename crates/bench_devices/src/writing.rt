//! Writing the selected tag.

ghost use Rattle.std.specs.Prelude.{◌≡◌, true};
ghost use Rattle.air_core.specs.Turn.{moment};
ghost use Rattle.bench_devices.specs.declared.device.Device.{Device as Placed};
ghost use Rattle.bench_devices.specs.Device.{how_of, may_be_read};
ghost use Rattle.bench_devices.specs.Phases.{Stands, WritesAt, CutAtWrite};
ghost use Rattle.isodep_link.specs.IsoLinks.{seen_link};
ghost use Rattle.bench_devices.specs.private.Linking.{seen_plain, StandsPlain, IsNew, IsNewLink, Linked, WritesLinked};
ghost use Rattle.bench_devices.specs.private.Linking.{CutLinkedWrite};

use crate::device::Device;
use air_core::{Field, PlainLink};
use isodep_link::IsoLink;
use std::alloc::Global;
use tag_reader::How;
use tag_writer::WriteFault;

/// Writes a message to the selected tag at a place, in the place of the one that it holds, or tells why it isn't
/// written. Whatever stops it, the tag holds the old message, the empty one or the new one.
pub fn write(
    alloc: Global,
    field: &mut Field<Device>,
    place: usize,
    message: &[u8],
) -> Result<(), WriteFault>
    requires { (d : Placed) × Stands (moment field.old) place d × (may_be_read d ≡ true) }
    ensures tells { WritesAt (moment field.old) (moment field.new) place message.now result }
    ensures cut { CutAtWrite (moment field.old) (moment field.new) place message.now result }
{
    match field.listeners()[place].how() {
        How::T4 => write_card(alloc, field, place, message),
        how => write_plain(alloc, field, place, how, message),
    }
}

/// Writes to a Type 2 or a Type 5 tag, which takes commands as they are sent.
fn write_plain(
    alloc: Global,
    field: &mut Field<Device>,
    place: usize,
    how: How,
    message: &[u8],
) -> Result<(), WriteFault>
    requires { StandsPlain (moment field.old) place how }
    ensures tells { WritesAt (moment field.old) (moment field.new) place message.now result }
    ensures cut { CutAtWrite (moment field.old) (moment field.new) place message.now result }
{
    let mut link = PlainLink::on(field, place);
    write_by(alloc, &mut link, how, message)
}

/// Writes to the tag behind a new link.
fn write_by(
    alloc: Global,
    link: &mut PlainLink<Device>,
    how: How,
    message: &[u8],
) -> Result<(), WriteFault>
    requires tag { StandsPlain (moment link.old.field.now) link.old.place how }
    requires fresh { IsNew (seen_plain link.old) }
    ensures same { link.new.field.ghost_name ≡ link.old.field.ghost_name }
    ensures tells { WritesAt (moment link.old.field.now) (moment link.new.field.now) link.old.place message.now result }
    ensures cut { CutAtWrite (moment link.old.field.now) (moment link.new.field.now) link.old.place message.now result }
{
    tag_writer::write(alloc, link, how, message)
}

/// Writes to a Type 4 tag, which RATS activates first.
fn write_card(
    alloc: Global,
    field: &mut Field<Device>,
    place: usize,
    message: &[u8],
) -> Result<(), WriteFault>
    requires { (d : Placed) × Stands (moment field.old) place d × (how_of d ≡ How.T4) }
    ensures tells { WritesAt (moment field.old) (moment field.new) place message.now result }
    ensures cut { CutAtWrite (moment field.old) (moment field.new) place message.now result }
{
    match IsoLink::activate(field, place) {
        Ok(mut link) => write_linked(alloc, &mut link, message),
        Err(fault) => Err(WriteFault::from(fault)),
    }
}

/// Writes to the Type 4 tag behind a new link.
fn write_linked(alloc: Global, link: &mut IsoLink<Device>, message: &[u8]) -> Result<(), WriteFault>
    requires tag { (d : Placed) × Linked d link.old.field.now link.old.place link.old.reader }
    requires fresh { IsNewLink (seen_link link.old) }
    ensures same { link.new.field.ghost_name ≡ link.old.field.ghost_name }
    ensures tells { WritesLinked link.old.field.now link.old.place link.old.reader (moment link.new.field.now)
        message.now result }
    ensures cut { CutLinkedWrite link.old.field.now link.old.place link.old.reader (moment link.new.field.now)
        message.now result }
{
    tag_writer::write(alloc, link, How::T4, message)
}
