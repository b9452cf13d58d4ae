//! Reading the selected tag.

ghost use Rattle.std.specs.Prelude.{◌≡◌, true};
ghost use Rattle.air_core.specs.Turn.{moment};
ghost use Rattle.tag_reader.specs.Steps.{of_link};
ghost use Rattle.bench_devices.specs.declared.device.Device.{Device as Placed};
ghost use Rattle.bench_devices.specs.Device.{how_of, may_be_read};
ghost use Rattle.bench_devices.specs.Phases.{Stands, ReadsAt, CutAt};
ghost use Rattle.isodep_link.specs.IsoLinks.{seen_link};
ghost use Rattle.bench_devices.specs.private.Linking.{seen_plain, StandsPlain, IsNew, IsNewLink, Linked, ReadsLinked};
ghost use Rattle.bench_devices.specs.private.Linking.{CutLinked};

use crate::device::Device;
use air_core::{Field, PlainLink};
use isodep_link::IsoLink;
use nfc_base::AskFault;
use std::alloc::Global;
use tag_reader::{Found, How, ReadFault};

/// What the selected tag at a place holds, or why the reading of it ended.
pub fn read(alloc: Global, field: &mut Field<Device>, place: usize) -> Result<Found, ReadFault>
    requires { (d : Placed) × Stands (moment field.old) place d × (may_be_read d ≡ true) }
    ensures tells { ReadsAt (moment field.old) (moment field.new) place result }
    ensures cut { CutAt (moment field.old) (moment field.new) place result }
{
    match field.listeners()[place].how() {
        How::T4 => read_card(alloc, field, place),
        how => read_plain(alloc, field, place, how),
    }
}

/// What a Type 2 or a Type 5 tag holds, which takes commands as they are sent.
fn read_plain(
    alloc: Global,
    field: &mut Field<Device>,
    place: usize,
    how: How,
) -> Result<Found, ReadFault>
    requires { StandsPlain (moment field.old) place how }
    ensures tells { ReadsAt (moment field.old) (moment field.new) place result }
    ensures cut { CutAt (moment field.old) (moment field.new) place result }
{
    let mut link = PlainLink::on(field, place);
    read_by(alloc, &mut link, how)
}

/// What the tag behind a new link holds.
fn read_by(alloc: Global, link: &mut PlainLink<Device>, how: How) -> Result<Found, ReadFault>
    requires tag { StandsPlain (moment link.old.field.now) link.old.place how }
    requires fresh { IsNew (seen_plain link.old) }
    ensures same { link.new.field.ghost_name ≡ link.old.field.ghost_name }
    ensures tells { ReadsAt (moment link.old.field.now) (moment link.new.field.now) link.old.place result }
    ensures cut { CutAt (moment link.old.field.now) (moment link.new.field.now) link.old.place result }
{
    tag_reader::read(alloc, link, how)
}

/// What a Type 4 tag holds, which RATS activates first.
fn read_card(alloc: Global, field: &mut Field<Device>, place: usize) -> Result<Found, ReadFault>
    requires { (d : Placed) × Stands (moment field.old) place d × (how_of d ≡ How.T4) }
    ensures tells { ReadsAt (moment field.old) (moment field.new) place result }
    ensures cut { CutAt (moment field.old) (moment field.new) place result }
{
    match IsoLink::activate(field, place) {
        Ok(mut link) => read_linked(alloc, &mut link),
        Err(fault) => Err(unanswered(fault)),
    }
}

/// What the Type 4 tag behind a new link holds.
fn read_linked(alloc: Global, link: &mut IsoLink<Device>) -> Result<Found, ReadFault>
    requires tag { (d : Placed) × Linked d link.old.field.now link.old.place link.old.reader }
    requires fresh { IsNewLink (seen_link link.old) }
    ensures same { link.new.field.ghost_name ≡ link.old.field.ghost_name }
    ensures tells { ReadsLinked link.old.field.now link.old.place link.old.reader (moment link.new.field.now) result }
    ensures cut { CutLinked link.old.field.now link.old.place link.old.reader (moment link.new.field.now) result }
{
    tag_reader::read(alloc, link, How::T4)
}

/// Why a tag isn't read that RATS didn't activate.
fn unanswered(fault: AskFault) -> ReadFault
    ensures { result ≡ of_link fault }
{
    match fault {
        AskFault::FieldLost => ReadFault::FieldLost,
        AskFault::SixBad => ReadFault::SixBad,
        AskFault::Memory => ReadFault::Memory,
        AskFault::Protocol => ReadFault::Protocol,
    }
}
