//! What following a command needs: the numbers of PDUs that its events show, and how far two courses are the same.

ghost use Rattle.std.specs.Prelude.{◌≡◌, ◌↔◌, IfOk, IsTrue};
ghost use Rattle.bench_world.specs.Following.{BeginAlike, Compares};
ghost use Rattle.bench_world.specs.Legal.{joins_for};
ghost use Rattle.bench_world.specs.Obeying.{state_at};
ghost use Rattle.bench_world.specs.Showing.{MayShowAmong, first_pni, joins_shown, shown_of};
ghost use Rattle.bench_world.specs.ShownForged.{behind_opening, behind_res};

use crate::joins::Joins;
use crate::machines::Machines;
use crate::raws::count_peers;
use bench_devices::Device;
use bench_script::Command;
use dep_link::{is_atr_req, is_atr_res};
use link_numbers::numbers_shown;
use llcp_link::Counts;
use nfc_base::{Event, Fate, Frame};
use std::alloc::{AllocError, Global};

/// How far some events may be those of a command.
#[derive(Clone, Copy, Debug, PartialEq, Eq)]
pub enum Followed {
    /// All of them are those of an entry that the bench may have next.
    Whole,
    /// They aren't. The first `good` of them begin such an entry's, and no more of them do.
    Front { good: usize },
}

/// Whether the events of a command show its numbers of PDUs: not those of a `raw` beside a peer, since there a frame
/// may cut off a reply while its link goes on. So such a command is neither followed nor audited. `devices` are those
/// of the field.
pub fn may_show(devices: &[Device], command: &Command) -> bool
    ensures { IsTrue result ↔ MayShowAmong devices.now command.now }
{
    match command {
        Command::Raw { .. } => count_peers(devices) == 0,
        _ => true,
    }
}

/// The events behind the first ATR_RES that came.
fn behind_res(events: &[Event]) -> &[Event]
    ensures { result.now ≡ behind_res events.now }
{
    let mut left = events;
    while let Some((event, rest)) = left.split_first() {
        if let Event::Answer {
            frame,
            fate: Fate::Pass,
        } = event
        {
            if is_atr_res(frame) {
                return rest;
            }
        }
        left = rest;
    }
    left
}

/// The events of a link behind its opening; none where none was opened.
fn behind_opening(events: &[Event]) -> &[Event]
    ensures { result.now ≡ behind_opening events.now }
{
    let mut left = events;
    while let Some((event, rest)) = left.split_first() {
        if let Event::Request { frame, .. } = event {
            if is_atr_req(frame) {
                return behind_res(rest);
            }
        }
        left = rest;
    }
    left
}

/// The PNI from which the payloads of a command on the open link are counted.
fn first_pni(machines: &Machines) -> u8
    ensures { result ≡ first_pni machines.now.link }
{
    match machines.initiator() {
        Some(initiator) => initiator.pni(),
        None => 0,
    }
}

/// The numbers that these events show, from this PNI on.
fn read_joins(alloc: Global, first: u8, events: &[Event]) -> Result<Joins, AllocError>
    ensures { IfOk result (λ j. j ≡ joins_shown first events.now) }
{
    let shown = numbers_shown(alloc, first, events)?;
    Ok(Joins {
        own: Counts::new(shown.own),
        far: Counts::new(shown.far),
    })
}

/// The numbers of PDUs that the events of a command show, as far as it takes any.
pub(crate) fn joins_shown(
    alloc: Global,
    machines: &Machines,
    command: &Command,
    events: &[Event],
) -> Result<Joins, AllocError>
    ensures { IfOk result (λ j. joins_for command.now j ≡ shown_of (state_at machines.now) command.now events.now) }
{
    match command {
        Command::Forge { .. } => read_joins(alloc, 0, behind_opening(events)),
        Command::Raw { .. } => read_joins(alloc, 0, events),
        Command::Put { .. }
        | Command::Get { .. }
        | Command::Lookup { .. }
        | Command::OnPut { .. }
        | Command::OnGet { .. }
        | Command::Puts(_)
        | Command::Unlink => read_joins(alloc, first_pni(machines), events),
        _ => Ok(Joins::most(alloc)),
    }
}

/// Whether two transmissions are the same.
fn is_same_sent(frame: &Frame, fate: Fate, other: &Frame, other_fate: Fate) -> bool
    ensures { IsTrue result ↔ ((frame.now ≡ other.now) × (fate ≡ other_fate)) }
{
    frame.is_same(other) && fate == other_fate
}

/// Whether two events are the same.
fn is_same(event: &Event, other: &Event) -> bool
    ensures { IsTrue result ↔ (event.now ≡ other.now) }
{
    match (event, other) {
        (Event::Reset, Event::Reset) => true,
        (Event::Request { frame: f, fate: x }, Event::Request { frame: g, fate: y }) => {
            is_same_sent(f, *x, g, *y)
        }
        (Event::Answer { frame: f, fate: x }, Event::Answer { frame: g, fate: y }) => {
            is_same_sent(f, *x, g, *y)
        }
        (Event::Clash { frame: f, fate: x }, Event::Clash { frame: g, fate: y }) => {
            is_same_sent(f, *x, g, *y)
        }
        _ => false,
    }
}

/// With how many events both begin.
fn begin_alike(made: &[Event], told: &[Event]) -> usize
    ensures { BeginAlike made.now told.now result }
{
    let most = made.len().min(told.len());
    let mut same = 0;
    while same < most && is_same(&made[same], &told[same]) {
        same += 1;
    }
    same
}

/// How far the events that were told are those that were made.
pub(crate) fn compared(made: &[Event], told: &[Event]) -> Followed
    ensures { Compares made.now told.now result }
{
    let good = begin_alike(made, told);
    if good == made.len() && good == told.len() {
        Followed::Whole
    } else {
        Followed::Front { good }
    }
}
