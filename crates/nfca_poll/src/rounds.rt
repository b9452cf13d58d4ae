//! Polling by rounds: finding all devices of a field, or selecting one of them by its identifier.

ghost use Rattle.std.specs.Prelude.{◌≡◌, ◌++◌, ◌∷◌, ◌<◌, ◌≤◌, [], length, drop, Err, OnOk, OnErr};
ghost use Rattle.std.specs.Option.{option_copied};
ghost use Rattle.nfc_base.specs.Trace.{breaks};
ghost use Rattle.nfca_poll.specs.Enquiry.{Enquires};
ghost use Rattle.nfca_poll.specs.Rounds.{finding, picking, listed, has_found, most_rounds, LeavesLit};
ghost use Rattle.nfca_poll.specs.private.OneRound.{one_round, is_wanted};
ghost use Rattle.nfca_poll.specs.RoundTrace.{rounds};
ghost use Rattle.nfca_poll.specs.ByHeard.{turns_since, TellsFound, TellsPicked};
ghost use Rattle.nfca_poll.specs.Twice.{AllGivenUp};
ghost use Rattle.nfca_poll.specs.RoundEnds.{FindsCrowd, SelectsAlone};
ghost use Rattle.nfca_poll.specs.declared.fault.PollFault.TheVariants.{Nobody, Disturbed, FieldLost, NotFound, Memory};

use crate::fault::{Picked, PollFault};
use crate::ident::Ident;
use crate::kind::Kind;
use crate::requests::{ask, slp_req};
use crate::resolution::resolve;
use air_core::{Field, Listener};
use std::alloc::Global;
use std::marker::Model;

/// How many rounds a call makes, and how many devices a round finds.
const MOST_ROUNDS: usize = 4;

const MOST_FOUND: usize = 256;

/// The devices that a round has found, in order.
#[derive(Debug, Drop)]
pub struct Found {
    devices: Vec<Picked>,
}

impl Model for Found {
    ghost use Rattle.std.specs.Prelude.{List};
    ghost use Rattle.nfca_poll.specs.declared.fault.Picked.{Picked};

    ghost Value = { List Picked };

    ghost view = { λ f. f.devices.items };
}

impl Found {
    fn new(alloc: Global) -> Found
        ensures { result ≡ [] }
    {
        Found {
            devices: Vec::new(alloc),
        }
    }

    fn len(&self) -> usize
        ensures { result ≡ length self.now }
    {
        self.devices.len()
    }

    fn has(&self, id: &Ident) -> bool
        ensures { result ≡ has_found self.now id.now }
    {
        for device in &self.devices {
            if device.id == *id {
                return true;
            }
        }
        false
    }

    fn push(&mut self, device: Picked) -> Result<(), PollFault>
        ensures ok { OnOk result (self.new ≡ self.old ++ device ∷ []) }
        ensures err { OnErr result (result ≡ Err Memory) }
    {
        match self.devices.push(device) {
            Ok(()) => Ok(()),
            Err(_) => Err(PollFault::Memory),
        }
    }

    fn into_vec(self) -> Vec<Picked>
        ensures { result.items ≡ self }
    {
        let Found { devices } = self;
        devices
    }
}

/// How a round ends: nobody else is there, and these devices were found; the wanted one is selected; the round is
/// disturbed, and given up.
#[derive(Debug, Drop)]
pub enum RoundEnd {
    Nobody(Found),
    Selected(Kind),
    Disturbed,
}

/// Whether a device is the wanted one, if one is wanted.
fn is_wanted(device: &Picked, wanted: Option<&Ident>) -> bool
    ensures { result ≡ is_wanted (option_copied wanted.entry) device.now }
{
    match wanted {
        Some(id) => device.id == *id,
        None => false,
    }
}

/// One round: a reset, then one resolution after another. Each device but the wanted one is put to sleep; whether
/// SLP_REQ is heard can't be told. A device that is found a second time shows that it wasn't.
fn round<L: Listener>(
    alloc: Global,
    field: &mut Field<L>,
    wanted: Option<&Ident>,
) -> Result<RoundEnd, PollFault>
    ensures turns { Enquires (one_round (option_copied wanted.entry)) L.machine field.old result field.new }
{
    if field.reset().is_err() {
        return Err(PollFault::Memory);
    }
    let mut found = Found::new(alloc);
    loop {
        let device = match resolve(field) {
            Ok(device) => device,
            Err(PollFault::Nobody) => return Ok(RoundEnd::Nobody(found)),
            Err(PollFault::Disturbed) => return Ok(RoundEnd::Disturbed),
            Err(fault) => return Err(fault),
        };
        if is_wanted(&device, wanted) {
            return Ok(RoundEnd::Selected(device.kind));
        }
        if found.has(&device.id) {
            return Ok(RoundEnd::Disturbed);
        }
        if found.len() >= MOST_FOUND {
            return Err(PollFault::BadAnswer);
        }
        found.push(device)?;
        ask(field, &slp_req())?;
    }
}

/// Finds all NFC-A devices of a field, in at most four rounds, each from a reset on: resolves one device after another
/// and puts each to sleep, until nobody else is there. A round that is disturbed is given up.
pub fn find_all<L: Listener>(alloc: Global, field: &mut Field<L>) -> Result<Vec<Picked>, PollFault>
    ensures turns { Enquires finding L.machine field.old (listed result) field.new }
    ensures told { TellsFound (turns_since field.old field.new) (listed result) }
    ensures disturbed { listed result ≡ Err Disturbed
        → AllGivenUp (drop (length field.old.trace) field.new.trace) }
    ensures crowd { FindsCrowd L.machine L.identifier field.old (listed result) field.new }
    ensures lit { LeavesLit (listed result) field.new }
    ensures lost { listed result ≡ Err FieldLost → 0 < breaks (drop (length field.old.trace) field.new.trace) }
    ensures rounds { length (rounds (drop (length field.old.trace) field.new.trace)) ≤ most_rounds }
    ensures other { (listed result ≡ Err Nobody → ⊥) × (listed result ≡ Err NotFound → ⊥) }
{
    for _ in 0..MOST_ROUNDS {
        if let RoundEnd::Nobody(found) = round(alloc, field, None)? {
            return Ok(found.into_vec());
        }
    }
    Err(PollFault::Disturbed)
}

/// Selects the NFC-A device with this identifier, in at most four rounds, each from a reset on: the devices that are
/// found before it are put to sleep, it itself is not.
pub fn pick<L: Listener>(alloc: Global, field: &mut Field<L>, id: &Ident) -> Result<Kind, PollFault>
    ensures turns { Enquires (picking id.now) L.machine field.old result field.new }
    ensures told { TellsPicked (turns_since field.old field.new) result }
    ensures disturbed { result ≡ Err Disturbed
        → AllGivenUp (drop (length field.old.trace) field.new.trace) }
    ensures crowd { SelectsAlone L.machine L.identifier id.now field.old result field.new }
    ensures lit { LeavesLit result field.new }
    ensures lost { result ≡ Err FieldLost → 0 < breaks (drop (length field.old.trace) field.new.trace) }
    ensures rounds { length (rounds (drop (length field.old.trace) field.new.trace)) ≤ most_rounds }
    ensures other { result ≡ Err Nobody → ⊥ }
{
    for _ in 0..MOST_ROUNDS {
        match round(alloc, field, Some(id))? {
            RoundEnd::Nobody(_) => return Err(PollFault::NotFound),
            RoundEnd::Selected(kind) => return Ok(kind),
            RoundEnd::Disturbed => {}
        }
    }
    Err(PollFault::Disturbed)
}
