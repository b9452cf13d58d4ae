//! What the tests of a phone in a field have in common.

ghost use Rattle.std.specs.Prelude.{◌≡◌, ℕ, List, true, IfOk};
ghost use Rattle.dep_link.specs.Activating.{HasTarget};

use crate::{Phone, phone_field};
use air_core::{Field, Listener};
use arrayvec::ArrayVec;
use nfc_base::{Event, Fate};
use std::alloc::Global;
use std::test::Fail;

const ID: [u8; 10] = [8, 1, 2, 3, 0, 0, 0, 0, 0, 0];

pub(crate) const OWN: &[u8] = b"Ffm\x01\x01\x13\x03\x02\x00\x03";

pub(crate) const PHONES: &[u8] = b"Ffm\x01\x01\x13\x03\x02\x00\x13";

/// A field in which a phone of these general bytes can be activated, with these fates behind the two of its activation.
pub(crate) fn met(alloc: Global, phones: &[u8], fates: &[Fate]) -> Result<Field<Phone>, Fail>
    ensures lit { IfOk result (λ f. f.lit ≡ true) }
    ensures stands { IfOk result (λ f. (bytes : List ℕ) → HasTarget ⟦<Phone as Listener>⟧ (λ l. l.target) f bytes) }
{
    let mut general = ArrayVec::new();
    general.try_extend_from_slice(phones)?;
    let mut all = Vec::from_slice(alloc, &[Fate::Pass, Fate::Pass])?;
    all.extend_from_slice(fates)?;
    phone_field(alloc, ID, general, &all)
}

/// An event's frame.
pub(crate) fn bytes_of(event: &Event) -> &[u8] {
    match event {
        Event::Request { frame, .. } => frame.view(),
        Event::Answer { frame, .. } => frame.view(),
        _ => &[],
    }
}
