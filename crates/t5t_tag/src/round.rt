//! A round of sixteen slots of an inventory, as one tag sees it.

ghost use Rattle.std.specs.Prelude.{◌≡◌, ◌<◌};
ghost use Rattle.t5t_tag.specs.Slots.{begun, moved_on, is_own, slot_of};

/// The last of the sixteen slots of a round.
const LAST_SLOT: u8 = 15;

/// The slot in which a tag answers, and the one in which the round stands.
#[derive(Clone, Copy, Debug, PartialEq, Eq)]
pub struct Round {
    slot: u8,
    current: u8,
}

impl Round {
    /// A round in its first slot, of a tag whose slot is this one.
    pub(crate) fn begin(slot: u8) -> Round
        ensures { result ≡ begun slot }
    {
        Round { slot, current: 0 }
    }

    /// A round that stands in one slot, of a tag that answers in another, or in the same.
    pub fn at(slot: u8, current: u8) -> Round
        ensures { result ≡ record { slot = slot; current = current } }
    {
        Round { slot, current }
    }

    /// The slot in which the tag answers.
    pub fn slot(&self) -> u8
        ensures { result ≡ self.now.slot }
    {
        self.slot
    }

    /// The slot in which the round stands.
    pub fn current(&self) -> u8
        ensures { result ≡ self.now.current }
    {
        self.current
    }

    /// The round in its next slot; there is none behind the last.
    pub(crate) fn next(&self) -> Option<Round>
        ensures { result ≡ moved_on self.now }
    {
        if self.current >= LAST_SLOT {
            return None;
        }
        Some(Round {
            slot: self.slot,
            current: self.current + 1,
        })
    }

    /// Whether it stands in the tag's own slot.
    pub(crate) fn is_own(&self) -> bool
        ensures { result ≡ is_own self.now }
    {
        self.current == self.slot
    }
}

/// The slot of a tag behind a mask of so many bits: the next four bits of its identifier.
pub(crate) fn slot_of(id: [u8; 8], bits: u8) -> u8
    requires { bits < 64 }
    ensures { result ≡ slot_of id bits }
{
    ((u64::from_be_bytes(id) >> bits) % 16) as u8
}
