//! What an end gives, written.

ghost use Rattle.std.specs.Prelude.{◌≡◌, ◌≤◌, ◌<◌, ◌+◌, ◌∷◌, length, true, false, IsErr, OnOk, OnErr};
ghost use Rattle.llcp_pdu.specs.Writing.{inner_bytes, part_bytes, parts_bytes};
ghost use Rattle.llcp_link.specs.Answering.{Gives, HaltsGiving, IsStuckGiving, MostLaw};
ghost use Rattle.llcp_link.specs.Fronts.{AloneLaw, FrontLaw};
ghost use Rattle.llcp_link.specs.Giving.{gave, others, payload_of};
ghost use Rattle.llcp_link.specs.Halting.{IsSame};
ghost use Rattle.llcp_link.specs.private.Joining.{AreSent, HaltsJoining, Joins};
ghost use Rattle.llcp_link.specs.Kept.{IsSent};

use crate::giving::Next;
use crate::joining::LENGTH;
use crate::llc::Llc;
use crate::service::Service;
use llcp_pdu::{Part, Pdu, part_len};
use nfc_base::Items;
use std::alloc::AllocError;

/// The most bytes of a PDU in an AGF, with its length.
const MOST_INNER: usize = 2180;

/// Replaces `target` by a PDU that goes alone.
fn write_one(part: Part, target: &mut Vec<u8>) -> Result<(), AllocError>
    requires { IsSent part }
    ensures ok { OnOk result (target.new.items ≡ part_bytes part) }
    ensures size { OnOk result (length target.new.items ≤ 2178) }
{
    target.clear();
    Pdu::One(part).append_to(target)
}

/// Replaces `target` by the payload of one PDU and others that are joined to it.
#[tactic(auto, using(crate::proofs::GivesAll::are_parts, crate::proofs::GivesAll::payload_joined, crate::proofs::GivesAll::payload_alone))]
fn write_parts(first: Part, mut others: Vec<Part>, target: &mut Vec<u8>) -> Result<(), AllocError>
    requires first { IsSent first }
    requires others { AreSent others.items }
    requires fits { 0 < length others.items → length (inner_bytes first) + length (parts_bytes others.items) ≤ 2175 }
    ensures ok { OnOk result (target.new.items ≡ payload_of (first ∷ others.items)) }
    ensures size { OnOk result (length target.new.items ≤ 2178) }
{
    if others.is_empty() {
        return write_one(first, target);
    }
    target.clear();
    match others.insert(0, first) {
        Err(_) => return Err(AllocError),
        Ok(()) => {}
    }
    Pdu::Agf(Items::new(others)).append_to(target)
}

impl<S: Service> Llc<S> {
    /// How many PDUs are joined to the first, at most, in a payload of so many; 0 is as many as fit.
    fn most_others(&self, count: u32) -> usize
        ensures { result ≡ others S.serving self.now count }
    {
        match count {
            0 => self.far_miu as usize,
            some => (some - 1) as usize,
        }
    }

    /// Writes a payload of so many PDUs that are due, or SYMM. It is empty where the other end's general bytes couldn't
    /// be read.
    fn give_payload(&mut self, count: u32, target: &mut Vec<u8>) -> Result<(), AllocError>
        ensures ok { OnOk result (Gives S.serving count self.old target.new.items self.new) }
        ensures size { OnOk result (length target.new.items ≤ 2178) }
        ensures same { IsSame self.old self.new }
        ensures err { OnErr result (HaltsGiving S.serving self.old self.new.service) }
    {
        if !self.readable {
            target.clear();
            return Ok(());
        }
        let first = match self.give_next(MOST_INNER) {
            Err(_) => return Err(AllocError),
            Ok(Next::TooLong) => unreachable!(),
            Ok(Next::Nothing) => return write_one(Part::Symm, target),
            Ok(Next::Given(part)) => part,
        };
        let others = self.most_others(count);
        match self.join(part_len(&first) + LENGTH, others) {
            Err(_) => Err(AllocError),
            Ok(others) => write_parts(first, others, target),
        }
    }

    /// Replaces `target` by the next payload, in which so many PDUs stand. Where the number is 0, or not one that is
    /// due and fits, it is as many as fit.
    #[tactic(auto, using(crate::proofs::Fronts::alone_law, crate::proofs::MostGiven::most_law))]
    pub fn give(&mut self, count: u32, target: &mut Vec<u8>) -> Result<(), AllocError>
        ensures ok { OnOk result (Gives S.serving count self.old target.new.items self.new) }
        ensures size { OnOk result (length target.new.items ≤ 2178) }
        ensures going { OnOk result ((self.old.stuck ≡ false) × (self.new.stuck ≡ false)) }
        ensures stuck { self.old.stuck ≡ true → IsErr result }
        ensures err { OnErr result (IsStuckGiving S.serving self.old self.new) }
        ensures front { FrontLaw S.serving }
        ensures alone { AloneLaw S.serving }
        ensures most { MostLaw S.serving }
    {
        if self.stuck {
            return Err(AllocError);
        }
        match self.give_payload(count, target) {
            Err(_) => {
                self.stuck = true;
                Err(AllocError)
            }
            Ok(()) => Ok(()),
        }
    }
}
