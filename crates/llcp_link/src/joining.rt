//! PDUs that are joined to one that was given.

ghost use Rattle.std.specs.Prelude.{◌≤◌, IfOk, OnErr};
ghost use Rattle.llcp_link.specs.Halting.{IsSame};
ghost use Rattle.llcp_link.specs.private.Joining.{HaltsJoining, Joins};

use crate::giving::Next;
use crate::llc::Llc;
use crate::service::Service;
use llcp_pdu::{Part, part_len};
use std::alloc::AllocError;

/// The bytes in an AGF before a PDU, its length.
pub(crate) const LENGTH: usize = 2;

impl<S: Service> Llc<S> {
    /// Gives PDUs that stand in one AGF behind one with so many bytes there: at most so many, and as many as fit.
    pub(crate) fn join(&mut self, first: usize, most: usize) -> Result<Vec<Part>, AllocError>
        requires first { first ≤ 2180 }
        ensures joined { IfOk result (λ ps. Joins S.serving first most self.old ps.items self.new) }
        ensures same { IsSame self.old self.new }
        ensures err { OnErr result (HaltsJoining S.serving first self.old self.new.service) }
    {
        let mut room = (self.far_miu as usize).saturating_sub(first);
        let mut others = Vec::new(self.alloc);
        'others: while room > 0 && others.len() < most {
            match self.give_next(room) {
                Err(_) => return Err(AllocError),
                Ok(Next::Nothing) => return Ok(others),
                Ok(Next::TooLong) => return Ok(others),
                Ok(Next::Given(part)) => {
                    room -= part_len(&part) + LENGTH;
                    match others.push(part) {
                        Err(_) => return Err(AllocError),
                        Ok(()) => {}
                    }
                }
            }
        }
        Ok(others)
    }
}
