//! What a connection gives that an end asked for.

ghost use Rattle.std.specs.Prelude.{◌≡◌, IfOk, OnErr};
ghost use Rattle.llcp_link.specs.Offering.{OwnTried};
ghost use Rattle.llcp_link.specs.Own.{ack_on, unit_on};

use crate::giving::{NUMBERED, Next};
use crate::own::{Own, OwnIs};
use std::alloc::AllocError;

impl Own {
    /// The next unit that was submitted.
    pub(crate) fn give_unit(&mut self, room: usize) -> Result<Next, AllocError>
        ensures next { IfOk result (OwnTried room (unit_on self.old) self.old self.new) }
        ensures err { OnErr result (self.new ≡ self.old) }
    {
        let OwnIs::Open(conn) = &mut self.is else {
            return Ok(Next::Nothing);
        };
        let Some(length) = conn.due() else {
            return Ok(Next::Nothing);
        };
        if length + NUMBERED > room {
            return Ok(Next::TooLong);
        }
        match conn.give() {
            Err(_) => Err(AllocError),
            Ok(None) => unreachable!(),
            Ok(Some(part)) => Ok(Next::Given(part)),
        }
    }

    /// An acknowledgement that is owed.
    pub(crate) fn give_ack(&mut self, room: usize) -> Next
        ensures next { OwnTried room (ack_on self.old) self.old self.new result }
    {
        let OwnIs::Open(conn) = &mut self.is else {
            return Next::Nothing;
        };
        if !conn.owed() {
            return Next::Nothing;
        }
        if NUMBERED > room {
            return Next::TooLong;
        }
        match conn.give_ack() {
            None => unreachable!(),
            Some(part) => Next::Given(part),
        }
    }
}
