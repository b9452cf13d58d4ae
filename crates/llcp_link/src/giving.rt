//! What an end gives next.

ghost use Rattle.std.specs.Prelude.{◌≡◌, ◌≤◌, IfOk, OnErr};
ghost use Rattle.llcp_conn.specs.Conn.{IsSap};
ghost use Rattle.llcp_link.specs.Giving.{acknowledges, acknowledges_own, acknowledges_served, circle_start as start_of};
ghost use Rattle.llcp_link.specs.Giving.{first_of_all, gave, informs, informs_own, informs_served, sap_after as after};
ghost use Rattle.llcp_link.specs.Halting.{IsSame};
ghost use Rattle.llcp_link.specs.Offering.{LeavesNext, Tried, queued_first};
ghost use Rattle.llcp_link.specs.State.{conn_from, own_from};

use crate::llc::Llc;
use crate::owns;
use crate::queue::Queued;
use crate::sending::{acknowledge, ower, send, sender};
use crate::service::Service;
use llcp_pdu::{Part, part_len};
use std::alloc::AllocError;

/// How many SAPs there are.
const SAP_COUNT: u8 = 64;

/// The bytes in an AGF of an I PDU without its information, and of a RR: a length, a header and the numbers.
pub(crate) const NUMBERED: usize = 5;

/// The PDU that is given next, where it is within what is left.
#[derive(Debug, Drop)]
pub(crate) enum Next {
    Given(Part),
    /// None is due.
    Nothing,
    /// It is longer than what is left.
    TooLong,
}

/// The SAP after another one, in a circle of all.
pub(crate) fn sap_after(sap: u8) -> u8
    requires { IsSap sap }
    ensures after { result ≡ after sap }
    ensures range { IsSap result }
{
    (sap + 1) % SAP_COUNT
}

impl<S: Service> Llc<S> {
    /// The SAP from which the circle of clients begins.
    fn circle_start(&self) -> u8
        ensures start { result ≡ start_of self.now.last }
        ensures range { IsSap result }
    {
        match self.last {
            None => 0,
            Some(sap) => sap_after(sap),
        }
    }

    /// The oldest PDU that waits.
    fn give_queued(&mut self, room: usize) -> Next
        ensures next { Tried room (queued_first self.old self.old.queue) self.old self.new result }
        ensures same { IsSame self.old self.new }
        ensures service { self.new.service ≡ self.old.service }
    {
        match self.queue.first() {
            None => return Next::Nothing,
            Some(queued) => {
                if part_len(&queued.part) + 2 > room {
                    return Next::TooLong;
                }
            }
        }
        let Queued { own: _, part } = self.queue.remove(0);
        Next::Given(part)
    }

    /// The next unit for a client of the service, as an I PDU.
    fn give_served_unit(&mut self, client: u8, room: usize) -> Result<Next, AllocError>
        requires { IsSap client }
        ensures next { IfOk result
            (Tried room (informs_served S.serving self.old (conn_from client self.old.served)) self.old self.new) }
        ensures same { IsSame self.old self.new }
        ensures err { OnErr result (LeavesNext S.serving
            (informs_served S.serving self.old (conn_from client self.old.served)) self.old.service self.new.service) }
    {
        let Some((place, miu)) = sender(&self.served, client) else {
            return Ok(Next::Nothing);
        };
        let Some(length) = self.service.next_len(client, miu) else {
            return Ok(Next::Nothing);
        };
        if length + NUMBERED > room {
            return Ok(Next::TooLong);
        }
        let Some(unit) = self.service.next(self.alloc, client, miu)? else {
            return Ok(Next::Nothing);
        };
        let part = send(&mut self.served, client, place, miu, unit.as_slice())?;
        self.last = Some(client);
        Ok(Next::Given(part))
    }

    /// The next unit that was submitted on the connection that this end asked for from a SAP.
    #[tactic(auto, using(crate::proofs::OwnGiven::unit_given, crate::proofs::OwnGiven::none_informs))]
    fn give_own_unit(&mut self, here: u8, room: usize) -> Result<Next, AllocError>
        requires { IsSap here }
        ensures next { IfOk result
            (Tried room (informs_own self.old (own_from here self.old.own)) self.old self.new) }
        ensures same { IsSame self.old self.new }
        ensures service { self.new.service ≡ self.old.service }
    {
        let Some(place) = owns::place_of(&self.own, here) else {
            return Ok(Next::Nothing);
        };
        match self.own[place].give_unit(room) {
            Err(_) => Err(AllocError),
            Ok(Next::Nothing) => Ok(Next::Nothing),
            Ok(Next::TooLong) => Ok(Next::TooLong),
            Ok(Next::Given(part)) => {
                self.last = Some(here);
                Ok(Next::Given(part))
            }
        }
    }

    /// The next unit of a SAP; the connection that was asked of this end comes first.
    #[tactic(auto, using(crate::proofs::OwnGiven::first_given, crate::proofs::OwnGiven::first_long, crate::proofs::OwnGiven::second_tried))]
    fn give_unit_at(&mut self, client: u8, room: usize) -> Result<Next, AllocError>
        requires { IsSap client }
        ensures next { IfOk result (Tried room (informs S.serving self.old client) self.old self.new) }
        ensures same { IsSame self.old self.new }
        ensures err { OnErr result
            (LeavesNext S.serving (informs S.serving self.old client) self.old.service self.new.service) }
    {
        match self.give_served_unit(client, room) {
            Err(_) => Err(AllocError),
            Ok(Next::TooLong) => Ok(Next::TooLong),
            Ok(Next::Given(part)) => Ok(Next::Given(part)),
            Ok(Next::Nothing) => match self.give_own_unit(client, room) {
                Err(_) => Err(AllocError),
                Ok(next) => Ok(next),
            },
        }
    }

    /// An acknowledgement that is owed to a client of the service.
    fn give_served_ack(&mut self, client: u8, room: usize) -> Next
        requires { IsSap client }
        ensures next { Tried room (acknowledges_served self.old (conn_from client self.old.served))
            self.old self.new result }
        ensures same { IsSame self.old self.new }
        ensures service { self.new.service ≡ self.old.service }
    {
        let Some(place) = ower(&self.served, client) else {
            return Next::Nothing;
        };
        if NUMBERED > room {
            return Next::TooLong;
        }
        let part = acknowledge(&mut self.served, client, place);
        self.last = Some(client);
        Next::Given(part)
    }

    /// An acknowledgement that is owed on the connection that this end asked for from a SAP.
    #[tactic(auto, using(crate::proofs::OwnGiven::ack_given, crate::proofs::OwnGiven::none_acknowledges))]
    fn give_own_ack(&mut self, here: u8, room: usize) -> Next
        requires { IsSap here }
        ensures next { Tried room (acknowledges_own self.old (own_from here self.old.own))
            self.old self.new result }
        ensures same { IsSame self.old self.new }
        ensures service { self.new.service ≡ self.old.service }
    {
        let Some(place) = owns::place_of(&self.own, here) else {
            return Next::Nothing;
        };
        match self.own[place].give_ack(room) {
            Next::Nothing => Next::Nothing,
            Next::TooLong => Next::TooLong,
            Next::Given(part) => {
                self.last = Some(here);
                Next::Given(part)
            }
        }
    }

    /// An acknowledgement of a SAP; the connection that was asked of this end comes first.
    #[tactic(auto, using(crate::proofs::OwnGiven::first_given, crate::proofs::OwnGiven::first_long, crate::proofs::OwnGiven::second_tried))]
    fn give_ack_at(&mut self, client: u8, room: usize) -> Next
        requires { IsSap client }
        ensures next { Tried room (acknowledges self.old client) self.old self.new result }
        ensures same { IsSame self.old self.new }
        ensures service { self.new.service ≡ self.old.service }
    {
        match self.give_served_ack(client, room) {
            Next::TooLong => Next::TooLong,
            Next::Given(part) => Next::Given(part),
            Next::Nothing => self.give_own_ack(client, room),
        }
    }

    /// In cyclic order of the clients, the next unit of the first whose window allows one.
    fn give_unit(&mut self, room: usize) -> Result<Next, AllocError>
        ensures next { IfOk result
            (Tried room (first_of_all self.old.last (informs S.serving self.old)) self.old self.new) }
        ensures same { IsSame self.old self.new }
        ensures err { OnErr result
            (LeavesNext S.serving (first_of_all self.old.last (informs S.serving self.old))
            self.old.service self.new.service) }
    {
        let mut client = self.circle_start();
        'clients: for _ in 0..SAP_COUNT {
            match self.give_unit_at(client, room) {
                Err(_) => return Err(AllocError),
                Ok(Next::Nothing) => client = sap_after(client),
                Ok(Next::TooLong) => return Ok(Next::TooLong),
                Ok(Next::Given(part)) => return Ok(Next::Given(part)),
            }
        }
        Ok(Next::Nothing)
    }

    /// In the same order, an acknowledgement of the first that owes one.
    fn give_ack(&mut self, room: usize) -> Next
        ensures next { Tried room (first_of_all self.old.last (acknowledges self.old)) self.old self.new result }
        ensures same { IsSame self.old self.new }
        ensures service { self.new.service ≡ self.old.service }
    {
        let mut client = self.circle_start();
        'clients: for _ in 0..SAP_COUNT {
            match self.give_ack_at(client, room) {
                Next::Nothing => client = sap_after(client),
                Next::TooLong => return Next::TooLong,
                Next::Given(part) => return Next::Given(part),
            }
        }
        Next::Nothing
    }

    /// The PDU that is due next, where it is within what is left.
    pub(crate) fn give_next(&mut self, room: usize) -> Result<Next, AllocError>
        ensures next { IfOk result (Tried room (gave S.serving self.old) self.old self.new) }
        ensures same { IsSame self.old self.new }
        ensures err { OnErr result (LeavesNext S.serving (gave S.serving self.old) self.old.service self.new.service) }
    {
        match self.give_queued(room) {
            Next::Nothing => {}
            Next::TooLong => return Ok(Next::TooLong),
            Next::Given(part) => return Ok(Next::Given(part)),
        }
        match self.give_unit(room) {
            Err(_) => Err(AllocError),
            Ok(Next::Nothing) => Ok(self.give_ack(room)),
            Ok(Next::TooLong) => Ok(Next::TooLong),
            Ok(Next::Given(part)) => Ok(Next::Given(part)),
        }
    }
}
