//! One end of a connection.

ghost use Rattle.std.specs.Prelude.{◌≡◌, ◌<◌, ◌≤◌, ◌⊎◌, length, drop, true, false, option_map, option_copied, Some};
ghost use Rattle.std.specs.Prelude.{None, IfOk, IfErr, OnOk, OnErr};
ghost use Rattle.circular_buffer.specs.Buffer.{buffer};
ghost use Rattle.llcp_pdu.specs.General.{IsMiu};
ghost use Rattle.llcp_conn.specs.Conn.{fresh, refusal_to_submit, refusal_of, shared, queued, Queues, took, takes};
ghost use Rattle.llcp_conn.specs.Conn.{takes_view, takes_unit, takes_nr, gave, gives, gives_from, gives_ack, first};
ghost use Rattle.llcp_conn.specs.Conn.{closes, numbers, has_room, has_waiting, due, acks, is_outside, acknowledged};
ghost use Rattle.llcp_conn.specs.Conn.{IsOfConn, IsViewOfConn, IsSap, IsWindow};
ghost use Rattle.llcp_conn.specs.declared.fault.ConnFault.{ConnFault};

use crate::fault::{ConnFault, SharedCause, SharedRefused};
use bytes::Bytes;
use circular_buffer::HeapCircularBuffer;
use llcp_pdu::{FrmrReport, INFO, Part, PduView, RNR, RR};
use nfc_base::Items;
use std::alloc::{AllocError, Global};
use std::marker::Model;

/// The flags of a FRMR.
const INFORMATION: u8 = 0x40;

const RECEIVED: u8 = 0x20;

const SENT: u8 = 0x10;

/// What a PDU comes to.
#[derive(Debug, Drop)]
pub enum Taken {
    Nothing,
    /// A unit of the other end.
    Unit(Items<u8>),
    /// A fault, by which the connection closed.
    Closed(FrmrReport),
}

/// The numbers of a connection: V(S), V(R), V(SA), V(RA).
#[derive(Clone, Copy, Debug, PartialEq, Eq)]
pub struct ConnNumbers {
    pub vs: u8,
    pub vr: u8,
    pub vsa: u8,
    pub vra: u8,
}

/// One end of a connection that is open (NFC Forum LLCP 1.3). It keeps each unit until it is acknowledged.
#[derive(Debug, Drop)]
pub struct Conn {
    alloc: Global,
    here: u8,
    there: u8,
    near_miu: u16,
    far_miu: u16,
    units: HeapCircularBuffer<Bytes>,
    given: usize,
    vsa: u8,
    vr: u8,
    vra: u8,
    owed: bool,
    held: bool,
    live: bool,
    acked: u32,
}

impl Model for Conn {
    ghost use Rattle.std.specs.Prelude.{take, drop};
    ghost use Rattle.llcp_conn.specs.Conn.{ConnState, IsKept};

    ghost Value = { ConnState };

    ghost view = { λ c. record {
      here = c.here;
      there = c.there;
      near_miu = c.near_miu;
      far_miu = c.far_miu;
      window = c.units.capacity;
      queue = drop c.given c.units.items;
      flight = take c.given c.units.items;
      vsa = c.vsa;
      vr = c.vr;
      vra = c.vra;
      owed = c.owed;
      held = c.held;
      live = c.live;
      acked = c.acked;
    } };

    ghost invariant = { λ c. IsKept c.given c.units c.vsa c.vr c.vra };
}

impl Conn {
    /// A connection from the SAP `here` to the SAP `there`, with the MIU and the receive window of both ends.
    pub fn new(
        alloc: Global,
        here: u8,
        there: u8,
        near_miu: u16,
        _near_rw: u8,
        far_miu: u16,
        far_rw: u8,
    ) -> Result<Conn, AllocError>
        requires saps { IsSap here × IsSap there }
        requires mius { IsMiu near_miu × IsMiu far_miu }
        requires windows { IsWindow _near_rw × IsWindow far_rw }
        ensures { IfOk result (λ c. c ≡ fresh here there near_miu far_miu far_rw) }
    {
        Ok(Conn {
            alloc,
            here,
            there,
            near_miu,
            far_miu,
            units: HeapCircularBuffer::with_capacity(alloc, far_rw as usize)?,
            given: 0,
            vsa: 0,
            vr: 0,
            vra: 0,
            owed: false,
            held: false,
            live: true,
            acked: 0,
        })
    }

    /// The numbers that it has now.
    pub fn numbers(&self) -> ConnNumbers
        ensures { result ≡ numbers self.now }
    {
        ConnNumbers {
            vs: (self.vsa + self.given as u8) % 16,
            vr: self.vr,
            vsa: self.vsa,
            vra: self.vra,
        }
    }

    /// Fewer units than the other end's window are submitted and not acknowledged.
    pub fn room(&self) -> bool
        ensures { result ≡ has_room self.now }
    {
        !self.units.is_full()
    }

    /// A unit that was submitted waits to be given, also where the other end holds it up.
    pub fn has_waiting(&self) -> bool
        ensures { result ≡ has_waiting self.now }
    {
        match self.waiting() {
            Some(_) => true,
            None => false,
        }
    }

    /// The SAP of this end.
    pub fn here(&self) -> u8
        ensures { result ≡ self.now.here }
    {
        self.here
    }

    /// The SAP of the other end.
    pub fn there(&self) -> u8
        ensures { result ≡ self.now.there }
    {
        self.there
    }

    /// The MIU of the other end.
    pub fn far_miu(&self) -> u16
        ensures { result ≡ self.now.far_miu }
    {
        self.far_miu
    }

    /// An RNR was taken after the last RR.
    pub fn held(&self) -> bool
        ensures { result ≡ self.now.held }
    {
        self.held
    }

    /// An acknowledgement is owed: a unit was taken since N(R) was last given.
    pub fn owed(&self) -> bool
        ensures { result ≡ self.now.owed }
    {
        self.owed
    }

    /// How many units were acknowledged, modulo 2^32.
    pub fn acked(&self) -> u32
        ensures { result ≡ self.now.acked }
    {
        self.acked
    }

    /// The length of the unit that `give` would give next as an I PDU.
    pub fn due(&self) -> Option<usize>
        ensures { result ≡ due self.now }
    {
        if !self.live || self.held {
            return None;
        }
        Some(self.waiting()?.len())
    }

    /// Takes in a unit, unless it is refused.
    pub fn submit(&mut self, unit: &[u8]) -> Result<(), ConnFault>
        ensures ok { OnOk result (Queues self.old unit.now self.new) }
        ensures err { IfErr result (λ e.
            ((e ≡ ConnFault.Memory) × (refusal_to_submit self.old unit.now ≡ None))
            ⊎ (refusal_to_submit self.old unit.now ≡ Some e)) }
        ensures same { OnErr result (self.new ≡ self.old) }
    {
        if let Some(cause) = self.refusal(unit.len()) {
            return Err(cause.into());
        }
        let kept = Bytes::copy_from_slice(self.alloc, unit)?;
        self.queue(kept);
        Ok(())
    }

    /// Takes in a unit that its caller shares, unless it is refused; a refused one comes back. It takes no memory.
    pub fn submit_shared(&mut self, unit: Bytes) -> Result<(), SharedRefused>
        ensures ok { OnOk result (Queues self.old unit self.new) }
        ensures err { IfErr result (λ e. (refusal_to_submit self.old unit ≡ Some (shared e.cause)) × (e.unit ≡ unit)) }
        ensures same { OnErr result (self.new ≡ self.old) }
    {
        match self.refusal(unit.len()) {
            Some(cause) => Err(SharedRefused { cause, unit }),
            None => {
                self.queue(unit);
                Ok(())
            }
        }
    }

    /// Why a unit of this length isn't taken in.
    fn refusal(&self, length: usize) -> Option<SharedCause>
        ensures { option_map shared result ≡ refusal_of self.now length }
    {
        if !self.live {
            Some(SharedCause::NotOpen)
        } else if length > self.far_miu as usize {
            Some(SharedCause::TooLong)
        } else if !self.room() {
            Some(SharedCause::WindowFull)
        } else {
            None
        }
    }

    /// Takes in a unit that isn't refused.
    fn queue(&mut self, unit: Bytes)
        requires { has_room self.old ≡ true }
        ensures { self.new ≡ queued self.old unit }
    {
        let _ = self.units.try_push_back(unit);
    }

    /// The next unit that was submitted, unless the other end holds it up; else an acknowledgement that is owed.
    pub fn give(&mut self) -> Result<Option<Part>, AllocError>
        ensures ok { IfOk result (λ p. gave self.new p ≡ gives self.old) }
        ensures err { OnErr result (self.new ≡ self.old) }
    {
        if !self.live {
            return Ok(None);
        }
        if self.held {
            return Ok(self.give_ack());
        }
        self.give_unit()
    }

    /// The unit that is given next.
    fn waiting(&self) -> Option<&Bytes>
        ensures { option_copied result ≡ first self.now.queue }
    {
        self.units.get(self.given)
    }

    /// The next unit that was submitted, else an acknowledgement that is owed.
    fn give_unit(&mut self) -> Result<Option<Part>, AllocError>
        ensures ok { IfOk result (λ p. gave self.new p ≡ gives_from self.old self.old.queue) }
        ensures err { OnErr result (self.new ≡ self.old) }
    {
        let Some(unit) = self.waiting() else {
            return Ok(self.give_ack());
        };
        let info = Items::from_bytes(self.alloc, unit.as_slice())?;
        let ns = self.numbers().vs;
        self.given += 1;
        self.vra = self.vr;
        self.owed = false;
        Ok(Some(Part::Info {
            dsap: self.there,
            ssap: self.here,
            ns,
            nr: self.vr,
            info,
        }))
    }

    /// An acknowledgement that is owed, and no unit.
    pub fn give_ack(&mut self) -> Option<Part>
        ensures { gave self.new result ≡ gives_ack self.old }
    {
        if !self.owed {
            return None;
        }
        self.vra = self.vr;
        self.owed = false;
        Some(Part::Rr {
            dsap: self.there,
            ssap: self.here,
            nr: self.vr,
        })
    }

    /// What a PDU of this connection comes to.
    pub fn take(&mut self, pdu: &Part) -> Result<Taken, AllocError>
        requires pdu { IsOfConn self.old pdu.now }
        requires open { self.old.live ≡ true }
        ensures ok { IfOk result (λ t. took self.new t ≡ takes self.old pdu.now) }
        ensures err { OnErr result (self.new ≡ self.old) }
    {
        match pdu {
            Part::Info { ns, nr, info, .. } => self.take_unit(*ns, *nr, info.as_slice()),
            Part::Rr { nr, .. } => Ok(self.take_nr(RR, *nr, false)),
            Part::Rnr { nr, .. } => Ok(self.take_nr(RNR, *nr, true)),
            _ => Ok(Taken::Nothing),
        }
    }

    /// What a PDU of this connection comes to, read in place: a unit is copied once, as it is handed up.
    pub fn take_view(&mut self, pdu: &PduView<'_>) -> Result<Taken, AllocError>
        requires pdu { IsViewOfConn self.old pdu.now }
        requires open { self.old.live ≡ true }
        ensures ok { IfOk result (λ t. took self.new t ≡ takes_view self.old pdu.now) }
        ensures err { OnErr result (self.new ≡ self.old) }
    {
        match pdu {
            PduView::Info { ns, nr, info, .. } => self.take_unit(*ns, *nr, info),
            PduView::Rr { nr, .. } => Ok(self.take_nr(RR, *nr, false)),
            PduView::Rnr { nr, .. } => Ok(self.take_nr(RNR, *nr, true)),
            _ => Ok(Taken::Nothing),
        }
    }

    fn take_unit(&mut self, ns: u8, nr: u8, info: &[u8]) -> Result<Taken, AllocError>
        requires ns { ns < 16 }
        requires nr { nr < 16 }
        ensures ok { IfOk result (λ t. took self.new t ≡ takes_unit self.old ns nr info.now) }
        ensures err { OnErr result (self.new ≡ self.old) }
    {
        let sequence = 16 * ns + nr;
        if info.len() > self.near_miu as usize {
            return Ok(self.close(INFORMATION, INFO, sequence));
        }
        if self.is_outside(nr) {
            return Ok(self.close(RECEIVED, INFO, sequence));
        }
        if ns != self.vr {
            return Ok(self.close(SENT, INFO, sequence));
        }
        let unit = Items::from_bytes(self.alloc, info)?;
        self.acknowledge(nr);
        self.vr = (self.vr + 1) % 16;
        self.owed = true;
        Ok(Taken::Unit(unit))
    }

    fn take_nr(&mut self, ptype: u8, nr: u8, held: bool) -> Taken
        requires { nr < 16 }
        ensures { took self.new result ≡ takes_nr self.old ptype nr held }
    {
        if self.is_outside(nr) {
            return self.close(RECEIVED, ptype, nr);
        }
        self.acknowledge(nr);
        self.held = held;
        Taken::Nothing
    }

    /// How many units an N(R) acknowledges.
    fn acks(&self, nr: u8) -> usize
        requires { nr < 16 }
        ensures { result ≡ acks self.now nr }
    {
        ((nr + 16 - self.vsa) % 16) as usize
    }

    fn is_outside(&self, nr: u8) -> bool
        requires { nr < 16 }
        ensures { result ≡ is_outside self.now nr }
    {
        self.given < self.acks(nr)
    }

    fn acknowledge(&mut self, nr: u8)
        requires nr { nr < 16 }
        requires inside { is_outside self.old nr ≡ false }
        ensures { self.new ≡ acknowledged self.old nr }
    {
        let count = self.acks(nr);
        drop_first(&mut self.units, count);
        self.given -= count;
        self.vsa = nr;
        self.acked = self.acked.wrapping_add(count as u32);
    }

    fn close(&mut self, flag: u8, ptype: u8, sequence: u8) -> Taken
        ensures { took self.new result ≡ closes self.old flag ptype sequence }
    {
        let numbers = self.numbers();
        self.live = false;
        Taken::Closed(FrmrReport {
            flags: flag,
            ptype,
            sequence,
            vs: numbers.vs,
            vr: numbers.vr,
            vsa: numbers.vsa,
            vra: numbers.vra,
        })
    }
}

/// Lets the first units go.
fn drop_first(units: &mut HeapCircularBuffer<Bytes>, count: usize)
    requires { count ≤ length units.old.items }
    ensures { units.new ≡ buffer (drop count units.old.items) units.old.capacity }
{
    'units: for _ in 0..count {
        units.pop_front();
    }
}

#[cfg(test)]
impl Conn {
    /// Whether it is open, and a PDU is one of it.
    pub(crate) fn may_take(&self, pdu: &Part) -> bool
        ensures { result ≡ true → IsOfConn self.now pdu.now × (self.now.live ≡ true) }
    {
        let (dsap, ssap, ns, nr) = match pdu {
            Part::Info {
                dsap,
                ssap,
                ns,
                nr,
                ..
            } => (*dsap, *ssap, *ns, *nr),
            Part::Rr { dsap, ssap, nr } => (*dsap, *ssap, 0, *nr),
            Part::Rnr { dsap, ssap, nr } => (*dsap, *ssap, 0, *nr),
            _ => return false,
        };
        self.live && dsap == self.here && ssap == self.there && ns < 16 && nr < 16
    }

    /// The same of a PDU that is read in place.
    pub(crate) fn may_take_view(&self, pdu: &PduView<'_>) -> bool
        ensures { result ≡ true → IsViewOfConn self.now pdu.now × (self.now.live ≡ true) }
    {
        let (dsap, ssap, ns, nr) = match pdu {
            PduView::Info {
                dsap,
                ssap,
                ns,
                nr,
                ..
            } => (*dsap, *ssap, *ns, *nr),
            PduView::Rr { dsap, ssap, nr } => (*dsap, *ssap, 0, *nr),
            PduView::Rnr { dsap, ssap, nr } => (*dsap, *ssap, 0, *nr),
            _ => return false,
        };
        self.live && dsap == self.here && ssap == self.there && ns < 16 && nr < 16
    }
}
