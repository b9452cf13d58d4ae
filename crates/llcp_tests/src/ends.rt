//! What the tests of an end have in common.

ghost use Rattle.std.specs.Prelude.{◌∷◌, ◌++◌, ◌≡◌, ◌==◌, ◌-◌, [], if◌then◌else◌, None, Some};

use llcp_link::{Llc, Service};
use llcp_pdu::LinkParams;
use nfc_base::{Answerer, Items};
use std::alloc::{AllocError, Global};
use std::marker::Model;
use std::process::Abort;
use std::test::Fail;

pub(crate) const SNEP: &str = "urn:nfc:sn:snep";

/// What each end says of itself.
const PARAMS: LinkParams = LinkParams {
    version: 0x13,
    miu: 128,
    wks: 0x13,
};

/// A service that notes each unit behind its client's SAP, and sends none.
#[derive(Drop)]
pub(crate) struct Notes {
    alloc: Global,
    pub(crate) units: Vec<u8>,
}

impl Model for Notes {
    ghost use Rattle.std.specs.Prelude.{ℕ, List};

    ghost Value = { List ℕ };

    ghost view = { λ n. n.units.items };
}

impl Service for Notes {
    ghost serving = { record {
      begun = λ s _. s;
      brought = λ s ssap unit. s ++ (ssap ∷ unit);
      due = λ _ _ _. None;
      sent = λ s _ _. s;
      renewed = λ s. s;
      keeps = λ a b. b ≡ a;
    } };

    fn restart(&mut self) {}

    fn begin(&mut self, _ssap: u8) {}

    fn unit(&mut self, _alloc: Global, ssap: u8, unit: &[u8]) -> Result<(), AllocError> {
        let mut note = Vec::from_slice(self.alloc, &[ssap])?;
        note.extend_from_slice(unit)?;
        self.units.extend_from_slice(&note)
    }

    fn next(
        &mut self,
        _alloc: Global,
        _ssap: u8,
        _miu: u16,
    ) -> Result<Option<Items<u8>>, AllocError> {
        Ok(None)
    }

    fn next_len(&self, _ssap: u8, _miu: u16) -> Option<usize> {
        None
    }
}

/// A service that sends so many units, each its client's SAP.
#[derive(Drop)]
pub(crate) struct Units {
    left: u8,
}

impl Model for Units {
    ghost use Rattle.std.specs.Prelude.{ℕ};

    ghost Value = { ℕ };

    ghost view = { λ s. s.left };
}

impl Service for Units {
    ghost serving = { record {
      begun = λ s _. s;
      brought = λ s _ _. s;
      due = λ s ssap miu. if s == 0 then None else (if miu == 0 then None else Some (ssap ∷ []));
      sent = λ s _ _. s - 1;
      renewed = λ s. s;
      keeps = λ a b. b ≡ a;
    } };

    fn restart(&mut self) {}

    fn begin(&mut self, _ssap: u8) {}

    fn unit(&mut self, _alloc: Global, _ssap: u8, _unit: &[u8]) -> Result<(), AllocError> {
        Ok(())
    }

    fn next(&mut self, alloc: Global, ssap: u8, miu: u16) -> Result<Option<Items<u8>>, AllocError> {
        if self.left == 0 {
            return Ok(None);
        }
        if miu == 0 {
            return Ok(None);
        }
        let unit = Items::from_bytes(alloc, &[ssap])?;
        self.left -= 1;
        Ok(Some(unit))
    }

    fn next_len(&self, _ssap: u8, miu: u16) -> Option<usize> {
        if self.left == 0 {
            return None;
        }
        if miu == 0 {
            return None;
        }
        Some(1)
    }
}

/// An end over a service that sends so many units, as `server`.
pub(crate) fn sending_server(rt: &impl Abort, alloc: Global, left: u8) -> Result<Llc<Units>, Fail> {
    let mut llc = Llc::new(alloc, PARAMS, 1, Units { left });
    assert_eq!(rt; llc.listen(SNEP, 4), Ok(()));
    Ok(llc)
}

/// A server at SAP 4, with MIU 128 and window 1.
pub(crate) fn server(rt: &impl Abort, alloc: Global) -> Result<Llc<Notes>, Fail> {
    let service = Notes {
        alloc,
        units: Vec::new(alloc),
    };
    let mut llc = Llc::new(alloc, PARAMS, 1, service);
    assert_eq!(rt; llc.listen(SNEP, 4), Ok(()));
    Ok(llc)
}

/// The reply to a payload.
pub(crate) fn answers<A: Answerer>(
    rt: &impl Abort,
    alloc: Global,
    end: &mut A,
    payload: &[u8],
    reply: &[u8],
) -> Result<(), Fail> {
    let mut got = Vec::new(alloc);
    assert!(rt; payload.len() < 64);
    assert_eq!(rt; end.answer(alloc, payload, &mut got), Ok(()));
    assert_eq!(rt; got.as_slice(), reply, "at {payload:?}");
    Ok(())
}

/// An end answers payloads, one after the other, by these replies.
pub(crate) fn replies_by<A: Answerer>(
    rt: &impl Abort,
    alloc: Global,
    end: &mut A,
    rows: &[(&[u8], &[u8])],
) -> Result<(), Fail> {
    for (payload, reply) in rows {
        answers(rt, alloc, end, payload, reply)?;
    }
    Ok(())
}

/// It gives this payload, of so many PDUs.
pub(crate) fn gives(
    rt: &impl Abort,
    alloc: Global,
    llc: &mut Llc<Notes>,
    count: u32,
    payload: &[u8],
) -> Result<(), Fail> {
    let mut got = Vec::new(alloc);
    assert_eq!(rt; llc.give(count, &mut got), Ok(()));
    assert_eq!(rt; got.as_slice(), payload, "by {count}");
    Ok(())
}
