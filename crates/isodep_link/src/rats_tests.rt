//! What a reader makes of an answer to RATS.

use crate::tests::counted;
use crate::{CardListener, IsoLink};
use air_core::{Field, Listener};
use arrayvec::ArrayVec;
use nfc_base::{Answerer, AskFault, Event, Frame, Tech};
use std::alloc::{AllocError, Global};
use std::process::Abort;
use std::test::Fail;

/// A device that says these bytes, whatever it is asked.
#[derive(Drop)]
struct Beacon {
    lit: bool,
    says: ArrayVec<u8, 8>,
}

impl Listener for Beacon {
    ghost use Rattle.std.specs.Prelude.{[], true, false, Some, None, if◌then◌else◌};
    ghost use Rattle.std.proofs.Common.{rules};
    ghost use Rattle.nfc_base.specs.Signal.{whole_a};
    ghost use Rattle.nfc_base.specs.Far.{Untouched};
    ghost use Rattle.nfc_base.specs.declared.frame.Tech.TheVariants as techs;

    ghost machine = { record {
      tech = λ l. techs.A;
      handed = λ l f. Untouched;
      answer = λ l f reply. if l.lit then Some (whole_a l.says.items) else None;
      after = λ l f reply. l;
      woken = λ l. record l { lit = true };
      darkened = λ l. record l { lit = false };
    } };

    ghost identifier = { λ l. [] };

    ghost store = { λ l. [] };

    ghost is_ready = { λ l. false };

    ghost is_selected = { λ l. l.lit };

    fn tech(&self) -> Tech {
        Tech::A
    }

    fn light(&mut self) {
        self.lit = true;
    }

    fn dark(&mut self) {
        self.lit = false;
    }

    fn hear<A: Answerer>(
        &mut self,
        _alloc: Global,
        _frame: &Frame,
        _far: &mut A,
    ) -> Result<Option<Frame>, AllocError> {
        if !self.lit {
            return Ok(None);
        }
        Ok(Some(Frame::whole(Tech::A, &self.says).unwrap()))
    }

    ghost bounded = { Prim.search rules };

    ghost own_tech = { Prim.search rules };

    ghost step_keeps = { Prim.search rules };

    ghost light_keeps = { Prim.search rules };

    ghost dark_keeps = { Prim.search rules };

    ghost light_selects = { Prim.search rules };

    ghost stays_selected = { Prim.search rules };

    ghost dark_rests = { Prim.search rules };

    ghost rests = { Prim.search rules };

    ghost ignores = { Prim.search rules };
}

impl CardListener for Beacon {
    ghost use Rattle.std.specs.Prelude.{[]};
    ghost use Rattle.std.proofs.Common.{rules};
    ghost use Rattle.nfc_base.specs.TagLinks.{plain_state};
    ghost use Rattle.isodep_link.specs.Card.{fresh};

    ghost card = { λ l. fresh 8 };

    ghost tag = { λ l. plain_state [] };

    ghost holds = { Prim.search rules };
}

/// How long the request of a field's second turn was; 0 where there was none.
fn second_request(field: &Field<Beacon>) -> usize {
    match field.trace() {
        [
            Event::Request { .. },
            Event::Answer { .. },
            Event::Request { frame, .. },
            Event::Answer { .. },
        ] => frame.view().len(),
        _ => 0,
    }
}

/// A lit field of a device that says these bytes.
fn field_of(alloc: Global, bytes: &[u8]) -> Result<Field<Beacon>, Fail> {
    let mut says = ArrayVec::new();
    says.try_extend_from_slice(bytes)?;
    let mut field = Field::new(alloc);
    field.put_in(Beacon { lit: false, says })?;
    field.reset()?;
    field.take_trace();
    Ok(field)
}

/// A command is asked twice, where RATS is answered, and has no answer.
fn asks_twice<R: Abort>(rt: &R, field: &mut Field<Beacon>) -> Result<(), Fail> {
    let command = Frame::whole(Tech::A, &counted())?;
    if let Ok(mut link) = IsoLink::activate(field, 0) {
        assert!(rt; link.exchange(&command) == Err(AskFault::Protocol));
        assert!(rt; link.exchange(&command) == Err(AskFault::Protocol));
    }
    Ok(())
}

fn first_block_after<R: Abort>(rt: &R, alloc: Global, bytes: &[u8]) -> Result<usize, Fail> {
    let mut field = field_of(alloc, bytes)?;
    asks_twice(rt, &mut field)?;
    Ok(second_request(&field))
}

/// What answers RATS by each of these is asked a command, whose first block is so long, and answers the same again,
/// which is no block; 0 where its answer is none to RATS.
#[test]
fn answers_to_rats(rt: HostRuntime) -> Result<(), Fail> {
    let rows: [(&[u8], usize); 7] = [
        (&[2, 8], 254),
        (&[2, 0xF5], 62),
        (&[1], 30),
        (&[5, 0x78, 0x80, 0x70, 2], 254),
        (&[3, 8], 0),
        (&[1, 8], 0),
        (&[], 0),
    ];
    for (bytes, length) in rows {
        let first = first_block_after(&rt, rt.alloc(), bytes)?;
        assert_eq!(rt; first, length, "after {bytes:?}");
    }
    Ok(())
}
