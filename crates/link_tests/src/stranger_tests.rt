//! A link to what is no peer.

use air_core::{Field, Listener};
use arrayvec::ArrayVec;
use dep_link::{DepPair, Initiator, PeerListener};
use nfc_base::{Answerer, EndCause, Frame, LinkEnd, Mute, Tech};
use std::alloc::{AllocError, Global};
use std::process::Abort;
use std::test::Fail;

/// A device that says these bytes, whatever it is asked.
#[derive(Drop)]
struct Stranger {
    lit: bool,
    says: ArrayVec<u8, 8>,
}

impl Listener for Stranger {
    ghost use Rattle.std.specs.Prelude.{[], true, false, Some, None, if◌then◌else◌};
    ghost use Rattle.std.proofs.Common.{rules};
    ghost use Rattle.nfc_base.specs.Signal.{whole_a};
    ghost use Rattle.nfc_base.specs.Far.{Untouched};
    ghost use Rattle.nfc_base.specs.declared.frame.Tech.TheVariants as techs;

    ghost machine = { record {
      tech = λ l. techs.A;
      handed = λ l f. Untouched;
      answer = λ l f reply. if l.lit then Some (whole_a l.says.items) else None;
      after = λ l f reply. l;
      woken = λ l. record l { lit = true };
      darkened = λ l. record l { lit = false };
    } };

    ghost identifier = { λ l. [] };

    ghost store = { λ l. [] };

    ghost is_ready = { λ l. false };

    ghost is_selected = { λ l. l.lit };

    fn tech(&self) -> Tech {
        Tech::A
    }

    fn light(&mut self) {
        self.lit = true;
    }

    fn dark(&mut self) {
        self.lit = false;
    }

    fn hear<A: Answerer>(
        &mut self,
        _alloc: Global,
        _frame: &Frame,
        _far: &mut A,
    ) -> Result<Option<Frame>, AllocError> {
        if !self.lit {
            return Ok(None);
        }
        Ok(Some(Frame::whole(Tech::A, &self.says).unwrap()))
    }

    ghost bounded = { Prim.search rules };

    ghost own_tech = { Prim.search rules };

    ghost step_keeps = { Prim.search rules };

    ghost light_keeps = { Prim.search rules };

    ghost dark_keeps = { Prim.search rules };

    ghost light_selects = { Prim.search rules };

    ghost stays_selected = { Prim.search rules };

    ghost dark_rests = { Prim.search rules };

    ghost rests = { Prim.search rules };

    ghost ignores = { Prim.search rules };
}

impl PeerListener for Stranger {
    ghost use Rattle.std.specs.Prelude.{[]};
    ghost use Rattle.dep_link.specs.Target.{fresh};

    ghost target = { λ l. fresh [] 0 [] };
}

/// A lit field of a device that says these bytes.
fn field_of(alloc: Global, bytes: &[u8]) -> Result<Field<Stranger>, Fail> {
    let mut says = ArrayVec::new();
    says.try_extend_from_slice(bytes)?;
    let mut field = Field::new(alloc);
    field.put_in(Stranger { lit: false, says })?;
    field.reset()?;
    field.take_trace();
    Ok(field)
}

/// How long the reply of an exchange is, or why it has none.
type Told = Result<usize, LinkEnd>;

/// What two exchanges tell, one after the other, and how many transmissions they took.
fn exchanged(alloc: Global, bytes: &[u8]) -> Result<(Told, Told, usize), Fail> {
    let mut field = field_of(alloc, bytes)?;
    let mut initiator = Initiator::new(3);
    let mut far = Mute;
    let mut pair = DepPair::on(&mut field, &mut initiator);
    let first = pair
        .exchange(alloc, &[1], &mut far)
        .map(|reply| reply.len());
    let again = pair
        .exchange(alloc, &[1], &mut far)
        .map(|reply| reply.len());
    Ok((first, again, field.trace().len()))
}

/// A frame that isn't allowed ends the link, and nothing more is sent: one with another PNI, one that the initiator
/// sends, no frame of NFC-DEP. The PNI moves on behind a reply, so the same frame again has another one than the next.
#[test]
fn answers_of_a_stranger(rt: HostRuntime) -> Result<(), Fail> {
    const REFUSED: Told = Err(LinkEnd {
        cause: EndCause::Protocol,
        answered: true,
    });
    const OVER: Told = Err(LinkEnd {
        cause: EndCause::Protocol,
        answered: false,
    });
    const ROWS: [(&[u8], Told, Told, usize); 5] = [
        (&[0xF0, 4, 0xD5, 7, 1], REFUSED, OVER, 2),
        (&[0xF0, 4, 0xD5, 7, 0x40], REFUSED, OVER, 2),
        (&[0xF0, 4, 0xD4, 6, 0], REFUSED, OVER, 2),
        (&[0xAA, 0xBB], REFUSED, OVER, 2),
        (&[0xF0, 5, 0xD5, 7, 0, 9], Ok(1), REFUSED, 4),
    ];
    for &(bytes, first, again, sent) in &ROWS {
        let told = exchanged(rt.alloc(), bytes)?;
        assert_eq!(rt; told, (first, again, sent), "at {bytes:?}");
    }
    Ok(())
}
