//! A phone: a device in a field that only a peer talks to.

ghost use Rattle.std.specs.Prelude.{◌≡◌, ℕ, List, true, IfOk};
ghost use Rattle.dep_link.specs.Activating.{HasTarget};

use air_core::{Field, Listener};
use arrayvec::ArrayVec;
use dep_link::{PeerListener, Target, TargetStep};
use nfc_base::{Answerer, Fate, Frame, Tech};
use std::alloc::{AllocError, Global};
use std::test::Fail;

/// A device that is selected from light on, with a target under a far end.
#[derive(Drop)]
pub struct Phone {
    lit: bool,
    target: Target,
}

impl Listener for Phone {
    ghost use Rattle.std.specs.Prelude.{[], true, false};
    ghost use Rattle.std.proofs.Common.{rules};
    ghost use Rattle.nfc_base.specs.declared.frame.Tech.TheVariants as techs;
    ghost use Rattle.dep_link.specs.Target.{darkened};
    ghost use Rattle.dep_link.specs.laws.Delivering.{asked_in, answered_in, left_in, asked_short, told_tech};

    ghost machine = { record {
      tech = λ l. techs.A;
      handed = λ l f. asked_in l.lit l.target f;
      answer = λ l f reply. answered_in l.lit l.target f reply;
      after = λ l f reply. record l { target = left_in l.lit l.target f reply };
      woken = λ l. record l { lit = true };
      darkened = λ l. record { lit = false; target = darkened l.target };
    } };

    ghost identifier = { λ l. [] };

    ghost store = { λ l. [] };

    ghost is_ready = { λ l. false };

    ghost is_selected = { λ l. l.lit };

    fn tech(&self) -> Tech {
        Tech::A
    }

    fn light(&mut self) {
        self.lit = true;
    }

    fn dark(&mut self) {
        self.lit = false;
        self.target.dark();
    }

    fn hear<A: Answerer>(
        &mut self,
        alloc: Global,
        frame: &Frame,
        far: &mut A,
    ) -> Result<Option<Frame>, AllocError> {
        if !self.lit {
            return Ok(None);
        }
        match self.target.hear(frame) {
            TargetStep::Quiet => Ok(None),
            TargetStep::Reply(answer) => Ok(Some(answer)),
            TargetStep::Asleep(answer) => Ok(Some(answer)),
            TargetStep::Released(answer) => Ok(Some(answer)),
            TargetStep::Restart { general, reply } => {
                far.restart(&general);
                Ok(Some(reply))
            }
            TargetStep::Deliver(payload) => {
                let mut reply = Vec::new(alloc);
                if far.answer(alloc, &payload, &mut reply).is_err() {
                    self.target.reply(&[]);
                    return Err(AllocError);
                }
                Ok(Some(self.target.reply(&reply)))
            }
        }
    }

    ghost bounded = { λ l f payload e. asked_short l.lit l.target f payload e };

    ghost own_tech = { λ l f g reply e. told_tech l.lit l.target f reply g e };

    ghost step_keeps = { Prim.search rules };

    ghost light_keeps = { Prim.search rules };

    ghost dark_keeps = { Prim.search rules };

    ghost light_selects = { Prim.search rules };

    ghost stays_selected = { Prim.search rules };

    ghost dark_rests = { Prim.search rules };

    ghost rests = { Prim.search rules };

    ghost ignores = { Prim.search rules };
}

impl PeerListener for Phone {
    ghost target = { λ l. l.target };
}

/// A lit field in which such a device stands alone, with this NFCID3 and these general bytes, and these fates to come.
pub fn phone_field(
    alloc: Global,
    id: [u8; 10],
    general: ArrayVec<u8, 47>,
    fates: &[Fate],
) -> Result<Field<Phone>, Fail>
    ensures lit { IfOk result (λ f. f.lit ≡ true) }
    ensures stands { IfOk result (λ f. (bytes : List ℕ) → HasTarget ⟦<Phone as Listener>⟧ (λ l. l.target) f bytes) }
{
    let target = Target::new(id, 3, general);
    let mut field = Field::new(alloc);
    field.put_in(Phone { lit: false, target })?;
    field.add_fates(fates)?;
    field.reset()?;
    Ok(field)
}
