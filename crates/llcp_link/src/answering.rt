//! An end as the far end of a link, which gives as many PDUs in a payload as fit.

ghost use Rattle.std.specs.Prelude.{◌≡◌};
ghost use Rattle.llcp_link.specs.Answering.{Answers, Stops, answers_fit};
ghost use Rattle.llcp_link.specs.State.{restarted};

use crate::llc::Llc;
use crate::service::Service;
use nfc_base::Answerer;
use std::alloc::{AllocError, Global};

impl<S: Service> Answerer for Llc<S> {
    ghost is_stuck = { λ l. l.stuck };

    ghost restarts = { λ old general new. new ≡ restarted S.serving old general };

    ghost steps = { Answers S.serving 0 };

    ghost stops = { Stops S.serving };

    fn restart(&mut self, general: &[u8]) {
        self.begin_link(general);
    }

    fn answer(
        &mut self,
        _alloc: Global,
        payload: &[u8],
        reply: &mut Vec<u8>,
    ) -> Result<(), AllocError> {
        if self.take(payload).is_err() {
            return Err(AllocError);
        }
        if self.give(0, reply).is_err() {
            return Err(AllocError);
        }
        Ok(())
    }

    ghost fits = { answers_fit S.serving 0 };
}
