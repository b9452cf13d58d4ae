//! What an end does on its link.

ghost use Rattle.std.specs.Prelude.{◌≡◌, true, false, IsErr, OnOk, OnErr};
ghost use Rattle.llcp_link.specs.Halting.{IsStuck};
ghost use Rattle.llcp_link.specs.State.{restarted};
ghost use Rattle.llcp_link.specs.Taking.{brought, taken_from};

use crate::llc::Llc;
use crate::service::Service;
use llcp_pdu::{LEAST_MIU, general_read};
use std::alloc::AllocError;

impl<S: Service> Llc<S> {
    /// Begins a new link with the other end's general bytes. It takes no memory.
    pub(crate) fn begin_link(&mut self, general: &[u8])
        ensures new { self.new ≡ restarted S.serving self.old general.now }
    {
        match general_read(general) {
            Ok(params) => {
                self.readable = true;
                self.far_miu = params.miu;
            }
            Err(_) => {
                self.readable = false;
                self.far_miu = LEAST_MIU;
            }
        }
        self.queue.clear();
        self.served.clear();
        self.own.clear();
        self.lookups.clear();
        self.asked = 0;
        self.last = None;
        self.stuck = false;
        self.service.restart();
    }

    /// Handles one received payload.
    #[tactic(auto, using(crate::proofs::StepsSoFar::stands_still))]
    pub fn take(&mut self, bytes: &[u8]) -> Result<(), AllocError>
        ensures ok { OnOk result (self.new ≡ taken_from S.serving self.old bytes.now) }
        ensures going { OnOk result ((self.old.stuck ≡ false) × (self.new.stuck ≡ false)) }
        ensures stuck { self.old.stuck ≡ true → IsErr result }
        ensures err { OnErr result (IsStuck S.serving self.old (brought self.old bytes.now) self.new) }
    {
        if self.stuck {
            return Err(AllocError);
        }
        if !self.readable {
            return Ok(());
        }
        if self.take_payload(bytes).is_err() {
            self.stuck = true;
            return Err(AllocError);
        }
        Ok(())
    }
}
