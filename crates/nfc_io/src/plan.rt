//! Which calls of an end in memory fail.
ghost use Rattle.std.specs.Prelude.{◌≡◌, ◌≤◌, ◌↔◌, IsTrue};
ghost use Rattle.nfc_io.specs.Counts.{count_up};

use crate::failed::Failed;
use std::marker::Model;

/// The numbers of the calls that fail, counted from 1, and the counts of calls and of faults.
#[derive(Debug, Drop)]
pub(crate) struct FaultPlan {
    failing: Vec<u32>,
    calls: u64,
    faults: u64,
}

impl Model for FaultPlan {
    ghost use Rattle.nfc_io.specs.Memory.{Plan};

    ghost Value = { Plan };

    ghost view = { λ p. record { failing = p.failing.items; calls = p.calls; faults = p.faults } };
}

impl FaultPlan {
    ghost use Rattle.nfc_io.specs.Memory.{FailsNext, after_call, new_plan};

    /// A plan under which the calls of these numbers fail.
    pub fn new(failing: Vec<u32>) -> FaultPlan
        ensures { result ≡ new_plan failing.items }
    {
        FaultPlan {
            failing,
            calls: 0,
            faults: 0,
        }
    }

    /// Counts a call, and says whether it fails.
    pub fn call(&mut self) -> bool
        ensures answer { IsTrue result ↔ FailsNext self.old }
        ensures step { self.new ≡ after_call self.old }
    {
        self.calls = self.calls.saturating_add(1);
        let call = self.calls;
        self.failing.iter().any(|&number| u64::from(number) == call)
    }

    /// Counts the fault of the call that was counted last.
    pub fn fail(&mut self) -> Failed
        ensures step { self.new ≡ record self.old { faults = count_up self.old.faults } }
        ensures count { self.old.faults ≤ self.new.faults }
    {
        self.faults = self.faults.saturating_add(1);
        Failed
    }
}
