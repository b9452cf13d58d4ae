//! Ends whose payloads have given numbers of PDUs.

ghost use Rattle.std.specs.Prelude.{◌≡◌, []};
ghost use Rattle.nfc_base.specs.Choosing.{first_number, later_numbers};
ghost use Rattle.llcp_link.specs.Counting.{AnswersCounted, RestartsCounted, StopsCounted, counted_fit};

use crate::llc::Llc;
use crate::service::Service;
use nfc_base::Answerer;
use std::alloc::{AllocError, Global};
use std::collections::VecDeque;
use std::marker::Model;

/// How many PDUs stand in the next payloads of an end, one number a payload. Where one is 0, or isn't one that is due
/// and fits, and behind the last, it is as many as fit.
#[derive(Debug, Drop)]
pub struct Counts {
    left: VecDeque<u32>,
}

impl Model for Counts {
    ghost use Rattle.std.specs.Prelude.{ℕ, List};

    ghost Value = { List ℕ };

    ghost view = { λ c. c.left.items };
}

impl Counts {
    /// These numbers.
    pub fn new(numbers: Vec<u32>) -> Counts
        ensures { result ≡ numbers.items }
    {
        Counts {
            left: VecDeque::from_vec(numbers),
        }
    }

    /// As many PDUs as fit in each payload. It takes no memory.
    pub fn most(alloc: Global) -> Counts
        ensures { result ≡ [] }
    {
        Counts {
            left: VecDeque::new(alloc),
        }
    }

    /// The next number.
    pub fn next(&mut self) -> u32
        ensures first { result ≡ first_number self.old }
        ensures later { self.new ≡ later_numbers self.old }
    {
        self.left.pop_front().unwrap_or(0)
    }
}

/// An end whose payloads have given numbers of PDUs.
#[derive(Debug, Drop)]
pub struct Counted<S> {
    end: Llc<S>,
    counts: Counts,
}

impl<S> Model for Counted<S> {
    ghost use Rattle.llcp_link.specs.State.{LlcState};
    ghost use Rattle.nfc_base.specs.Choosing.{Choosing};

    ghost Value = { Choosing (LlcState S) };

    ghost view = { λ c. record { end = c.end; numbers = c.counts } };
}

impl<S> Counted<S> {
    /// This end, with these numbers.
    pub fn new(end: Llc<S>, counts: Counts) -> Counted<S>
        ensures { result ≡ record { end = end; numbers = counts } }
    {
        Counted { end, counts }
    }

    /// The end.
    pub fn into_end(self) -> Llc<S>
        ensures { result ≡ self.end }
    {
        self.end
    }
}

impl<S: Service> Answerer for Counted<S> {
    ghost is_stuck = { λ c. c.end.stuck };

    ghost restarts = { RestartsCounted S.serving };

    ghost steps = { AnswersCounted S.serving };

    ghost stops = { StopsCounted S.serving };

    fn restart(&mut self, general: &[u8]) {
        self.end.begin_link(general);
    }

    fn answer(
        &mut self,
        _alloc: Global,
        payload: &[u8],
        reply: &mut Vec<u8>,
    ) -> Result<(), AllocError> {
        let count = self.counts.next();
        if self.end.take(payload).is_err() {
            return Err(AllocError);
        }
        if self.end.give(count, reply).is_err() {
            return Err(AllocError);
        }
        Ok(())
    }

    ghost fits = { counted_fit S.serving };
}
