//! The PDUs that wait to be given.

ghost use Rattle.std.specs.Prelude.{◌≡◌, ◌<◌, true, vec_len, vec_capacity, [], ◌∷◌, ◌++◌, OnOk, OnErr};
ghost use Rattle.llcp_link.specs.Kept.{AllSent, IsSent};
ghost use Rattle.llcp_link.specs.Taking.{answers_in as count_answers};

use llcp_pdu::Part;
use std::alloc::AllocError;
use std::marker::Model;

/// A PDU that waits to be given: one of this end's own requests, or an answer.
#[derive(Debug, Drop)]
pub(crate) struct Queued {
    pub(crate) own: bool,
    pub(crate) part: Part,
}

impl Model for Queued {
    ghost use Rattle.llcp_link.specs.State.{Queued};

    ghost Value = { Queued };

    ghost view = { λ q. record { own = q.own; part = q.part } };
}

/// How many answers wait.
pub(crate) fn answers_in(queue: &[Queued]) -> usize
    ensures { result ≡ count_answers queue.now }
{
    let mut count = 0;
    'queue: for queued in queue {
        if !queued.own {
            count += 1;
        }
    }
    count
}

/// One more waits.
#[tactic(auto, using(crate::proofs::Lists::all_sent_more))]
pub(crate) fn push(queue: &mut Vec<Queued>, own: bool, part: Part) -> Result<(), AllocError>
    requires sent { IsSent part }
    requires all { AllSent queue.old.items }
    ensures ok { OnOk result (queue.new.items ≡ queue.old.items ++ record { own = own; part = part } ∷ []) }
    ensures all { OnOk result (AllSent queue.new.items) }
    ensures err { OnErr result (queue.new.items ≡ queue.old.items) }
{
    match queue.push(Queued { own, part }) {
        Ok(()) => Ok(()),
        Err(_) => Err(AllocError),
    }
}

/// One of this end's own requests waits, for which there is room.
#[tactic(auto, using(crate::proofs::Lists::all_sent_more))]
pub(crate) fn push_own(queue: &mut Vec<Queued>, part: Part)
    requires sent { IsSent part }
    requires all { AllSent queue.old.items }
    requires room { vec_len queue.old < vec_capacity queue.old }
    ensures ok { queue.new.items ≡ queue.old.items ++ record { own = true; part = part } ∷ [] }
    ensures all { AllSent queue.new.items }
{
    queue.push(Queued { own: true, part }).unwrap();
}
