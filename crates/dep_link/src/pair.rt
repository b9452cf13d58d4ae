//! A link to a peer.

ghost use Rattle.std.specs.Prelude.{◌≡◌, ◌<◌, ◌≤◌, length, drop, false, Some, None, Err, IfOk, vec_len};
ghost use Rattle.nfc_base.specs.LinkTurns.{arrived};
ghost use Rattle.dep_link.specs.Releasing.{Releases, TakesRls};
ghost use Rattle.dep_link.specs.Payloads.{brings_payload};
ghost use Rattle.dep_link.specs.Exchange.{frames_of};
ghost use Rattle.nfc_base.specs.declared.carrier.EndCause.{EndCause};
ghost use Rattle.dep_link.specs.AnyPeer.{Swaps};
ghost use Rattle.dep_link.specs.DepLinks.{seen_pair, first_seen, told_end, IsInStep, IsDepReady, Carries};

use crate::brought::brings_since;
use crate::exchange::{Unanswered, ask_peer};
use crate::frames::air_frame;
use crate::initiator::Initiator;
use crate::listener::PeerListener;
use air_core::{AirFault, Field};
use dep_pdu::DepFrame;
use nfc_base::{Answerer, Carrier, EndCause, LinkEnd};
use std::alloc::Global;

/// The most bytes of a payload (this project's own).
const LIMIT: usize = 2178;

/// A link to the one peer that is selected and alone in a field, which was activated. Each payload is an exchange of
/// NFC-DEP, in which it is handed to the far end at most once.
#[derive(Drop)]
pub struct DepPair<'a, L> {
    field: &'a mut Field<L>,
    initiator: &'a mut Initiator,
    first: u8,
    start: usize,
    over: Option<EndCause>,
}

impl<'a, L: PeerListener> DepPair<'a, L> {
    /// A link of this initiator. It is over where the initiator's last result ended it, or the field is dark.
    pub fn on(field: &'a mut Field<L>, initiator: &'a mut Initiator) -> DepPair<'a, L>
        ensures field { result.field.ghost_name ≡ field.entry.ghost_name }
        ensures initiator { result.initiator.ghost_name ≡ initiator.entry.ghost_name }
        ensures fresh { seen_pair result ≡ first_seen field.old initiator.old }
        ensures ready { IsInStep L.Listener L.target field.old initiator.old
            → IsDepReady L.Listener L.target (seen_pair result) }
    {
        let start = field.trace().len();
        let first = initiator.pni();
        let over = initiator.over(field.is_lit());
        DepPair {
            field,
            initiator,
            first,
            start,
            over,
        }
    }

    /// Carries one payload with whatever stands in the field: turns by the initiator's table, up to the reply or a
    /// fault, by which the link is then over. `swap` is this with a peer that keeps to the target's table.
    pub fn exchange<A: Answerer>(
        &mut self,
        alloc: Global,
        out: &[u8],
        far: &mut A,
    ) -> Result<Vec<u8>, LinkEnd>
        requires bound { length out.now ≤ 2178 }
        ensures size { IfOk result (λ r. vec_len r ≤ 2178) }
        ensures turns { self.old.over ≡ None
            → Swaps L.machine A.restarts A.steps A.stops A.is_stuck
            (seen_pair self.old) far.old (seen_pair self.new) far.new out.now result }
        ensures peer { self.old.over ≡ None → IsDepReady L.Listener L.target (seen_pair self.old)
            → Carries L.Listener L.target A.steps A.stops (seen_pair self.old)
            (seen_pair self.new) out.now far.old far.new result }
        ensures ended { (c : EndCause) → self.old.over ≡ Some c
            → (result ≡ Err (record { cause = c; answered = false })) × (self.new ≡ self.old) × (far.new ≡ far.old) }
        ensures field { self.new.field.ghost_name ≡ self.old.field.ghost_name }
        ensures initiator { self.new.initiator.ghost_name ≡ self.old.initiator.ghost_name }
    {
        if let Some(cause) = self.over {
            return Err(LinkEnd {
                cause,
                answered: false,
            });
        }
        self.carry(alloc, out, far)
    }

    /// One exchange on a link that isn't over.
    fn carry<A: Answerer>(
        &mut self,
        alloc: Global,
        out: &[u8],
        far: &mut A,
    ) -> Result<Vec<u8>, LinkEnd>
        requires open { self.old.over ≡ None }
        requires bound { length out.now ≤ 2178 }
        ensures size { IfOk result (λ r. vec_len r ≤ 2178) }
        ensures field { self.new.field.ghost_name ≡ self.old.field.ghost_name }
        ensures initiator { self.new.initiator.ghost_name ≡ self.old.initiator.ghost_name }
        ensures turns { Swaps L.machine A.restarts A.steps A.stops A.is_stuck
            (seen_pair self.old) far.old (seen_pair self.new) far.new out.now result }
        ensures carries { IsDepReady L.Listener L.target (seen_pair self.old)
            → Carries L.Listener L.target A.steps A.stops (seen_pair self.old)
            (seen_pair self.new) out.now far.old far.new result }
    {
        let request = self.initiator.begin(out);
        let number = self.initiator.pni();
        let start = self.field.trace().len();
        let Ok(mut reply) = Vec::with_capacity(alloc, LIMIT) else {
            return Err(self.end(EndCause::Memory, false));
        };
        match ask_peer(self.field, self.initiator, request, far) {
            Ok(got) => {
                reply.extend_from_slice(&got).unwrap();
                Ok(reply)
            }
            Err(why) => Err(self.end_by(why, start, number)),
        }
    }

    /// The link is over as an exchange ended, whose events begin at that place of the trace and whose first PNI was
    /// this one.
    fn end_by(&mut self, why: Unanswered, start: usize, number: u8) -> LinkEnd
        requires place { start ≤ length self.old.field.now.trace }
        requires number { number < 4 }
        ensures told { result ≡ told_end why
            (brings_payload number (frames_of (arrived (drop start self.old.field.now.trace)))) }
        ensures over { self.new ≡ record self.old { over = Some result.cause } }
    {
        match why {
            Unanswered::Stopped => self.end(EndCause::Memory, false),
            Unanswered::Ended(cause) => {
                let answered = brings_since(self.field.trace(), start, number);
                self.end(cause, answered)
            }
        }
    }

    /// The link is over by this cause.
    fn end(&mut self, cause: EndCause, answered: bool) -> LinkEnd
        ensures told { result ≡ record { cause = cause; answered = answered } }
        ensures over { self.new ≡ record self.old { over = Some cause } }
    {
        self.over = Some(cause);
        LinkEnd { cause, answered }
    }
}

impl<'a, L: PeerListener> Carrier for DepPair<'a, L> {
    ghost use Rattle.std.specs.Prelude.{◌≡◌, [], ◌∷◌, None};
    ghost use Rattle.dep_link.specs.DepLinks.{seen_pair, dep_view, dep_swaps, IsDepReady};

    ghost seen = { λ p. dep_view (seen_pair p) };

    ghost lenders = { λ p. p.field.ghost_name ∷ p.initiator.ghost_name ∷ [] };

    ghost ready = { λ p. p.over ≡ None → IsDepReady L.Listener L.target (seen_pair p) };

    ghost swaps = { λ a out did b. dep_swaps L.Listener L.target (seen_pair a) out did (seen_pair b) };

    fn swap<A: Answerer>(
        &mut self,
        alloc: Global,
        out: &[u8],
        far: &mut A,
    ) -> Result<Vec<u8>, LinkEnd> {
        self.exchange(alloc, out, far)
    }
}

/// Ends a link by RLS_REQ, which is sent once, whatever is heard of it.
pub fn release<'a, L: PeerListener, A: Answerer>(
    pair: DepPair<'a, L>,
    far: &mut A,
) -> Result<(), LinkEnd>
    ensures turn { Releases L.machine A.restarts A.steps A.stops A.is_stuck
        pair.entry.field.now far.old result pair.exit.0.now far.new }
    ensures initiator { pair.exit.1.0.now ≡ pair.entry.initiator.now }
    ensures stays { TakesRls L.Listener L.target pair.entry.field.now → far.new ≡ far.old }
{
    let DepPair { field, .. } = pair;
    match field.transmit(&air_frame(&DepFrame::RlsReq), far) {
        Ok(_) => Ok(()),
        Err(AirFault::FieldLost) => Err(LinkEnd {
            cause: EndCause::FieldLost,
            answered: false,
        }),
        Err(AirFault::Memory) => Err(LinkEnd {
            cause: EndCause::Memory,
            answered: false,
        }),
    }
}
