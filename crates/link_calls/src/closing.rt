//! The last call on a link.

ghost use Rattle.std.specs.Prelude.{◌≡◌, false, IfErr, OnOk};
ghost use Rattle.nfc_base.specs.Far.{Untouched};
ghost use Rattle.dep_link.specs.Releasing.{rls_frame};
ghost use Rattle.snep_core.specs.Accord.{Accords, AsideFails, IsClosed};
ghost use Rattle.snep_core.specs.Calling.{fault_of};
ghost use Rattle.snep_core.specs.Talk.{Ends, all_closed, closes};
ghost use Rattle.link_calls.specs.Calls.{IsOpen};
ghost use Rattle.link_calls.specs.Closing.{ClosingFails, IsReleased};

use air_core::Field;
use dep_link::{DepPair, Initiator, PeerListener, release};
use llcp_link::{Counted, Counts};
use nfc_base::EndCause;
use snep_core::{Client, Server, SnepFault};

/// What a link's end is to its client.
fn fault_at(cause: EndCause) -> SnepFault
    ensures { result ≡ fault_of cause }
{
    match cause {
        EndCause::Memory => SnepFault::Memory,
        EndCause::FieldLost | EndCause::SixBad | EndCause::Protocol => SnepFault::LinkEnded(cause),
    }
}

/// Ends the client's connections that are open, and releases the link: RLS_REQ is sent once, and whatever is heard
/// of it is passed over. The link is over then.
pub fn close_and_release<L: PeerListener>(
    field: &mut Field<L>,
    initiator: &mut Initiator,
    client: &mut Client,
    far: &mut Counted<Server>,
    counts: Counts,
) -> Result<(), SnepFault>
    requires open_ { IsOpen L.Listener L.target field.old initiator.old }
    requires going { client.old.spent ≡ false }
    ensures ok { OnOk result (IsReleased L.Listener L.target counts (closes client.old.llc)
        field.old initiator.old far.old field.new far.new (Ends all_closed client.new.llc)) }
    ensures err { IfErr result (λ e. ClosingFails L.Listener L.target counts (closes client.old.llc)
        field.old initiator.old far.old field.new far.new client.new.llc initiator.new e) }
    ensures going { OnOk result (client.new.spent ≡ false) }
    // Where no listener hands anything over at RLS_REQ:
    ensures closed { Accords client.old.llc far.old.end → ((l : L) → L.machine.handed l rls_frame ≡ Untouched)
        → OnOk result (IsClosed far.old.end client.new.llc far.new.end) }
    ensures fails { Accords client.old.llc far.old.end → ((l : L) → L.machine.handed l rls_frame ≡ Untouched)
        → IfErr result (λ e. AsideFails far.old.end e far.new.end) }
    ensures slots { client.new.slots ≡ client.old.slots }
{
    let mut pair = DepPair::on(field, initiator);
    match client.close(&mut pair, far, counts) {
        Err(fault) => Err(fault),
        Ok(()) => match release(pair, far) {
            Err(end) => Err(fault_at(end.cause)),
            Ok(()) => Ok(()),
        },
    }
}
