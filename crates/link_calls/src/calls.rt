//! A client's calls on the open link of a field. `counts` say how many PDUs each payload of the client's end has, and
//! `far` is the peer's end, with those of its own payloads.

ghost use Rattle.std.specs.Prelude.{◌≡◌, ◌<◌, ◌≤◌, ◌⊎◌, length, false, Err, IfOk, IfErr, OnOk};
ghost use Rattle.snep_core.specs.Accord.{Accords, AsideFails, GetFails, IsFound, IsGot, IsTaken, PutFails};
ghost use Rattle.snep_core.specs.Calling.{is_memory};
ghost use Rattle.snep_core.specs.declared.fault.SnepFault.{SnepFault};
ghost use Rattle.snep_core.specs.declared.job.Ending.TheVariants.{Done, Sap, Value};
ghost use Rattle.snep_core.specs.declared.job.Job.TheVariants.{Over};
ghost use Rattle.snep_core.specs.Slots.{is_staged_at, put_alone};
ghost use Rattle.snep_core.specs.Talk.{Ends, Finds, Gets, Puts, alone, begins, begins_from, client_sap, one_on};
ghost use Rattle.snep_core.specs.Talk.{sap_of_slot};
ghost use Rattle.link_calls.specs.Asking.{MayAsk};
ghost use Rattle.link_calls.specs.AtOnce.{IsAtRest};
ghost use Rattle.link_calls.specs.Called.{Called, came_to};
ghost use Rattle.link_calls.specs.Calls.{CallFails, IsMade, IsOpen, RequestFails};

use crate::at_once::run_on;
use crate::closing::close_and_release;
use crate::request::LinkRequest;
use air_core::Field;
use dep_link::{DepPair, Initiator, PeerListener};
use llcp_link::{Counted, Counts};
use nfc_base::Items;
use snep_core::{Client, Ending, Refusal, Server, SnepFault};

/// Puts a message of at most 65,536 bytes, where none waits on the client's first slot.
pub fn put_on<L: PeerListener>(
    field: &mut Field<L>,
    initiator: &mut Initiator,
    client: &mut Client,
    far: &mut Counted<Server>,
    counts: Counts,
    message: &[u8],
) -> Result<(), SnepFault>
    requires open_ { IsOpen L.Listener L.target field.old initiator.old }
    requires going { client.old.spent ≡ false }
    requires free { is_staged_at client.old.slots 0 ≡ false }
    requires message { length message.now ≤ 65536 }
    ensures ok { OnOk result (IsMade L.Listener L.target counts (begins client.old.llc (Puts message.now))
        field.old initiator.old far.old field.new initiator.new far.new (Ends (alone (Over Done)) client.new.llc)) }
    ensures going { OnOk result (client.new.spent ≡ false) }
    ensures err { IfErr result (λ e. RequestFails L.Listener L.target counts (begins client.old.llc (Puts message.now))
        field.old initiator.old far.old field.new initiator.new far.new client_sap client.new.llc e) }
    ensures spent { IfErr result (λ e. client.new.spent ≡ is_memory e) }
    ensures taken { Accords client.old.llc far.old.end
        → OnOk result (IsTaken client_sap message.now far.old.end client.new.llc far.new.end) }
    ensures fails { Accords client.old.llc far.old.end
        → IfErr result (λ e. PutFails client_sap message.now far.old.end e client.new.llc far.new.end) }
    ensures slots { (client.new.slots ≡ put_alone result message.now client.old.slots)
        ⊎ ((result ≡ Err SnepFault.Memory) × (client.new.slots ≡ client.old.slots)) }
{
    let mut pair = DepPair::on(field, initiator);
    client.put(&mut pair, far, counts, message)
}

/// The value of a key of at most 65,536 bytes, where it has at most so many bytes, on the connection of a slot.
pub fn get_on<L: PeerListener>(
    field: &mut Field<L>,
    initiator: &mut Initiator,
    client: &mut Client,
    far: &mut Counted<Server>,
    counts: Counts,
    slot: u8,
    acceptable: u32,
    key: &[u8],
) -> Result<Vec<u8>, SnepFault>
    requires open_ { IsOpen L.Listener L.target field.old initiator.old }
    requires going { client.old.spent ≡ false }
    requires slot { slot < 8 }
    requires key { length key.now ≤ 65536 }
    ensures ok { IfOk result (λ value. IsMade L.Listener L.target counts
        (begins_from client.old.llc (sap_of_slot slot) (Gets acceptable key.now))
        field.old initiator.old far.old field.new initiator.new far.new (Ends (one_on (sap_of_slot slot) (Over (Value value.items))) client.new.llc)) }
    ensures going { OnOk result (client.new.spent ≡ false) }
    ensures err { IfErr result (λ e. RequestFails L.Listener L.target counts
        (begins_from client.old.llc (sap_of_slot slot) (Gets acceptable key.now))
        field.old initiator.old far.old field.new initiator.new far.new (sap_of_slot slot) client.new.llc e) }
    ensures spent { IfErr result (λ e. client.new.spent ≡ is_memory e) }
    ensures value { Accords client.old.llc far.old.end
        → IfOk result (λ value. IsGot (sap_of_slot slot) acceptable key.now value.items far.old.end client.new.llc
        far.new.end) }
    ensures fails { Accords client.old.llc far.old.end
        → IfErr result (λ e. GetFails (sap_of_slot slot) acceptable key.now far.old.end e client.new.llc far.new.end) }
    ensures slots { client.new.slots ≡ client.old.slots }
{
    let mut pair = DepPair::on(field, initiator);
    client.get_on(&mut pair, far, counts, slot, acceptable, key)
}

/// The SAP at which the peer has a name of at most 64 bytes, 0 where it has none.
pub fn lookup_on<L: PeerListener>(
    field: &mut Field<L>,
    initiator: &mut Initiator,
    client: &mut Client,
    far: &mut Counted<Server>,
    counts: Counts,
    name: &str,
) -> Result<u8, SnepFault>
    requires open_ { IsOpen L.Listener L.target field.old initiator.old }
    requires going { client.old.spent ≡ false }
    requires name { length name.now ≤ 64 }
    ensures ok { IfOk result (λ sap. IsMade L.Listener L.target counts (begins client.old.llc (Finds name.now))
        field.old initiator.old far.old field.new initiator.new far.new (Ends (alone (Over (Sap sap))) client.new.llc)) }
    ensures going { OnOk result (client.new.spent ≡ false) }
    ensures err { IfErr result (λ e. CallFails L.Listener L.target counts (begins client.old.llc (Finds name.now))
        field.old initiator.old far.old field.new initiator.new far.new client.new.llc e) }
    ensures spent { IfErr result (λ e. client.new.spent ≡ is_memory e) }
    ensures found { Accords client.old.llc far.old.end
        → IfOk result (λ sap. IsFound name.now far.old.end sap client.new.llc far.new.end) }
    ensures fails { Accords client.old.llc far.old.end → IfErr result (λ e. AsideFails far.old.end e far.new.end) }
    ensures slots { client.new.slots ≡ client.old.slots }
{
    let mut pair = DepPair::on(field, initiator);
    client.lookup(&mut pair, far, counts, name)
}

/// The ending of a call that got this value.
fn got(value: Vec<u8>) -> Ending
    ensures { result ≡ Value value.items }
{
    Ending::Value(Items::new(value))
}

/// What a request came to that failed: that it was refused, or that it has no end.
fn refused_or_failed(fault: SnepFault) -> Result<Ending, SnepFault>
    ensures { result ≡ came_to (λ ending. ending) (Err fault) }
{
    match fault {
        SnepFault::Reject => Ok(Ending::Refused(Refusal::Reject)),
        SnepFault::NotFound => Ok(Ending::Refused(Refusal::NotFound)),
        SnepFault::Excess => Ok(Ending::Refused(Refusal::Excess)),
        SnepFault::NotImplemented => Ok(Ending::Refused(Refusal::NotImplemented)),
        SnepFault::LinkEnded(_) | SnepFault::Memory | SnepFault::BadPeer | SnepFault::SlotBusy =>
            Err(fault),
    }
}

/// Asks for what a request says, where no message waits on the client's slots. Behind a closing the link is over; a
/// refusal is an ending, and no fault. Of messages that are put at once each slot tells how its own ended.
pub fn call_on<L: PeerListener>(
    field: &mut Field<L>,
    initiator: &mut Initiator,
    client: &mut Client,
    far: &mut Counted<Server>,
    counts: Counts,
    request: &LinkRequest<'_>,
) -> Result<Ending, SnepFault>
    requires open_ { IsOpen L.Listener L.target field.old initiator.old }
    requires going { client.old.spent ≡ false }
    requires rest { IsAtRest client.old.slots }
    requires may { MayAsk request.now }
    ensures called { Called L.Listener L.target counts request.now client.old.llc client.old.slots
        (record { air = field.old; initiator = initiator.old; far = far.old }) result
        client.new.llc client.new.slots (record { air = field.new; initiator = initiator.new; far = far.new }) }
    ensures going { OnOk result (client.new.spent ≡ false) }
    ensures rest { OnOk result (IsAtRest client.new.slots) }
{
    match *request {
        LinkRequest::Put(message) => match put_on(field, initiator, client, far, counts, message) {
            Ok(()) => Ok(Ending::Done),
            Err(fault) => refused_or_failed(fault),
        },
        LinkRequest::Get { slot, most, key } => {
            match get_on(field, initiator, client, far, counts, slot, most, key) {
                Ok(value) => Ok(got(value)),
                Err(fault) => refused_or_failed(fault),
            }
        }
        LinkRequest::Lookup(name) => {
            match lookup_on(field, initiator, client, far, counts, name) {
                Ok(sap) => Ok(Ending::Sap(sap)),
                Err(fault) => Err(fault),
            }
        }
        LinkRequest::Run(messages) => {
            match run_on(field, initiator, client, far, counts, messages) {
                Ok(()) => Ok(Ending::Done),
                Err(fault) => Err(fault),
            }
        }
        LinkRequest::Close => match close_and_release(field, initiator, client, far, counts) {
            Ok(()) => Ok(Ending::Done),
            Err(fault) => Err(fault),
        },
    }
}
