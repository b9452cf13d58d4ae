//! Finding NFC-V devices by inventory.

ghost use Rattle.std.specs.Prelude.{◌≡◌, ◌↔◌, Bool, Err, IfSome, IsSome};
ghost use Rattle.nfca_poll.specs.declared.fault.PollFault.TheVariants.{FieldLost};
ghost use Rattle.nfca_poll.specs.Enquiry.{Enquires, LosesByBreak};
ghost use Rattle.nfca_poll.specs.Inventory.{inventory_all, inventory_of, inventory, picking_v, is_present, answered_id};
ghost use Rattle.nfca_poll.specs.Inventory.{TellsWhy, TellsMiss};
ghost use Rattle.nfca_poll.specs.ByHeard.{turns_since, TellsInventory, TellsPickedV};

use crate::fault::PollFault;
use crate::requests::ask;
use air_core::{Field, Listener};
use nfc_base::{Frame, Heard, Tech};

/// The flags of an inventory of one slot, its code, and the length of a mask of a whole identifier in bits (ISO/IEC
/// 15693-3).
const ONE_SLOT: u8 = 0x26;

const INVENTORY: u8 = 0x01;

const WHOLE_MASK: u8 = 0x40;

/// How often a request is sent.
const TRIES: u8 = 4;

/// The NFC-V devices that answer an inventory: none, one with its identifier, high byte first, or several.
#[derive(Clone, Copy, Debug, PartialEq, Eq)]
pub enum Vcrowd {
    Nobody,
    One([u8; 8]),
    Crowd,
}

fn inventory_req() -> Frame
    ensures { result ≡ inventory_all }
{
    Frame::whole(Tech::V, &[ONE_SLOT, INVENTORY, 0]).unwrap()
}

fn inventory_req_of(id: [u8; 8]) -> Frame
    ensures { result ≡ inventory_of id }
{
    let [a, b, c, d, e, f, g, h] = id;
    let bytes = [ONE_SLOT, INVENTORY, WHOLE_MASK, h, g, f, e, d, c, b, a];
    Frame::whole(Tech::V, &bytes).unwrap()
}

/// The identifier that an answer to an inventory tells, high byte first.
fn present_id(answer: &Frame) -> Option<[u8; 8]>
    ensures some { IfSome result (λ id. id ≡ answered_id answer.now) }
    ensures exact { IsSome result ↔ (is_present answer.now ≡ Bool.true) }
{
    if answer.tail() != 0 {
        return None;
    }
    match answer.view() {
        [_flags, _dsfid, a, b, c, d, e, f, g, h] => Some([*h, *g, *f, *e, *d, *c, *b, *a]),
        _ => None,
    }
}

/// Asks which NFC-V devices are in a lit field, in up to four tries. In the dark it asks nothing.
pub fn inventory_one<L: Listener>(field: &mut Field<L>) -> Result<Vcrowd, PollFault>
    ensures dark { field.old.lit ≡ Bool.false → (result ≡ Err FieldLost) × (field.new ≡ field.old) }
    ensures lost { LosesByBreak field.old result field.new }
    ensures cause { TellsWhy L.machine field.old result field.new }
    ensures told { field.old.lit ≡ Bool.true → TellsInventory (turns_since field.old field.new) result }
    ensures turns { field.old.lit ≡ Bool.true → Enquires inventory L.machine field.old result field.new }
{
    if !field.is_lit() {
        return Err(PollFault::FieldLost);
    }
    let request = inventory_req();
    let mut damaged = false;
    for _ in 0..TRIES {
        match ask(field, &request)? {
            Heard::Whole(answer) => {
                return match present_id(&answer) {
                    Some(id) => Ok(Vcrowd::One(id)),
                    None => Err(PollFault::BadAnswer),
                };
            }
            Heard::Collided(_) => return Ok(Vcrowd::Crowd),
            Heard::Damaged => damaged = true,
            Heard::Silent => {}
        }
    }
    if damaged {
        return Err(PollFault::Disturbed);
    }
    Ok(Vcrowd::Nobody)
}

/// Asks for the NFC-V device with this identifier, high byte first, in up to four tries. In the dark it asks nothing.
pub fn pick_v<L: Listener>(field: &mut Field<L>, id: [u8; 8]) -> Result<(), PollFault>
    ensures dark { field.old.lit ≡ Bool.false → (result ≡ Err FieldLost) × (field.new ≡ field.old) }
    ensures lost { LosesByBreak field.old result field.new }
    ensures cause { TellsMiss L.machine id field.old result field.new }
    ensures told { field.old.lit ≡ Bool.true → TellsPickedV (turns_since field.old field.new) result }
    ensures turns { field.old.lit ≡ Bool.true → Enquires (picking_v id) L.machine field.old result field.new }
{
    if !field.is_lit() {
        return Err(PollFault::FieldLost);
    }
    let request = inventory_req_of(id);
    for _ in 0..TRIES {
        match ask(field, &request)? {
            Heard::Whole(answer) => {
                return match present_id(&answer) {
                    Some(_) => Ok(()),
                    None => Err(PollFault::BadAnswer),
                };
            }
            Heard::Collided(_) | Heard::Damaged => return Ok(()),
            Heard::Silent => {}
        }
    }
    Err(PollFault::NotFound)
}
