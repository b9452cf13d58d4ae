//! Finding Type 3 tags by SENSF_REQ (NFC Forum Digital Protocol; JIS X 6319-4).

ghost use Rattle.std.specs.Prelude.{◌≡◌, ◌↔◌, Bool, Err, IfSome, IsSome};
ghost use Rattle.nfca_poll.specs.declared.fault.PollFault.TheVariants.{FieldLost};
ghost use Rattle.nfca_poll.specs.Enquiry.{Enquires, LosesByBreak};
ghost use Rattle.nfca_poll.specs.ByHeard.{turns_since};
ghost use Rattle.t3t_access.specs.Polling.{sensf_req, is_sensf_res, nfcid2, polling_f, picking_f, judged_res};
ghost use Rattle.t3t_access.specs.Polling.{TellsPolledF, TellsPickedF, TellsWhyF, TellsMissF};

use air_core::{Field, Listener};
use nfc_base::{Frame, Heard, Tech};
use nfca_poll::{PollFault, ask};

/// SENSF_REQ for tags of the NFC Forum: its length, its code, the system code, no further request, and one time slot.
const SENSF_REQ: [u8; 6] = [0x06, 0x00, 0x12, 0xFC, 0x00, 0x00];

/// The length of SENSF_RES, which is its first byte, and its code.
const SENSF_RES_LENGTH: u8 = 18;

const SENSF_RES: u8 = 0x01;

/// How often a request is sent.
const TRIES: u8 = 4;

/// The Type 3 tags that answer SENSF_REQ: none, one with its identifier, or several.
#[derive(Clone, Copy, Debug, PartialEq, Eq)]
pub enum Fcrowd {
    Nobody,
    One([u8; 8]),
    Crowd,
}

fn request() -> Frame
    ensures { result ≡ sensf_req }
{
    Frame::whole(Tech::F, &SENSF_REQ).unwrap()
}

/// The identifier that SENSF_RES tells.
fn nfcid2(answer: &Frame) -> Option<[u8; 8]>
    ensures some { IfSome result (λ id. id ≡ nfcid2 answer.now) }
    ensures exact { IsSome result ↔ (is_sensf_res answer.now ≡ Bool.true) }
{
    if answer.tail() != 0 || answer.view().len() != SENSF_RES_LENGTH as usize {
        return None;
    }
    match answer.view() {
        [SENSF_RES_LENGTH, SENSF_RES, a, b, c, d, e, f, g, h, ..] => Some([
            *a, *b, *c, *d, *e, *f, *g, *h,
        ]),
        _ => None,
    }
}

/// Asks which Type 3 tags are in a lit field, in up to four tries. In the dark it asks nothing.
pub fn poll_f<L: Listener>(field: &mut Field<L>) -> Result<Fcrowd, PollFault>
    ensures dark { field.old.lit ≡ Bool.false → (result ≡ Err FieldLost) × (field.new ≡ field.old) }
    ensures lost { LosesByBreak field.old result field.new }
    ensures cause { TellsWhyF L.machine field.old result field.new }
    ensures told { field.old.lit ≡ Bool.true → TellsPolledF (turns_since field.old field.new) result }
    ensures turns { field.old.lit ≡ Bool.true → Enquires polling_f L.machine field.old result field.new }
{
    if !field.is_lit() {
        return Err(PollFault::FieldLost);
    }
    let request = request();
    let mut damaged = false;
    for _ in 0..TRIES {
        match ask(field, &request)? {
            Heard::Whole(answer) => {
                return match nfcid2(&answer) {
                    Some(id) => Ok(Fcrowd::One(id)),
                    None => Err(PollFault::BadAnswer),
                };
            }
            Heard::Collided(_) => return Ok(Fcrowd::Crowd),
            Heard::Damaged => damaged = true,
            Heard::Silent => {}
        }
    }
    if damaged {
        return Err(PollFault::Disturbed);
    }
    Ok(Fcrowd::Nobody)
}

/// Whether SENSF_RES is that of the tag which is sought.
fn judge_res(id: [u8; 8], answer: &Frame) -> Result<(), PollFault>
    ensures { result ≡ judged_res id answer.now }
{
    match nfcid2(answer) {
        Some(told) => {
            if told != id {
                return Err(PollFault::NotFound);
            }
            Ok(())
        }
        None => Err(PollFault::BadAnswer),
    }
}

/// Asks for the Type 3 tag with this identifier, in up to four tries. In the dark it asks nothing.
///
/// A clash and a damaged answer may hide it, so they count as its own.
pub fn pick_f<L: Listener>(field: &mut Field<L>, id: [u8; 8]) -> Result<(), PollFault>
    ensures dark { field.old.lit ≡ Bool.false → (result ≡ Err FieldLost) × (field.new ≡ field.old) }
    ensures lost { LosesByBreak field.old result field.new }
    ensures cause { TellsMissF L.machine id field.old result field.new }
    ensures told { field.old.lit ≡ Bool.true → TellsPickedF id (turns_since field.old field.new) result }
    ensures turns { field.old.lit ≡ Bool.true → Enquires (picking_f id) L.machine field.old result field.new }
{
    if !field.is_lit() {
        return Err(PollFault::FieldLost);
    }
    let request = request();
    for _ in 0..TRIES {
        match ask(field, &request)? {
            Heard::Whole(answer) => return judge_res(id, &answer),
            Heard::Collided(_) | Heard::Damaged => return Ok(()),
            Heard::Silent => {}
        }
    }
    Err(PollFault::NotFound)
}
