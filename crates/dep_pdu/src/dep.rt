//! DEP_REQ and DEP_RES, which carry the payloads.

ghost use Rattle.std.specs.Prelude.{◌≡◌, ◌≤◌, ◌+◌, ◌∷◌, ◌++◌, Some, Bool, length, drop, List};
ghost use Rattle.dep_pdu.specs.Numbers.{pfb_place};
ghost use Rattle.dep_pdu.specs.Spelling.{framed, dep_head};
ghost use Rattle.dep_pdu.specs.Refusal.{pfb};
ghost use Rattle.dep_pdu.specs.Reading.{IsHeaded, TellsNamed};
ghost use Rattle.dep_pdu.specs.declared.head.Head.TheVariants.{Dep};
ghost use Rattle.dep_pdu.specs.declared.pfb.Pfb.TheVariants.{Extension as ExtensionPfb};

use crate::frame::DepFrame;
use crate::head::{ANSWER, DEP_REQ, DEP_RES, REQUEST};
use crate::pfb::Pfb;
use crate::read::alone;
use crate::refusal::{DepKind, DepRefusal};
use crate::write::framed;
use arrayvec::ArrayVec;

/// Where the PFB stands, and behind it the byte of an extension.
const PFB_PLACE: usize = 4;

const TIMES_PLACE: usize = 5;

/// The most times that an extension may ask for the waiting time.
const MOST_TIMES: u8 = 59;

pub(crate) fn read_dep(up: bool, bytes: &[u8]) -> Result<DepFrame, DepRefusal>
    requires { IsHeaded bytes.now }
    ensures { TellsNamed result (Some (Dep up)) bytes.now }
{
    if bytes.len() <= PFB_PLACE {
        return Err(DepRefusal::at(bytes.len(), DepKind::Short));
    }
    match Pfb::read(bytes[PFB_PLACE]) {
        Some(Pfb::Information { more, pni }) => Ok(DepFrame::Info {
            up,
            more,
            pni,
            content: content_of(bytes),
        }),
        Some(Pfb::Ack { pni }) => alone(bytes, PFB_PLACE + 1, DepFrame::Ack { up, pni }),
        Some(Pfb::Nack { pni }) if !up => alone(bytes, PFB_PLACE + 1, DepFrame::Nack { pni }),
        Some(Pfb::Attention) => alone(bytes, PFB_PLACE + 1, DepFrame::Attention { up }),
        Some(Pfb::Extension) => read_extension(up, bytes),
        _ => Err(DepRefusal::at(PFB_PLACE, DepKind::Field)),
    }
}

/// The content of an information frame.
fn content_of(bytes: &[u8]) -> ArrayVec<u8, 251>
    requires least { pfb_place + 1 ≤ length bytes.now }
    requires most { length bytes.now ≤ 256 }
    ensures { result.items ≡ drop (pfb_place + 1) bytes.now }
{
    let mut content = ArrayVec::new();
    content
        .try_extend_from_slice(bytes.split_at(PFB_PLACE + 1).1)
        .unwrap();
    content
}

fn read_extension(up: bool, bytes: &[u8]) -> Result<DepFrame, DepRefusal>
    requires head { IsHeaded bytes.now }
    requires extension { pfb bytes.now ≡ Some ExtensionPfb }
    ensures { TellsNamed result (Some (Dep up)) bytes.now }
{
    if bytes.len() <= TIMES_PLACE {
        return Err(DepRefusal::at(bytes.len(), DepKind::Short));
    }
    let times = bytes[TIMES_PLACE];
    if times < 1 || times > MOST_TIMES {
        return Err(DepRefusal::at(TIMES_PLACE, DepKind::Field));
    }
    alone(bytes, TIMES_PLACE + 1, DepFrame::Extend { up, times })
}

/// The bytes of a DEP frame.
pub(crate) fn dep_bytes(up: bool, pfb: u8, content: &[u8]) -> ArrayVec<u8, 256>
    requires { length content.now ≤ 251 }
    ensures { result.items ≡ framed (dep_head up ++ pfb ∷ content.now) }
{
    let head = if up {
        [ANSWER, DEP_RES]
    } else {
        [REQUEST, DEP_REQ]
    };
    let mut body: ArrayVec<u8, 254> = ArrayVec::new();
    body.try_extend_from_slice(&head).unwrap();
    body.push(pfb);
    body.try_extend_from_slice(content).unwrap();
    framed(&body)
}
