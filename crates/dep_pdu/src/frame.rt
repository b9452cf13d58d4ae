//! The frames of NFC-DEP.

ghost use Rattle.std.specs.Prelude.{◌≡◌, ◌↔◌, Ok, Err, Some, None};
ghost use Rattle.dep_pdu.specs.Refusal.{dep_refusal};
ghost use Rattle.dep_pdu.specs.Reading.{spelled_frame, told};
ghost use Rattle.dep_pdu.specs.Spelling.{DepSpelling, IsDepFrame, written};
ghost use Rattle.dep_pdu.specs.declared.frame.DepFrame.{DepFrame};
ghost use Rattle.dep_pdu.specs.declared.refusal.DepRefusal.{DepRefusal};

use crate::read::read_frame;
use crate::refusal::DepRefusal;
use crate::write::write_frame;
use arrayvec::ArrayVec;

/// A frame of NFC-DEP (NFCIP-1, ISO/IEC 18092; NFC Forum Digital Protocol). `up` is true from target to initiator, and
/// a PNI is 0 to 3.
#[derive(Clone, Debug, Drop, PartialEq, Eq)]
pub enum DepFrame {
    /// A link begins: the initiator's NFCID3, the code of the longest frames that it takes, 0 to 3 for 64, 128, 192 and
    /// 254 bytes, and its general bytes.
    AtrReq {
        id: [u8; 10],
        lr: u8,
        general: ArrayVec<u8, 48>,
    },
    /// The target's answer, with the code of its waiting time.
    AtrRes {
        id: [u8; 10],
        timeout: u8,
        lr: u8,
        general: ArrayVec<u8, 47>,
    },
    /// A piece of a payload; `more` pieces follow it.
    Info {
        up: bool,
        more: bool,
        pni: u8,
        content: ArrayVec<u8, 251>,
    },
    Ack {
        up: bool,
        pni: u8,
    },
    /// The initiator heard a damaged answer. A target sends none.
    Nack {
        pni: u8,
    },
    Attention {
        up: bool,
    },
    /// 1 to 59 times the waiting time.
    Extend {
        up: bool,
        times: u8,
    },
    /// The target is put to sleep.
    DslReq,
    DslRes,
    /// The target is let go.
    RlsReq,
    RlsRes,
}

impl DepFrame {
    /// The frame that some bytes spell, or their first fault. It takes no memory.
    pub fn read_from(bytes: &[u8]) -> Result<DepFrame, DepRefusal>
        ensures ok { (v : DepFrame) → ((result ≡ Ok v) ↔ DepSpelling v bytes.now) }
        ensures err { (r : DepRefusal) → ((result ≡ Err r) ↔ (dep_refusal bytes.now ≡ Some r)) }
        ensures reads { told result ≡ spelled_frame bytes.now }
    {
        read_frame(bytes)
    }

    /// The bytes that spell it, with BS and BR 00h, and 02h in PP just where general bytes follow. Of an LR code or a
    /// PNI above 3 the two low bits are written. It takes no memory.
    pub fn to_bytes(&self) -> ArrayVec<u8, 256>
        ensures bytes { result.items ≡ written self.now }
        ensures exact { IsDepFrame self.now → DepSpelling self.now result.items }
        ensures back { IsDepFrame self.now → spelled_frame result.items ≡ Some self.now }
    {
        write_frame(self)
    }
}
