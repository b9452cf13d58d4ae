//! The control byte of a DEP frame.

ghost use Rattle.std.specs.Prelude.{◌≡◌, ◌<◌, Some, None, if◌then◌else◌};
ghost use Rattle.dep_pdu.specs.Numbers.{information, more_information};
ghost use Rattle.dep_pdu.specs.Spelling.{pfb_byte};
ghost use Rattle.dep_pdu.specs.Refusal.{pfb_of};

/// The PFB bytes, without the PNI in bits 1 and 0.
const INFORMATION: u8 = 0x00;

const MORE_INFORMATION: u8 = 0x10;

pub(crate) const ACK: u8 = 0x40;

pub(crate) const NACK: u8 = 0x50;

pub(crate) const ATTENTION: u8 = 0x80;

pub(crate) const EXTENSION: u8 = 0x90;

/// What a PFB says. The bits that would announce a device or node address are reserved here.
#[derive(Clone, Copy, Debug, PartialEq, Eq)]
pub(crate) enum Pfb {
    Information { more: bool, pni: u8 },
    Ack { pni: u8 },
    Nack { pni: u8 },
    Attention,
    Extension,
}

impl Pfb {
    /// What a PFB says, `None` where reserved bits stand in it.
    pub(crate) fn read(byte: u8) -> Option<Pfb>
        ensures { result ≡ pfb_of byte }
    {
        if byte == ATTENTION {
            return Some(Pfb::Attention);
        }
        if byte == EXTENSION {
            return Some(Pfb::Extension);
        }
        let pni = byte % 4;
        match byte - pni {
            INFORMATION => Some(Pfb::Information { more: false, pni }),
            MORE_INFORMATION => Some(Pfb::Information { more: true, pni }),
            ACK => Some(Pfb::Ack { pni }),
            NACK => Some(Pfb::Nack { pni }),
            _ => None,
        }
    }
}

/// The PFB of an information frame.
pub(crate) fn information(more: bool, pni: u8) -> u8
    ensures { result ≡ pfb_byte (if more then more_information else information) pni }
{
    if more {
        numbered(MORE_INFORMATION, pni)
    } else {
        numbered(INFORMATION, pni)
    }
}

/// A PFB of this sort with a PNI.
pub(crate) fn numbered(sort: u8, pni: u8) -> u8
    requires { sort < 0xFC }
    ensures { result ≡ pfb_byte sort pni }
{
    sort + pni % 4
}
