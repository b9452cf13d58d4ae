//! Frames of the air.

ghost use Rattle.std.specs.Prelude.{◌≡◌, ◌≤◌, ◌<◌, ◌↔◌, length, IfOk, IsErrOf, IsOk, IsTrue};
ghost use Rattle.nfc_base.specs.Signal.{Signal, signal, IsSignal, IsBadTail};
ghost use Rattle.nfc_base.specs.Bits.{bits};
ghost use Rattle.nfc_base.specs.Numbers.{frame_fault_number};

use arrayvec::ArrayVec;
use std::marker::Model;
use thiserror::Error;

/// The technology of a frame: NFC-A, NFC-V or NFC-F (NFC Forum Digital Protocol).
#[derive(Clone, Copy, Debug, PartialEq, Eq)]
pub enum Tech {
    A,
    V,
    F,
}

/// Why some bytes are no frame.
#[derive(Clone, Copy, Debug, PartialEq, Eq, Error)]
pub enum FrameFault {
    #[error("the frame has more than 288 bytes")]
    TooLong = 1,
    #[error("the last byte has other bits than its tail counts")]
    BadTail = 2,
}

impl FrameFault {
    /// Its number in reports and tests.
    pub fn number(&self) -> u8
        ensures { result ≡ frame_fault_number self.now }
    {
        *self as u8
    }
}

/// A frame of at most 288 bytes, without check bytes, least significant bit of each byte first.
/// The tail is 0 where all bytes are whole, else how many low bits of the last byte are sent.
#[derive(Clone, Debug, Drop, PartialEq, Eq)]
pub struct Frame {
    tech: Tech,
    bytes: ArrayVec<u8, 288>,
    tail: u8,
}

impl Model for Frame {
    ghost use Rattle.nfc_base.specs.Signal.{Signal, IsSignal};

    ghost Value = { Signal };

    ghost view = { λ f. record { tech = f.tech; bytes = f.bytes.items; tail = f.tail } };

    ghost invariant = { λ f. IsSignal (record { tech = f.tech; bytes = f.bytes.items; tail = f.tail }) };

    ghost inverse = { λ v. record { tech = v.tech; bytes = record { items = v.bytes }; tail = v.tail } };
}

impl Frame {
    /// A frame of whole bytes.
    pub fn whole(tech: Tech, bytes: &[u8]) -> Result<Frame, FrameFault>
        ensures ok { IfOk result (λ f. f ≡ signal tech bytes.now 0) }
        ensures fits { IsOk result ↔ (length bytes.now ≤ 288) }
        ensures too_long { IsErrOf result FrameFault.TooLong ↔ (288 < length bytes.now) }
    {
        Frame::part(tech, bytes, 0)
    }

    /// A frame that sends only the low `tail` bits of its last byte; all of them where `tail` is 0.
    pub fn part(tech: Tech, bytes: &[u8], tail: u8) -> Result<Frame, FrameFault>
        ensures ok { IfOk result (λ f. f ≡ signal tech bytes.now tail) }
        ensures fits { IsOk result ↔ ((length bytes.now ≤ 288) × (IsBadTail bytes.now tail → ⊥)) }
        ensures too_long { IsErrOf result FrameFault.TooLong ↔ (288 < length bytes.now) }
        ensures bad_tail { IsErrOf result FrameFault.BadTail ↔ ((length bytes.now ≤ 288) × IsBadTail bytes.now tail) }
    {
        let mut content = ArrayVec::new();
        if content.try_extend_from_slice(bytes).is_err() {
            return Err(FrameFault::TooLong);
        }
        if tail > 7 {
            return Err(FrameFault::BadTail);
        }
        if tail > 0 {
            match bytes.last() {
                None => return Err(FrameFault::BadTail),
                Some(&last) => {
                    if last >= 1 << tail {
                        return Err(FrameFault::BadTail);
                    }
                }
            }
        }
        Ok(Frame {
            tech,
            bytes: content,
            tail,
        })
    }

    pub fn tech(&self) -> Tech
        ensures { result ≡ self.now.tech }
    {
        self.tech
    }

    /// The bytes; of the last one the low bits that the tail counts, the others 0.
    pub fn view(&self) -> &[u8]
        ensures bytes { result.now ≡ self.now.bytes }
        ensures frame { IsSignal self.now }
    {
        self.bytes.as_slice()
    }

    pub fn tail(&self) -> u8
        ensures tail { result ≡ self.now.tail }
        ensures bound { result < 8 }
    {
        self.tail
    }

    /// Whether another frame is sent the same way: of the same technology, with the same bits.
    pub fn is_same(&self, other: &Frame) -> bool
        ensures frame { IsTrue result ↔ (self.now ≡ other.now) }
        ensures bits { IsTrue result ↔ ((self.now.tech ≡ other.now.tech) × (bits self.now ≡ bits other.now)) }
    {
        self.tech == other.tech && self.tail == other.tail && self.bytes == other.bytes
    }

    /// The same frame again. It takes no memory.
    pub fn copy(&self) -> Frame
        ensures { result ≡ self.now }
    {
        let mut bytes = ArrayVec::new();
        bytes.try_extend_from_slice(&self.bytes).unwrap();
        Frame {
            tech: self.tech,
            bytes,
            tail: self.tail,
        }
    }
}

#[cfg(test)]
mod tests {
    use super::*;
    use std::test::Fail;

    /// The fault that the bytes with this tail have, 0 for none.
    fn fault(bytes: &[u8], tail: u8) -> u8 {
        match Frame::part(Tech::A, bytes, tail) {
            Ok(_) => 0,
            Err(fault) => fault.number(),
        }
    }

    #[test]
    fn frames_and_what_is_none(rt: HostRuntime) -> Result<(), Fail> {
        let long = [0; 289];
        assert_eq!(rt; fault(&long[..288], 0), 0, "288 bytes");
        assert_eq!(rt; fault(&long, 9), 1, "the length comes first");
        assert_eq!(rt; fault(&[0x26], 7), 0, "SENS_REQ");
        assert_eq!(rt; fault(&[0xA6], 7), 2, "a bit that isn't sent");
        assert_eq!(rt; fault(&[0x26], 8), 2, "eight bits are a whole byte");
        assert_eq!(rt; fault(&[], 1), 2, "no byte to send in part");
        let sens = Frame::part(Tech::A, &[0x26], 7)?;
        let whole = Frame::whole(Tech::A, &[0x26])?;
        let other = Frame::part(Tech::V, &[0x26], 7)?;
        assert!(rt; sens.is_same(&sens.copy()));
        assert!(rt; !sens.is_same(&whole));
        assert!(rt; !sens.is_same(&other));
        Ok(())
    }
}
