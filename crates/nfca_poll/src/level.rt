//! Cascade levels.

ghost use Rattle.std.specs.Prelude.{◌≡◌, ◌≤◌, ◌↔◌, length, take, drop, slice_index, nat_eq, Bool, IfSome, IsSome};
ghost use Rattle.std.specs.Cmp.Lexicographic.{pointwise};
ghost use Rattle.nfc_base.specs.declared.frame.Tech.{Tech};
ghost use Rattle.nfc_base.specs.Bits.{bits_of, of_bits};
ghost use Rattle.nfca_poll.specs.Levels.{level, levels, bcc, cascades};
ghost use Rattle.nfca_poll.specs.Calls.{is_sdd, is_sel, known_bits, named_level};
ghost use Rattle.nfca_poll.specs.Front.{begins, level_at};

use crate::ident::{CASCADE_TAG, Ident};
use crate::span::span_frame;
use air_core::bits::{bit_len, shared};
use nfc_base::Frame;
use std::marker::Model;

/// How many bits a level has.
const LEVEL_BITS: usize = 40;

/// A cascade level of an identifier: four bytes and BCC, their check byte (ISO/IEC 14443-3).
#[derive(Clone, Copy, Debug, PartialEq, Eq)]
pub struct Level {
    bytes: [u8; 5],
}

impl Model for Level {
    ghost use Rattle.std.specs.Prelude.{List, ℕ, length, ◌≡◌};

    ghost Value = { List ℕ };

    ghost view = { λ l. l.bytes };

    ghost invariant = { λ l. length l.bytes ≡ 5 };

    ghost inverse = { λ v. record { bytes = v } };
}

impl Level {
    /// The level that sends these four bytes.
    pub fn new(bytes: [u8; 4]) -> Level
        ensures { result ≡ level bytes }
    {
        let [a, b, c, d] = bytes;
        Level {
            bytes: [a, b, c, d, a ^ b ^ c ^ d],
        }
    }

    /// The level that sends these five bytes, where the last of them is the check byte of the others.
    pub fn read_from(bytes: [u8; 5]) -> Option<Level>
        ensures some { IfSome result (λ l. l ≡ bytes) }
        ensures exact { IsSome result ↔ (slice_index bytes 4 ≡ bcc bytes) }
    {
        let [a, b, c, d, _] = bytes;
        let level = Level::new([a, b, c, d]);
        if level.bytes != bytes {
            return None;
        }
        Some(level)
    }

    pub fn bytes(&self) -> [u8; 5]
        ensures { result ≡ self.now }
    {
        self.bytes
    }

    /// Whether it says that another level follows.
    pub fn cascades(&self) -> bool
        ensures { result ≡ cascades self.now }
    {
        self.bytes[0] == CASCADE_TAG
    }

    /// How many levels an identifier has.
    #[tactic(auto, using(crate::proofs::identifiers::LevelParts::levels_count))]
    pub fn count(id: &Ident) -> u8
        ensures count { result ≡ length (levels id.now) }
        ensures low { 1 ≤ result }
        ensures high { result ≤ 3 }
    {
        match id.view().len() {
            4 => 1,
            7 => 2,
            _ => 3,
        }
    }

    /// A level of an identifier. Levels count from 1.
    pub fn of(id: &Ident, level: u8) -> Level
        requires low { 1 ≤ level }
        requires high { level ≤ length (levels id.now) }
        ensures { result ≡ level_at (levels id.now) level }
    {
        let (_, rest) = id.view().split_at(3 * (level as usize - 1));
        if rest.len() == 4 {
            let last: [u8; 4] = rest.try_into().unwrap();
            return Level::new(last);
        }
        Level::new([CASCADE_TAG, rest[0], rest[1], rest[2]])
    }

    /// Whether the known bits of SDD_REQ begin it.
    #[tactic(auto, using(crate::proofs::identifiers::KnownBits::asks_is))]
    pub fn begins_with(&self, frame: &Frame) -> bool
        requires { is_sdd frame.now ≡ Bool.true }
        ensures { result ≡ begins (known_bits frame.now) (bits_of self.now) }
    {
        let known = known_len(frame);
        shared(frame.view().split_at(2).1, known, &self.bytes, LEVEL_BITS) == known
    }

    /// The frame of its bits that SDD_REQ doesn't know.
    #[tactic(auto, using(crate::proofs::identifiers::KnownBits::rest_is))]
    pub fn rest(&self, frame: &Frame) -> Frame
        requires { is_sdd frame.now ≡ Bool.true }
        ensures { result ≡ of_bits Tech.A (drop (length (known_bits frame.now)) (bits_of self.now)) }
    {
        let known = known_len(frame);
        span_frame(&self.bytes, known, LEVEL_BITS)
    }

    /// Whether SEL_REQ names it.
    pub fn is_named_by(&self, frame: &Frame) -> bool
        requires { is_sel frame.now ≡ Bool.true }
        ensures { result ≡ pointwise nat_eq (named_level frame.now) self.now }
    {
        frame.view().split_at(2).1 == self.bytes.as_slice()
    }
}

/// How many bits SDD_REQ knows.
#[tactic(auto, using(crate::proofs::identifiers::KnownBits::sdd_facts, crate::proofs::identifiers::KnownBits::known_at))]
fn known_len(frame: &Frame) -> usize
    requires { is_sdd frame.now ≡ Bool.true }
    ensures bits { known_bits frame.now ≡ take result (bits_of (drop 2 frame.now.bytes)) }
    ensures count { length (known_bits frame.now) ≡ result }
    ensures few { result ≤ 39 }
    ensures held { result ≤ length (bits_of (drop 2 frame.now.bytes)) }
    ensures two { 2 ≤ length frame.now.bytes }
{
    bit_len(frame) - 16
}
