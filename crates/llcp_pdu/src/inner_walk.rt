//! The PDUs in an AGF, read in place.

ghost use Rattle.std.specs.Prelude.{◌≡◌, ◌+◌, ◌<◌, ◌^◌, length, IfOk, IfErr, IfSome, IfNone, OnOk, [], Err};
ghost use Rattle.llcp_pdu.specs.Parts.{part};
ghost use Rattle.llcp_pdu.specs.Pdus.{inner, inner_first};
ghost use Rattle.llcp_pdu.specs.Reading.{gives};
ghost use Rattle.llcp_pdu.specs.Views.{HoldsParts, IsChecked, IsFirst, parts_in, seen};
ghost use Rattle.llcp_pdu.specs.declared.pdu.Pdu.{Pdu};

use crate::fault::{PduKind, Refusal};
use crate::header::Header;
use crate::pdu_view::{PduView, view_part};
use crate::wire::{HEADER, INNER_LENGTH};
use std::marker::Model;

/// Goes over the PDUs in a slice that `view` gave of an AGF, in their order; none of them is an AGF.
#[derive(Debug, Drop)]
pub struct InnerWalk<'a> {
    rest: &'a [u8],
}

impl<'a> Model for InnerWalk<'a> {
    ghost use Rattle.std.specs.Prelude.{ℕ, List};
    ghost use Rattle.llcp_pdu.specs.Views.{HoldsParts};

    ghost Value = { List ℕ };

    ghost view = { λ walk. walk.rest.now };

    ghost invariant = { λ walk. HoldsParts walk.rest.now };
}

impl<'a> InnerWalk<'a> {
    /// It begins at the length of the first PDU of `inner`.
    pub fn new(inner: &'a [u8]) -> InnerWalk<'a>
        requires { HoldsParts inner.now }
        ensures { result ≡ inner.now }
    {
        InnerWalk { rest: inner }
    }
}

impl<'a> Iterator for InnerWalk<'a> {
    ghost use Rattle.std.specs.Iterator.{item_count};
    ghost use Rattle.llcp_pdu.specs.Views.{GivesPart, parts_in};

    type Item = PduView<'a>;

    ghost next_gives = { GivesPart };

    ghost remaining = { item_count parts_in };

    fn next(&mut self) -> Option<PduView<'a>> {
        let (pdu, tail) = first_part(self.rest)?;
        self.rest = tail;
        Some(pdu)
    }
}

/// The first PDU, and what is behind it.
fn first_part(inner: &[u8]) -> Option<(PduView<'_>, &[u8])>
    requires { HoldsParts inner.now }
    ensures none { IfNone result (parts_in inner.now ≡ []) }
    ensures some { IfSome result (λ x. IsFirst x.0 (parts_in inner.now) (parts_in x.1.now)) }
    ensures left { IfSome result (λ x. HoldsParts x.1.now) }
{
    if inner.is_empty() {
        return None;
    }
    let (one, tail) = split_inner(inner, 0).ok()?;
    let pdu = view_inner(one, INNER_LENGTH).ok()?;
    Some((pdu, tail))
}

/// A PDU in an AGF, which begins at that place.
fn view_inner(bytes: &[u8], at: usize) -> Result<PduView<'_>, Refusal>
    requires { at + length bytes.now < 2 ^ 64 }
    ensures reads { seen result ≡ gives (part bytes.now at) Pdu.One }
    ensures checked { IfOk result IsChecked }
{
    let header = Header::read_from(bytes, at)?;
    view_part(header, bytes.split_at(HEADER).1, at)
}

/// The bytes of the first PDU in an AGF, and what is behind it.
fn split_inner(rest: &[u8], at: usize) -> Result<(&[u8], &[u8]), Refusal>
    requires here { 0 < length rest.now }
    requires place { at + length rest.now < 2 ^ 64 }
    ensures err { IfErr result (λ r. inner rest.now 0 at ≡ Err r) }
    ensures ok { IfOk result (λ x. inner rest.now 0 at ≡ inner_first x.0.now x.1.now at) }
    ensures length { IfOk result (λ x. 2 + length x.0.now + length x.1.now ≡ length rest.now) }
{
    let end = at + rest.len();
    if rest.len() < INNER_LENGTH {
        return Err(Refusal::at(end, PduKind::Short));
    }
    let size = 256 * rest[0] as usize + rest[1] as usize;
    let behind = rest.split_at(INNER_LENGTH).1;
    if behind.len() < size {
        return Err(Refusal::at(end, PduKind::Short));
    }
    Ok(behind.split_at(size))
}

/// Whether some bytes, which stand at that place, are PDUs of an AGF; else the first fault.
pub(crate) fn check_inner(bytes: &[u8], start: usize) -> Result<(), Refusal>
    requires { start + length bytes.now < 2 ^ 64 }
    ensures reads { gives result (λ _. parts_in bytes.now) ≡ inner bytes.now 0 start }
    ensures holds { OnOk result (HoldsParts bytes.now) }
{
    let mut at = start;
    let mut rest = bytes;
    'inner: while !rest.is_empty() {
        let (one, tail) = split_inner(rest, at)?;
        view_inner(one, at + INNER_LENGTH)?;
        at += INNER_LENGTH + one.len();
        rest = tail;
    }
    Ok(())
}
