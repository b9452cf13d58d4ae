//! The parameters of CONNECT, CC and SNL, read in place.

ghost use Rattle.std.specs.Prelude.{◌≡◌, ◌+◌, ◌*◌, ◌<◌, ◌^◌, ℕ, List, length, option_map, OnOk, IfSome, IfNone, []};
ghost use Rattle.std.specs.Prelude.{◌∷◌, true};
ghost use Rattle.llcp_pdu.specs.Params.{one as one_of, two as two_of, param, params, params_first};
ghost use Rattle.llcp_pdu.specs.Params.{is_sized as has_size, tlv};
ghost use Rattle.llcp_pdu.specs.Reading.{refused, gives};
ghost use Rattle.llcp_pdu.specs.Views.{HoldsParams, params_in, shown_param};
ghost use Rattle.llcp_pdu.specs.declared.fault.PduKind.TheVariants.{Parameter};
ghost use Rattle.llcp_pdu.specs.declared.param.Param.{Param};

use crate::fault::{PduKind, Refusal};
use crate::wire::{LTO, MIUX, MIUX_END, OPT, RW, RW_END, SDREQ, SDRES, SN, VERSION, WKS};
use std::marker::Model;

/// A parameter as it stands in bytes (NFC Forum LLCP 1.3); `Param` says what each is.
#[derive(Clone, Copy, Debug, Drop, PartialEq, Eq)]
pub enum ParamView<'a> {
    Version(u8),
    Miux(u16),
    Wks(u16),
    Lto(u8),
    Rw(u8),
    Sn(&'a [u8]),
    Opt(u8),
    SdReq { tid: u8, name: &'a [u8] },
    SdRes { tid: u8, sap: u8 },
}

/// Goes over the parameters of known types in a slice that `view` gave, in their order.
#[derive(Debug, Drop)]
pub struct ParamWalk<'a> {
    rest: &'a [u8],
}

impl<'a> Model for ParamWalk<'a> {
    ghost use Rattle.std.specs.Prelude.{ℕ, List};
    ghost use Rattle.llcp_pdu.specs.Views.{HoldsParams};

    ghost Value = { List ℕ };

    ghost view = { λ walk. walk.rest.now };

    ghost invariant = { λ walk. HoldsParams walk.rest.now };
}

impl<'a> ParamWalk<'a> {
    /// It begins at the first parameter of `params`.
    pub fn new(params: &'a [u8]) -> ParamWalk<'a>
        requires { HoldsParams params.now }
        ensures { result ≡ params.now }
    {
        ParamWalk { rest: params }
    }
}

impl<'a> Iterator for ParamWalk<'a> {
    ghost use Rattle.std.specs.Iterator.{item_count, YieldsFirstBy};
    ghost use Rattle.llcp_pdu.specs.Views.{params_in, shown_param};

    type Item = ParamView<'a>;

    ghost next_gives = { YieldsFirstBy shown_param params_in };

    ghost remaining = { item_count params_in };

    fn next(&mut self) -> Option<ParamView<'a>> {
        let (param, tail) = first_param(self.rest)?;
        self.rest = tail;
        Some(param)
    }
}

/// The first parameter of a known type, and what is behind it.
fn first_param(params: &[u8]) -> Option<(ParamView<'_>, &[u8])>
    requires { HoldsParams params.now }
    ensures none { IfNone result (params_in params.now ≡ []) }
    ensures some { IfSome result (λ x. params_in params.now ≡ shown_param x.0 ∷ params_in x.1.now) }
    ensures left { IfSome result (λ x. HoldsParams x.1.now) }
{
    let mut rest = params;
    'params: while !rest.is_empty() {
        let (kind, value, tail) = split_param(rest)?;
        if let Some(param) = param_view(kind, value) {
            return Some((param, tail));
        }
        rest = tail;
    }
    None
}

/// The byte of a value of one byte.
pub(crate) fn one(value: &[u8]) -> Option<u8>
    ensures { (f : ℕ → Param) → one_of f value.now ≡ option_map f result }
{
    match value {
        [byte] => Some(*byte),
        _ => None,
    }
}

/// The bytes of a value of two bytes.
pub(crate) fn two(value: &[u8]) -> Option<(u8, u8)>
    ensures { (f : ℕ → ℕ → Param) → two_of f value.now ≡ option_map (λ x. f x.0 x.1) result }
{
    match value {
        [first, second] => Some((*first, *second)),
        _ => None,
    }
}

/// Two bytes as a number, high byte first.
pub(crate) fn word(bytes: (u8, u8)) -> u16
    ensures { result ≡ 256 * bytes.0 + bytes.1 }
{
    256 * bytes.0 as u16 + bytes.1 as u16
}

/// Whether a known type has values of this length.
fn is_sized(kind: u8, value: &[u8]) -> bool
    ensures { result ≡ has_size (tlv kind value.now) }
{
    match kind {
        VERSION | LTO | RW | OPT => value.len() == 1,
        MIUX | WKS | SDRES => value.len() == 2,
        SDREQ => !value.is_empty(),
        _ => true,
    }
}

/// The parameter of a type and a value, where the type is known and has such values.
fn param_view(kind: u8, value: &[u8]) -> Option<ParamView<'_>>
    ensures { option_map shown_param result ≡ param kind value.now }
{
    match kind {
        VERSION => Some(ParamView::Version(one(value)?)),
        MIUX => Some(ParamView::Miux(word(two(value)?) % MIUX_END)),
        WKS => Some(ParamView::Wks(word(two(value)?))),
        LTO => Some(ParamView::Lto(one(value)?)),
        RW => Some(ParamView::Rw(one(value)? % RW_END)),
        SN => Some(ParamView::Sn(value)),
        OPT => Some(ParamView::Opt(one(value)?)),
        SDREQ => {
            let (tid, name) = value.split_first()?;
            Some(ParamView::SdReq { tid: *tid, name })
        }
        SDRES => {
            let (tid, sap) = two(value)?;
            Some(ParamView::SdRes { tid, sap })
        }
        _ => None,
    }
}

/// The type and the value of the first parameter, and what is behind it.
pub(crate) fn split_param(rest: &[u8]) -> Option<(u8, &[u8], &[u8])>
    requires { 0 < length rest.now }
    ensures none { IfNone result ((at : ℕ) → params rest.now 0 at ≡ refused Parameter at) }
    ensures some { IfSome result (λ x. (at : ℕ) → params rest.now 0 at ≡ params_first x.0 x.1.now x.2.now at) }
    ensures sized { IfSome result (λ x. has_size (tlv x.0 x.1.now) ≡ true) }
    ensures length { IfSome result (λ x. 2 + length x.1.now + length x.2.now ≡ length rest.now) }
{
    if rest.len() < 2 {
        return None;
    }
    let kind = rest[0];
    let size = rest[1] as usize;
    let behind = rest.split_at(2).1;
    if behind.len() < size {
        return None;
    }
    let (value, tail) = behind.split_at(size);
    if !is_sized(kind, value) {
        return None;
    }
    Some((kind, value, tail))
}

/// Whether some bytes, which stand at that place, are parameters; else the first fault.
pub(crate) fn check_params(bytes: &[u8], start: usize) -> Result<(), Refusal>
    requires { start + length bytes.now < 2 ^ 64 }
    ensures reads { gives result (λ _. params_in bytes.now) ≡ params bytes.now 0 start }
    ensures holds { OnOk result (HoldsParams bytes.now) }
{
    let mut at = start;
    let mut rest = bytes;
    'params: while !rest.is_empty() {
        let Some((_, value, tail)) = split_param(rest) else {
            return Err(Refusal::at(at, PduKind::Parameter));
        };
        at += 2 + value.len();
        rest = tail;
    }
    Ok(())
}
