//! The payloads that came on a link, and the offers of a far end, as C keeps them.

ghost use Rattle.std.specs.Prelude.{◌≡◌, ℕ, List, None, true, false, IfSome};
ghost use Rattle.snep_core.specs.Session.{Offer};
ghost use Rattle.zevlodek_c.specs.Peer.{AreOffers, IsPayloadLog, SpellsOffer, SpellsPayload};

use crate::log::counted;

/// The most bytes of a payload.
const MOST_PAYLOAD: usize = 2178;

/// The payload that a log begins with, and what stands behind it.
pub fn payload_of(log: &[u8]) -> Option<(&[u8], &[u8])>
    ensures some { IfSome result (λ p. SpellsPayload p.0.now log.now p.1.now) }
    ensures none { result ≡ None → (payload rest : List ℕ) → SpellsPayload payload log.now rest → ⊥ }
{
    let (payload, rest) = counted(log)?;
    if payload.len() > MOST_PAYLOAD {
        return None;
    }
    Some((payload, rest))
}

/// The key and the value that offers begin with, and what stands behind them.
pub fn offer_of(offers: &[u8]) -> Option<(&[u8], &[u8], &[u8])>
    ensures some { IfSome result (λ p. SpellsOffer (record { key = p.0.now; value = p.1.now }) offers.now p.2.now) }
    ensures none { result ≡ None → (o : Offer) (rest : List ℕ) → SpellsOffer o offers.now rest → ⊥ }
{
    let (key, rest) = counted(offers)?;
    let (value, rest) = counted(rest)?;
    Some((key, value, rest))
}

/// Whether bytes are a log of payloads.
pub fn is_payload_log(log: &[u8]) -> bool
    ensures yes { result ≡ true → IsPayloadLog log.now }
    ensures no { result ≡ false → IsPayloadLog log.now → ⊥ }
{
    let mut rest = log;
    while !rest.is_empty() {
        let Some((_, left)) = payload_of(rest) else {
            return false;
        };
        rest = left;
    }
    true
}

/// Whether bytes are offers.
pub fn are_offers(offers: &[u8]) -> bool
    ensures yes { result ≡ true → AreOffers offers.now }
    ensures no { result ≡ false → AreOffers offers.now → ⊥ }
{
    let mut rest = offers;
    while !rest.is_empty() {
        let Some((_, _, left)) = offer_of(rest) else {
            return false;
        };
        rest = left;
    }
    true
}
