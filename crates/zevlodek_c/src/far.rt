//! The other end of a link, as far as a log goes: it gives the replies of the log, over a carrier that hands each
//! payload over at once.

ghost use Rattle.std.specs.Prelude.{◌≡◌, ◌≤◌, ℕ, List, None, Some, length, false, IfSome};
ghost use Rattle.zevlodek_c.specs.NearReplaying.{SpellsReply};

use crate::entries::{REPLY, entry_of};
use arrayvec::ArrayVec;
use nfc_base::{Answerer, Carrier, EndCause, Items, LinkEnd};
use std::alloc::{AllocError, Global};

/// The longest payload.
pub const MOST_PAYLOAD: usize = 2178;

/// The replies that are left in a log. Behind them it keeps the payload that it is handed, and stops; where what
/// follows is no reply it stops too.
#[derive(Drop)]
pub struct LogFar<'a> {
    pub left: &'a [u8],
    pub asked: Option<Items<u8>>,
    pub odd: bool,
    pub stuck: bool,
}

/// The reply that a log begins with, and what stands behind it.
fn reply_of(log: &[u8]) -> Option<(&[u8], &[u8])>
    ensures some { IfSome result (λ p. SpellsReply p.0.now log.now p.1.now) }
    ensures none { result ≡ None → (reply rest : List ℕ) → SpellsReply reply log.now rest → ⊥ }
{
    let (kind, content, rest) = entry_of(log)?;
    if kind != REPLY || content.len() > MOST_PAYLOAD {
        return None;
    }
    Some((content, rest))
}

impl<'a> Answerer for LogFar<'a> {
    ghost use Rattle.std.specs.Prelude.{⊤};
    ghost use Rattle.zevlodek_c.specs.NearReplaying.{Replies, Stops};

    ghost is_stuck = { λ f. f.stuck };

    ghost restarts = { λ _ _ _. ⊤ };

    ghost steps = { Replies };

    ghost stops = { Stops };

    fn restart(&mut self, _general: &[u8]) {
        self.stuck = false;
    }

    fn answer(
        &mut self,
        alloc: Global,
        payload: &[u8],
        reply: &mut Vec<u8>,
    ) -> Result<(), AllocError> {
        if self.stuck {
            return Err(AllocError);
        }
        if self.left.is_empty() {
            self.stuck = true;
            self.asked = Items::from_bytes(alloc, payload).ok();
            return Err(AllocError);
        }
        let Some((known, left)) = reply_of(self.left) else {
            self.stuck = true;
            self.odd = true;
            return Err(AllocError);
        };
        match Vec::from_slice(alloc, known) {
            Err(_) => {
                self.stuck = true;
                Err(AllocError)
            }
            Ok(bytes) => {
                *reply = bytes;
                self.left = left;
                Ok(())
            }
        }
    }

    ghost fits = { λ a payload reply b did. did.spelled.fits };
}

/// A carrier without an air.
#[derive(Drop)]
pub struct Straight {
    over: Option<EndCause>,
    last: Option<ArrayVec<u8, 2178>>,
    handed: Vec<Items<u8>>,
}

impl Straight {
    pub fn new(alloc: Global) -> Straight
        ensures { result.over ≡ None }
    {
        Straight {
            over: None,
            last: None,
            handed: Vec::new(alloc),
        }
    }

    fn end(&mut self) -> LinkEnd
        ensures over { self.new ≡ record self.old { over = Some EndCause.Memory } }
        ensures told { result ≡ record { cause = EndCause.Memory; answered = false } }
    {
        self.over = Some(EndCause::Memory);
        LinkEnd {
            cause: EndCause::Memory,
            answered: false,
        }
    }
}

impl Carrier for Straight {
    ghost use Rattle.std.specs.Prelude.{[], ⊤};
    ghost use Rattle.std.specs.Option.{option_map};

    ghost seen = { λ c. record {
      over = c.over;
      dark = false;
      counts = record { breaks = 0; six_bad = 0; odd = 0 };
      noise = 0;
      handed = c.handed.items;
      last = option_map (λ l. l.items) c.last;
    } };

    ghost lenders = { λ _. [] };

    ghost ready = { λ _. ⊤ };

    ghost swaps = { λ _ _ _ _. ⊤ };

    fn swap<A: Answerer>(
        &mut self,
        alloc: Global,
        out: &[u8],
        far: &mut A,
    ) -> Result<Vec<u8>, LinkEnd> {
        if let Some(cause) = self.over {
            return Err(LinkEnd {
                cause,
                answered: false,
            });
        }
        let mut sent = ArrayVec::new();
        sent.try_extend_from_slice(out).unwrap();
        self.last = Some(sent);
        let Ok(payload) = Items::from_bytes(alloc, out) else {
            return Err(self.end());
        };
        if self.handed.reserve(1).is_err() {
            return Err(self.end());
        }
        self.handed.push(payload).unwrap();
        let mut reply = Vec::new(alloc);
        match far.answer(alloc, out, &mut reply) {
            Err(_) => Err(self.end()),
            Ok(()) => Ok(reply),
        }
    }
}
