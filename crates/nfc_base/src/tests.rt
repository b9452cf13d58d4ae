//! A carrier without an air, and a caller of any carrier.

ghost use Rattle.std.specs.Prelude.{◌≡◌, ◌≤◌, length, Bool, IfErr, Some};

use crate::{Answerer, Carrier, EndCause, Items, LinkEnd, Mute};
use arrayvec::ArrayVec;
use std::alloc::Global;
use std::test::Fail;

/// Hands each payload over at once.
#[derive(Drop)]
struct Straight {
    over: Option<EndCause>,
    last: Option<ArrayVec<u8, 2178>>,
    handed: Vec<Items<u8>>,
}

impl Straight {
    ghost use Rattle.std.specs.Prelude.{◌≡◌, false};

    fn end(&mut self) -> LinkEnd
        ensures over { self.new ≡ record self.old { over = Some EndCause.Memory } }
        ensures told { result ≡ record { cause = EndCause.Memory; answered = false } }
    {
        self.over = Some(EndCause::Memory);
        LinkEnd {
            cause: EndCause::Memory,
            answered: false,
        }
    }
}

impl Carrier for Straight {
    ghost use Rattle.std.specs.Prelude.{[], false, ⊤};
    ghost use Rattle.std.specs.Option.{option_map};

    ghost seen = { λ c. record {
      over = c.over;
      dark = false;
      counts = record { breaks = 0; six_bad = 0; odd = 0 };
      noise = 0;
      handed = c.handed.items;
      last = option_map (λ l. l.items) c.last;
    } };

    ghost lenders = { λ _. [] };

    ghost ready = { λ _. ⊤ };

    ghost swaps = { λ _ _ _ _. ⊤ };

    fn swap<A: Answerer>(
        &mut self,
        alloc: Global,
        out: &[u8],
        far: &mut A,
    ) -> Result<Vec<u8>, LinkEnd> {
        if let Some(cause) = self.over {
            return Err(LinkEnd {
                cause,
                answered: false,
            });
        }
        let mut sent = ArrayVec::new();
        sent.try_extend_from_slice(out).unwrap();
        self.last = Some(sent);
        let Ok(payload) = Items::from_bytes(alloc, out) else {
            return Err(self.end());
        };
        if self.handed.reserve(1).is_err() {
            return Err(self.end());
        }
        self.handed.push(payload).unwrap();
        let mut reply = Vec::new(alloc);
        match far.answer(alloc, out, &mut reply) {
            Err(_) => Err(self.end()),
            Ok(()) => Ok(reply),
        }
    }
}

/// Swaps, and once more behind a fault: what is told then was told before.
fn swap_behind_a_fault<C: Carrier, A: Answerer>(
    alloc: Global,
    link: &mut C,
    far: &mut A,
    out: &[u8],
) -> Result<Vec<u8>, LinkEnd>
    requires ready { C.ready link.old }
    requires bound { length out.now ≤ 2178 }
    ensures over { IfErr result (λ e. (C.seen link.new).over ≡ Some e.cause) }
    ensures rests { IfErr result (λ e. e.answered ≡ Bool.false) }
    ensures ready { C.ready link.new }
{
    match link.swap(alloc, out, far) {
        Ok(reply) => Ok(reply),
        Err(_) => link.swap(alloc, out, far),
    }
}

#[test]
fn a_payload_is_answered(rt: HostRuntime) -> Result<(), Fail> {
    let alloc = rt.alloc();
    let mut link = Straight {
        over: None,
        last: None,
        handed: Vec::new(alloc),
    };
    assert_eq!(rt;
        swap_behind_a_fault(alloc, &mut link, &mut Mute, &[0, 0])?.len(),
        0
    );
    link.over = Some(EndCause::SixBad);
    let end = LinkEnd {
        cause: EndCause::SixBad,
        answered: false,
    };
    assert_eq!(rt;
        swap_behind_a_fault(alloc, &mut link, &mut Mute, &[0, 0]),
        Err(end)
    );
    Ok(())
}
