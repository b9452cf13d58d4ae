//! A peer above a listener front.

ghost use Rattle.std.specs.Prelude.{◌≡◌, ◌≤◌, ◌<◌, ℕ, List, length, true, IfOk, OnErr};
ghost use Rattle.dep_link.specs.Frames.{air_frame};
ghost use Rattle.dep_link.specs.Target.{target_table, replied, reply_frame};
ghost use Rattle.llcp_pdu.specs.General.{IsMiu};
ghost use Rattle.bench_devices.specs.Peers.{id3_of, peer_params, new_near, near_busy, takes_frame, Handles, Halts};

use dep_link::{Target, TargetStep, is_atr_req};
use llcp_pdu::{LinkParams, general_write};
use nfc_base::{Answerer, Frame};
use nfca_poll::{Ident, Kind, UpStep, Upper};
use std::alloc::{AllocError, Global};
use std::marker::Model;

/// LLCP 1.3.
const VERSION: u8 = 0x13;

/// The services of a peer: link management, service discovery and SNEP, by their SAPs 0, 1 and 4.
const SERVICES: u16 = 0x0013;

/// What a peer with this MIU says of its link.
pub fn peer_params(miu: u16) -> LinkParams
    ensures { result ≡ peer_params miu }
{
    LinkParams {
        version: VERSION,
        miu,
        wks: SERVICES,
    }
}

/// NFCID3 of a peer: its identifier, and zeros behind it.
fn id3_of(id: &Ident) -> [u8; 10]
    ensures { result ≡ id3_of id.now }
{
    let own = id.view();
    let mut id3 = [0; 10];
    id3[..own.len()].copy_from_slice(own);
    id3
}

/// A peer as the machine above a listener front. ATR_REQ opens a link to it, whose end takes every frame from then on.
/// A frame that begins a link asks the far end to begin one too, and one that ends a payload hands it over.
#[derive(Debug, Drop)]
pub struct PeerUpper {
    target: Target,
    linked: bool,
}

impl Model for PeerUpper {
    ghost use Rattle.bench_devices.specs.Peers.{PeerNear};

    ghost Value = { PeerNear };

    ghost view = { λ u. record { target = u.target; linked = u.linked } };
}

impl PeerUpper {
    /// A peer without a link, of this LR code, which says that its far end has this MIU.
    pub fn new(id: &Ident, lr: u8, miu: u16) -> PeerUpper
        requires lr { lr < 4 }
        requires miu { IsMiu miu }
        ensures { result ≡ new_near id.now lr miu }
    {
        PeerUpper {
            target: Target::new(id3_of(id), lr, general_write(&peer_params(miu))),
            linked: false,
        }
    }

    /// From now on it asks for more time before each reply: `count` extensions, each by `times`.
    pub fn set_busy(&mut self, count: u8, times: u8)
        requires count { count ≤ 5 }
        requires times { (1 ≤ times) × (times ≤ 59) }
        ensures { self.new ≡ near_busy count times self.old }
    {
        self.target.set_busy(count, times);
    }

    /// Whether a frame is its own: without a link a well-formed ATR_REQ alone, with one every frame.
    fn takes(&self, frame: &Frame) -> bool
        ensures { result ≡ takes_frame self.now frame.now }
    {
        self.linked || is_atr_req(frame)
    }

    /// A payload is handed over, and answered by the reply.
    fn hand_over<A: Answerer>(
        target: &mut Target,
        alloc: Global,
        payload: &[u8],
        far: &mut A,
    ) -> Result<Frame, AllocError>
        requires { length payload.now ≤ 2178 }
        ensures ok { IfOk result (λ f. (r : List ℕ) × A.steps far.old payload.now r far.new × (length r ≤ 2178)
            × (f ≡ air_frame (reply_frame target.old r)) × (target.new ≡ replied target.old r)) }
        ensures err { OnErr result (A.stops far.old payload.now far.new × (A.is_stuck far.new ≡ true)
            × (target.new ≡ target.old)) }
    {
        let mut reply = Vec::new(alloc);
        match far.answer(alloc, payload, &mut reply) {
            Ok(()) => Ok(target.reply(&reply)),
            Err(_) => Err(AllocError),
        }
    }

    /// A frame of the link, and what the far end makes of it.
    fn take<A: Answerer>(
        target: &mut Target,
        alloc: Global,
        frame: &Frame,
        far: &mut A,
    ) -> Result<UpStep, AllocError>
        ensures ok { IfOk result (λ s. Handles A.restarts A.steps (target_table target.old frame.now).state
            (target_table target.old frame.now).does far.old s target.new far.new) }
        ensures err { OnErr result (Halts A.stops A.is_stuck (target_table target.old frame.now).state
            (target_table target.old frame.now).does far.old target.new far.new) }
    {
        match target.hear(frame) {
            TargetStep::Quiet => Ok(UpStep::Quiet),
            TargetStep::Reply(answer) => Ok(UpStep::Reply(answer)),
            TargetStep::Asleep(answer) => Ok(UpStep::Sleep(answer)),
            TargetStep::Released(answer) => Ok(UpStep::Idle(answer)),
            TargetStep::Restart { general, reply } => {
                far.restart(&general);
                Ok(UpStep::Reply(reply))
            }
            TargetStep::Deliver(payload) => {
                match PeerUpper::hand_over(target, alloc, &payload, far) {
                    Ok(answer) => Ok(UpStep::Reply(answer)),
                    Err(_) => Err(AllocError),
                }
            }
        }
    }
}

impl Upper for PeerUpper {
    ghost use Rattle.std.specs.Prelude.{List, []};
    ghost use Rattle.dep_link.specs.Frames.{is_atr_req};
    ghost use Rattle.bench_devices.specs.Peers.{peer_machine};
    ghost use Rattle.bench_devices.specs.laws.PeerUpper.{peer_commands, is_peer_linked, peer_upper};

    ghost machine = { peer_machine };

    ghost commands = { peer_commands };

    ghost is_open = { is_peer_linked };

    ghost attributes = { is_atr_req };

    ghost store = { λ u. [] };

    fn kind(&self) -> Kind {
        Kind::Peer
    }

    fn clear(&mut self) {
        self.target.dark();
        self.linked = false;
    }

    fn hear<A: Answerer>(
        &mut self,
        alloc: Global,
        frame: &Frame,
        far: &mut A,
    ) -> Result<UpStep, AllocError> {
        if self.takes(frame) {
            self.linked = true;
            PeerUpper::take(&mut self.target, alloc, frame, far)
        } else {
            Ok(UpStep::Foreign)
        }
    }

    ghost laws = { peer_upper };
}
