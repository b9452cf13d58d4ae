//! What the answers to one request come to, as they are heard one by one.

ghost use Rattle.std.specs.Prelude.{◌≡◌, ◌≤◌, ◌*◌, List, length, take};
ghost use Rattle.std.specs.List.{cons_option};
ghost use Rattle.nfc_base.specs.Signal.{Signal};
ghost use Rattle.nfc_base.specs.Bits.{bits, bits_of};
ghost use Rattle.air_core.specs.Joint.{common};
ghost use Rattle.air_core.specs.Listening.{said_at};
ghost use Rattle.air_core.specs.private.Joining.{IsJoined, joint_with};
ghost use Rattle.air_core.specs.declared.answers.Joined.TheVariants.{Nothing};

use crate::bits::{bit_len, shared};
use nfc_base::{Frame, Tech};
use std::mem;

/// What the answers so far have in common.
#[derive(Clone, Copy, Debug)]
pub enum Joined {
    Nothing,
    /// All are the first one.
    Alike,
    /// They differ; these first bits of the first one are common to all.
    Differing { shared: usize },
}

/// The answers so far, and the place of the next one. It takes no memory for them.
#[derive(Drop)]
pub struct Answers {
    pub joined: Joined,
    pub first: Frame,
    pub next: Frame,
}

impl Answers {
    /// No answer so far.
    pub fn none() -> Answers
        ensures { result.joined ≡ Nothing }
    {
        Answers {
            joined: Joined::Nothing,
            first: Frame::whole(Tech::A, &[]).unwrap(),
            next: Frame::whole(Tech::A, &[]).unwrap(),
        }
    }

    /// One answer more, in the place of the next one, where one was said.
    pub fn join(&mut self, said: bool)
        requires { IsJoined self.old }
        ensures fits { IsJoined self.new }
        ensures joint { (more : List Signal)
            → joint_with self.new more ≡ joint_with self.old (cons_option (said_at said self.old.next) more) }
    {
        if !said {
            return;
        }
        match self.joined {
            Joined::Nothing => {
                mem::swap(&mut self.first, &mut self.next);
                self.joined = Joined::Alike;
            }
            Joined::Alike => {
                if self.first != self.next {
                    self.joined = Joined::Differing {
                        shared: self.shared(bit_len(&self.first)),
                    };
                }
            }
            Joined::Differing { shared } => {
                self.joined = Joined::Differing {
                    shared: self.shared(shared),
                }
            }
        }
    }

    /// How many of so many first bits of the first answer begin the next one.
    fn shared(&self, most: usize) -> usize
        requires { most ≤ 8 * length self.now.first.bytes }
        ensures bound { result ≤ most }
        ensures common { take result (bits_of self.now.first.bytes)
            ≡ common (take most (bits_of self.now.first.bytes)) (bits self.now.next) }
    {
        shared(
            self.first.view(),
            most,
            self.next.view(),
            bit_len(&self.next),
        )
    }
}
