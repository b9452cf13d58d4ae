//! A frame that reaches the listeners.

ghost use Rattle.std.specs.Prelude.{◌≡◌, ◌⊎◌, ℕ, ◌<◌, ◌≤◌, List, [], length, map, Option, Some, None, OnOk, OnErr};
ghost use Rattle.std.specs.Prelude.{IfOk};
ghost use Rattle.nfc_base.specs.Signal.{Signal};
ghost use Rattle.air_core.specs.World.{Machine, hands_over, stepped_by};
ghost use Rattle.air_core.specs.Listening.{Stop, said_at};
ghost use Rattle.air_core.specs.Turn.{Meets, HearAll, HearSome};
ghost use Rattle.air_core.specs.private.Joining.{IsJoined, joint_with};
ghost use Rattle.air_core.specs.Joint.{joint};
ghost use Rattle.air_core.specs.declared.answers.Joined.TheVariants.{Nothing};

use crate::answers::Answers;
use crate::listener::Listener;
use nfc_base::{Answerer, Frame};
use std::alloc::{AllocError, Global};

/// One listener meets a frame, and hears it if it is of its technology.
fn meet<L: Listener, A: Answerer>(
    alloc: Global,
    listener: &mut L,
    frame: &Frame,
    far: &mut A,
    answer: &mut Frame,
) -> Result<bool, AllocError>
    ensures ok { IfOk result (λ said. Meets L.machine A.restarts A.steps
        frame.now listener.old far.old (said_at said answer.new) listener.new far.new) }
    ensures err { OnErr result
        (Stop A.stops A.is_stuck (hands_over L.machine listener.old frame.now)
        (stepped_by L.machine listener.old frame.now) far.old listener.new far.new) }
{
    if listener.tech() == frame.tech() {
        listener.hear_into(alloc, frame, far, answer)
    } else {
        Ok(false)
    }
}

/// Each listener meets the frame, in order, and their answers are joined. It ends where the far end has stopped. An
/// answer is written where it is joined: a turn costs what the answers to it cost, and nothing for those that are
/// silent.
pub fn hear_all<L: Listener, A: Answerer>(
    alloc: Global,
    listeners: &mut [L],
    frame: &Frame,
    far: &mut A,
    answers: &mut Answers,
) -> Result<(), AllocError>
    requires { answers.old.joined ≡ Nothing }
    ensures ok { OnOk result ((said : List Signal)
        × HearAll L.machine A.restarts A.steps frame.now listeners.old far.old said listeners.new far.new
        × (joint_with answers.new [] ≡ joint said)) }
    ensures fits { OnOk result (IsJoined answers.new) }
    ensures err { OnErr result (HearSome L.machine A.restarts A.steps A.stops A.is_stuck
        frame.now listeners.old far.old listeners.new far.new) }
{
    for listener in listeners.iter_mut() {
        match meet(alloc, listener, frame, far, &mut answers.next) {
            Err(_) => return Err(AllocError),
            Ok(said) => answers.join(said),
        }
    }
    Ok(())
}

/// The field goes dark for each listener.
pub fn dark_all<L: Listener>(listeners: &mut [L])
    ensures { listeners.new ≡ map L.machine.darkened listeners.old }
{
    for listener in listeners.iter_mut() {
        listener.dark();
    }
}

/// The field goes dark and is lit again for each listener.
pub fn light_all<L: Listener>(listeners: &mut [L])
    ensures { listeners.new ≡ map (λ l. L.machine.woken (L.machine.darkened l)) listeners.old }
{
    for listener in listeners.iter_mut() {
        listener.dark();
        listener.light();
    }
}
