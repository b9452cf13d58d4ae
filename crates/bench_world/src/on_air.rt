//! That the frames of the code are such as may be on the air: their type says so of each.

ghost use Rattle.std.specs.Prelude.{[], ◌∷◌};
ghost use Rattle.nfc_base.specs.Signal.{IsSignal};
ghost use Rattle.bench_world.specs.ReadBack.{AreOnAir};

use nfc_base::{Event, Frame};

/// The frames of these events may be on the air. The call does nothing.
pub fn see_on_air(events: &[Event])
    ensures { AreOnAir events.now }
{
    for event in events {
        see_event(event);
    }
}

fn see_event(event: &Event)
    ensures { AreOnAir (event.now ∷ []) }
{
    match event {
        Event::Reset => {}
        Event::Request { frame, .. } => see_frame(frame),
        Event::Answer { frame, .. } => see_frame(frame),
        Event::Clash { frame, .. } => see_frame(frame),
    }
}

fn see_frame(frame: &Frame)
    ensures { IsSignal frame.now }
{
    frame.view();
}
