//! The fates that are left, and the events that they make.

ghost use Rattle.std.specs.Prelude.{◌≡◌, ◌++◌, ◌∷◌, [], ◌<◌, ◌≤◌, ◌+◌, length, vec_len, vec_capacity};
ghost use Rattle.std.specs.VecDeque.{deque_len, deque_capacity};
ghost use Rattle.nfc_base.specs.declared.event.Event.TheVariants.{Request, Answer, Clash};
ghost use Rattle.air_core.specs.Conversation.{first_fate, later_fates};

use nfc_base::{Event, Fate, Frame};
use std::collections::VecDeque;

/// The next fate, which is used by it; `Pass` where none is left.
pub fn next_fate(fates: &mut VecDeque<Fate>) -> Fate
    ensures fate { result ≡ first_fate fates.old.items }
    ensures later { fates.new.items ≡ later_fates fates.old.items }
{
    fates.pop_front().unwrap_or(Fate::Pass)
}

/// Appends fates for which there is room.
pub fn push_all(fates: &mut VecDeque<Fate>, more: &[Fate])
    requires { deque_len fates.old + length more.now ≤ deque_capacity fates.old }
    ensures { fates.new.items ≡ fates.old.items ++ more.now }
{
    for fate in more {
        fates.push_back(*fate).unwrap();
    }
}

/// Notes a request with the next fate, which it gives, where there is room for an event. An event is made in a function
/// of its own, which does nothing else: so its frame goes into the trace with few copies.
pub fn note_request(fates: &mut VecDeque<Fate>, trace: &mut Vec<Event>, request: &Frame) -> Fate
    requires { vec_len trace.old < vec_capacity trace.old }
    ensures fate { result ≡ first_fate fates.old.items }
    ensures later { fates.new.items ≡ later_fates fates.old.items }
    ensures event { trace.new.items ≡ trace.old.items ++ Request request.now result ∷ [] }
    ensures length { vec_len trace.new ≡ vec_len trace.old + 1 }
    ensures room { vec_capacity trace.old ≤ vec_capacity trace.new }
{
    let fate = next_fate(fates);
    let frame = request.copy();
    note(trace, Event::Request { frame, fate });
    fate
}

/// Notes an answer likewise.
pub fn note_answer(fates: &mut VecDeque<Fate>, trace: &mut Vec<Event>, said: &Frame) -> Fate
    requires { vec_len trace.old < vec_capacity trace.old }
    ensures fate { result ≡ first_fate fates.old.items }
    ensures later { fates.new.items ≡ later_fates fates.old.items }
    ensures event { trace.new.items ≡ trace.old.items ++ Answer said.now result ∷ [] }
    ensures length { vec_len trace.new ≡ vec_len trace.old + 1 }
    ensures room { vec_capacity trace.old ≤ vec_capacity trace.new }
{
    let fate = next_fate(fates);
    let frame = said.copy();
    note(trace, Event::Answer { frame, fate });
    fate
}

/// Notes a clash likewise.
pub fn note_clash(fates: &mut VecDeque<Fate>, trace: &mut Vec<Event>, common: &Frame) -> Fate
    requires { vec_len trace.old < vec_capacity trace.old }
    ensures fate { result ≡ first_fate fates.old.items }
    ensures later { fates.new.items ≡ later_fates fates.old.items }
    ensures event { trace.new.items ≡ trace.old.items ++ Clash common.now result ∷ [] }
    ensures length { vec_len trace.new ≡ vec_len trace.old + 1 }
    ensures room { vec_capacity trace.old ≤ vec_capacity trace.new }
{
    let fate = next_fate(fates);
    let frame = common.copy();
    note(trace, Event::Clash { frame, fate });
    fate
}

/// Notes an event for which there is room.
fn note(trace: &mut Vec<Event>, event: Event)
    requires { vec_len trace.old < vec_capacity trace.old }
    ensures items { trace.new.items ≡ trace.old.items ++ event ∷ [] }
    ensures length { vec_len trace.new ≡ vec_len trace.old + 1 }
    ensures room { vec_capacity trace.old ≤ vec_capacity trace.new }
{
    trace.push_reserved(event);
}
