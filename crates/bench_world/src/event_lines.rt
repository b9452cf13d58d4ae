//! The report's line of an event, in a piece of its own or behind a text.

ghost use Rattle.std.specs.Prelude.{◌≡◌, ◌+◌, ◌≤◌, ◌++◌, length};
ghost use Rattle.bench_script.specs.Canonical.{frame_text};
ghost use Rattle.bench_world.specs.Report.{fate_text, sent_text, event_text, line_text};

use crate::fixed_text::{push_hex, push_number, push_text};
use arrayvec::ArrayVec;
use nfc_base::{Event, Fate, Frame};

/// The line of an event, of an entry with this number. It takes no memory.
pub fn event_line(line: u32, event: &Event) -> ArrayVec<u8, 640>
    ensures { result.items ≡ line_text line (event_text event.now) }
{
    let mut text = ArrayVec::new();
    push_event_line(&mut text, line, event);
    text
}

/// Puts the line of an event behind a text that has room for the longest.
pub fn push_event_line<const N: usize>(text: &mut ArrayVec<u8, N>, line: u32, event: &Event)
    requires { length text.old.items + 640 ≤ N }
    ensures { text.new.items ≡ text.old.items ++ line_text line (event_text event.now) }
{
    push_number(text, line as u64);
    push_text(text, b" ");
    push_event(text, event);
    push_text(text, b"\n");
}

fn push_event<const N: usize>(text: &mut ArrayVec<u8, N>, event: &Event)
    requires { length text.old.items + 607 ≤ N }
    ensures value { text.new.items ≡ text.old.items ++ event_text event.now }
    ensures size { length text.new.items ≤ length text.old.items + 607 }
{
    match event {
        Event::Reset => push_text(text, b"! reset"),
        Event::Request { frame, fate } => push_sent(text, b"> ", frame, *fate),
        Event::Answer { frame, fate } => push_sent(text, b"< ", frame, *fate),
        Event::Clash { frame, fate } => push_sent(text, b"* ", frame, *fate),
    }
}

/// A transmission, behind the sign that says what it is.
fn push_sent<const N: usize>(text: &mut ArrayVec<u8, N>, sign: &[u8; 2], frame: &Frame, fate: Fate)
    requires { length text.old.items + 607 ≤ N }
    ensures value { text.new.items ≡ text.old.items ++ (sign.now ++ sent_text frame.now fate) }
    ensures size { length text.new.items ≤ length text.old.items + 607 }
{
    push_text(text, sign);
    push_frame(text, frame);
    push_text(text, b" ");
    push_text(text, fate_name(fate));
}

/// Puts a frame behind a piece that has room for the longest.
pub fn push_frame<const N: usize>(text: &mut ArrayVec<u8, N>, frame: &Frame)
    requires { length text.old.items + 598 ≤ N }
    ensures value { text.new.items ≡ text.old.items ++ frame_text frame.now }
    ensures size { length text.new.items ≤ length text.old.items + 598 }
{
    push_hex(text, frame.view());
    if frame.tail() != 0 {
        push_text(text, b"/");
        push_number(text, frame.tail() as u64);
    }
}

fn fate_name(fate: Fate) -> &'static [u8]
    ensures value { result.now ≡ fate_text fate }
    ensures size { length result.now ≤ 6 }
{
    match fate {
        Fate::Pass => b"pass".as_slice(),
        Fate::Damage => b"damage".as_slice(),
        Fate::Lose => b"lose".as_slice(),
        Fate::Break => b"break".as_slice(),
    }
}
