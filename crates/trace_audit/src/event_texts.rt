//! Reads the line of an event back.

ghost use Rattle.std.specs.Prelude.{◌≡◌, ◌≢◌, ℕ, ◌+◌, ◌/◌, ◌<◌, List, [], ◌∷◌, length, true, MatchOption, IfSome};
ghost use Rattle.nfc_base.specs.declared.event.Fate.{Fate as Becomes};
ghost use Rattle.hex.specs.Hex.{encode_upper, IsBytes};
ghost use Rattle.nfc_base.specs.Signal.{signal, IsSignal};
ghost use Rattle.bench_world.specs.Report.{fate_text};
ghost use Rattle.bench_world.specs.ReadBack.{IsOf};
ghost use Rattle.trace_audit.specs.private.Finding.{Finds, IsDigitsOf, IsWordOf, IsSentOf, IsTextOf, IsLineOf};

use crate::cutting::cut_at;
use nfc_base::{Event, Fate, Frame, Tech};

/// How many bytes a frame has at most.
const MOST_BYTES: usize = 288;

/// The event of which a text is the line, of whatever number, if it is one of this technology. What it finds in
/// another text may be anything.
pub fn likely_event(tech: Tech, text: &[u8]) -> Option<Event>
    ensures finds { Finds (IsLineOf tech text.now) result }
    ensures of { IfSome result (IsOf tech) }
{
    let (_, said) = cut_at(text, b' ')?;
    event_of(tech, said.strip_suffix(b"\n")?)
}

/// Likewise of its text without a number.
fn event_of(tech: Tech, text: &[u8]) -> Option<Event>
    ensures finds { Finds (IsTextOf tech text.now) result }
    ensures of { IfSome result (IsOf tech) }
{
    if text == b"! reset".as_slice() {
        return Some(Event::Reset);
    }
    let [sign, b' ', sent @ ..] = text else {
        return None;
    };
    let (frame, fate) = sent_of(tech, sent)?;
    match *sign {
        b'>' => Some(Event::Request { frame, fate }),
        b'<' => Some(Event::Answer { frame, fate }),
        b'*' => Some(Event::Clash { frame, fate }),
        _ => None,
    }
}

/// The frame that was sent, and its fate.
fn sent_of(tech: Tech, text: &[u8]) -> Option<(Frame, Fate)>
    ensures finds { Finds (IsSentOf tech text.now) result }
    ensures of { IfSome result (λ x. x.0.tech ≡ tech) }
{
    let (word, name) = cut_at(text, b' ')?;
    let fate = fate_of(name)?;
    let frame = frame_of(tech, word)?;
    Some((frame, fate))
}

/// The fate with a name.
fn fate_of(name: &[u8]) -> Option<Fate>
    ensures { MatchOption result ((f : Becomes) → name.now ≢ fate_text f) (λ f. name.now ≡ fate_text f) }
{
    match name {
        b"pass" => Some(Fate::Pass),
        b"damage" => Some(Fate::Damage),
        b"lose" => Some(Fate::Lose),
        b"break" => Some(Fate::Break),
        _ => None,
    }
}

/// The frame of a word.
fn frame_of(tech: Tech, word: &[u8]) -> Option<Frame>
    ensures finds { Finds (IsWordOf tech word.now) result }
    ensures of { IfSome result (λ f. f.tech ≡ tech) }
{
    let Some((digits, count)) = cut_at(word, b'/') else {
        return frame_with(tech, word, 0);
    };
    frame_with(tech, digits, tail_of(count)?)
}

/// How many bits of the last byte are sent, by the digit behind a slash.
fn tail_of(count: &[u8]) -> Option<u8>
    ensures { MatchOption result ((t : ℕ) → 0 < t → t < 8 → count.now ≢ (48 + t) ∷ [])
        (λ t. count.now ≡ (48 + t) ∷ []) }
{
    match count {
        [digit @ b'1'..=b'7'] => Some(*digit - b'0'),
        _ => None,
    }
}

/// The frame with these digits and this tail. It takes no memory.
fn frame_with(tech: Tech, digits: &[u8], tail: u8) -> Option<Frame>
    ensures finds { Finds (IsDigitsOf tech digits.now tail) result }
    ensures of { IfSome result (λ f. f.tech ≡ tech) }
{
    if digits == b"-".as_slice() {
        return part_of(tech, &[], tail);
    }
    let count = digits.len() / 2;
    if count > MOST_BYTES {
        return None;
    }
    let mut room = [0; MOST_BYTES];
    let bytes = &mut room[..count];
    if !decodes(digits, bytes) {
        return None;
    }
    part_of(tech, bytes, tail)
}

/// Whether a text is digits, two for each byte of the room, where the bytes are then.
fn decodes(digits: &[u8], room: &mut [u8]) -> bool
    requires { length room.old ≡ length digits.now / 2 }
    ensures { (bytes : List ℕ) → digits.now ≡ encode_upper bytes → IsBytes bytes
        → (result ≡ true) × (room.new ≡ bytes) }
{
    hex::decode_to_slice(digits, room).is_ok()
}

/// The frame of these bytes and this tail, if they make one.
fn part_of(tech: Tech, bytes: &[u8], tail: u8) -> Option<Frame>
    ensures finds { IsSignal (signal tech bytes.now tail) → result ≡ Some (signal tech bytes.now tail) }
    ensures of { IfSome result (λ f. f.tech ≡ tech) }
{
    Frame::part(tech, bytes, tail).ok()
}
