//! The walk over the TLVs of an area.

ghost use Rattle.std.specs.Prelude.{◌≡◌, ◌≢◌, ℕ, ◌<◌, ◌≤◌, ◌++◌, ◌↔◌, ◌==◌, List, length, take, true};
ghost use Rattle.std.specs.List.{All};
ghost use Rattle.tlv_area.specs.Layout.{IsArea, Tlv, ndef_message};
ghost use Rattle.tlv_area.specs.Form.{NeedsMore};
ghost use Rattle.tlv_area.specs.Stores.{cut};
ghost use Rattle.tlv_area.specs.Map.{IsWalk, IsSettled, TellsForm, HasPlaces};
ghost use Rattle.tlv_area.specs.Walking.{HasCome, Finds, IsNext, IsPassed, StopsAt, map_here};

use crate::ahead::{Ahead, Found, look_ahead};
use crate::control::{reserve, size_of};
use crate::space::{AreaMap, Space};
use arrayvec::ArrayVec;

/// The type of the TLV whose value is the message.
const NDEF_MESSAGE: u8 = 0x03;

/// What a front of a memory tells of its message: where it lies, that there is no TLV of a message, that a TLV before
/// it is faulty, or that the walk needs a byte behind the front.
#[derive(Debug, Drop)]
pub enum Walk {
    Held { map: AreaMap },
    NoMessageTlv,
    BadTlv,
    More,
}

/// A walk over an area that goes on where it stopped, once more of the memory is known.
///
/// It stands at the TLV at `at`, with `tlv` addresses that aren't reserved before it. The first `passed` ranges end
/// before.
#[derive(Debug, Drop)]
pub struct Walker {
    space: Space,
    reserved: ArrayVec<(u32, u32), 202>,
    passed: usize,
    at: u32,
    tlv: u32,
}

/// Whether the value of a TLV is the message. The first such TLV counts, whatever stands behind it.
fn is_message(found: &Found) -> bool
    ensures { result ≡ (found.now.kind == ndef_message) }
{
    found.kind == NDEF_MESSAGE
}

/// How many ranges from the first on lie before an address, where the first so many do.
fn count_passed(reserved: &[(u32, u32)], passed: usize, at: u32) -> usize
    requires counted { passed ≤ length reserved.now }
    requires passed { All (IsPassed at) (take passed reserved.now) }
    ensures counted { result ≤ length reserved.now }
    ensures passed { All (IsPassed at) (take result reserved.now) }
{
    let mut count = passed;
    while count < reserved.len() && reserved[count].0 <= at && reserved[count].1 <= at {
        count += 1;
    }
    count
}

impl Walker {
    /// A walk that stands at the area's first TLV.
    pub fn new(space: &Space) -> Walker
        requires area { IsArea space.now }
        ensures space { result.space ≡ space.now }
        ensures begun { (known : List ℕ) → HasCome result known }
    {
        Walker {
            space: *space,
            reserved: ArrayVec::new(),
            passed: 0,
            at: space.start,
            tlv: 0,
        }
    }

    /// Goes on over a front of the memory, and tells whether it needs a byte behind it: `known` is the memory from
    /// address 0 on, and begins with what was known when the walk stopped. It takes no memory.
    pub fn needs_more(&mut self, known: &[u8]) -> bool
        requires come { HasCome self.old known.now }
        ensures more { (result ≡ true) ↔ NeedsMore self.old.space known.now }
        ensures short { result ≡ true → length known.now < self.old.space.end }
        ensures space { self.new.space ≡ self.old.space }
        ensures come { (more : List ℕ) → HasCome self.new (known.now ++ more) }
    {
        matches!(self.advance(known), Ahead::Unknown)
    }

    /// Goes on over a front of the memory, and ends with what the front tells. It takes no memory.
    pub fn find_message(mut self, known: &[u8]) -> Walk
        requires come { HasCome self known.now }
        ensures finds { Finds self.space known.now result }
    {
        match self.advance(known) {
            Ahead::End => Walk::NoMessageTlv,
            Ahead::Fault => Walk::BadTlv,
            Ahead::Unknown => Walk::More,
            Ahead::Item(found) => Walk::Held {
                map: self.into_map(&found),
            },
        }
    }

    /// Goes on to the message, to where the walk ends, or to where it needs a byte that isn't known.
    fn advance(&mut self, known: &[u8]) -> Ahead
        requires come { HasCome self.old known.now }
        ensures come { HasCome self.new known.now }
        ensures space { self.new.space ≡ self.old.space }
        ensures stops { StopsAt self.new known.now result }
    {
        // It goes over each TLV once, also where it stopped between two of them, and looks only at the ranges ahead of
        // it. So a walk, and a whole reading that goes on with one, costs what the area's bytes and TLVs cost, once.
        'walk: while self.at <= self.space.end {
            let ahead = &self.reserved.as_slice()[self.passed..];
            match look_ahead(ahead, self.at, self.space.end, known) {
                Ahead::Item(found) => {
                    if is_message(&found) {
                        return Ahead::Item(found);
                    }
                    self.pass(known, &found);
                }
                stop => return stop,
            }
        }
        Ahead::End
    }

    /// The map of the message that stands next.
    fn into_map(self, found: &Found) -> AreaMap
        ensures { result ≡ map_here self found.now }
    {
        AreaMap {
            space: self.space,
            reserved: self.reserved,
            tlv: self.tlv,
            long: found.long,
            length: found.length,
        }
    }

    /// Goes past the TLV that stands next, which isn't the message.
    fn pass(&mut self, known: &[u8], found: &Found)
        requires come { HasCome self.old known.now }
        requires found { (t : Tlv) × IsNext self.old known.now found.now t }
        requires plain { found.now.kind ≢ ndef_message }
        ensures come { HasCome self.new known.now }
        ensures space { self.new.space ≡ self.old.space }
        ensures further { self.old.at < self.new.at }
    {
        reserve(&mut self.reserved, &self.space, known, found);
        self.tlv += size_of(found);
        self.at = found.past;
        self.passed = count_passed(self.reserved.as_slice(), self.passed, self.at);
    }
}

/// The message of an area, as far as a front of the tag's memory tells: `known` is the memory from address 0 on. It
/// takes no memory. Who comes to know more of the memory, and asks again, keeps a `Walker`.
pub fn find_message(space: &Space, known: &[u8]) -> Walk
    requires { IsArea space.now }
    // over a memory that has the whole area it is the form
    ensures form { space.now.end ≤ length known.now → TellsForm space.now known.now result }
    // what a front settles, each memory that begins with it has: the map, and the form
    ensures walk { IsWalk space.now known.now result }
    ensures front { (more : List ℕ) → IsSettled result → IsWalk space.now (known.now ++ more) result }
    ensures settled { (more : List ℕ) → IsSettled result → TellsForm space.now (known.now ++ more) result }
    // it is More exactly where the walk needs a byte of the area behind the front
    ensures more { (result ≡ Walk.More) ↔ NeedsMore space.now known.now }
    ensures short { (result ≡ Walk.More) → length known.now < space.now.end }
    // a message that is held lies in the area, below what is known
    ensures places { HasPlaces known.now result }
    // a tag that ends before its area: what is settled is the form of the area cut there
    ensures cut { space.now.start ≤ length known.now → IsSettled result →
        TellsForm (cut space.now (length known.now)) known.now result }
{
    Walker::new(space).find_message(known)
}
