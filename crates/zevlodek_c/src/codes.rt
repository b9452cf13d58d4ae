//! What a call answers: one number that isn't negative, or a fault below zero.

ghost use Rattle.std.specs.Prelude.{◌≡◌, ◌≤◌};
ghost use Rattle.zevlodek_c.specs.Codes.{tag_fault};

/// What was asked for is there.
pub const DONE: i32 = 0;

/// A command is to be sent.
pub const SEND: i32 = 1;

/// A tag gives no answer.
pub const SILENT: i32 = 2;

/// A card answers a last time, and sleeps.
pub const ASLEEP: i32 = 3;

/// A target answers ATR_REQ: a link begins.
pub const OPENED: i32 = 4;

/// A target answers a last time, and is let go.
pub const RELEASED: i32 = 5;

/// The bytes of a log spell no turns.
pub const BAD_LOG: i32 = -1;

/// An argument isn't one that the call takes.
pub const BAD_ARGUMENT: i32 = -2;

/// What is to be told has no room.
pub const SHORT: i32 = -3;

/// Want of memory, where no tag is asked.
pub const NO_MEMORY: i32 = -4;

/// A memory that was read out ends before its message does.
pub const ENDS_EARLY: i32 = -5;

/// Six bad receptions in one wait of a link of ISO-DEP, and of NFC-DEP.
pub const SIX_BAD: i32 = -302;

pub const DEP_SIX_BAD: i32 = -402;

/// A frame that is no allowed answer on a link of ISO-DEP, and of NFC-DEP.
pub const NO_ANSWER: i32 = -303;

pub const DEP_NO_ANSWER: i32 = -403;

/// A fault of reading or writing a tag, by its number.
pub fn tag_fault(number: u8) -> i32
    requires { number ≤ 15 }
    ensures { result ≡ tag_fault number }
{
    -100 - number as i32
}
