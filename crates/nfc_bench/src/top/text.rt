//! Texts of one line, in room of their own, so that they take no memory.

ghost use Rattle.std.specs.Prelude.{◌≡◌, ◌+◌, ◌≤◌, ◌++◌, length};
ghost use Rattle.std.specs.Fmt.{decimal};

use arrayvec::ArrayVec;

/// Puts a text behind a line that has room for it.
pub fn push_text(line: &mut ArrayVec<u8, 96>, text: &[u8])
    requires { length line.old.items + length text.now ≤ 96 }
    ensures value { line.new.items ≡ line.old.items ++ text.now }
    ensures size { length line.new.items ≡ length line.old.items + length text.now }
{
    line.try_extend_from_slice(text).unwrap();
}

/// Puts a number in decimal behind a line that has room for the most digits of one.
pub fn push_number(line: &mut ArrayVec<u8, 96>, number: u32)
    requires { length line.old.items + 10 ≤ 96 }
    ensures value { line.new.items ≡ line.old.items ++ decimal number }
    ensures size { length line.new.items ≤ length line.old.items + 10 }
{
    push_decimal(line, number);
}

/// Puts a number in decimal behind a line that has room for its digits.
#[tactic(auto, using(std::proofs::lemmas::Fmt::decimal_digit))]
fn push_decimal(line: &mut ArrayVec<u8, 96>, number: u32)
    requires { length line.old.items + length (decimal number) ≤ 96 }
    ensures { line.new.items ≡ line.old.items ++ decimal number }
{
    if number < 10 {
        line.push(b'0' + number as u8);
    } else {
        push_decimal(line, number / 10);
        line.push(b'0' + (number % 10) as u8);
    }
}
