//! Writing the text of a line. None of it takes memory.

ghost use Rattle.std.specs.Prelude.{◌≡◌, ◌≤◌, ◌<◌, ◌+◌, ◌++◌, length};
ghost use Rattle.std.specs.Fmt.{decimal};
ghost use Rattle.bench_script.specs.Canonical.{message_text};
ghost use Rattle.bench_script.specs.declared.message.Msg.TheVariants.{Gen};
ghost use Rattle.workload.specs.Workload.{fates_line};

use arrayvec::ArrayVec;

/// A line of this text.
pub fn text_line(text: &[u8]) -> ArrayVec<u8, 640>
    requires { length text.now ≤ 640 }
    ensures { result.items ≡ text.now }
{
    let mut line = ArrayVec::new();
    line.try_extend_from_slice(text).unwrap();
    line
}

/// The line of a round's fates: of 29 frames the last is lost, and so twenty times.
pub fn lossy_line() -> ArrayVec<u8, 640>
    ensures { result.items ≡ fates_line }
{
    let mut line = text_line(b"fates ");
    for _ in 0..20u32 {
        line.try_extend_from_slice(b"PPPPPPPPPPPPPPPPPPPPPPPPPPPPL")
            .unwrap();
    }
    line
}

/// A front, and a message of so many counted bytes.
pub fn counted_line(front: &[u8], count: u32, start: u32) -> ArrayVec<u8, 640>
    requires { length front.now ≤ 600 }
    ensures { result.items ≡ front.now ++ message_text (Gen count start) }
{
    let mut line = text_line(front);
    line.try_extend_from_slice(b"gen:").unwrap();
    push_decimal(&mut line, count);
    line.push(b':');
    push_decimal(&mut line, start);
    line
}

/// Puts the digits of a number behind a text that has room for it.
#[tactic(auto, using(std::proofs::lemmas::Fmt::decimal_digit))]
fn push_decimal(line: &mut ArrayVec<u8, 640>, number: u32)
    requires { length line.old.items + length (decimal number) ≤ 640 }
    ensures { line.new.items ≡ line.old.items ++ decimal number }
{
    if number < 10 {
        line.push(b'0' + number as u8);
    } else {
        push_decimal(line, number / 10);
        line.push(b'0' + (number % 10) as u8);
    }
}
