//! Both ends against each other, over fates.

ghost use Rattle.std.specs.Prelude.{◌≤◌, length};

use crate::tests::counted;
use crate::{CardEnd, CardStep, ReaderEnd, ReaderStep};
use nfc_base::{Fate, Frame, Heard, Tech};
use std::process::Abort;
use std::test::Fail;

/// How an exchange ended.
#[derive(Clone, Copy, Debug, PartialEq, Eq)]
enum End {
    Answered,
    SixBad,
    FieldLost,
}

/// How often the card obeyed the command of an exchange, how often it was heard to ask for more time, how many
/// transmissions and bad receptions the exchange took, and the fates that are left, two bits each.
#[derive(Debug, Drop)]
struct Course {
    obeyed: u32,
    waits: u32,
    sent: u32,
    bads: u32,
    fates: u32,
}

/// The fate of the next transmission. Behind the last one that is given all pass.
fn next_fate(course: &mut Course) -> Fate {
    let letter = course.fates % 4;
    course.fates /= 4;
    course.sent = course.sent.saturating_add(1);
    match letter {
        0 => Fate::Pass,
        1 => Fate::Damage,
        2 => Fate::Lose,
        _ => Fate::Break,
    }
}

/// What the card says to a frame that it heard.
fn says<R: Abort>(
    rt: &R,
    card: &mut CardEnd,
    frame: &Frame,
    command: &[u8],
    answer: &[u8],
    course: &mut Course,
) -> Option<Frame>
    requires { length answer.now ≤ 264 }
{
    match card.hear(frame) {
        CardStep::Quiet => None,
        CardStep::Reply(block) => Some(block),
        CardStep::Asleep(block) => Some(block),
        CardStep::Deliver(got) => {
            assert!(rt; got.as_slice() == command);
            course.obeyed = course.obeyed.saturating_add(1);
            Some(card.reply(answer))
        }
    }
}

/// What a reader hears of a frame with this fate, none where the field is lost.
fn arrives(fate: Fate, frame: Frame) -> Option<Heard> {
    match fate {
        Fate::Pass => Some(Heard::Whole(frame)),
        Fate::Damage => Some(Heard::Damaged),
        Fate::Lose => Some(Heard::Silent),
        Fate::Break => None,
    }
}

/// One turn: what the reader hears, none where the field is lost.
fn turn<R: Abort>(
    rt: &R,
    card: &mut CardEnd,
    frame: &Frame,
    command: &[u8],
    answer: &[u8],
    course: &mut Course,
) -> Option<Heard>
    requires { length answer.now ≤ 264 }
{
    match next_fate(course) {
        Fate::Pass => {}
        Fate::Damage | Fate::Lose => return Some(Heard::Silent),
        Fate::Break => return None,
    }
    match says(rt, card, frame, command, answer, course) {
        Some(back) => arrives(next_fate(course), back),
        None => Some(Heard::Silent),
    }
}

/// Counts what was heard.
fn note(course: &mut Course, heard: &Heard) {
    match heard {
        Heard::Whole(block) if block.view().first() == Some(&0xF2) => {
            course.waits = course.waits.saturating_add(1)
        }
        Heard::Whole(_) => {}
        _ => course.bads = course.bads.saturating_add(1),
    }
}

/// The end of an exchange by a step that sends nothing.
fn ended<R: Abort>(rt: &R, step: &ReaderStep, answer: &[u8]) -> Result<End, Fail> {
    match step {
        ReaderStep::Finished(got) => {
            assert!(rt; got.as_slice() == answer);
            Ok(End::Answered)
        }
        ReaderStep::SixBad => Ok(End::SixBad),
        _ => Err(Fail::new("protocol")),
    }
}

/// One exchange, up to its end.
fn exchange<R: Abort>(
    rt: &R,
    reader: &mut ReaderEnd,
    card: &mut CardEnd,
    command: &[u8],
    answer: &[u8],
    course: &mut Course,
) -> Result<End, Fail>
    requires command { length command.now ≤ 264 }
    requires answer { length answer.now ≤ 264 }
{
    let mut frame = reader.begin(command);
    for _ in 0..200 {
        let Some(heard) = turn(rt, card, &frame, command, answer, course) else {
            return Ok(End::FieldLost);
        };
        note(course, &heard);
        match reader.next(&heard) {
            ReaderStep::Send(next) => frame = next,
            step => return ended(rt, &step, answer),
        }
    }
    Err(Fail::new("no end"))
}

/// A command and an answer of these sizes, the blocks of at most 13 bytes that they take, and how often the card asks
/// for more time.
type Sizes = (usize, usize, u32, u32, u8);

/// Whether an exchange went as the law has it: the card obeyed at most once, and exactly once where it was answered;
/// with so many blocks out and back, K extensions and b bad receptions, at most 2 (out + back - 1) + 2 K + 4 b
/// transmissions; and no more is asked for time than K times and once for each bad reception.
fn is_lawful(course: &Course, end: End, sizes: &Sizes) -> bool {
    let once = match end {
        End::Answered => course.obeyed == 1,
        End::SixBad => course.obeyed <= 1 && course.bads >= 6,
        End::FieldLost => course.obeyed <= 1,
    };
    let busy = sizes.4 as u32;
    let back = if course.obeyed == 0 {
        1
    } else {
        sizes.3.saturating_add(busy)
    };
    let rounds = sizes.2.saturating_add(back).saturating_sub(1);
    let most = rounds
        .saturating_mul(2)
        .saturating_add(course.bads.saturating_mul(4));
    once && course.sent <= most && course.waits <= busy.saturating_add(course.bads)
}

/// One exchange over these fates, which goes as the law has it.
fn over_fates<R: Abort>(
    rt: &R,
    reader: &mut ReaderEnd,
    card: &mut CardEnd,
    sizes: &Sizes,
    fates: u32,
) -> Result<End, Fail> {
    let bytes = counted();
    let command = &bytes[..sizes.0.min(264)];
    let answer = &bytes[..sizes.1.min(264)];
    let mut course = Course {
        obeyed: 0,
        waits: 0,
        sent: 0,
        bads: 0,
        fates,
    };
    let end = exchange(rt, reader, card, command, answer, &mut course)?;
    assert!(rt; is_lawful(&course, end, sizes), "over {fates:x}");
    Ok(end)
}

/// A card that heard RATS, and asks so often for more time.
fn lit_card(times: u8) -> Result<CardEnd, Fail> {
    let mut card = CardEnd::new(0);
    let _ = card.hear(&Frame::whole(Tech::A, &[0xE0, 0])?);
    card.set_busy(times.min(5), 7);
    Ok(card)
}

/// One exchange of new ends over these fates.
fn new_over_fates<R: Abort>(rt: &R, sizes: &Sizes, fates: u32) -> Result<End, Fail> {
    let mut card = lit_card(sizes.4)?;
    over_fates(rt, &mut ReaderEnd::new(0), &mut card, sizes, fates)
}

/// One exchange of new ends over these fates. Where it is answered the next one, over air in which all pass, takes as
/// few transmissions as it can.
fn over_fates_and_on<R: Abort>(rt: &R, sizes: &Sizes, fates: u32) -> Result<(), Fail> {
    let mut card = lit_card(sizes.4)?;
    let mut reader = ReaderEnd::new(0);
    if over_fates(rt, &mut reader, &mut card, sizes, fates)? == End::Answered {
        let next = over_fates(rt, &mut reader, &mut card, sizes, 0)?;
        assert_eq!(rt; next, End::Answered);
    }
    Ok(())
}

#[test]
fn all_lists_of_five_fates(rt: HostRuntime) -> Result<(), Fail> {
    let rows: [Sizes; 5] = [
        (1, 2, 1, 1, 0),
        (14, 13, 2, 1, 0),
        (13, 14, 1, 2, 0),
        (27, 40, 3, 4, 0),
        (27, 40, 3, 4, 3),
    ];
    for sizes in &rows {
        for fates in 0..1024u32 {
            over_fates_and_on(&rt, sizes, fates)?;
        }
    }
    Ok(())
}

/// Whether a list of eight fates has only passes behind its first Break, where nothing is sent any more.
fn ends_at_its_break(fates: u32) -> bool {
    let mut rest = fates;
    for _ in 0..8 {
        if rest % 4 == 3 {
            return rest == 3;
        }
        rest /= 4;
    }
    true
}

/// Counts one end more of its kind.
fn count(ends: &mut [u32; 3], end: End) {
    let at = match end {
        End::Answered => 0,
        End::SixBad => 1,
        End::FieldLost => 2,
    };
    ends[at] = ends[at].saturating_add(1);
}

/// There were more than a hundred ends of each kind.
fn were_many<R: Abort>(rt: &R, ends: &[u32; 3]) {
    for count in ends {
        assert!(rt; *count > 100, "{ends:?}");
    }
}

#[test]
fn a_busy_card_over_all_lists_of_eight_fates(rt: HostRuntime) -> Result<(), Fail> {
    let rows: [Sizes; 2] = [(1, 2, 1, 1, 2), (13, 14, 1, 2, 5)];
    let mut ends = [0u32; 3];
    for sizes in &rows {
        for fates in (0..65536u32).filter(|fates| ends_at_its_break(*fates)) {
            count(&mut ends, new_over_fates(&rt, sizes, fates)?);
        }
    }
    were_many(&rt, &ends);
    Ok(())
}

/// The number after one in a long row of numbers.
fn shuffled(number: u32) -> u32 {
    number.wrapping_mul(1_664_525).wrapping_add(1_013_904_223)
}

/// Twelve fates of a number, of which two rounds in three have no Break.
fn twelve_fates(number: u32, round: u32) -> u32 {
    let fates = number >> 8;
    if round % 3 == 0 {
        return fates;
    }
    fates & !((fates & (fates >> 1) & 0x55_5555) << 1)
}

#[test]
fn lists_of_twelve_fates(rt: HostRuntime) -> Result<(), Fail> {
    let sizes: Sizes = (27, 40, 3, 4, 0);
    let mut card = lit_card(0)?;
    let mut reader = ReaderEnd::new(0);
    let mut number = 1u32;
    let mut ends = [0u32; 3];
    for round in 0..3000u32 {
        number = shuffled(number);
        let fates = twelve_fates(number, round);
        let end = over_fates(&rt, &mut reader, &mut card, &sizes, fates)?;
        count(&mut ends, end);
        if end != End::Answered {
            card = lit_card(0)?;
            reader = ReaderEnd::new(0);
        }
    }
    were_many(&rt, &ends);
    Ok(())
}

#[test]
fn longest_chains_both_ways(rt: HostRuntime) -> Result<(), Fail> {
    let end = new_over_fates(&rt, &(264, 264, 21, 21, 0), 0)?;
    assert_eq!(rt; end, End::Answered);
    Ok(())
}
