//! Both ends, row by row and against each other.

ghost use Rattle.std.specs.Prelude.{◌≤◌, length};

use arrayvec::ArrayVec;
use dep_link::{InitStep, Initiator, Target, TargetStep};
use nfc_base::{Fate, Frame, Heard, Tech};
use std::alloc::Global;
use std::process::Abort;
use std::test::Fail;

const ID: [u8; 10] = [8, 1, 2, 3, 0, 0, 0, 0, 0, 0];

fn target_does(step: &TargetStep, kind: u8, bytes: &[u8]) -> bool {
    match step {
        TargetStep::Quiet => kind == b'q',
        TargetStep::Reply(frame) => kind == b'r' && frame.view() == bytes,
        TargetStep::Restart { reply, .. } => kind == b'n' && reply.view() == bytes,
        TargetStep::Deliver(payload) => kind == b'd' && payload.as_slice() == bytes,
        TargetStep::Asleep(frame) => kind == b's' && frame.view() == bytes,
        TargetStep::Released(frame) => kind == b'f' && frame.view() == bytes,
    }
}

fn initiator_does(step: &InitStep, kind: u8, bytes: &[u8]) -> bool {
    match step {
        InitStep::Send(frame) => kind == b's' && frame.view() == bytes,
        InitStep::Finished(reply) => kind == b'f' && reply.as_slice() == bytes,
        InitStep::SixBad => kind == b'6',
        InitStep::Protocol => kind == b'p',
    }
}

/// A frame, and the kind and bytes of what an end does at it. At the kind `=` the end is given a payload to send, and
/// sends those bytes; at `!` a target gets dark.
type Row<'a> = (&'a [u8], u8, &'a [u8]);

/// Whether a target does what the row says.
fn target_follows(rt: &impl Abort, target: &mut Target, row: &Row<'_>) -> Result<bool, Fail> {
    let (frame, kind, bytes) = *row;
    match kind {
        b'=' => Ok(replies_with(rt, target, frame, bytes)),
        b'!' => {
            target.dark();
            Ok(true)
        }
        _ => {
            let step = target.hear(&Frame::whole(Tech::A, frame)?);
            Ok(target_does(&step, kind, bytes))
        }
    }
}

fn replies_with(rt: &impl Abort, target: &mut Target, payload: &[u8], bytes: &[u8]) -> bool {
    assert!(rt; payload.len() <= 2178);
    target.reply(payload).view() == bytes
}

fn walk_target(rt: &impl Abort, target: &mut Target, rows: &[Row<'_>]) -> Result<(), Fail> {
    for row in rows {
        assert!(rt; target_follows(rt, target, row)?, "at {row:?}");
    }
    Ok(())
}

/// A frame of no bytes stands for a silent reception, one of one byte for a damaged one.
fn heard_of(frame: &[u8]) -> Result<Heard, Fail> {
    Ok(match frame.len() {
        0 => Heard::Silent,
        1 => Heard::Damaged,
        _ => Heard::Whole(Frame::whole(Tech::A, frame)?),
    })
}

/// Whether an initiator does what the row says.
fn initiator_follows(
    rt: &impl Abort,
    initiator: &mut Initiator,
    row: &Row<'_>,
) -> Result<bool, Fail> {
    let (frame, kind, bytes) = *row;
    if kind == b'=' {
        assert!(rt; frame.len() <= 2178);
        return Ok(initiator.begin(frame).view() == bytes);
    }
    let step = initiator.next(&heard_of(frame)?);
    Ok(initiator_does(&step, kind, bytes))
}

fn walk_initiator(
    rt: &impl Abort,
    initiator: &mut Initiator,
    rows: &[Row<'_>],
) -> Result<(), Fail> {
    for row in rows {
        assert!(rt; initiator_follows(rt, initiator, row)?, "at {row:?}");
    }
    Ok(())
}

#[test]
fn target_rows(rt: HostRuntime) -> Result<(), Fail> {
    let atr_res = [
        0xF0, 0x12, 0xD5, 1, 8, 1, 2, 3, 0, 0, 0, 0, 0, 0, 0, 0, 0, 8, 0x30,
    ];
    let linux: [u8; 35] = [
        0xF0, 0x22, 0xD4, 0, 1, 2, 3, 4, 5, 6, 7, 8, 9, 10, 0, 0, 0, 0x32, 0x46, 0x66, 0x6D, 1, 1,
        0x11, 4, 1, 0x96, 3, 2, 0, 1, 2, 2, 7, 0xFF,
    ];
    let rows: [Row<'_>; 21] = [
        (&linux, b'n', &atr_res),
        (&[0xF0, 6, 0xD4, 4, 0, 0x12, 3], b'q', &[]),
        (&[0xF0, 4, 0xD4, 6, 0x53], b'q', &[]),
        (&[0xF0, 4, 0xD4, 6, 0x40], b'q', &[]),
        (&[0xF0, 5, 0xD4, 6, 0x90, 1], b'q', &[]),
        (&[0xF0, 4, 0xD5, 7, 0x80], b'q', &[]),
        (&[0xF0, 4, 0xD4, 6, 0x80], b'r', &[0xF0, 4, 0xD5, 7, 0x80]),
        (
            &[0xF0, 5, 0xD4, 6, 0x10, 0xA1],
            b'r',
            &[0xF0, 4, 0xD5, 7, 0x40],
        ),
        (
            &[0xF0, 5, 0xD4, 6, 0x10, 0xA1],
            b'r',
            &[0xF0, 4, 0xD5, 7, 0x40],
        ),
        (&[0xF0, 4, 0xD4, 6, 0x50], b'r', &[0xF0, 4, 0xD5, 7, 0x40]),
        (&[0xF0, 5, 0xD4, 6, 1, 0xA2], b'd', &[0xA1, 0xA2]),
        (&[0xF0, 3, 0xD4, 8], b's', &[0xF0, 3, 0xD5, 9]),
        (&[0xF0, 3, 0xD4, 0x0A], b'f', &[0xF0, 3, 0xD5, 0x0B]),
        (&[0xF0, 4, 0xD4, 6, 0xE0], b'q', &[]),
        (&[7], b'=', &[0xF0, 5, 0xD5, 7, 1, 7]),
        (
            &[0xF0, 5, 0xD4, 6, 1, 0xA2],
            b'r',
            &[0xF0, 5, 0xD5, 7, 1, 7],
        ),
        (&[0xF0, 4, 0xD4, 6, 0x80], b'r', &[0xF0, 4, 0xD5, 7, 0x80]),
        (&[0xF0, 4, 0xD4, 6, 0x51], b'r', &[0xF0, 5, 0xD5, 7, 1, 7]),
        (&[0xF0, 4, 0xD4, 6, 0x42], b'q', &[]),
        (&[], b'!', &[]),
        (&[0xF0, 5, 0xD4, 6, 0, 9], b'd', &[9]),
    ];
    walk_target(&rt, &mut Target::new(ID, 3, ArrayVec::new()), &rows)
}

#[test]
fn a_busy_target_asks_for_more_time(rt: HostRuntime) -> Result<(), Fail> {
    let more: [u8; 6] = [0xF0, 5, 0xD5, 7, 0x90, 5];
    let granted: [u8; 6] = [0xF0, 5, 0xD4, 6, 0x90, 5];
    let reply: [u8; 7] = [0xF0, 6, 0xD5, 7, 0, 0x81, 0x84];
    let rows: [Row<'_>; 12] = [
        (&[0xF0, 6, 0xD4, 6, 0, 0x11, 0x20], b'd', &[0x11, 0x20]),
        (&[0x81, 0x84], b'=', &more),
        (&[0xF0, 4, 0xD4, 6, 0x50], b'r', &more),
        (&[0xF0, 5, 0xD4, 6, 0x90, 4], b'q', &[]),
        (&granted, b'r', &more),
        (&[0xF0, 4, 0xD4, 6, 0x41], b'q', &[]),
        (&granted, b'r', &reply),
        (&granted, b'r', &reply),
        (&[0xF0, 4, 0xD4, 6, 0x50], b'r', &reply),
        (&[], b'!', &[]),
        (&[0xF0, 4, 0xD4, 6, 0], b'd', &[]),
        (&[], b'=', &more),
    ];
    let mut target = Target::new(ID, 3, ArrayVec::new());
    target.set_busy(2, 5);
    walk_target(&rt, &mut target, &rows)
}

/// Its one piece waits for the time to be granted, and comes behind information that goes on, which asks for no more
/// time.
#[test]
fn an_empty_reply_has_one_piece(rt: HostRuntime) -> Result<(), Fail> {
    const ROWS: [Row; 7] = [
        (&[0xF0, 6, 0xD4, 6, 0, 0, 0], b'd', &[0, 0]),
        (&[], b'=', &MORE),
        (&[0xF0, 4, 0xD4, 6, 0x41], b'q', &[]),
        (
            &[0xF0, 5, 0xD4, 6, 0x11, 0xAA],
            b'r',
            &[0xF0, 4, 0xD5, 7, 0x41],
        ),
        (&[0xF0, 4, 0xD4, 6, 0x42], b'r', &[0xF0, 4, 0xD5, 7, 2]),
        (&[0xF0, 4, 0xD4, 6, 0x42], b'r', &[0xF0, 4, 0xD5, 7, 2]),
        (&[0xF0, 4, 0xD4, 6, 0x43], b'q', &[]),
    ];
    let mut target = Target::new(ID, 3, ArrayVec::new());
    target.set_busy(1, 5);
    walk_target(&rt, &mut target, &ROWS)
}

/// Sixteen times it grants more time.
fn grants_sixteen_times(rt: &impl Abort, initiator: &mut Initiator) -> Result<(), Fail> {
    for _ in 0..16u8 {
        walk_initiator(rt, initiator, &[(&MORE, b's', &GRANTED)])?;
    }
    Ok(())
}

const MORE: [u8; 6] = [0xF0, 5, 0xD5, 7, 0x90, 5];

const GRANTED: [u8; 6] = [0xF0, 5, 0xD4, 6, 0x90, 5];

#[test]
fn initiator_rows(rt: HostRuntime) -> Result<(), Fail> {
    let mut initiator = Initiator::new(3);
    let attention = [0xF0, 4, 0xD4, 6, 0x80];
    let up = [0xF0, 4, 0xD5, 7, 0x80];
    let rows: [Row<'_>; 13] = [
        (&[0x11, 0x20], b'=', &[0xF0, 6, 0xD4, 6, 0, 0x11, 0x20]),
        (&MORE, b's', &GRANTED),
        (&MORE, b's', &GRANTED),
        (&[], b's', &attention),
        (&[0], b's', &attention),
        (&up, b's', &GRANTED),
        (&[0], b's', &[0xF0, 4, 0xD4, 6, 0x50]),
        (&MORE, b's', &GRANTED),
        (&[0xF0, 6, 0xD5, 7, 0, 0x81, 0x84], b'f', &[0x81, 0x84]),
        (&[], b's', &attention),
        (&up, b'p', &[]),
        (&[], b'p', &[]),
        (&[9], b'=', &[0xF0, 5, 0xD4, 6, 1, 9]),
    ];
    walk_initiator(&rt, &mut initiator, &rows)?;
    grants_sixteen_times(&rt, &mut initiator)?;
    walk_initiator(
        &rt,
        &mut initiator,
        &[(&MORE, b'p', &[]), (&[0], b'p', &[])],
    )
}

/// A whole frame that no wait of a last piece with PNI 0 allows.
fn refused<R: Abort>(rt: &R, frame: &[u8]) -> Result<(), Fail> {
    let mut initiator = Initiator::new(3);
    let _ = initiator.begin(&[1]);
    walk_initiator(rt, &mut initiator, &[(frame, b'p', &[]), (&[], b'p', &[])])
}

#[test]
fn whole_frames_that_are_not_allowed(rt: HostRuntime) -> Result<(), Fail> {
    const ROWS: [&[u8]; 7] = [
        &[0xF0, 4, 0xD5, 7, 0x40],
        &[0xF0, 4, 0xD5, 7, 1],
        &[0xF0, 4, 0xD5, 7, 0x10],
        &[0xF0, 4, 0xD5, 7, 0x80],
        &[0xF0, 4, 0xD4, 6, 0],
        &[0xF0, 5, 0xD5, 7, 0x90, 60],
        &[0xAA, 0xBB],
    ];
    for &frame in &ROWS {
        refused(&rt, frame)?;
    }
    Ok(())
}

/// How an exchange ended.
#[derive(Clone, Copy, Debug, PartialEq, Eq)]
enum End {
    Replied,
    SixBad,
    FieldLost,
}

/// How often the payload of an exchange was handed over, how often the target was heard to ask for more time, how many
/// transmissions and bad receptions the exchange took, and the fates that are left, two bits each.
#[derive(Debug, Drop)]
struct Course {
    handed: u32,
    waits: u32,
    sent: u32,
    bads: u32,
    fates: u32,
}

/// The fate of the next transmission. Behind the last one that is given all pass.
fn next_fate(course: &mut Course) -> Fate {
    let letter = course.fates % 4;
    course.fates /= 4;
    course.sent = course.sent.saturating_add(1);
    match letter {
        0 => Fate::Pass,
        1 => Fate::Damage,
        2 => Fate::Lose,
        _ => Fate::Break,
    }
}

/// One turn: what the initiator hears, none where the field is lost.
fn turn<R: Abort>(
    rt: &R,
    target: &mut Target,
    frame: &Frame,
    payload: &[u8],
    reply: &[u8],
    course: &mut Course,
) -> Result<Option<Heard>, Fail>
    requires { length reply.now ≤ 2178 }
{
    match next_fate(course) {
        Fate::Pass => {}
        Fate::Damage | Fate::Lose => return Ok(Some(Heard::Silent)),
        Fate::Break => return Ok(None),
    }
    let back = match target.hear(frame) {
        TargetStep::Quiet => return Ok(Some(Heard::Silent)),
        TargetStep::Reply(answer) => answer,
        TargetStep::Restart { reply, .. } => reply,
        TargetStep::Asleep(answer) => answer,
        TargetStep::Released(answer) => answer,
        TargetStep::Deliver(got) => {
            assert!(rt; got.as_slice() == payload);
            course.handed = course.handed.saturating_add(1);
            target.reply(reply)
        }
    };
    Ok(match next_fate(course) {
        Fate::Pass => Some(Heard::Whole(back)),
        Fate::Damage => Some(Heard::Damaged),
        Fate::Lose => Some(Heard::Silent),
        Fate::Break => None,
    })
}

/// Whether a target's frame is a time extension: a supervisory PDU, of which four bits are 1001.
fn asks_for_time(frame: &Frame) -> bool {
    frame.view().get(4).is_some_and(|kind| kind & 0xF0 == 0x90)
}

/// One exchange, up to its end.
fn exchange<R: Abort>(
    rt: &R,
    initiator: &mut Initiator,
    target: &mut Target,
    payload: &[u8],
    reply: &[u8],
    course: &mut Course,
) -> Result<End, Fail>
    requires payload { length payload.now ≤ 2178 }
    requires reply { length reply.now ≤ 2178 }
{
    let mut frame = initiator.begin(payload);
    for _ in 0..300 {
        let heard = match turn(rt, target, &frame, payload, reply, course)? {
            Some(heard) => heard,
            None => return Ok(End::FieldLost),
        };
        match &heard {
            Heard::Whole(block) if asks_for_time(block) => {
                course.waits = course.waits.saturating_add(1)
            }
            Heard::Whole(_) => {}
            _ => course.bads = course.bads.saturating_add(1),
        }
        match initiator.next(&heard) {
            InitStep::Send(next) => frame = next,
            InitStep::Finished(got) => {
                assert!(rt; got.as_slice() == reply);
                return Ok(End::Replied);
            }
            InitStep::SixBad => return Ok(End::SixBad),
            InitStep::Protocol => assert!(rt; false, "protocol"),
        }
    }
    assert!(rt; false, "no end");
    Ok(End::FieldLost)
}

/// A payload and a reply of these sizes, the frames of at most 61 bytes that they take, and how often the target asks
/// for more time.
type Sizes = (usize, usize, u32, u32, u8);

/// Whether an exchange went as the law has it: the payload was handed over at most once, and exactly once where its
/// reply came; with so many pieces out and back, K extensions and b bad receptions, at most 2 (out + back - 1) + 2 K +
/// 4 b transmissions; and no more is asked for time than K times and once for each bad reception.
fn is_lawful(course: &Course, end: End, sizes: &Sizes) -> bool {
    let once = match end {
        End::Replied => course.handed == 1,
        End::SixBad => course.handed <= 1 && course.bads >= 6,
        End::FieldLost => course.handed <= 1,
    };
    let busy = sizes.4 as u32;
    let back = if course.handed == 0 {
        1
    } else {
        sizes.3.saturating_add(busy)
    };
    let rounds = sizes.2.saturating_add(back).saturating_sub(1);
    let most = rounds
        .saturating_mul(2)
        .saturating_add(course.bads.saturating_mul(4));
    once && course.sent <= most && course.waits <= busy.saturating_add(course.bads)
}

/// As many bytes as the longest payload has.
fn counted() -> [u8; 2178] {
    let mut bytes = [0; 2178];
    for (at, byte) in bytes.iter_mut().enumerate() {
        *byte = (at & 0xFF) as u8;
    }
    bytes
}

/// One exchange over these fates.
fn over_fates<R: Abort>(
    rt: &R,
    initiator: &mut Initiator,
    target: &mut Target,
    sizes: &Sizes,
    fates: u32,
) -> Result<End, Fail> {
    let bytes = counted();
    let payload = &bytes[..sizes.0.min(2178)];
    let reply = &bytes[..sizes.1.min(2178)];
    let mut course = Course {
        handed: 0,
        waits: 0,
        sent: 0,
        bads: 0,
        fates,
    };
    let end = exchange(rt, initiator, target, payload, reply, &mut course)?;
    assert!(rt; is_lawful(&course, end, sizes), "over {fates:x}");
    Ok(end)
}

/// A target that takes frames of 64 bytes, as its initiator does, and asks so often for more time.
fn small_target<R: Abort>(rt: &R, times: u8) -> Result<Target, Fail> {
    let mut target = Target::new(ID, 0, ArrayVec::new());
    let request = [
        0xF0, 0x11, 0xD4, 0, 1, 2, 3, 4, 5, 6, 7, 8, 9, 10, 0, 0, 0, 0,
    ];
    let step = target.hear(&Frame::whole(Tech::A, &request)?);
    assert!(rt; matches!(step, TargetStep::Restart { .. }));
    target.set_busy(times.min(5), 7);
    Ok(target)
}

#[test]
fn all_lists_of_six_fates(rt: HostRuntime) -> Result<(), Fail> {
    let rows: [Sizes; 5] = [
        (0, 0, 1, 1, 0),
        (1, 2, 1, 1, 2),
        (62, 61, 2, 1, 0),
        (61, 62, 1, 2, 1),
        (130, 190, 3, 4, 0),
    ];
    for sizes in &rows {
        for fates in 0..4096u32 {
            let mut target = small_target(&rt, sizes.4)?;
            let mut initiator = Initiator::new(0);
            let end = over_fates(&rt, &mut initiator, &mut target, sizes, fates)?;
            if end == End::Replied {
                let next = over_fates(&rt, &mut initiator, &mut target, sizes, 0)?;
                assert_eq!(rt; next, End::Replied);
            }
        }
    }
    Ok(())
}

#[test]
fn a_busy_target_over_all_lists_of_eight_fates(rt: HostRuntime) -> Result<(), Fail> {
    let rows: [Sizes; 2] = [(1, 2, 1, 1, 2), (61, 62, 1, 2, 5)];
    let mut ends = [0u32; 3];
    for sizes in &rows {
        for fates in (0..65536u32).filter(|fates| ends_at_its_break(*fates)) {
            let mut target = small_target(&rt, sizes.4)?;
            let mut initiator = Initiator::new(0);
            let end = over_fates(&rt, &mut initiator, &mut target, sizes, fates)?;
            count(&mut ends, end);
        }
    }
    assert!(rt; ends[0] > 100 && ends[1] > 100 && ends[2] > 100, "{ends:?}");
    Ok(())
}

/// Whether a list of eight fates has only passes behind its first Break, where nothing is sent any more.
fn ends_at_its_break(fates: u32) -> bool {
    let mut rest = fates;
    for _ in 0..8 {
        if rest % 4 == 3 {
            return rest == 3;
        }
        rest /= 4;
    }
    true
}

/// Counts one end more of its kind.
fn count(ends: &mut [u32; 3], end: End) {
    let at = match end {
        End::Replied => 0,
        End::SixBad => 1,
        End::FieldLost => 2,
    };
    ends[at] = ends[at].saturating_add(1);
}

#[test]
fn longest_payloads_both_ways(rt: HostRuntime) -> Result<(), Fail> {
    let mut target = small_target(&rt, 5)?;
    let mut initiator = Initiator::new(0);
    let end = over_fates(
        &rt,
        &mut initiator,
        &mut target,
        &(2178, 2178, 36, 36, 5),
        0,
    )?;
    assert_eq!(rt; end, End::Replied);
    Ok(())
}

/// These bytes, and then so many of one value.
fn followed(alloc: Global, head: &[u8], count: usize) -> Result<Vec<u8>, Fail> {
    let mut bytes = head.to_vec(alloc)?;
    for _ in 0..count {
        bytes.push(0xAB)?;
    }
    Ok(bytes)
}

/// A payload of 100 bytes goes out in two pieces, and as the reply in one.
fn pieces_go_over(
    rt: &impl Abort,
    initiator: &mut Initiator,
    target: &mut Target,
    payload: &[u8],
    pieces: (&[u8], &[u8], &[u8]),
) -> Result<(), Fail> {
    let (first, second, reply) = pieces;
    let ack = [0xF0, 4, 0xD5, 7, 0x40];
    walk_initiator(rt, initiator, &[(payload, b'=', first)])?;
    walk_target(rt, target, &[(first, b'r', &ack)])?;
    walk_initiator(rt, initiator, &[(&ack, b's', second)])?;
    walk_target(
        rt,
        target,
        &[(second, b'd', payload), (payload, b'=', reply)],
    )?;
    walk_initiator(rt, initiator, &[(reply, b'f', payload)])
}

#[test]
fn pieces_go_out_by_the_size_of_the_other_end(rt: HostRuntime) -> Result<(), Fail> {
    let alloc = rt.alloc();
    let payload = followed(alloc, &[], 100)?;
    let first = followed(alloc, &[0xF0, 0x41, 0xD4, 6, 0x10], 61)?;
    let second = followed(alloc, &[0xF0, 0x2B, 0xD4, 6, 1], 39)?;
    let reply = followed(alloc, &[0xF0, 0x68, 0xD5, 7, 1], 100)?;
    let mut target = Target::new(ID, 0, ArrayVec::new());
    pieces_go_over(
        &rt,
        &mut Initiator::new(0),
        &mut target,
        &payload,
        (&first, &second, &reply),
    )
}

/// Eight pieces of 250 bytes are acknowledged; it leaves the frame of a ninth.
fn eight_pieces(rt: &impl Abort, target: &mut Target, frame: &mut [u8; 255]) -> Result<(), Fail> {
    for round in 0..8u8 {
        frame[4] = 0x10 + round % 4;
        let ack = [0xF0, 4, 0xD5, 7, 0x40 + round % 4];
        walk_target(rt, target, &[(&*frame, b'r', &ack)])?;
    }
    frame[4] = 0x10;
    Ok(())
}

#[test]
fn a_chain_above_2178_bytes_makes_the_target_silent(rt: HostRuntime) -> Result<(), Fail> {
    let mut target = Target::new(ID, 3, ArrayVec::new());
    let mut frame = [0; 255];
    [frame[0], frame[1], frame[2], frame[3]] = [0xF0, 0xFE, 0xD4, 6];
    eight_pieces(&rt, &mut target, &mut frame)?;
    let request: [u8; 18] = [
        0xF0, 0x11, 0xD4, 0, 1, 2, 3, 4, 5, 6, 7, 8, 9, 10, 0, 0, 0, 0x30,
    ];
    let atr_res = [
        0xF0, 0x12, 0xD5, 1, 8, 1, 2, 3, 0, 0, 0, 0, 0, 0, 0, 0, 0, 8, 0x30,
    ];
    let rows: [Row<'_>; 5] = [
        (&frame, b'q', &[]),
        (&[0xF0, 4, 0xD4, 6, 0x80], b'q', &[]),
        (&[0xF0, 3, 0xD4, 0x0A], b'q', &[]),
        (&request, b'n', &atr_res),
        (&[0xF0, 4, 0xD4, 6, 0x80], b'r', &[0xF0, 4, 0xD5, 7, 0x80]),
    ];
    walk_target(&rt, &mut target, &rows)
}
