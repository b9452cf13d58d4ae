//! Frames of Type 2 tags, read and written.

use nfc_base::{Frame, Tech};
use std::test::Fail;
use t2t_tag::{T2Answer, T2Command};

#[test]
fn frames_come_back(rt: HostRuntime) -> Result<(), Fail> {
    let answers = [
        T2Answer::Content([7; 16]),
        T2Answer::Done,
        T2Answer::Refused,
    ];
    for answer in answers {
        assert_eq!(rt; T2Answer::read_from(&answer.to_frame()), Some(answer));
    }
    let commands = [
        T2Command::Read { block: 255 },
        T2Command::Write {
            block: 4,
            content: [1, 2, 3, 4],
        },
    ];
    for command in commands {
        assert_eq!(rt; T2Command::read_from(&command.to_frame()), Some(command));
    }
    Ok(())
}

/// Neither an answer nor a command.
fn spells_nothing(frame: &Frame) -> bool {
    T2Answer::read_from(frame).is_none() && T2Command::read_from(frame).is_none()
}

#[test]
fn other_frames_spell_nothing(rt: HostRuntime) -> Result<(), Fail> {
    const FRAMES: [(Tech, &[u8], u8); 6] = [
        (Tech::A, &[0x5], 4),
        (Tech::A, &[0xA], 5),
        (Tech::A, &[0xA], 0),
        (Tech::V, &[0xA], 4),
        (Tech::A, &[0; 15], 0),
        (Tech::A, &[0; 16], 7),
    ];
    for &(tech, bytes, tail) in &FRAMES {
        let frame = Frame::part(tech, bytes, tail)?;
        assert!(rt; spells_nothing(&frame), "at {bytes:?} {tail}");
    }
    Ok(())
}
