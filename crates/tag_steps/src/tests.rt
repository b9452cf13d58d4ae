//! Readings and writings of a Type 2 tag in memory, a command at a time; and of logs that no tag would give.

use crate::{
    NextRead, NextSurvey, NextWrite, Turn, next_read_of_log, next_survey_of_log, next_write_of_log,
};
use nfc_base::Frame;
use std::alloc::Global;
use std::process::Abort;
use std::test::Fail;
use t2t_tag::T2Tag;
use tag_reader::{Ground, How, ReadFault};

/// More commands than any of these readings and writings has.
const MANY: usize = 200;

/// A tag of fourteen blocks, the message `D00000` and the TLVs around it.
const STORE: &[u8] = &[
    0, 0, 0, 0, 0, 0, 0, 0, 0, 0, 0, 0, 0xE1, 0x10, 0x05, 0, 3, 3, 0xD0, 0, 0, 0xFE, 0, 0, 0, 0, 0,
    0, 0, 0, 0, 0, 0, 0, 0, 0, 0, 0, 0, 0, 0, 0, 0, 0, 0, 0, 0, 0, 0, 0, 0, 0, 0, 0, 0, 0,
];

/// A tag, and the turns that were made with it.
#[derive(Drop)]
struct Talk {
    tag: T2Tag,
    turns: Vec<Turn>,
    /// So many commands are answered, and whether the one behind them is obeyed.
    left: usize,
    behind: bool,
}

impl Talk {
    fn new(alloc: Global, left: usize, behind: bool) -> Result<Talk, Fail> {
        let tag = T2Tag::new(Vec::from_slice(alloc, STORE)?)?;
        Ok(Talk {
            tag,
            turns: Vec::new(alloc),
            left,
            behind,
        })
    }

    /// Sends a command: whether it was answered.
    fn send(&mut self, command: Frame) -> Result<bool, Fail> {
        if self.turns.len() == self.left {
            if self.behind {
                self.tag.obey(&command);
            }
            return Ok(false);
        }
        let Some(answer) = self.tag.obey(&command) else {
            return Ok(false);
        };
        self.turns.push(Turn { command, answer })?;
        Ok(true)
    }

    /// Reads the tag: its message, or none where a command wasn't answered.
    fn read(&mut self, alloc: Global) -> Result<Option<Vec<u8>>, Fail> {
        for _ in 0..MANY {
            match next_read_of_log(alloc, How::T2, &self.turns) {
                NextRead::Send(command) => {
                    if !self.send(command)? {
                        return Ok(None);
                    }
                }
                NextRead::Found(found) => {
                    return Ok(Some(Vec::from_slice(alloc, found.message.as_slice())?));
                }
                NextRead::Fault(_) => return Ok(None),
            }
        }
        Ok(None)
    }

    /// Writes a message to it: whether it is written.
    fn write(&mut self, alloc: Global, message: &[u8]) -> Result<bool, Fail> {
        for _ in 0..MANY {
            match next_write_of_log(alloc, How::T2, message, &self.turns) {
                NextWrite::Send(command) => {
                    if !self.send(command)? {
                        return Ok(false);
                    }
                }
                NextWrite::Done => return Ok(true),
                NextWrite::Fault(_) => return Ok(false),
            }
        }
        Ok(false)
    }

    /// The same tag, whose commands are all answered.
    fn again(self, alloc: Global) -> Talk {
        Talk {
            tag: self.tag,
            turns: Vec::new(alloc),
            left: MANY,
            behind: false,
        }
    }
}

#[test]
fn a_message_is_read_by_two_commands(rt: HostRuntime) -> Result<(), Fail> {
    for (left, reads) in [(MANY, true), (2, true), (1, false), (0, false)] {
        let mut talk = Talk::new(rt.alloc(), left, false)?;
        let message = talk.read(rt.alloc())?;
        assert_eq!(rt; message.is_some(), reads, "at {left}");
        assert_eq!(rt; talk.turns.len(), left.min(2), "at {left}");
        let same = message.is_none_or(|message| message.as_slice() == [0xD0, 0, 0].as_slice());
        assert!(rt; same, "at {left}");
    }
    Ok(())
}

/// What is read behind a write that was cut off: the old message, the empty one or the new one.
fn left_behind(rt: &impl Abort, alloc: Global, left: usize, behind: bool) -> Result<bool, Fail> {
    let new = [0xD1, 1, 1, 0x54, 1, 2, 3, 4, 5];
    let mut talk = Talk::new(alloc, left, behind)?;
    let done = talk.write(alloc, &new)?;
    let message = talk.again(alloc).read(alloc)?;
    let Some(message) = message else {
        assert!(rt; false, "nothing is read at {left} {behind}");
        return Ok(done);
    };
    let old = message.as_slice() == [0xD0, 0, 0].as_slice();
    let fresh = message.as_slice() == new.as_slice();
    assert!(rt;
        fresh || !done && (old || message.len() == 0),
        "at {left} {behind}"
    );
    Ok(done)
}

#[test]
fn a_write_that_is_cut_off_leaves_one_of_three(rt: HostRuntime) -> Result<(), Fail> {
    let mut written: usize = 0;
    for left in 0..16 {
        for behind in [false, true] {
            if left_behind(&rt, rt.alloc(), left, behind)? {
                written = written.saturating_add(1);
            }
        }
    }
    assert!(rt; written > 0 && written < 32, "{written}");
    Ok(())
}

#[test]
fn another_command_is_told(rt: HostRuntime) -> Result<(), Fail> {
    let mut talk = Talk::new(rt.alloc(), MANY, false)?;
    let _ = talk.read(rt.alloc())?;
    let turns = talk.turns.as_slice();
    assert_eq!(rt; turns.len(), 2);
    if turns.len() == 2 {
        let next = next_read_of_log(rt.alloc(), How::T2, &turns[1..]);
        assert!(rt; matches!(next, NextRead::Fault(ReadFault::Protocol)));
    }
    Ok(())
}

#[test]
fn a_tag_is_surveyed(rt: HostRuntime) -> Result<(), Fail> {
    let mut talk = Talk::new(rt.alloc(), MANY, false)?;
    for _ in 0..MANY {
        match next_survey_of_log(rt.alloc(), How::T2, &talk.turns) {
            NextSurvey::Send(command) => {
                if !talk.send(command)? {
                    break;
                }
            }
            NextSurvey::Ground(ground) => {
                assert!(rt; matches!(ground, Ground::Area { .. }));
                assert_eq!(rt; talk.turns.len(), 4);
                return Ok(());
            }
            NextSurvey::Fault(_) => break,
        }
    }
    assert!(rt; false, "no ground was told");
    Ok(())
}
