//! `read` and `write` over a chip that plays a recorded trace, and over a tag that is asked a command at a time.

ghost use Rattle.std.specs.Prelude.{◌≡◌, length, slice_get};

use crate::{Chip, ChipLink};
use nfc_base::{Frame, FrameFault, Tech};
use std::alloc::Global;
use std::test::Fail;
use t2t_tag::T2Tag;
use tag_reader::{How, ReadFault, read};
use tag_writer::{WriteFault, write};

/// A chip that was recorded: it gives these answers, one after another, and nothing behind them.
#[derive(Drop)]
struct Recorded {
    answers: Vec<Frame>,
    asked: usize,
}

impl Chip for Recorded {
    ghost answers = { λ c n. slice_get c.answers.items n };

    ghost asked = { λ c. c.asked };

    fn transceive(&mut self, _command: &[u8]) -> Option<Frame> {
        let asked = self.asked;
        self.asked += 1;
        Some(self.answers.get(asked)?.copy())
    }
}

fn link(alloc: Global, answers: Vec<Frame>) -> ChipLink<Recorded>
    ensures how { result.how ≡ How.T2 }
    ensures ready { result.chip.asked ≡ length result.obeyed.items }
{
    ChipLink::new(alloc, Recorded { answers, asked: 0 }, How::T2)
}

/// A frame of these bytes; of one byte, an acknowledgement of four bits.
fn frame(bytes: &[u8]) -> Result<Frame, FrameFault> {
    Frame::part(Tech::A, bytes, if bytes.len() == 1 { 4 } else { 0 })
}

fn frames(alloc: Global, texts: &[&str]) -> Result<Vec<Frame>, Fail> {
    let mut frames = Vec::new(alloc);
    for text in texts {
        frames.push(frame(&hex::decode(alloc, *text)?)?)?;
    }
    Ok(frames)
}

const CONTAINER: &str = "000000000000000000000000E1100600";

const MESSAGE: &str = "0303D00000FE00000000000000000000";

const ZEROS: &str = "00000000000000000000000000000000";

#[test]
fn a_recorded_read(rt: HostRuntime) -> Result<(), Fail> {
    let alloc = rt.alloc();
    let mut heard = link(alloc, frames(alloc, &[CONTAINER, MESSAGE])?);
    let found = read(alloc, &mut heard, How::T2)?;
    assert!(rt; found.message.as_slice() == [0xD0, 0, 0].as_slice());
    let mut silent = link(alloc, frames(alloc, &[CONTAINER])?);
    assert!(rt; matches!(read(alloc, &mut silent, How::T2), Err(ReadFault::SixBad)));
    assert!(rt;
        silent
            .last()
            .is_some_and(|next| next.view() == [0x30, 4].as_slice())
    );
    Ok(())
}

#[test]
fn a_recorded_write(rt: HostRuntime) -> Result<(), Fail> {
    let alloc = rt.alloc();
    let trace = [CONTAINER, MESSAGE, ZEROS, ZEROS, "0A", "0A", "0A"];
    let mut whole = link(alloc, frames(alloc, &trace)?);
    assert!(rt; write(alloc, &mut whole, How::T2, &[0xD1, 1, 1, 0x54, 1]).is_ok());
    assert!(rt;
        whole
            .last()
            .is_some_and(|last| last.view() == [0xA2, 4, 3, 5, 0xD1, 1].as_slice())
    );
    let mut refused = link(
        alloc,
        frames(alloc, &[CONTAINER, MESSAGE, ZEROS, ZEROS, "00"])?,
    );
    let told = write(alloc, &mut refused, How::T2, &[0xD1, 1, 1, 0x54, 1]);
    assert!(rt; matches!(told, Err(WriteFault::Refused(_))));
    Ok(())
}

/// A device that holds the message.
fn device(alloc: Global) -> Result<T2Tag, Fail> {
    let mut store = hex::decode(alloc, CONTAINER)?;
    store.extend_from_slice(&hex::decode(alloc, MESSAGE)?)?;
    store.resize(64, 0)?;
    Ok(T2Tag::new(store)?)
}

/// Sends the command that comes next, and puts its answer behind the others.
fn go_on(
    device: &mut T2Tag,
    heard: &ChipLink<Recorded>,
    answers: &mut Vec<Frame>,
) -> Result<(), Fail> {
    if let Some(command) = heard.last()
        && let Some(answer) = device.obey(&command)
    {
        answers.push(answer)?;
    }
    Ok(())
}

/// A device is read a command at a time: `read` goes over the answers so far, and `last` is the command to send next.
#[test]
fn a_device_that_is_driven(rt: HostRuntime) -> Result<(), Fail> {
    let alloc = rt.alloc();
    let mut device = device(alloc)?;
    let mut answers = Vec::new(alloc);
    for _ in 0..3 {
        let mut heard = link(alloc, answers.clone()?);
        let told = read(alloc, &mut heard, How::T2);
        if !matches!(told, Err(ReadFault::SixBad)) {
            assert!(rt; told?.message.as_slice() == [0xD0, 0, 0].as_slice());
            return Ok(());
        }
        go_on(&mut device, &heard, &mut answers)?;
    }
    assert!(rt; false, "three readings tell no message");
    Ok(())
}

/// A write likewise.
#[test]
fn a_write_that_is_driven(rt: HostRuntime) -> Result<(), Fail> {
    let alloc = rt.alloc();
    let mut device = device(alloc)?;
    let mut answers = Vec::new(alloc);
    for _ in 0..8 {
        let mut heard = link(alloc, answers.clone()?);
        let told = write(alloc, &mut heard, How::T2, &[0xD1, 1, 1, 0x54, 1]);
        if !matches!(told, Err(WriteFault::SixBad)) {
            assert!(rt; told.is_ok());
            let held = device.store().get(16..23);
            assert!(rt; held == Some([3, 5, 0xD1, 1, 1, 0x54, 1].as_slice()));
            return Ok(());
        }
        go_on(&mut device, &heard, &mut answers)?;
    }
    assert!(rt; false, "eight writes tell nothing");
    Ok(())
}
