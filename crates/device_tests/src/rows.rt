//! What the tests' tables of steps are made of, and how a device goes through them.

use air_core::Listener;
use bench_devices::Device;
use nfc_base::{Frame, Mute, Tech};
use std::alloc::Global;
use std::process::Abort;
use std::test::Fail;

/// What happens to a device.
#[derive(Clone, Copy, Debug)]
pub enum Step {
    Light,
    Dark,
    /// A request of these bytes with this tail, and the bytes of the answer, which is whole: none where the device is
    /// silent.
    Hears(&'static [u8], u8, &'static [u8]),
}

/// What a device says to a request.
fn said(
    alloc: Global,
    device: &mut Device,
    request: &[u8],
    tail: u8,
) -> Result<Option<Frame>, Fail> {
    let frame = Frame::part(device.tech(), request, tail)?;
    Ok(device.hear(alloc, &frame, &mut Mute)?)
}

fn wanted(tech: Tech, answer: &[u8]) -> Result<Option<Frame>, Fail> {
    if answer.is_empty() {
        return Ok(None);
    }
    Ok(Some(Frame::whole(tech, answer)?))
}

fn walk(rt: &impl Abort, alloc: Global, device: &mut Device, steps: &[Step]) -> Result<(), Fail> {
    for step in steps {
        match *step {
            Step::Light => device.light(),
            Step::Dark => device.dark(),
            Step::Hears(request, tail, answer) => {
                let got = said(alloc, device, request, tail)?;
                assert_eq!(rt; got, wanted(device.tech(), answer)?, "at {step:?}");
            }
        }
    }
    Ok(())
}

/// A device goes through these steps, one part behind the other.
pub fn goes_through(
    rt: &impl Abort,
    alloc: Global,
    device: &mut Device,
    parts: &[&[Step]],
) -> Result<(), Fail> {
    for steps in parts {
        walk(rt, alloc, device, steps)?;
    }
    Ok(())
}
