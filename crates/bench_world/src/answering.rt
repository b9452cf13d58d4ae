//! Which answers tell what selecting, reading, writing and searching came to.

ghost use Rattle.std.specs.Prelude.{◌≡◌, ◌⊎◌, Some, Err, IfOk, OnErr, IsSome};
ghost use Rattle.nfca_poll.specs.declared.fault.PollFault.TheVariants as faults;
ghost use Rattle.tag_reader.specs.declared.fault.ReadFault.TheVariants as reading;
ghost use Rattle.tag_writer.specs.declared.fault.WriteFault.TheVariants as writing;
ghost use Rattle.bench_world.specs.Answering.{poll_answer, three_told, read_answer, MayEnd, written_by, MayEndWrite};
ghost use Rattle.t3t_access.specs.declared.fault.T3Fault.TheVariants as three;
ghost use Rattle.bench_world.specs.Threes.{told_three, MayEnd3, written_three, MayEndWrite3};
ghost use Rattle.bench_world.specs.Crowded.{seen_card, seen_all, is_crowd};

use crate::entry::{Answer, Seen};
use bench_devices::{Everybody, SeenKind};
use bench_script::DeviceId;
use nfc_base::Items;
use nfca_poll::{Kind, Picked, PollFault, Vcrowd};
use std::alloc::{AllocError, Global};
use t3t_access::{Fcrowd, Found3, T3Fault};
use tag_reader::{Found, ReadFault};
use tag_writer::WriteFault;

/// The answer that tells of a fault of polling.
pub fn missed(fault: PollFault) -> Result<Answer, AllocError>
    requires { IsSome (poll_answer fault) ⊎ (fault ≡ faults.Memory) }
    ensures { IfOk result (λ answer. poll_answer fault ≡ Some answer) }
{
    match fault {
        PollFault::Disturbed => Ok(Answer::Disturbed),
        PollFault::FieldLost => Ok(Answer::FieldLost),
        PollFault::NotFound => Ok(Answer::NotFound),
        PollFault::Memory => Err(AllocError),
        PollFault::Nobody | PollFault::BadAnswer => unreachable!(),
    }
}

/// The answer that tells which Type 3 tags are there.
pub fn sensed(found: Fcrowd) -> Answer
    ensures { result ≡ three_told found }
{
    match found {
        Fcrowd::Nobody => Answer::T3None,
        Fcrowd::One(id) => Answer::T3One(id),
        Fcrowd::Crowd => Answer::T3Crowd,
    }
}

/// The answer that tells what a read came to. A tag of the bench refuses no READ that is asked, and answers as it may.
pub fn told(read: Result<Found, ReadFault>) -> Result<Answer, AllocError>
    requires { MayEnd read }
    ensures ok { IfOk result (λ answer. read_answer read ≡ Some answer) }
    ensures starved { OnErr result (read ≡ Err reading.Memory) }
{
    match read {
        Ok(found) => Ok(message(found)),
        Err(fault) => unread(fault),
    }
}

/// The answer that tells of a message.
fn message(found: Found) -> Answer
    ensures { result ≡ Answer.Message found.message found.writable }
{
    let Found {
        message,
        site: _,
        writable,
    } = found;
    Answer::Message { message, writable }
}

/// The answer that tells why there is no message.
fn unread(fault: ReadFault) -> Result<Answer, AllocError>
    requires { MayEnd (Err fault) }
    ensures ok { IfOk result (λ answer. read_answer (Err fault) ≡ Some answer) }
    ensures starved { OnErr result (fault ≡ reading.Memory) }
{
    match fault {
        ReadFault::NotNdef => Ok(Answer::NotNdef),
        ReadFault::Version => Ok(Answer::Version),
        ReadFault::NoRead => Ok(Answer::NoRead),
        ReadFault::Sectors => Ok(Answer::Sectors),
        ReadFault::BadSize => Ok(Answer::BadSize),
        ReadFault::NoMessageTlv => Ok(Answer::NoMessageTlv),
        ReadFault::BadTlv => Ok(Answer::BadTlv),
        ReadFault::FieldLost => Ok(Answer::FieldLost),
        ReadFault::SixBad => Ok(Answer::SixBad),
        ReadFault::Memory => Err(AllocError),
        ReadFault::Refused(_) | ReadFault::Protocol => unreachable!(),
    }
}

/// The answer that tells what a write came to. A tag of the bench answers as it may.
pub fn written(write: Result<(), WriteFault>) -> Result<Answer, AllocError>
    requires { MayEndWrite write }
    ensures ok { IfOk result (λ answer. written_by write ≡ Some answer) }
    ensures starved { OnErr result (write ≡ Err writing.Memory) }
{
    match write {
        Ok(()) => Ok(Answer::Written),
        Err(fault) => unwritten(fault),
    }
}

/// The answer that tells why the tag doesn't hold the message.
fn unwritten(fault: WriteFault) -> Result<Answer, AllocError>
    requires { MayEndWrite (Err fault) }
    ensures ok { IfOk result (λ answer. written_by (Err fault) ≡ Some answer) }
    ensures starved { OnErr result (fault ≡ writing.Memory) }
{
    match fault {
        WriteFault::NotNdef => Ok(Answer::NotNdef),
        WriteFault::Version => Ok(Answer::Version),
        WriteFault::NoRead => Ok(Answer::NoRead),
        WriteFault::Sectors => Ok(Answer::Sectors),
        WriteFault::BadSize => Ok(Answer::BadSize),
        WriteFault::NoMessageTlv => Ok(Answer::NoMessageTlv),
        WriteFault::BadTlv => Ok(Answer::BadTlv),
        WriteFault::Refused(code) => Ok(Answer::Refused(code)),
        WriteFault::FieldLost => Ok(Answer::FieldLost),
        WriteFault::SixBad => Ok(Answer::SixBad),
        WriteFault::ReadOnly => Ok(Answer::ReadOnly),
        WriteFault::TooLong(room) => Ok(Answer::TooLong(room)),
        WriteFault::ShortMlc => Ok(Answer::ShortMlc),
        WriteFault::Memory => Err(AllocError),
        WriteFault::Protocol => unreachable!(),
    }
}

/// The answer that tells what a read of a Type 3 tag came to. A tag of the bench refuses no Check that is asked.
pub fn told_three(read: Result<Found3, T3Fault>) -> Result<Answer, AllocError>
    requires { MayEnd3 read }
    ensures ok { IfOk result (λ answer. told_three read ≡ Some answer) }
    ensures starved { OnErr result (read ≡ Err three.Memory) }
{
    match read {
        Ok(found) => Ok(message_three(found)),
        Err(fault) => unread_three(fault),
    }
}

/// The answer that tells of its message.
fn message_three(found: Found3) -> Answer
    ensures { result ≡ Answer.Message found.message.items found.writable }
{
    let Found3 { message, writable } = found;
    Answer::Message {
        message: Items::new(message),
        writable,
    }
}

/// The answer that tells why there is none.
fn unread_three(fault: T3Fault) -> Result<Answer, AllocError>
    requires { MayEnd3 (Err fault) }
    ensures ok { IfOk result (λ answer. told_three (Err fault) ≡ Some answer) }
    ensures starved { OnErr result (fault ≡ three.Memory) }
{
    match fault {
        T3Fault::NotNdef => Ok(Answer::NotNdef),
        T3Fault::Version => Ok(Answer::Version),
        T3Fault::BadSize => Ok(Answer::BadSize),
        T3Fault::Unfinished => Ok(Answer::Unfinished),
        T3Fault::FieldLost => Ok(Answer::FieldLost),
        T3Fault::SixBad => Ok(Answer::SixBad),
        T3Fault::Memory => Err(AllocError),
        T3Fault::Refused(_) | T3Fault::ReadOnly | T3Fault::TooLong(_) | T3Fault::Protocol => {
            unreachable!()
        }
    }
}

/// The answer that tells what a write of a Type 3 tag came to.
pub fn written_three(write: Result<(), T3Fault>) -> Result<Answer, AllocError>
    requires { MayEndWrite3 write }
    ensures ok { IfOk result (λ answer. written_three write ≡ Some answer) }
    ensures starved { OnErr result (write ≡ Err three.Memory) }
{
    match write {
        Ok(()) => Ok(Answer::Written),
        Err(fault) => unwritten_three(fault),
    }
}

/// The answer that tells why it doesn't hold the message.
fn unwritten_three(fault: T3Fault) -> Result<Answer, AllocError>
    requires { MayEndWrite3 (Err fault) }
    ensures ok { IfOk result (λ answer. written_three (Err fault) ≡ Some answer) }
    ensures starved { OnErr result (fault ≡ three.Memory) }
{
    match fault {
        T3Fault::NotNdef => Ok(Answer::NotNdef),
        T3Fault::Version => Ok(Answer::Version),
        T3Fault::BadSize => Ok(Answer::BadSize),
        T3Fault::Refused(status) => Ok(Answer::Refused(status)),
        T3Fault::FieldLost => Ok(Answer::FieldLost),
        T3Fault::SixBad => Ok(Answer::SixBad),
        T3Fault::ReadOnly => Ok(Answer::ReadOnly),
        T3Fault::TooLong(most) => Ok(Answer::TooLong(most)),
        T3Fault::Memory => Err(AllocError),
        T3Fault::Protocol | T3Fault::Unfinished => unreachable!(),
    }
}

/// What a search tells of an NFC-A device.
fn seen(picked: Picked) -> Seen
    ensures { result ≡ seen_card picked }
{
    let Picked { id, kind } = picked;
    let kind = match kind {
        Kind::T2 => SeenKind::T2,
        Kind::T4 => SeenKind::T4,
        Kind::Peer => SeenKind::Peer,
    };
    Seen {
        id: DeviceId::A(id),
        kind,
    }
}

/// The devices that a search lists: those of NFC-A, and behind them the only Type 5 tag.
fn listed(alloc: Global, picked: Vec<Picked>, others: Vcrowd) -> Result<Items<Seen>, AllocError>
    ensures { IfOk result (λ devices. devices ≡ seen_all (record { cards = picked.items; others = others })) }
{
    let mut devices = Vec::new(alloc);
    devices.reserve(picked.len() + 1)?;
    for device in picked {
        devices.push(seen(device))?;
    }
    if let Vcrowd::One(id) = others {
        devices.push(Seen {
            id: DeviceId::V(id),
            kind: SeenKind::T5,
        })?;
    }
    Ok(Items::new(devices))
}

/// Whether there are several NFC-V devices.
fn is_crowd(others: Vcrowd) -> bool
    ensures { result ≡ is_crowd others }
{
    match others {
        Vcrowd::Nobody | Vcrowd::One(_) => false,
        Vcrowd::Crowd => true,
    }
}

/// The answer that tells of the devices that were found.
pub fn found(alloc: Global, everybody: Everybody) -> Result<Answer, AllocError>
    ensures { IfOk result (λ a. a ≡ Answer.Found (seen_all everybody) (is_crowd everybody.others)) }
{
    let Everybody { cards, others } = everybody;
    Ok(Answer::Found {
        devices: listed(alloc, cards.into_vec(), others)?,
        crowd: is_crowd(others),
    })
}
