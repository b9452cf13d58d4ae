//! The file of a Type 4 tag (NFC Forum Type 4 Tag; ISO/IEC 7816-4).

ghost use Rattle.std.specs.Prelude.{◌≡◌, ◌↔◌, ℕ, suc, ◌≤◌, min, List, [], ◌∷◌, ◌++◌, length, true, IfOk, OnErr};
ghost use Rattle.nfc_base.specs.TagLinks.{LinkView};
ghost use Rattle.tlv_area.specs.declared.container.FileMap.{FileMap as Map};
ghost use Rattle.tlv_area.specs.Containers.{t4_container};
ghost use Rattle.tag_reader.specs.declared.how.How.TheVariants as hows;
ghost use Rattle.tag_reader.specs.Asked.{Aim, ToRead, IsNextFor};
ghost use Rattle.tag_reader.specs.Files.{file_command, message_length, most_asked};
ghost use Rattle.t4t_tag.specs.Spelling.{IsT4Command, most_per_command};
ghost use Rattle.tag_reader.specs.Heard.{IsOf, HasSize, IsToldBy, file_next};
ghost use Rattle.tag_reader.specs.HeardSteps.{IsCut, Under, OrFault, HasSelected, Opened, Measured, ReadAll};
ghost use Rattle.tag_reader.specs.Kinds.{OfTag};
ghost use Rattle.tag_reader.specs.SurveyHeard.{AsksWhatItNeeds};
ghost use Rattle.tag_reader.specs.Steps.{ReadsTag};
ghost use Rattle.tag_reader.specs.private.FileSteps.{IsUnder, BringsNext, OrEnds, IsOpen, IsMeasured, IsWhole};

use crate::fault::ReadFault;
use crate::found::{Found, Site};
use crate::told::tell_t4;
use arrayvec::ArrayVec;
use nfc_base::{Frame, Items, TagLink, Tech};
use std::alloc::Global;
use t4t_tag::{CONTAINER_ID, MOST_PER_COMMAND, NLEN_SIZE, T4Command};
use tlv_area::{ContainerFault, FileMap, container_t4};

/// How many bytes of the capability container (CC) are read.
const CC_SIZE: usize = 15;

/// Reads the message of a Type 4 tag.
pub fn read_file<T: TagLink>(alloc: Global, link: &mut T) -> Result<Found, ReadFault>
    requires ready { T.ready link.old }
    requires of { IsOf hows.T4 (T.seen link.old) }
    // whatever the tag does
    ensures told { IsToldBy hows.T4 (T.seen link.old) (T.seen link.new) result }
    ensures reads { ReadsTag hows.T4 (T.seen link.old) (T.seen link.new) result }
    ensures ready { T.ready link.new }
    ensures same { T.lenders link.new ≡ T.lenders link.old }
    ensures moves { T.moves link.old link.new }
{
    let map = read_container(alloc, link)?;
    let length = read_length(alloc, link, map)?;
    let message = read_message(alloc, link, map.mle.min(MOST_PER_COMMAND), length)?;
    Ok(Found {
        message: Items::new(message),
        site: Site::File(map),
        writable: map.writable,
    })
}

/// Whether an answer brings as many bytes as its command needs. SELECT of the application may bring any that the tag
/// likes.
fn has_size(command: &T4Command, bytes: &[u8]) -> bool
    requires { length bytes.now ≤ 256 }
    ensures { (result ≡ true) ↔ HasSize command.now bytes.now }
{
    match command {
        T4Command::SelectApplication => true,
        T4Command::SelectFile { id: _ } => bytes.is_empty(),
        T4Command::ReadBinary { offset: _, count } => bytes.len() == *count as usize,
        T4Command::UpdateBinary {
            offset: _,
            content: _,
        } => bytes.is_empty(),
    }
}

/// Asks the next command of a reading, and gives the bytes that its answer brings.
fn ask_file<T: TagLink>(
    alloc: Global,
    link: &mut T,
    command: &T4Command,
) -> Result<ArrayVec<u8, 256>, ReadFault>
    requires ready { T.ready link.old }
    requires of { IsOf hows.T4 (T.seen link.old) }
    requires range { IsT4Command command.now }
    ensures size { IfOk result (λ bytes. HasSize command.now bytes.items) }
    // whatever the tag does
    ensures brings { (a : LinkView) (ps : List (List ℕ)) → Under hows.T4 a (T.seen link.old) ps →
        command.now ≡ file_next ps →
        OrFault (λ bytes. Under hows.T4 a (T.seen link.new) (ps ++ bytes.items ∷ []))
        hows.T4 a (T.seen link.new) result }
    ensures next { (aim : Aim) (size n : ℕ) (a : LinkView) → IsUnder aim size a (T.seen link.old) n →
        IsNextFor aim hows.T4 size a.state.store n → command.now ≡ file_command a.state.store n →
        OrEnds aim (λ bytes. BringsNext aim size a (T.seen link.new) n bytes.items) size a (T.seen link.new) result }
    ensures cut { IsCut (T.seen link.old) (T.seen link.new) }
    ensures ready { T.ready link.new }
    ensures same { T.lenders link.new ≡ T.lenders link.old }
    ensures moves { T.moves link.old link.new }
{
    let spelled = command.to_bytes();
    let frame = Frame::whole(Tech::A, spelled.as_slice()).unwrap();
    let answer = link.ask(alloc, &frame)?;
    let bytes = tell_t4(&answer)?;
    if !has_size(command, bytes.as_slice()) {
        return Err(ReadFault::Protocol);
    }
    Ok(bytes)
}

/// The file that the first bytes of a container name.
fn file_named(bytes: &[u8]) -> Result<FileMap, ContainerFault>
    requires { length bytes.now ≡ 15 }
    ensures { result ≡ t4_container bytes.now }
{
    let mut head = [0; CC_SIZE];
    head.copy_from_slice(bytes);
    container_t4(&head)
}

/// Selects the application, and the container in it.
fn select_container<T: TagLink>(alloc: Global, link: &mut T) -> Result<(), ReadFault>
    requires ready { T.ready link.old }
    requires of { IsOf hows.T4 (T.seen link.old) }
    ensures brings { OrFault (λ done. HasSelected (T.seen link.old) (T.seen link.new))
        hows.T4 (T.seen link.old) (T.seen link.new) result }
    ensures selects { (aim : Aim) → OfTag hows.T4 (T.seen link.old) (λ size.
        OrEnds aim (λ done. IsUnder aim size (T.seen link.old) (T.seen link.new) 2)
        size (T.seen link.old) (T.seen link.new) result) }
    ensures needs { OnErr result (AsksWhatItNeeds hows.T4 (T.seen link.old) (T.seen link.new)) }
    ensures ready { T.ready link.new }
    ensures same { T.lenders link.new ≡ T.lenders link.old }
    ensures moves { T.moves link.old link.new }
{
    ask_file(alloc, link, &T4Command::SelectApplication)?;
    ask_file(alloc, link, &T4Command::SelectFile { id: CONTAINER_ID })?;
    Ok(())
}

/// Selects the application and the container, and reads what the container says.
pub fn read_container<T: TagLink>(alloc: Global, link: &mut T) -> Result<FileMap, ReadFault>
    requires ready { T.ready link.old }
    requires of { IsOf hows.T4 (T.seen link.old) }
    ensures brings { OrFault (Opened (T.seen link.old) (T.seen link.new))
        hows.T4 (T.seen link.old) (T.seen link.new) result }
    ensures opens { (aim : Aim) → OfTag hows.T4 (T.seen link.old) (λ size.
        OrEnds aim (IsOpen aim size (T.seen link.old) (T.seen link.new))
        size (T.seen link.old) (T.seen link.new) result) }
    ensures needs { OnErr result (AsksWhatItNeeds hows.T4 (T.seen link.old) (T.seen link.new)) }
    ensures ready { T.ready link.new }
    ensures same { T.lenders link.new ≡ T.lenders link.old }
    ensures moves { T.moves link.old link.new }
{
    select_container(alloc, link)?;
    let read = T4Command::ReadBinary {
        offset: 0,
        count: CC_SIZE as u8,
    };
    let bytes = ask_file(alloc, link, &read)?;
    Ok(file_named(bytes.as_slice())?)
}

/// The number that the two bytes of NLEN are, high first.
fn number_of(bytes: &[u8]) -> u16
    requires { length bytes.now ≡ 2 }
    ensures { result ≡ message_length bytes.now }
{
    bytes[0] as u16 * 256 + bytes[1] as u16
}

/// Selects the NDEF file, and reads how long its message is (NLEN).
pub fn read_length<T: TagLink>(alloc: Global, link: &mut T, map: FileMap) -> Result<u16, ReadFault>
    requires ready { T.ready link.old }
    requires of { IsOf hows.T4 (T.seen link.old) }
    requires opened { (a : LinkView) × Opened a (T.seen link.old) map }
    ensures brings { (a : LinkView) → Opened a (T.seen link.old) map →
        OrFault (Measured a (T.seen link.new) map) hows.T4 a (T.seen link.new) result }
    ensures measures { (aim : Aim) (size : ℕ) (a : LinkView) → IsOpen aim size a (T.seen link.old) map →
        OrEnds aim (IsMeasured aim size a (T.seen link.new) map) size a (T.seen link.new) result }
    ensures needs { (a : LinkView) → Opened a (T.seen link.old) map →
        OnErr result (AsksWhatItNeeds hows.T4 a (T.seen link.new)) }
    ensures ready { T.ready link.new }
    ensures same { T.lenders link.new ≡ T.lenders link.old }
    ensures moves { T.moves link.old link.new }
{
    ask_file(alloc, link, &T4Command::SelectFile { id: map.id })?;
    let read = T4Command::ReadBinary {
        offset: 0,
        count: NLEN_SIZE as u8,
    };
    let bytes = ask_file(alloc, link, &read)?;
    let length = number_of(bytes.as_slice());
    if length > map.size - NLEN_SIZE {
        return Err(ReadFault::BadTlv);
    }
    Ok(length)
}

/// Reads the message in pieces of so many bytes at most, no more than MLe allows.
fn read_message<T: TagLink>(
    alloc: Global,
    link: &mut T,
    most: u16,
    length: u16,
) -> Result<Vec<u8>, ReadFault>
    requires ready { T.ready link.old }
    requires of { IsOf hows.T4 (T.seen link.old) }
    requires measured { (a : LinkView) × (m : Map) × Measured a (T.seen link.old) m length
        × (most ≡ min m.mle most_per_command) }
    ensures brings { (a : LinkView) (m : Map) → Measured a (T.seen link.old) m length
        → most ≡ min m.mle most_per_command →
        OrFault (λ message. ReadAll a (T.seen link.new) m length message.items) hows.T4 a (T.seen link.new) result }
    ensures whole { (size : ℕ) (a : LinkView) (m : Map) → IsMeasured ToRead size a (T.seen link.old) m length →
        most ≡ most_asked a.state.store →
        OrEnds ToRead (λ message. IsWhole size a (T.seen link.new) message.items) size a (T.seen link.new) result }
    ensures ready { T.ready link.new }
    ensures same { T.lenders link.new ≡ T.lenders link.old }
    ensures moves { T.moves link.old link.new }
{
    let mut message = Vec::new(alloc);
    let pieces = length.div_ceil(most);
    for index in 0..pieces {
        let taken = most * index;
        let read = T4Command::ReadBinary {
            offset: NLEN_SIZE + taken,
            count: most.min(length - taken) as u8,
        };
        let piece = ask_file(alloc, link, &read)?;
        message.extend_from_slice(&piece)?;
    }
    Ok(message)
}
