//! The capability container of a tag: the area or the file that it names.

ghost use Rattle.std.specs.Prelude.{◌≡◌, ◌≢◌, ℕ, ◌+◌, ◌*◌, ◌%◌, ◌<◌, ◌≤◌, ◌==◌, ◌↔◌, ◌++◌, List, length, slice_index};
ghost use Rattle.std.specs.Prelude.{false, Ok, Err, Some, IfOk};
ghost use Rattle.tlv_area.specs.declared.container.ContainerFault.{ContainerFault};
ghost use Rattle.tlv_area.specs.Layout.{IsArea};
ghost use Rattle.tlv_area.specs.Stores.{IsReadyArea};
ghost use Rattle.tlv_area.specs.Containers.{first_fault, t2_faults, t2_container, t5_head_faults, t5_faults};
ghost use Rattle.tlv_area.specs.Containers.{t5_is_open, t5_front, t4_faults, t4_container, container_fault_number};
ghost use Rattle.nfc_base.specs.Words.{word};

use crate::space::Space;
use thiserror::Error;

/// The magic number of a container of a tag whose blocks have numbers of one byte.
const MAGIC: u8 = 0xE1;

/// The magic number of a Type 5 container of a tag whose blocks have numbers of two bytes.
const WIDE_MAGIC: u8 = 0xE2;

/// How many bytes a Type 5 container has, and one that counts its area in two bytes.
const SHORT: usize = 4;

const LONG: usize = 8;

/// The largest area of a Type 2 tag of one sector, in eights of bytes.
const LARGEST: u8 = 0x7E;

/// The type and the length of the TLV that names the file of a Type 4 tag.
const FILE_CONTROL: u16 = 0x0406;

/// How many bytes the container of a Type 4 tag has at least, and how many it takes to read it.
const LEAST: u16 = 15;

/// The largest file of a Type 4 tag.
const LARGEST_FILE: u16 = 0x7FFF;

/// Why a container names no area and no file that this project reads. The numbers are this project's own.
#[derive(Clone, Copy, Debug, PartialEq, Eq, Error)]
pub enum ContainerFault {
    #[error("the container is none of an NDEF tag")]
    NotNdef = 1,
    #[error("the container has another major version")]
    Version = 2,
    #[error("the tag isn't free to read")]
    NoRead = 3,
    #[error("the tag has more than one sector")]
    Sectors = 4,
    #[error("the container names a size that can't be")]
    BadSize = 5,
}

impl ContainerFault {
    /// Its number in reports and tests.
    pub fn number(&self) -> u8
        ensures { result ≡ container_fault_number self.now }
    {
        *self as u8
    }
}

/// The NDEF file of a Type 4 tag: its identifier and its size in bytes, how many bytes one read and one update may
/// carry, and whether writing is free (NFC Forum Type 4 Tag).
#[derive(Clone, Copy, Debug, PartialEq, Eq)]
pub struct FileMap {
    pub id: u16,
    pub size: u16,
    pub mle: u16,
    pub mlc: u16,
    pub writable: bool,
}

/// The container of a Type 2 tag, which is its block 3 (NFC Forum Type 2 Tag). It takes no memory.
pub fn container_t2(bytes: &[u8; 4]) -> Result<Space, ContainerFault>
    ensures exact { result ≡ t2_container bytes.now }
    ensures cause { (f : ContainerFault) → (result ≡ Err f) ↔ (first_fault (t2_faults bytes.now) ≡ Some f) }
    ensures area { IfOk result IsArea }
{
    let [magic, version, size, access] = *bytes;
    if magic != MAGIC {
        return Err(ContainerFault::NotNdef);
    }
    if version / 16 != 1 {
        return Err(ContainerFault::Version);
    }
    if access / 16 != 0 {
        return Err(ContainerFault::NoRead);
    }
    if size > LARGEST {
        return Err(ContainerFault::Sectors);
    }
    if size == 0 {
        return Err(ContainerFault::BadSize);
    }
    Ok(Space {
        start: 16,
        end: 16 + 8 * size as u32,
        control: true,
        writable: access % 16 == 0,
    })
}

/// What a front of a Type 5 tag's memory tells of its container (NFC Forum Type 5 Tag).
#[derive(Clone, Copy, Debug, PartialEq, Eq)]
pub enum T5Container {
    /// The area, whether its blocks have numbers of two bytes, and whether one command may read many blocks.
    Ready {
        space: Space,
        wide: bool,
        many: bool,
    },
    /// The container goes on behind what is known.
    More,
}

/// The fault that the first two bytes of a Type 5 container tell.
fn fault_t5(magic: u8, access: u8) -> Option<ContainerFault>
    ensures { (known : List ℕ) → slice_index known 0 ≡ magic → slice_index known 1 ≡ access →
        result ≡ first_fault (t5_head_faults known) }
{
    if magic != MAGIC && magic != WIDE_MAGIC {
        return Some(ContainerFault::NotNdef);
    }
    if access / 64 != 1 {
        return Some(ContainerFault::Version);
    }
    if access / 4 % 4 != 0 {
        return Some(ContainerFault::NoRead);
    }
    None
}

/// A Type 5 container that has no fault: its area begins there, and has eight times so many bytes.
fn ready_t5(known: &[u8], start: u32, size: u32) -> T5Container
    requires whole { 4 ≤ length known.now }
    requires small { start ≤ 8 }
    requires sized { size < 65536 }
    ensures { result ≡ T5Container.Ready (record {
      start = start;
      end = start + 8 * size;
      control = false;
      writable = slice_index known.now 1 % 4 == 0;
    }) (slice_index known.now 0 == 0xE2) (slice_index known.now 3 % 2 == 1) }
{
    T5Container::Ready {
        space: Space {
            start,
            end: start + 8 * size,
            control: false,
            writable: known[1] % 4 == 0,
        },
        wide: known[0] == WIDE_MAGIC,
        many: known[3] % 2 == 1,
    }
}

/// The container of a Type 5 tag, which is its first four bytes, or its first eight (NFC Forum Type 5 Tag): `known` is
/// the memory from address 0. The area ends where the container says, also where the tag ends before, or its block
/// numbers do. It takes no memory.
pub fn container_t5(known: &[u8]) -> Result<T5Container, ContainerFault>
    ensures exact { result ≡ t5_front known.now }
    // what isn't open stays so in each memory that begins with it
    ensures front { (more : List ℕ) → result ≢ Ok T5Container.More → t5_front (known.now ++ more) ≡ result }
    ensures cause { (f : ContainerFault) → (result ≡ Err f) ↔
        ((t5_is_open known.now ≡ false) × (first_fault (t5_faults known.now) ≡ Some f)) }
    ensures area { IfOk result IsReadyArea }
{
    if known.len() < SHORT {
        return Ok(T5Container::More);
    }
    if let Some(fault) = fault_t5(known[0], known[1]) {
        return Err(fault);
    }
    if known[2] != 0 {
        return Ok(ready_t5(known, SHORT as u32, known[2] as u32));
    }
    if known.len() < LONG {
        return Ok(T5Container::More);
    }
    let size = known[6] as u32 * 256 + known[7] as u32;
    if size == 0 {
        return Err(ContainerFault::BadSize);
    }
    Ok(ready_t5(known, LONG as u32, size))
}

/// Two bytes from one on, high first.
fn word_at(bytes: &[u8; 15], at: usize) -> u16
    requires { at < 14 }
    ensures { result ≡ word bytes.now at }
{
    bytes[at] as u16 * 256 + bytes[at + 1] as u16
}

/// The first 15 bytes of the capability container file of a Type 4 tag (NFC Forum Type 4 Tag). It takes no memory.
pub fn container_t4(bytes: &[u8; 15]) -> Result<FileMap, ContainerFault>
    ensures exact { result ≡ t4_container bytes.now }
    ensures cause { (f : ContainerFault) → (result ≡ Err f) ↔ (first_fault (t4_faults bytes.now) ≡ Some f) }
{
    if word_at(bytes, 7) != FILE_CONTROL {
        return Err(ContainerFault::NotNdef);
    }
    let version = bytes[2] / 16;
    if version != 2 && version != 3 {
        return Err(ContainerFault::Version);
    }
    if bytes[13] != 0 {
        return Err(ContainerFault::NoRead);
    }
    let mle = word_at(bytes, 3);
    let size = word_at(bytes, 11);
    if word_at(bytes, 0) < LEAST || mle < LEAST || size < 2 || size > LARGEST_FILE {
        return Err(ContainerFault::BadSize);
    }
    Ok(FileMap {
        id: word_at(bytes, 9),
        size,
        mle,
        mlc: word_at(bytes, 5),
        writable: bytes[14] == 0,
    })
}
