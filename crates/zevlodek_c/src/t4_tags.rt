//! Type 4 tags whose files C keeps.

ghost use Rattle.std.specs.Prelude.{◌≡◌, IfErr, IfOk};
ghost use Rattle.t4t_tag.specs.declared.tag.StoreFault.{StoreFault};
ghost use Rattle.zevlodek_c.specs.T4Tags.{IsT4Asked, NoTag, T4Steps, current_number, current_of, t4_held, standing_of};

use crate::codes::{BAD_ARGUMENT, DONE, NO_MEMORY};
use crate::showing::{Told, show};
use std::alloc::Global;
use t4t_tag::{CurrentFile, MOST_CODE, T4Tag};

/// Where a Type 4 tag stands between two commands: both numbers are 0 as it comes into the field.
#[derive(Clone, Copy)]
#[repr(C)]
pub struct T4Standing {
    /// Whether its application is selected: 0 where it isn't.
    pub selected: u8,
    /// The file that it has open: 0 for none, 1 for the capability container, 2 for the NDEF file.
    pub current: u8,
}

fn current_of(number: u8) -> Option<CurrentFile>
    ensures { result ≡ current_of number }
{
    match number {
        0 => Some(CurrentFile::NoFile),
        1 => Some(CurrentFile::Container),
        2 => Some(CurrentFile::Ndef),
        _ => None,
    }
}

fn current_number(current: CurrentFile) -> u8
    ensures { result ≡ current_number current }
{
    match current {
        CurrentFile::NoFile => 0,
        CurrentFile::Container => 1,
        CurrentFile::Ndef => 2,
    }
}

fn standing_of(tag: &T4Tag) -> T4Standing
    ensures { result ≡ standing_of tag.now }
{
    T4Standing {
        selected: tag.is_selected() as u8,
        current: current_number(tag.current()),
    }
}

/// The tag that these files and this standing make, or the answer to who hands in what makes none.
fn tag_of(alloc: Global, container: &[u8], file: &[u8], standing: &T4Standing) -> Result<T4Tag, i32>
    ensures ok { IfOk result (λ t. IsT4Asked container.now file.now standing.now
        × (t ≡ t4_held container.now file.now standing.now)) }
    ensures err { IfErr result (NoTag (IsT4Asked container.now file.now standing.now)) }
{
    let Some(current) = current_of(standing.current) else {
        return Err(BAD_ARGUMENT);
    };
    let Ok(container) = Vec::from_slice(alloc, container) else {
        return Err(NO_MEMORY);
    };
    let Ok(file) = Vec::from_slice(alloc, file) else {
        return Err(NO_MEMORY);
    };
    let Ok(mut tag) = T4Tag::new(MOST_CODE, container, file) else {
        return Err(BAD_ARGUMENT);
    };
    tag.resume(standing.selected != 0, current);
    Ok(tag)
}

/// One step of a Type 4 tag: `DONE`, and its answer stands in `out`.
#[unsafe(no_mangle)]
pub extern "C" fn zev_t4_tag(
    alloc: Global,
    container: &[u8],
    file: &mut [u8],
    standing: &mut T4Standing,
    command: &[u8],
    out: &mut [u8],
    told: &mut Told,
) -> i32
    ensures { T4Steps container.now file.old standing.old command.now out.old told.old
        (record {
          kept = record { file = file.new; standing = standing.new };
          seen = record { answer = result; out = out.new; told = told.new };
        }) }
{
    let mut tag = match tag_of(alloc, container, file, standing) {
        Ok(tag) => tag,
        Err(answer) => return answer,
    };
    let answer = tag.obey(command);
    told.bits = 0;
    if answer.len() > out.len() {
        return show(DONE, answer.as_slice(), out, told);
    }
    file.copy_from_slice(tag.file());
    *standing = standing_of(&tag);
    show(DONE, answer.as_slice(), out, told)
}
