//! That each store has exactly one form. The calls do nothing: they stand for these laws.

ghost use Rattle.std.specs.Prelude.{◌≡◌, ℕ, ◌≤◌, Bool, length, IfOk};
ghost use Rattle.tlv_area.specs.Containers.{t2_container};
ghost use Rattle.tlv_area.specs.Layout.{IsArea};
ghost use Rattle.tlv_area.specs.Form.{Form, IsForm, OneLayout};
ghost use Rattle.tlv_area.specs.Stores.{four_bytes, cut, t5_reach, IsT2Form, IsT5Form, IsOneForm};

use crate::container::{T5Container, container_t2, container_t5};
use crate::space::Space;
use crate::walk::find_message;

/// How many blocks numbers of one byte can name, and of two.
const NAMED_BY_ONE: usize = 256;

const NAMED_BY_TWO: usize = 65536;

/// An area that a memory has whole: it has exactly one form, and up to where a walk stops exactly one layout.
pub fn one_form(space: &Space, memory: &[u8])
    requires area { IsArea space.now }
    requires whole { space.now.end ≤ length memory.now }
    ensures some { (f : Form) × IsForm space.now memory.now f }
    ensures one { IsOneForm (IsForm space.now memory.now) }
    ensures layout { OneLayout space.now memory.now }
{
    find_message(space, memory);
}

/// A Type 2 store, which has its area whole.
pub fn one_form_t2(store: &[u8])
    requires container { 16 ≤ length store.now }
    requires whole { IfOk (t2_container (four_bytes store.now 12)) (λ space. space.end ≤ length store.now) }
    ensures some { (f : Form) × IsT2Form store.now f }
    ensures one { IsOneForm (IsT2Form store.now) }
{
    let container = [store[12], store[13], store[14], store[15]];
    match container_t2(&container) {
        Ok(space) => one_form(&space, store),
        Err(_fault) => {}
    }
}

/// The area where a tag of so many bytes ends at the latest.
fn cut_at(space: &Space, length: usize) -> Space
    ensures { result ≡ cut space.now length }
{
    if (space.end as usize) < length {
        *space
    } else {
        Space {
            end: length as u32,
            ..*space
        }
    }
}

/// The area that a Type 5 tag of blocks of so many bytes can name by its block numbers: E1h says that they have one
/// byte, E2h that they have two (`wide`).
pub fn reach(space: &Space, wide: bool, block: usize) -> Space
    requires { block ≤ 256 }
    ensures { (many : Bool) → result ≡ t5_reach block (record { space = space.now; wide = wide; many = many }) }
{
    let named = if wide { NAMED_BY_TWO } else { NAMED_BY_ONE };
    cut_at(space, named * block)
}

/// A Type 5 store of blocks of so many bytes.
pub fn one_form_t5(store: &[u8], block: u8)
    requires some { 1 ≤ block }
    requires container { 4 ≤ length store.now }
    ensures some { (f : Form) × IsT5Form block store.now f }
    ensures one { IsOneForm (IsT5Form block store.now) }
{
    match container_t5(store) {
        Ok(
            T5Container::Ready {
                space,
                wide,
                many: _,
            },
        ) => one_form(
            &cut_at(&reach(&space, wide, block as usize), store.len()),
            store,
        ),
        Ok(T5Container::More) => {}
        Err(_fault) => {}
    }
}
