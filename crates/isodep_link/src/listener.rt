//! A Type 4 tag in a field.

ghost use Rattle.std.specs.Prelude.{◌≡◌, ℕ};
ghost use Rattle.nfc_base.specs.TagLinks.{TagState};
ghost use Rattle.isodep_link.specs.Card.{CardState};

use air_core::Listener;

/// A listener that may be a Type 4 tag: what contracts see of its card's end, and of the tag above it. What is no such
/// tag shows any card's end, and a tag that holds its store.
pub trait CardListener: Listener {
    /// Its card's end.
    ghost card: { Self → CardState };

    /// What it holds, and what is selected of it.
    ghost tag: { Self → TagState };

    /// Its store is what the tag holds, in the dark too.
    ghost holds: { (l : Self) → (tag l).store ≡ Self.store l };
}
