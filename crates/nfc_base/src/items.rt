//! A `Vec` that contracts see as the list of its items.

ghost use Rattle.std.specs.Prelude.{◌≡◌, ◌<◌, ◌++◌, [], ◌∷◌, length, vec_len, OnOk, OnErr, IfOk};

use std::alloc::{AllocError, Global};
use std::marker::Model;

/// A list of items. Contracts see the list alone, without the room that the memory under it has.
/// It is made of a `Vec` and gives it back without taking memory.
#[derive(Debug, Drop)]
pub struct Items<T> {
    owned: Vec<T>,
}

impl<T> Model for Items<T> {
    ghost use Rattle.std.specs.Prelude.{List};

    ghost Value = { List T };

    ghost view = { λ a. a.owned.items };
}

impl<T> Items<T> {
    pub fn new(owned: Vec<T>) -> Items<T>
        ensures { result ≡ owned.items }
    {
        Items { owned }
    }

    pub fn as_slice(&self) -> &[T]
        ensures { result.now ≡ self.now }
    {
        self.owned.as_slice()
    }

    pub fn into_vec(self) -> Vec<T>
        ensures { result.items ≡ self }
    {
        let Items { owned } = self;
        owned
    }
}

impl Items<u8> {
    /// A list of these bytes.
    pub fn from_bytes(alloc: Global, bytes: &[u8]) -> Result<Items<u8>, AllocError>
        ensures { IfOk result (λ a. a ≡ bytes.now) }
    {
        Ok(Items {
            owned: Vec::from_slice(alloc, bytes)?,
        })
    }
}

impl<T: PartialEq> PartialEq for Items<T> {
    ghost use Rattle.std.specs.Cmp.Lexicographic.{pointwise, lists_per};

    ghost eq = { pointwise T.eq };

    fn eq(&self, other: &Self) -> bool {
        self.as_slice() == other.as_slice()
    }

    ghost laws = { lists_per T.laws };
}

#[cfg(test)]
mod tests {
    use super::*;
    use std::test::Fail;

    #[test]
    fn bytes_go_in_and_come_out(rt: HostRuntime) -> Result<(), Fail> {
        let items = Items::from_bytes(rt.alloc(), &[1, 2, 3])?;
        assert_eq!(rt; items.as_slice(), [1, 2, 3].as_slice());
        let again = Items::new(items.into_vec());
        assert!(rt; again == Items::from_bytes(rt.alloc(), &[1, 2, 3])?);
        Ok(())
    }
}
