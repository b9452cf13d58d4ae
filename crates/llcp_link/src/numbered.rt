//! Where something stands in a list that has a number of its own: a connection its SAP, a lookup its number.

ghost use Rattle.std.specs.Prelude.{◌≡◌, ◌<◌, ℕ, length, IfSome};
ghost use Rattle.llcp_link.specs.Places.{place_by};

/// What has a number of its own.
pub(crate) trait Numbered {
    /// The number.
    ghost number: { Self → ℕ };

    /// The number.
    fn number(&self) -> u8
        ensures { result ≡ number self.now };
}

/// The place of the first of a number.
pub(crate) fn place_of<T: Numbered>(list: &[T], number: u8) -> Option<usize>
    ensures place { result ≡ place_by T.number number list.now }
    ensures low { IfSome result (λ n. n < length list.now) }
{
    let mut place = 0;
    'list: for one in list {
        if one.number() == number {
            return Some(place);
        }
        place += 1;
    }
    None
}
