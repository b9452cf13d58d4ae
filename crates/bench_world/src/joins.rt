//! How many PDUs the ends of a link join.

ghost use Rattle.std.specs.Prelude.{◌≡◌};
ghost use Rattle.bench_world.specs.Legal.{no_joins};

use llcp_link::Counts;
use std::alloc::Global;
use std::marker::Model;

/// How many PDUs stand in each payload of a command on the open link: of the client's end, and of the peer's.
#[derive(Debug, Drop)]
pub struct Joins {
    pub(crate) own: Counts,
    pub(crate) far: Counts,
}

impl Model for Joins {
    ghost use Rattle.bench_world.specs.Legal.{Joins};

    ghost Value = { Joins };

    ghost view = { λ j. record { own = j.own; far = j.far } };
}

impl Joins {
    /// As many as fit, on both sides.
    pub fn most(alloc: Global) -> Joins
        ensures { result ≡ no_joins }
    {
        Joins {
            own: Counts::most(alloc),
            far: Counts::most(alloc),
        }
    }
}
