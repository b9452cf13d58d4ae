//! A workload, and its line at each place.

ghost use Rattle.std.specs.Prelude.{◌≡◌, ◌↔◌, ◌+◌, ◌*◌, ◌<◌, ◌≤◌, [], length, slice_index_or, IsSome, IfSome};
ghost use Rattle.workload.specs.Workload.{IsCount, round_lines, workload_lines};

use crate::line::{counted_line, lossy_line, text_line};
use arrayvec::ArrayVec;
use std::marker::Model;

/// A script that is made from a seed, with so many rounds, 1 to 150 (this project's own).
#[derive(Clone, Copy, Debug, PartialEq, Eq)]
pub struct Workload {
    seed: u16,
    count: u8,
}

impl Model for Workload {
    ghost use Rattle.workload.specs.Workload.{SeedAndCount, IsCount};

    ghost Value = { SeedAndCount };

    ghost view = { λ w. record { seed = w.seed; count = w.count } };

    ghost invariant = { λ w. IsCount w.count };

    ghost inverse = { λ v. record { seed = v.seed; count = v.count } };
}

impl Workload {
    /// The workload of a seed and a count, where the count is one.
    pub fn new(seed: u16, count: u8) -> Option<Workload>
        ensures valid { IsSome result ↔ IsCount count }
        ensures value { IfSome result (λ w. (w.seed ≡ seed) × (w.count ≡ count)) }
    {
        if count == 0 || 150 < count {
            return None;
        }
        Some(Workload { seed, count })
    }

    pub fn seed(&self) -> u16
        ensures { result ≡ self.now.seed }
    {
        self.seed
    }

    pub fn count(&self) -> u8
        ensures value { result ≡ self.now.count }
        ensures valid { IsCount self.now.count }
    {
        self.count
    }

    /// How many lines it has.
    #[tactic(auto, using(crate::proofs::Places::lines_size))]
    pub fn line_count(&self) -> u32
        ensures all { result ≡ length (workload_lines self.now.seed self.now.count) }
        ensures number { result ≡ 2 + 5 * self.now.count }
        ensures valid { IsCount self.now.count }
    {
        2 + 5 * self.count as u32
    }

    /// Its line at a place, without its LF. It takes no memory, and nothing is done for the lines before it.
    #[tactic(auto, using(crate::proofs::Places::lines_size))]
    pub fn line(&self, place: u32) -> ArrayVec<u8, 640>
        requires { place < length (workload_lines self.now.seed self.now.count) }
        ensures { result.items ≡ slice_index_or (workload_lines self.now.seed self.now.count) place [] }
    {
        match place {
            0 => text_line(b"place t2 04112233445566 231 000000000000000000000000E1106D000300FE"),
            1 => text_line(b"place peer 08010203 3 128 1 1024"),
            _ => self.round_line((place - 2) / 5, (place - 2) % 5),
        }
    }

    /// The line of a round that stands there in it.
    fn round_line(&self, round: u32, part: u32) -> ArrayVec<u8, 640>
        requires { (round < self.now.count) × (part < 5) }
        ensures { result.items ≡ slice_index_or (round_lines self.now.seed round) part [] }
    {
        let seed = self.seed as u32;
        match part {
            0 => lossy_line(),
            1 => counted_line(
                b"write 04112233445566 ",
                (17 * seed + 53 * round) % 200,
                round % 256,
            ),
            2 => text_line(b"read 04112233445566"),
            3 => text_line(b"link 08010203 128 1"),
            _ => counted_line(b"put ", (31 * seed + 97 * round) % 1024, round % 256),
        }
    }
}
