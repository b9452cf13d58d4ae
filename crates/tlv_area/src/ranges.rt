//! Addresses that control TLVs reserve, and the runs of free ones between them.
//!
//! Whoever goes over an area goes over its ranges, once, and takes a whole run of free addresses at a time: so each
//! call costs what the ranges cost, however many addresses lie between them. The ranges stand in ascending order, or a
//! run that ends at one of them could pass through another.

ghost use Rattle.std.specs.Prelude.{◌≡◌, ◌-◌, ◌<◌, ◌≤◌, length, min, max, IfSome, IfNone};
ghost use Rattle.tlv_area.specs.Layout.{free};
ghost use Rattle.tlv_area.specs.Map.{in_ranges, IsOrdered};
ghost use Rattle.tlv_area.specs.Reading.{IsPast};

/// A run of free addresses, to before `to`, and the address past the range that ends it.
#[derive(Clone, Copy)]
pub struct Run {
    pub to: u32,
    pub next: u32,
}

/// The run of free addresses from `at` on to before a range, where each range before it ends at `at` or before.
pub fn run_before(range: &(u32, u32), at: u32, end: u32) -> Run
    requires { at ≤ end }
    ensures to { result.to ≡ max at (min range.now.0 end) }
    ensures next { result.next ≡ max result.to (min range.now.1 end) }
{
    let to = range.0.clamp(at, end);
    let next = range.1.clamp(to, end);
    Run { to, next }
}

/// The address just past the first `count` free ones from `at` on.
pub fn past(reserved: &[(u32, u32)], at: u32, end: u32, count: u32) -> Option<u32>
    requires order { at ≤ end }
    requires ranges { IsOrdered reserved.now }
    ensures some { IfSome result (λ p. IsPast (in_ranges reserved.now) at end count p) }
    ensures none { IfNone result (length (free (in_ranges reserved.now) at end) < count) }
{
    let mut address = at;
    let mut left = count;
    for range in reserved {
        let run = run_before(range, address, end);
        if left <= run.to - address {
            return Some(address + left);
        }
        left -= run.to - address;
        address = run.next;
    }
    if left > end - address {
        return None;
    }
    Some(address + left)
}

/// How many addresses are free from `at` on.
pub fn count_free(reserved: &[(u32, u32)], at: u32, end: u32) -> u32
    requires order { at ≤ end }
    requires ranges { IsOrdered reserved.now }
    ensures count { result ≡ length (free (in_ranges reserved.now) at end) }
    ensures bound { result ≤ end - at }
{
    let mut address = at;
    let mut count = 0;
    for range in reserved {
        let run = run_before(range, address, end);
        count += run.to - address;
        address = run.next;
    }
    count + (end - address)
}
