//! What the peers of links accepted on them, as the bench shows it.

ghost use Rattle.std.specs.Prelude.{◌≡◌, None, get_or};
ghost use Rattle.bench_world.specs.Inbox.{is_in, chosen};
ghost use Rattle.bench_world.specs.Stories.{range_of};

use crate::inbox::LinkRange;
use crate::machines::{Machines, place_numbered};
use llcp_link::Llc;
use nfc_base::Items;
use snep_core::Server;

/// Of a list that a server keeps, what stands in the range of a link.
fn in_range<'a, T>(list: &'a [T], range: &LinkRange) -> &'a [T]
    ensures { result.now ≡ chosen (is_in range.now) 0 list.now }
{
    let end = range.end.unwrap_or(list.len()).min(list.len());
    let start = range.start.min(end);
    &list[start..end]
}

/// The range of the link with a number; the first is link 1.
fn range_of(links: &[LinkRange], number: u32) -> Option<LinkRange>
    ensures { result ≡ range_of number links.now }
{
    let number = number as usize;
    if number == 0 || number > links.len() {
        return None;
    }
    Some(links[number - 1])
}

impl Machines {
    ghost use Rattle.std.specs.Prelude.{option_copied, length};
    ghost use Rattle.snep_core.specs.Server.{messages_of, sources_of};
    ghost use Rattle.bench_world.specs.Links.{end_numbered};
    ghost use Rattle.bench_world.specs.private.Gains.{accepted_above, gained_above};
    ghost use Rattle.bench_world.specs.Stories.{accepted_of};

    /// The far end of the peer with a number, also of one that was taken away.
    fn end_of(&self, peer: u64) -> Option<&Llc<Server>>
        ensures { accepted_above (option_copied result) ≡ accepted_of
            (end_numbered peer self.now.peers.numbers self.now.ends) (get_or self.now.peers.gone peer None) }
    {
        if let Some(place) = place_numbered(&self.numbers, peer) {
            if let Some(end) = self.far(place) {
                return Some(end);
            }
        }
        match self.gone.get(peer as usize) {
            Some(Some(end)) => Some(end),
            _ => None,
        }
    }

    /// The range of the link with a number.
    fn range(&self, number: u32) -> Option<LinkRange>
        ensures { result ≡ range_of number self.now.peers.links }
    {
        range_of(&self.links, number)
    }

    /// The messages that the peer of a link accepted on it.
    pub fn accepted_on(&self, number: u32) -> &[Items<u8>]
        ensures { result.now ≡ messages_of (gained_above self.now number) }
    {
        let Some(range) = self.range(number) else {
            return &[];
        };
        match self.end_of(range.peer) {
            Some(end) => in_range(end.as_service().accepted(), &range),
            None => &[],
        }
    }

    /// The SAPs that they came from.
    pub fn sources_on(&self, number: u32) -> &[u8]
        ensures { result.now ≡ sources_of (gained_above self.now number) }
    {
        let Some(range) = self.range(number) else {
            return &[];
        };
        match self.end_of(range.peer) {
            Some(end) => in_range(end.as_service().sources(), &range),
            None => &[],
        }
    }

    /// How many links there were so far.
    pub fn link_count(&self) -> u32
        ensures { result ≡ length self.now.peers.links }
    {
        self.links.len() as u32
    }
}
