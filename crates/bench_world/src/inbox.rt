//! What a peer's server accepted, by the links on which it came.

ghost use Rattle.std.specs.Prelude.{◌≡◌, ◌+◌, ◌<◌, ◌^◌, ◌++◌, ◌∷◌, length, drop, not, IfOk, OnOk};
ghost use Rattle.bench_world.specs.Inbox.{is_before, is_in, came_on_link, chosen, received_on, told_by_links, inbox_of};

use crate::entry::Received;
use nfc_base::Items;
use snep_core::Server;
use std::alloc::{AllocError, Global};

/// A link: its peer, by its number, and where that peer's list of accepted messages stood at the link's start and at
/// its end; while it is open it goes to the list's end.
#[derive(Clone, Copy, Debug)]
pub struct LinkRange {
    pub peer: u64,
    pub start: usize,
    pub end: Option<usize>,
}

impl LinkRange {
    /// Whether a place of that list lies in its range.
    fn has(&self, place: usize) -> bool
        ensures { result ≡ is_in self.now place }
    {
        self.start <= place && self.is_after(place)
    }

    /// Whether its range ends behind a place.
    fn is_after(&self, place: usize) -> bool
        ensures { result ≡ is_before place self.now.end }
    {
        match self.end {
            Some(end) => place < end,
            None => true,
        }
    }
}

/// Whether a message came on one of a peer's links.
fn came_on_link(links: &[LinkRange], peer: u64, place: usize) -> bool
    ensures { result ≡ came_on_link links.now peer place }
{
    'links: for link in links {
        if link.peer == peer && link.has(place) {
            return true;
        }
    }
    false
}

/// One of the messages that a server accepted, as it is told of a link.
fn received(alloc: Global, server: &Server, place: usize, link: u32) -> Result<Received, AllocError>
    requires { place < length server.now.accepted }
    ensures { IfOk result (λ r. received_on link (drop place server.now.accepted)
        ≡ r ∷ received_on link (drop (place + 1) server.now.accepted)) }
{
    Ok(Received {
        link,
        source: server.sources()[place],
        message: Items::from_bytes(alloc, server.accepted()[place].as_slice())?,
    })
}

/// Adds the messages that came on no link of the peer.
fn add_others(
    told: &mut Vec<Received>,
    server: &Server,
    links: &[LinkRange],
    peer: u64,
) -> Result<(), AllocError>
    ensures { OnOk result (told.new.items ≡ told.old.items
        ++ received_on 0 (chosen (λ n. not (came_on_link links.now peer n)) 0 server.now.accepted)) }
{
    'places: for place in 0..server.accepted().len() {
        if !came_on_link(links, peer, place) {
            told.push(received(*told.allocator(), server, place, 0)?)?;
        }
    }
    Ok(())
}

/// Adds the messages that came on a link, as of this number.
fn add_range(
    told: &mut Vec<Received>,
    server: &Server,
    link: &LinkRange,
    number: u32,
) -> Result<(), AllocError>
    ensures { OnOk result (told.new.items ≡ told.old.items
        ++ received_on number (chosen (is_in link.now) 0 server.now.accepted)) }
{
    'places: for place in 0..server.accepted().len() {
        if link.has(place) {
            told.push(received(*told.allocator(), server, place, number)?)?;
        }
    }
    Ok(())
}

/// Adds the messages that came on each of the peer's links, ascending.
fn add_ranges(
    told: &mut Vec<Received>,
    server: &Server,
    links: &[LinkRange],
    peer: u64,
) -> Result<(), AllocError>
    requires { length links.now < 2 ^ 32 }
    ensures { OnOk result (told.new.items ≡ told.old.items
        ++ told_by_links 1 links.now peer server.now.accepted) }
{
    'links: for i in 0..links.len() {
        let link = &links[i];
        if link.peer == peer {
            add_range(told, server, link, i as u32 + 1)?;
        }
    }
    Ok(())
}

/// What a peer's server accepted: first what came on none of these links, then what came on each of them that is the
/// peer's.
pub fn inbox_of(
    alloc: Global,
    server: &Server,
    links: &[LinkRange],
    peer: u64,
) -> Result<Items<Received>, AllocError>
    requires { length links.now < 2 ^ 32 }
    ensures { IfOk result (λ rs. rs ≡ inbox_of links.now peer server.now.accepted) }
{
    let mut told = Vec::new(alloc);
    add_others(&mut told, server, links, peer)?;
    add_ranges(&mut told, server, links, peer)?;
    Ok(Items::new(told))
}
