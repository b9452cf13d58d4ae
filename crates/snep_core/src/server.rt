//! The server: its table for get, what it accepted, and its sessions.

ghost use Rattle.std.specs.Prelude.{◌≡◌, ◌<◌, ◌≤◌, ◌^◌, length, OnOk, OnErr, [], ◌∷◌, ◌++◌};
ghost use Rattle.llcp_pdu.specs.Wire.{sap_count};
ghost use Rattle.snep_core.specs.Session.{AreShort};
ghost use Rattle.snep_core.specs.Server.{IsLimit, fresh_server, offered, padded, place_of as place_under, messages_of};
ghost use Rattle.snep_core.specs.Server.{sources_of};

use crate::session::{Offer, Session};
use llcp_link::Service;
use nfc_base::Items;
use std::alloc::{AllocError, Global};
use std::marker::Model;

/// The name that a server is bound under (NFC Forum SNEP 1.0).
pub const SNEP_NAME: &str = "urn:nfc:sn:snep";

/// The SAP that it is bound to.
pub const SNEP_SAP: u8 = 4;

/// A SNEP server (NFC Forum SNEP 1.0), the service of an end of a link. Each client's SAP has a session of its own.
#[derive(Debug, Drop)]
pub struct Server {
    alloc: Global,
    limit: u32,
    table: Vec<Offer>,
    accepted: Vec<Items<u8>>,
    sources: Vec<u8>,
    sessions: Vec<Session>,
}

impl Model for Server {
    ghost use Rattle.std.specs.Prelude.{◌≡◌, ◌≤◌, length};
    ghost use Rattle.snep_core.specs.Session.{AreShort};
    ghost use Rattle.snep_core.specs.Server.{ServerState, padded, from_sources};
    ghost use Rattle.llcp_pdu.specs.Wire.{sap_count};

    ghost Value = { ServerState };

    ghost view = { λ s. record {
      limit = s.limit;
      table = s.table.items;
      accepted = from_sources s.sources.items s.accepted.items;
      sessions = padded s.sessions.items;
    } };

    ghost invariant = { λ s. AreShort s.table.items × (length s.sources.items ≡ length s.accepted.items)
        × (length s.sessions.items ≤ sap_count) };
}

impl Server {
    /// A server that takes messages of at most so many bytes, 1,024 to 65,536. It takes no memory.
    pub fn new(alloc: Global, limit: u32) -> Server
        requires { IsLimit limit }
        ensures { result ≡ fresh_server limit }
    {
        Server {
            alloc,
            limit,
            table: Vec::new(alloc),
            accepted: Vec::new(alloc),
            sources: Vec::new(alloc),
            sessions: Vec::new(alloc),
        }
    }

    /// Gives a key of the table for get this value. Four bytes must be able to say how long it is.
    pub fn offer(&mut self, key: &[u8], value: &[u8]) -> Result<(), AllocError>
        requires { length value.now < 2 ^ 32 }
        ensures ok { OnOk result (self.new ≡ record self.old { table = offered self.old.table key.now value.now }) }
        ensures same { OnErr result (self.new ≡ self.old) }
    {
        let value = Items::from_bytes(self.alloc, value)?;
        put(self.alloc, &mut self.table, key, value)
    }

    /// The messages that it accepted, the oldest first.
    pub fn accepted(&self) -> &[Items<u8>]
        ensures { result.now ≡ messages_of self.now.accepted }
    {
        self.accepted.as_slice()
    }

    /// Of each of these messages the client's SAP.
    pub fn sources(&self) -> &[u8]
        ensures { result.now ≡ sources_of self.now.accepted }
    {
        self.sources.as_slice()
    }
}

impl Service for Server {
    ghost use Rattle.snep_core.specs.Server.{serving};

    ghost serving = { serving };

    fn restart(&mut self) {
        self.sessions.clear();
    }

    fn begin(&mut self, ssap: u8) {
        let place = ssap as usize;
        if place < self.sessions.len() {
            self.sessions[place].begin_anew();
        }
    }

    fn unit(&mut self, alloc: Global, ssap: u8, unit: &[u8]) -> Result<(), AllocError> {
        let place = ssap as usize;
        make_room(alloc, &mut self.sessions, place)?;
        if let Some(message) = self.sessions[place].hear(alloc, self.limit, &self.table, unit)? {
            keep(&mut self.sources, &mut self.accepted, ssap, message)?;
        }
        Ok(())
    }

    fn next(&mut self, alloc: Global, ssap: u8, miu: u16) -> Result<Option<Items<u8>>, AllocError> {
        let place = ssap as usize;
        if place < self.sessions.len() {
            self.sessions[place].next(alloc, miu)
        } else {
            Ok(None)
        }
    }

    fn next_len(&self, ssap: u8, miu: u16) -> Option<usize> {
        let place = ssap as usize;
        if place < self.sessions.len() {
            self.sessions[place].next_len(miu)
        } else {
            None
        }
    }
}

/// Gives a key this value.
fn put(
    alloc: Global,
    table: &mut Vec<Offer>,
    key: &[u8],
    value: Items<u8>,
) -> Result<(), AllocError>
    requires short { AreShort table.old.items }
    requires value { length value < 2 ^ 32 }
    ensures ok { OnOk result (table.new.items ≡ offered table.old.items key.now value) }
    ensures err { OnErr result (table.new.items ≡ table.old.items) }
    ensures short { AreShort table.new.items }
{
    match place_of(table.as_slice(), key) {
        Some(place) => table[place].value = value,
        None => {
            let key = Items::from_bytes(alloc, key)?;
            table.push(Offer { key, value })?;
        }
    }
    Ok(())
}

/// The place of a key.
fn place_of(table: &[Offer], key: &[u8]) -> Option<usize>
    ensures { result ≡ place_under key.now table.now }
{
    let mut place = 0;
    'table: for offer in table {
        if offer.key.as_slice() == key {
            return Some(place);
        }
        place += 1;
    }
    None
}

/// Sessions up to this place: those that weren't there are as at first.
fn make_room(alloc: Global, sessions: &mut Vec<Session>, place: usize) -> Result<(), AllocError>
    requires place { place < sap_count }
    requires few { length sessions.old.items ≤ sap_count }
    ensures same { padded sessions.new.items ≡ padded sessions.old.items }
    ensures few { length sessions.new.items ≤ sap_count }
    ensures room { OnOk result (place < length sessions.new.items) }
{
    while sessions.len() <= place {
        sessions.push(Session::new(alloc))?;
    }
    Ok(())
}

/// Keeps a message with the SAP that it came from.
fn keep(
    sources: &mut Vec<u8>,
    accepted: &mut Vec<Items<u8>>,
    source: u8,
    message: Items<u8>,
) -> Result<(), AllocError>
    ensures ok { OnOk result ((sources.new.items ≡ sources.old.items ++ source ∷ [])
        × (accepted.new.items ≡ accepted.old.items ++ message ∷ [])) }
    ensures err { OnErr result ((sources.new.items ≡ sources.old.items) × (accepted.new.items ≡ accepted.old.items)) }
{
    sources.reserve(1)?;
    accepted.push(message)?;
    sources.push(source)?;
    Ok(())
}
