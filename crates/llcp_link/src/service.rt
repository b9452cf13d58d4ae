//! What stands above an end of a link.

ghost use Rattle.std.specs.Prelude.{◌≡◌, ◌≤◌, length, option_map, IfOk, IfSome, OnOk, OnErr};
ghost use Rattle.llcp_conn.specs.Conn.{IsSap};
ghost use Rattle.llcp_link.specs.Serving.{Serving, asked};

use nfc_base::Items;
use std::alloc::{AllocError, Global};

/// The service of an end, which other ends connect to; each connection is named by its client's SAP. `Llc` calls it.
pub trait Service {
    /// What its calls do.
    ghost serving: { Serving Self };

    /// A new link begins, on which there is no connection yet. It takes no memory. Most services do nothing here.
    fn restart(&mut self)
        ensures { self.new ≡ serving.renewed self.old };

    /// A connection begins. That one ends isn't told. It takes no memory.
    fn begin(&mut self, ssap: u8)
        requires { IsSap ssap }
        ensures { self.new ≡ serving.begun self.old ssap };

    /// A unit of the client, of at most this end's MIU.
    fn unit(&mut self, alloc: Global, ssap: u8, unit: &[u8]) -> Result<(), AllocError>
        requires { IsSap ssap }
        ensures ok { OnOk result (self.new ≡ serving.brought self.old ssap unit.now) }
        ensures err { OnErr result (serving.keeps self.old self.new) };

    /// The next unit for the client, of at most the client's MIU; asked only where its window allows one.
    fn next(&mut self, alloc: Global, ssap: u8, miu: u16) -> Result<Option<Items<u8>>, AllocError>
        requires { IsSap ssap }
        ensures ok { IfOk result (λ u. u ≡ serving.due self.old ssap miu) }
        ensures sent { OnOk result (self.new ≡ asked serving self.old ssap miu) }
        ensures size { IfOk result (λ o. IfSome o (λ u. length u ≤ miu)) }
        ensures err { OnErr result (serving.keeps self.old self.new) };

    /// The length of the unit that `next` would give. It takes no memory.
    fn next_len(&self, ssap: u8, miu: u16) -> Option<usize>
        requires { IsSap ssap }
        ensures exact { result ≡ option_map length (serving.due self.now ssap miu) }
        ensures size { IfSome result (λ n. n ≤ miu) };
}
