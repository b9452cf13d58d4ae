//! What an end looked up, and what it was told.

ghost use Rattle.std.specs.Prelude.{◌≡◌, OnOk, OnErr};
ghost use Rattle.llcp_pdu.specs.Views.{HoldsParams, params_in};
ghost use Rattle.llcp_link.specs.Asking.{found_in, put_lookup};
ghost use Rattle.llcp_link.specs.Names.{lookups_told, told_one};

use crate::numbered::{Numbered, place_of};
use llcp_pdu::{ParamView, ParamWalk};
use std::alloc::AllocError;
use std::marker::Model;

/// A lookup by its number, and the SAP that it was told.
#[derive(Debug, Drop)]
pub(crate) struct Lookup {
    pub(crate) tid: u8,
    pub(crate) told: Option<u8>,
}

impl Model for Lookup {
    ghost use Rattle.llcp_link.specs.State.{Lookup};

    ghost Value = { Lookup };

    ghost view = { λ l. record { tid = l.tid; told = l.told } };
}

impl Numbered for Lookup {
    ghost number = { λ l. l.tid };

    fn number(&self) -> u8 {
        self.tid
    }
}

/// What was told for a number since it was last looked up.
pub(crate) fn found(lookups: &[Lookup], tid: u8) -> Option<u8>
    ensures { result ≡ found_in tid lookups.now }
{
    'lookups: for lookup in lookups {
        if lookup.tid == tid {
            return lookup.told;
        }
    }
    None
}

/// A number is looked up: an earlier lookup of it is forgotten.
pub(crate) fn put(lookups: &mut Vec<Lookup>, tid: u8) -> Result<(), AllocError>
    ensures ok { OnOk result (lookups.new.items ≡ put_lookup tid lookups.old.items) }
    ensures err { OnErr result (lookups.new.items ≡ lookups.old.items) }
{
    let lookup = Lookup { tid, told: None };
    match place_of(lookups, tid) {
        Some(place) => lookups[place] = lookup,
        None => lookups.push(lookup)?,
    }
    Ok(())
}

/// A number was told this SAP.
fn tell(lookups: &mut Vec<Lookup>, tid: u8, sap: u8)
    ensures { lookups.new.items ≡ told_one tid sap lookups.old.items }
{
    if let Some(place) = place_of(lookups, tid) {
        lookups[place] = Lookup {
            tid,
            told: Some(sap),
        };
    }
}

/// What the parameters of an SNL tell.
pub(crate) fn hear(lookups: &mut Vec<Lookup>, params: &[u8])
    requires { HoldsParams params.now }
    ensures { lookups.new.items ≡ lookups_told (params_in params.now) lookups.old.items }
{
    'params: for param in ParamWalk::new(params) {
        if let ParamView::SdRes { tid, sap } = param {
            tell(lookups, tid, sap);
        }
    }
}
