//! The names of services, and the SAPs that they are bound to.

ghost use Rattle.std.specs.Prelude.{◌≡◌, [], ◌∷◌, ◌++◌, true, option_map, IfSome, OnOk, OnErr};
ghost use Rattle.llcp_conn.specs.Conn.{IsSap};
ghost use Rattle.llcp_link.specs.Kept.{AllBound};
ghost use Rattle.llcp_link.specs.Names.{bound_to, found as found_of, is_bound as has_bound, discovery_name};
ghost use Rattle.llcp_link.specs.Names.{reached as reached_by};

use nfc_base::Items;
use std::alloc::AllocError;
use std::marker::Model;

/// The name of service discovery.
pub(crate) const DISCOVERY_NAME: &[u8] = b"urn:nfc:sn:sdp";

/// The SAP of service discovery.
pub(crate) const DISCOVERY_SAP: u8 = 1;

/// A name and the SAP that it is bound to.
#[derive(Debug, Drop)]
pub(crate) struct Bound {
    pub(crate) name: Items<u8>,
    pub(crate) sap: u8,
}

impl Model for Bound {
    ghost use Rattle.llcp_link.specs.State.{Bound};

    ghost Value = { Bound };

    ghost view = { λ b. record { name = b.name; sap = b.sap } };
}

/// The SAP that a name is bound to.
pub(crate) fn sap_named(bound: &[Bound], name: &[u8]) -> Option<u8>
    ensures sap { result ≡ bound_to name.now bound.now }
    ensures range { AllBound bound.now → IfSome result IsSap }
{
    'bound: for known in bound {
        if known.name.as_slice() == name {
            return Some(known.sap);
        }
    }
    None
}

/// Binds one more.
#[tactic(auto, using(crate::proofs::Lists::all_bound_more))]
pub(crate) fn bind(bound: &mut Vec<Bound>, name: Items<u8>, sap: u8) -> Result<(), AllocError>
    requires sap { IsSap sap }
    requires all { AllBound bound.old.items }
    ensures ok { OnOk result (bound.new.items ≡ bound.old.items ++ record { name = name; sap = sap } ∷ []) }
    ensures err { OnErr result (bound.new.items ≡ bound.old.items) }
    ensures all { OnOk result (AllBound bound.new.items) }
{
    match bound.push(Bound { name, sap }) {
        Ok(()) => Ok(()),
        Err(_) => Err(AllocError),
    }
}

/// Whether a SAP is bound.
pub(crate) fn is_bound(bound: &[Bound], sap: u8) -> bool
    ensures bound { result ≡ has_bound sap bound.now }
    ensures range { AllBound bound.now → result ≡ true → IsSap sap }
{
    'bound: for known in bound {
        if known.sap == sap {
            return true;
        }
    }
    false
}

/// The bound SAP that a CONNECT reaches: this one, or the one of its name where it goes to service discovery.
pub(crate) fn reached(bound: &[Bound], dsap: u8, name: Option<&[u8]>) -> Option<u8>
    requires { AllBound bound.now }
    ensures sap { result ≡ reached_by bound.now dsap (option_map (λ n. n.now) name.entry) }
    ensures range { IfSome result IsSap }
{
    if is_bound(bound, dsap) {
        return Some(dsap);
    }
    if dsap != DISCOVERY_SAP {
        return None;
    }
    sap_named(bound, name?)
}

/// The SAP that service discovery tells of a name, 0 where there is none.
pub(crate) fn found(bound: &[Bound], name: &[u8]) -> u8
    ensures { result ≡ found_of bound.now name.now }
{
    if name == DISCOVERY_NAME {
        return DISCOVERY_SAP;
    }
    sap_named(bound, name).unwrap_or(0)
}
