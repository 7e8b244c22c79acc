//! The name of an LSA (RFC 2328 section 12.1).

ghost use Rattle.std.specs.Prelude.{◌≡◌};
ghost use Rattle.ospf_lsdb.specs.Keys.{key_of, own_key};

use ospf_wire::{LsaHeader, ROUTER_LSA_TYPE};

/// What names an LSA. Keys are compared by type, id and advertising router, in this order.
#[derive(Clone, Copy, Debug, PartialEq, Eq, PartialOrd, Ord)]
pub struct LsaKey {
    /// The LS type; 1 is a router-LSA.
    pub kind: u8,
    /// The link state id.
    pub id: u32,
    /// The advertising router.
    pub router: u32,
}

/// The name that a header gives.
pub fn key_of(head: &LsaHeader) -> LsaKey
    ensures { result ≡ key_of head.now }
{
    LsaKey {
        kind: head.kind,
        id: head.id,
        router: head.router,
    }
}

/// The name of a router's own LSA: a router-LSA whose link state id is the router's id (RFC 2328 section
/// 12.4.1).
pub fn own_key(router: u32) -> LsaKey
    ensures { result ≡ own_key router }
{
    LsaKey {
        kind: ROUTER_LSA_TYPE,
        id: router,
        router,
    }
}
