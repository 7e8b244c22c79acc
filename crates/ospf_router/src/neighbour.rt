//! The neighbour at a port (RFC 2328 section 10).

ghost use Rattle.std.specs.Prelude.{◌≡◌, ◌+◌, IfOk, nat_le};
ghost use Rattle.ospf_router.specs.Neighbours.{heard_now, ids, is_dead, is_full, is_full_of, is_other};
ghost use Rattle.ospf_wire.specs.Constants.{RouterDeadInterval};

use ospf_wire::ROUTER_DEAD_INTERVAL;
use std::alloc::{AllocError, Global};

/// From whom a Hello came, and when.
#[derive(Clone, Copy, Debug, PartialEq, Eq)]
pub struct Heard {
    /// The neighbour's router id.
    pub id: u32,
    /// The tick at which it was last heard.
    pub tick: u16,
}

/// What is known of the router at the other end of a port.
#[derive(Clone, Copy, Debug, PartialEq, Eq)]
pub enum Neighbour {
    /// Nothing was heard lately (RFC 2328 section 10.1).
    Down,
    /// It is heard, and doesn't list this router (RFC 2328 section 10.1).
    Init(Heard),
    /// It is heard and lists this router, and the database was sent to it (RFC 2328 section 10.1; this
    /// profile has no states between).
    Full(Heard),
}

impl Heard {
    /// Heard at this tick from this id.
    pub fn at(id: u32, tick: u16) -> Heard
        ensures { result ≡ heard_now id tick }
    {
        Heard { id, tick }
    }

    /// Whether it was heard so long ago that the neighbour is down.
    fn is_past(self, now: u16) -> bool
        ensures { result ≡ nat_le (self.tick + RouterDeadInterval) now }
    {
        u32::from(self.tick) + u32::from(ROUTER_DEAD_INTERVAL) <= u32::from(now)
    }
}

impl Neighbour {
    /// Whether it is Full.
    pub fn is_full(self) -> bool
        ensures { result ≡ is_full self }
    {
        match self {
            Neighbour::Full(_) => true,
            Neighbour::Down | Neighbour::Init(_) => false,
        }
    }

    /// Whether it is Full and has this id.
    pub fn is_full_of(self, id: u32) -> bool
        ensures { result ≡ is_full_of id self }
    {
        match self {
            Neighbour::Full(heard) => heard.id == id,
            Neighbour::Down | Neighbour::Init(_) => false,
        }
    }

    /// Whether it isn't Down and has another id.
    pub fn is_other(self, id: u32) -> bool
        ensures { result ≡ is_other id self }
    {
        match self {
            Neighbour::Down => false,
            Neighbour::Init(heard) | Neighbour::Full(heard) => heard.id != id,
        }
    }

    /// Whether it isn't Down and was last heard RouterDeadInterval or more ticks ago (RFC 2328 section 10.2,
    /// InactivityTimer).
    pub fn is_dead(self, now: u16) -> bool
        ensures { result ≡ is_dead now self }
    {
        match self {
            Neighbour::Down => false,
            Neighbour::Init(heard) | Neighbour::Full(heard) => heard.is_past(now),
        }
    }

    /// Its id in a list, and an empty list where it is Down.
    pub fn ids(self, alloc: Global) -> Result<Vec<u32>, AllocError>
        ensures { IfOk result (λ list. list.items ≡ ids self) }
    {
        match self {
            Neighbour::Down => Ok(Vec::new(alloc)),
            Neighbour::Init(heard) | Neighbour::Full(heard) => Vec::from_slice(alloc, &[heard.id]),
        }
    }
}
