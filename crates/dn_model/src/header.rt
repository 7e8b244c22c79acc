//! The header of a case.

ghost use Rattle.std.specs.Prelude.{◌≡◌, ◌<◌, length, IfOk};
ghost use Rattle.dn_model.specs.Cases.{timing_of, IsHeading};

use crate::{Links, Routers, Timing};
use dn_guest::NoMemory;
use std::alloc::Global;
use std::marker::Model;

/// The period and number of groups, the seed, the routers and the links. Each header meets the rules of
/// `specs/Cases.antt`, so whoever writes a literal proves them.
#[derive(Drop)]
pub struct Header {
    pub period: u32,
    pub groups: u32,
    pub seed: u64,
    pub routers: Routers,
    pub links: Links,
}

impl Model for Header {
    ghost use Rattle.dn_model.specs.Cases.{Heading, IsHeading};

    ghost Value = { Heading };

    ghost view = { λ h. record { period = h.period; groups = h.groups; seed = h.seed; routers = h.routers; links = h.links } };

    ghost invariant = { λ h. IsHeading (record { period = h.period; groups = h.groups; seed = h.seed; routers = h.routers; links = h.links }) };
}

impl Header {
    /// A copy.
    pub fn copy(&self, alloc: Global) -> Result<Header, NoMemory>
        ensures { IfOk result (λ made. made ≡ self.now) }
    {
        let routers = self.routers.copy(alloc)?;
        let links = self.links.copy(alloc)?;
        Ok(Header {
            period: self.period,
            groups: self.groups,
            seed: self.seed,
            routers,
            links,
        })
    }

    /// What the keys of messages hang on.
    pub fn timing(&self) -> Timing
        ensures timing { result ≡ timing_of self.now }
        ensures period { 0 < result.period }
    {
        Timing {
            period: self.period,
            groups: self.groups,
            seed: self.seed,
        }
    }
}
