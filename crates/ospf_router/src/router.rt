//! A router in the middle of a step (RFC 2328 section 8.2): its state, and what it has put out so far.

ghost use Rattle.std.specs.Prelude.{◌≡◌, ◌↔◌, ◌≤◌, [], IsTrue, IfOk, length};
ghost use Rattle.ospf_router.specs.State.{id_of, opening, opening_prefixes, router_of, state_of};

use crate::interfaces::Interfaces;
use crate::prefixes::Prefixes;
use crate::{OspfSettings, PrefixList};
use dn_guest::{Outbox, Output};
use ospf_lsdb::Lsdb;
use std::alloc::{AllocError, Global};
use std::mem;

/// A router: its state, and what it has put out so far in this step.
#[derive(Drop)]
pub struct Router {
    /// The router's number.
    pub number: u16,
    /// The last tick, 0 before the first.
    pub tick: u16,
    /// The tick of the last origination.
    pub originated: Option<u16>,
    pub prefixes: Prefixes,
    pub interfaces: Interfaces,
    pub db: Lsdb,
    pub out: Outbox,
}

/// The own networks with which a router begins.
fn opening_prefixes(alloc: Global, list: &PrefixList) -> Result<Prefixes, AllocError>
    ensures { IfOk result (λ prefixes. prefixes ≡ opening_prefixes list.now) }
{
    let mut prefixes = Prefixes::new(alloc);
    for (address, len, cost) in list.as_slice() {
        prefixes.set(*address, *len, *cost)?;
    }
    Ok(prefixes)
}

impl Router {
    /// A router that begins with these settings, which have at most 16 ports.
    pub fn new(alloc: Global, settings: &OspfSettings) -> Result<Router, AllocError>
        requires { length settings.now.costs ≤ 16 }
        ensures { IfOk result (λ made. made
            ≡ router_of (opening settings.now.number settings.now.costs settings.now.prefixes)) }
    {
        Ok(Router {
            number: settings.number,
            tick: 0,
            originated: None,
            prefixes: opening_prefixes(alloc, &settings.prefixes)?,
            interfaces: Interfaces::new(alloc, settings.costs.as_slice())?,
            db: Lsdb::new(alloc),
            out: Outbox::new(alloc),
        })
    }

    /// What was put out so far; after it nothing was.
    pub fn take_out(&mut self, alloc: Global) -> Vec<Output>
        ensures outputs { result.items ≡ self.old.out }
        ensures router { self.new ≡ record self.old { out = [] } }
    {
        mem::replace(&mut self.out, Outbox::new(alloc)).into_vec()
    }

    /// A router with an equal state, which has put out nothing.
    pub fn fork(&self, alloc: Global) -> Result<Router, AllocError>
        ensures { IfOk result (λ made. made ≡ record self.now { out = [] }) }
    {
        Ok(Router {
            number: self.number,
            tick: self.tick,
            originated: self.originated,
            prefixes: self.prefixes.fork()?,
            interfaces: self.interfaces.fork(alloc)?,
            db: self.db.fork(alloc)?,
            out: Outbox::new(alloc),
        })
    }

    /// Whether both have the same number and the same ticks.
    fn same_ticks(&self, other: &Router) -> bool
        ensures { IsTrue result ↔ ((self.now.number ≡ other.now.number) × (self.now.tick
            ≡ other.now.tick) × (self.now.originated ≡ other.now.originated)) }
    {
        self.number == other.number
            && self.tick == other.tick
            && self.originated == other.originated
    }

    /// Whether the states are equal.
    pub fn same(&self, other: &Router) -> bool
        ensures { IsTrue result ↔ (state_of self.now ≡ state_of other.now) }
    {
        self.same_ticks(other)
            && self.prefixes.same(&other.prefixes)
            && self.interfaces.same(&other.interfaces)
            && self.db.same(&other.db)
    }

    /// The router id: the router's number plus 1.
    pub fn id(&self) -> u32
        ensures { result ≡ id_of self.now }
    {
        u32::from(self.number) + 1
    }

    /// The last tick, as the database counts.
    pub fn now(&self) -> u32
        ensures { result ≡ self.now.tick }
    {
        u32::from(self.tick)
    }
}
