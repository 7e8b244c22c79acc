//! Routers that speculate, and what flies between them: a world, as code.

ghost use Rattle.std.specs.Prelude.{◌≡◌, ◌<◌, ◌≤◌, true, length, map, if◌then◌else◌, is_ok, IfOk};
ghost use Rattle.dn_model.specs.Network.{Network};
ghost use Rattle.dn_world.specs.World.{are_quiet, part};
ghost use Rattle.dn_fabric.specs.Fabrics.{IsNetworkOf, opening_live, router_of};
ghost use Rattle.dn_fabric.specs.Openings.{router_before, routers_from};
ghost use Rattle.dn_fabric.specs.Rosters.{asked_by, errand_of};

use crate::asking::Asked;
use crate::flight::Flight;
use crate::roster::{Errand, Roster};
use dn_guest::{Guest, NoMemory};
use dn_model::{Event, External, Header, Key, Row, ends, opening};
use dn_router::Router;
use std::alloc::Global;
use std::marker::Model;

/// A world with its routers: what each has handled and has still to handle, what flies, how far the feed has
/// come, and the rows that were committed.
#[derive(Drop)]
pub(crate) struct World<G: Guest> {
    pub(crate) alloc: Global,
    pub(crate) header: Header,
    pub(crate) routers: Roster<G>,
    pub(crate) flight: Flight,
    pub(crate) floor: u32,
    pub(crate) closed: bool,
    pub(crate) accepted: Vec<External>,
    pub(crate) boundary: Key,
    pub(crate) rows: Vec<Row>,
    /// Whether there are more rows below the boundary.
    pub(crate) cut: bool,
    /// Whether a call found no memory, or `stop` was called.
    pub(crate) stopped: bool,
}

impl<G: Guest> Model for World<G> {
    ghost use Rattle.std.specs.Prelude.{map};
    ghost use Rattle.dn_fabric.specs.Fabrics.{Live};
    ghost use Rattle.dn_fabric.specs.Holds.{IsWhole};

    ghost Value = { Live G };

    ghost view = { λ w. record { header = w.header; openings = map (λ r. r.opening.guest) w.routers; world = record { parts = map (λ r. r.part) w.routers; flight = w.flight; floor = w.floor; closed = w.closed; accepted = w.accepted.items; boundary = w.boundary }; rows = w.rows.items; cut = w.cut; stopped = w.stopped } };

    ghost invariant = { λ w. IsWhole w.header w.routers w.boundary w.rows.items w.cut w.stopped };
}

impl<G: Guest> World<G> {
    /// The world before the first step, with these guests at routers 0, 1, ..
    pub(crate) fn new(alloc: Global, header: Header, guests: Vec<G>) -> Result<World<G>, NoMemory>
        requires { length guests.items ≡ length header.routers }
        ensures { IfOk result (λ made. made ≡ opening_live header guests.items) }
    {
        // A header's rules are known once a field of it is read.
        let _ = &header.period;
        let routers = Roster::of(alloc, opening_routers(alloc, &header, guests)?)?;
        Ok(World {
            alloc,
            header,
            routers,
            flight: Flight::new(alloc),
            floor: 0,
            closed: false,
            accepted: Vec::new(alloc),
            boundary: Key {
                group: 0,
                sum: 0,
                class: 0,
                tie: 0,
                origin: 0,
                seq: 0,
            },
            rows: Vec::new(alloc),
            cut: false,
            stopped: false,
        })
    }

    /// The header.
    pub(crate) fn header(&self) -> &Header
        ensures { result.now ≡ self.now.header }
    {
        &self.header
    }

    /// The router with the number.
    pub(crate) fn router(&self, number: u16) -> &Router<G>
        requires { number < length self.now.header.routers }
        ensures part { result.now.part ≡ part self.now.world number }
        ensures router { (net : Network G) → IsNetworkOf net G.meaning self.now.header self.now.openings →
            result.now ≡ record (router_of net self.now.world number) {
              committed = result.now.committed;
              bound = result.now.bound;
            } }
    {
        self.routers.router(usize::from(number))
    }

    /// What there is to do at the router with the number.
    pub(crate) fn errand(&self, number: u16) -> &Errand
        requires { number < length self.now.header.routers }
        ensures { result.now ≡ errand_of (part self.now.world number) }
    {
        self.routers.errand(usize::from(number))
    }

    /// What the routers ask for first, where those that are leased ask for nothing.
    pub(crate) fn asked(&self, leased: &[bool]) -> Asked
        requires { length leased.now ≡ length self.now.header.routers }
        ensures asked { result ≡ asked_by self.now.world.parts leased.now }
        ensures count { length self.now.world.parts ≡ length self.now.header.routers }
    {
        self.routers.asked(leased)
    }

    /// Whether none of the routers is behind or has something to handle.
    pub(crate) fn are_quiet(&self) -> bool
        ensures { result ≡ are_quiet self.now.world.parts }
    {
        self.routers.are_quiet()
    }

    /// How many packets fly.
    pub(crate) fn flying(&self) -> u64
        ensures { result ≡ length self.now.world.flight }
    {
        self.flight.len()
    }

    /// The group that has begun last.
    pub(crate) fn floor(&self) -> u32
        ensures { result ≡ self.now.world.floor }
    {
        self.floor
    }

    /// Whether nothing more comes from outside.
    pub(crate) fn closed(&self) -> bool
        ensures { result ≡ self.now.world.closed }
    {
        self.closed
    }

    /// The externals that were accepted, in order.
    pub(crate) fn accepted(&self) -> &[External]
        ensures { result.now ≡ self.now.world.accepted }
    {
        self.accepted.as_slice()
    }

    /// What is handled below it is committed.
    pub(crate) fn boundary(&self) -> Key
        ensures { result ≡ self.now.world.boundary }
    {
        self.boundary
    }

    /// The rows that were committed, as far as a trace shows them.
    pub(crate) fn rows(&self) -> &[Row]
        ensures { result.now ≡ self.now.rows }
    {
        self.rows.as_slice()
    }

    /// Whether there are more rows below the boundary.
    pub(crate) fn is_cut(&self) -> bool
        ensures { result ≡ self.now.cut }
    {
        self.cut
    }

    /// Whether a call found no memory, or `stop` was called.
    pub(crate) fn stopped(&self) -> bool
        ensures { result ≡ self.now.stopped }
    {
        self.stopped
    }

    /// Nothing more is done.
    pub(crate) fn stop(&mut self)
        ensures { self.new ≡ record self.old { stopped = true } }
    {
        self.stopped = true;
    }

    /// The same outcome of another call. Where that found no memory, nothing more is done.
    pub(crate) fn mark<T>(&mut self, outcome: Result<T, NoMemory>) -> Result<T, NoMemory>
        ensures same { result ≡ outcome }
        ensures mark { self.new ≡ record self.old { stopped = (if is_ok outcome then self.old.stopped else true) } }
    {
        marking(&mut self.stopped, outcome)
    }
}

/// The result, and the mark is set where it found no memory.
pub(crate) fn marking<T>(stopped: &mut bool, outcome: Result<T, NoMemory>) -> Result<T, NoMemory>
    ensures same { result ≡ outcome }
    ensures mark { stopped.new ≡ (if is_ok outcome then stopped.old else true) }
{
    if outcome.is_err() {
        *stopped = true;
    }
    outcome
}

#[tactic(auto, unfolding(crate::specs::Openings::routers_from))]
/// The routers before the first event, with these guests.
fn opening_routers<G: Guest>(
    alloc: Global,
    header: &Header,
    guests: Vec<G>,
) -> Result<Vec<Router<G>>, NoMemory>
    requires one_each { length guests.items ≡ length header.now.routers }
    requires few { length header.now.routers ≤ 64 }
    ensures { IfOk result (λ made. made.items ≡ routers_from header.now 0 guests.items) }
{
    let mut routers = Vec::new(alloc);
    let mut number: u16 = 0;
    for guest in guests {
        routers.push(opening_router(alloc, header, number, guest)?)?;
        number += 1;
    }
    Ok(routers)
}

/// A router before its first event, with the tick of group 0 to handle.
fn opening_router<G: Guest>(
    alloc: Global,
    header: &Header,
    number: u16,
    guest: G,
) -> Result<Router<G>, NoMemory>
    requires { number < length header.now.routers }
    ensures { IfOk result (λ made. made ≡ router_before header.now number guest) }
{
    let node = opening(alloc, header, number, guest)?;
    let mut router = Router::new(
        alloc,
        number,
        ends(alloc, header, number)?,
        header.timing(),
        node,
    )?;
    dn_router::laws::nothing_before_zeros();
    router.arrive(true, Event::tick(0, number))?;
    Ok(router)
}
