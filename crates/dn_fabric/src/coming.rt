//! What comes to routers: ticks, externals and packets (the steps Beacon, Inject, Close and Deliver of a
//! world).

ghost use Rattle.std.specs.Prelude.{ℕ, ◌≡◌, ◌<◌, ◌≤◌, ◌+◌, ◌++◌, ◌∷◌, [], true, false, length, set, slice_get, Some, OnOk, OnErr};
ghost use Rattle.std.specs.List.{AllByRecursion};
ghost use Rattle.dn_model.specs.Network.{external};
ghost use Rattle.dn_router.specs.Routers.{Speculation};
ghost use Rattle.dn_world.specs.World.{floor_bound, key_of, waiting, with_todo};
ghost use Rattle.dn_world.specs.Steps.{beacon, inject, deliver};
ghost use Rattle.dn_world.specs.Runs.{IsPast};
ghost use Rattle.dn_fabric.specs.Coming.{all_ticked, AreAsBefore};
ghost use Rattle.dn_fabric.specs.Fabrics.{HasHalted};

use crate::roster::Roster;
use crate::world::{World, marking};
use dn_guest::{Guest, NoMemory};
use dn_model::{Event, External};
use std::alloc::Global;

impl<G: Guest> World<G> {
    /// The next group begins: its tick comes to each router.
    pub(crate) fn beacon(&mut self) -> Result<(), NoMemory>
        requires running { self.old.stopped ≡ false }
        requires left { self.old.world.floor + 1 < self.old.header.groups }
        requires past { IsPast self.old.world.boundary (floor_bound self.old.header self.old.world) }
        requires unclosed { self.old.world.closed ≡ false }
        ensures ok { OnOk result (self.new ≡ record self.old { world = beacon self.old.world }) }
        ensures err { OnErr result (HasHalted self.old self.new) }
    {
        dn_world::laws::new_keys();
        let group = self.floor + 1;
        let ticked = tick_all(&mut self.routers, group);
        marking(&mut self.stopped, ticked)?;
        self.floor = group;
        Ok(())
    }

    /// The external is accepted and comes to its router, numbered by its place in the feed.
    pub(crate) fn inject(&mut self, coming: External) -> Result<(), NoMemory>
        requires running { self.old.stopped ≡ false }
        requires inside { coming.router < length self.old.header.routers }
        requires now { coming.group ≡ self.old.world.floor }
        requires past { IsPast self.old.world.boundary (floor_bound self.old.header self.old.world) }
        requires unclosed { self.old.world.closed ≡ false }
        ensures ok { OnOk result (self.new ≡ record self.old { world = inject self.old.world coming }) }
        ensures err { OnErr result (HasHalted self.old self.new) }
    {
        dn_world::laws::new_keys();
        let place = self.accepted.len() as u64;
        let brought = bring(self.alloc, &mut self.routers, place, &coming);
        marking(&mut self.stopped, brought)?;
        let accepted = accept(&mut self.accepted, coming);
        marking(&mut self.stopped, accepted)
    }

    /// Nothing more comes from outside.
    pub(crate) fn close(&mut self)
        ensures { self.new ≡ record self.old { world = record self.old.world { closed = true } } }
    {
        self.closed = true;
    }

    /// The packet at the place of the flight arrives at its router. One to no router vanishes; by the rules of
    /// links there is none.
    pub(crate) fn deliver(&mut self, place: u64) -> Result<(), NoMemory>
        requires running { self.old.stopped ≡ false }
        requires there { place < length self.old.world.flight }
        requires past { AllByRecursion (λ e. IsPast self.old.world.boundary e.key) (waiting self.old.world) }
        ensures ok { OnOk result (self.new ≡
            record self.old { world = deliver self.old.world place (slice_get self.old.world.flight place) }) }
        ensures err { OnErr result (HasHalted self.old self.new) }
    {
        dn_world::laws::waiting();
        let packet = self.flight.take(place);
        let router = usize::from(packet.event.router);
        if router >= self.routers.len() {
            return Ok(());
        }
        let arrived = self.routers.arrive(router, packet.plus, packet.event);
        marking(&mut self.stopped, arrived)
    }
}

/// The tick of a group comes to each router.
fn tick_all<G: Guest>(routers: &mut Roster<G>, group: u32) -> Result<(), NoMemory>
    requires numbers { (r : ℕ) (router : Speculation G) → slice_get routers.old r ≡ Some router → router.number ≡ r }
    requires past { (r : ℕ) (router : Speculation G) → slice_get routers.old r ≡ Some router →
        IsPast router.bound (key_of group 0) }
    requires few { length routers.old ≤ 64 }
    ensures ok { OnOk result (routers.new ≡ all_ticked group 0 routers.old) }
    ensures err { OnErr result (AreAsBefore routers.old routers.new) }
{
    dn_world::laws::new_keys();
    for number in 0..routers.len() {
        routers.arrive(number, true, Event::tick(group, number as u16))?;
    }
    Ok(())
}

/// The external comes to its router.
fn bring<G: Guest>(
    alloc: Global,
    routers: &mut Roster<G>,
    place: u64,
    coming: &External,
) -> Result<(), NoMemory>
    requires inside { coming.now.router < length routers.old }
    requires own { (s : Speculation G) → slice_get routers.old coming.now.router ≡ Some s → coming.now.router ≡ s.number }
    requires past { (s : Speculation G) → slice_get routers.old coming.now.router ≡ Some s →
        IsPast s.bound (external place coming.now).key }
    ensures ok { (s : Speculation G) → slice_get routers.old coming.now.router ≡ Some s → OnOk result (routers.new ≡
        set routers.old coming.now.router
        (record s { part = with_todo (external place coming.now ∷ []) s.part })) }
    ensures err { OnErr result (routers.new ≡ routers.old) }
{
    let event = Event::external(alloc, place, coming)?;
    routers.arrive(usize::from(coming.router), true, event)
}

/// One external more.
fn accept(accepted: &mut Vec<External>, coming: External) -> Result<(), NoMemory>
    ensures { OnOk result (accepted.new.items ≡ accepted.old.items ++ coming ∷ []) }
{
    accepted.push(coming)?;
    Ok(())
}
