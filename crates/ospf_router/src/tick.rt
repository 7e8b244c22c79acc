//! A tick (RFC 2328 sections 9.5, 10.2, 13.6 and 14).

ghost use Rattle.std.specs.Prelude.{◌≡◌, ◌<◌, ◌≤◌, OnOk, length, fold};
ghost use Rattle.ospf_lsdb.specs.Database.{aged, reaching_max_age};
ghost use Rattle.ospf_router.specs.Ticks.{age_lsas, send_hellos, send_hello, ports_of, retransmit, retransmit_on, ticked, run_timers, check_dead_neighbours, check_dead_neighbour};

use crate::hello::hello_to;
use crate::interfaces::Interfaces;
use crate::router::Router;
use dn_guest::is_up;
use ospf_wire::{Body, HELLO_INTERVAL};
use std::alloc::{AllocError, Global};

/// Takes the neighbour at a port Down, if it was last heard too long ago (RFC 2328 section 10.3,
/// InactivityTimer).
fn check_dead_neighbour(interfaces: &mut Interfaces, port: u8, now: u16)
    requires { port < length interfaces.old.ports }
    ensures state { interfaces.new ≡ check_dead_neighbour now interfaces.old port }
    ensures count { length interfaces.new.ports ≡ length interfaces.old.ports }
{
    if interfaces.neighbour(port).is_dead(now) {
        interfaces.neighbour_down(port);
    }
}

/// Takes each neighbour Down that was last heard too long ago (RFC 2328 section 10.3, InactivityTimer).
fn check_dead_neighbours(interfaces: &mut Interfaces, now: u16)
    ensures { interfaces.new ≡ fold (check_dead_neighbour now) interfaces.old (ports_of interfaces.old) }
{
    for port in 0..interfaces.count() {
        check_dead_neighbour(interfaces, port, now);
    }
}

impl Router {
    /// Takes each neighbour Down that was last heard RouterDeadInterval or more ticks ago (RFC 2328
    /// section 10.3, InactivityTimer).
    #[tactic(auto, unfolding(crate::specs::Ticks::check_dead_neighbours))]
    fn check_dead_neighbours(&mut self)
        ensures { self.new ≡ check_dead_neighbours self.old }
    {
        check_dead_neighbours(&mut self.interfaces, self.tick);
    }

    /// Each LSA that reaches MaxAge is set to it and flooded on all ports (RFC 2328 section 14).
    #[tactic(auto, unfolding(crate::specs::Ticks::age_lsas))]
    fn age_lsas(&mut self, alloc: Global, full: u16) -> Result<(), AllocError>
        ensures { OnOk result (self.new ≡ age_lsas full self.old) }
    {
        let now = self.now();
        let keys = self.db.tick(now)?;
        self.flood_each(alloc, full, &keys)
    }

    /// A Hello on a port, if it is up (RFC 2328 section 9.5).
    #[tactic(auto, unfolding(crate::specs::Ticks::send_hello))]
    fn send_hello(&mut self, alloc: Global, ports: u16, port: u8) -> Result<(), AllocError>
        requires { port < length self.old.interfaces.ports }
        ensures state { OnOk result (self.new ≡ send_hello ports self.old port) }
        ensures count { OnOk result (length self.new.interfaces.ports ≡ length self.old.interfaces.ports) }
    {
        if !is_up(ports, port) {
            return Ok(());
        }
        let hello = hello_to(alloc, self.interfaces.neighbour(port))?;
        self.send_packet(alloc, port, Body::Hello(hello))
    }

    /// At every tick that HelloInterval divides a Hello on each up port (RFC 2328 section 9.5; this
    /// profile: all routers at the same ticks).
    #[tactic(auto, unfolding(crate::specs::Ticks::send_hellos))]
    fn send_hellos(&mut self, alloc: Global, ports: u16) -> Result<(), AllocError>
        ensures { OnOk result (self.new ≡ send_hellos ports self.old) }
    {
        // RFC 2328 section 9.5: every HelloInterval seconds.
        if self.tick % HELLO_INTERVAL != 0 {
            return Ok(());
        }
        for port in 0..self.interfaces.count() {
            self.send_hello(alloc, ports, port)?;
        }
        Ok(())
    }

    /// Sends again what was last sent RxmtInterval or more ticks ago on a port, if it is one of the mask
    /// (RFC 2328 section 13.6).
    #[tactic(auto, unfolding(crate::specs::Ticks::retransmit_on))]
    fn retransmit_on(&mut self, alloc: Global, full: u16, port: u8) -> Result<(), AllocError>
        requires { port < length self.old.interfaces.ports }
        ensures state { OnOk result (self.new ≡ retransmit_on full self.old port) }
        ensures count { OnOk result (length self.new.interfaces.ports ≡ length self.old.interfaces.ports) }
    {
        if !is_up(full, port) {
            return Ok(());
        }
        let keys = self.interfaces.due(port, self.now())?;
        self.send_lsas(alloc, port, &keys)
    }

    /// Sends again what was last sent RxmtInterval or more ticks ago, on each port of the mask (RFC 2328
    /// section 13.6).
    #[tactic(auto, unfolding(crate::specs::Ticks::retransmit))]
    fn retransmit(&mut self, alloc: Global, full: u16) -> Result<(), AllocError>
        ensures { OnOk result (self.new ≡ retransmit full self.old) }
    {
        for port in 0..self.interfaces.count() {
            self.retransmit_on(alloc, full, port)?;
        }
        Ok(())
    }

    /// Aging, Hellos and retransmission (RFC 2328 sections 14, 9.5 and 13.6; their order is this
    /// project's own).
    #[tactic(auto, unfolding(crate::specs::Ticks::run_timers))]
    fn run_timers(&mut self, alloc: Global, ports: u16) -> Result<(), AllocError>
        ensures { OnOk result (self.new ≡ run_timers ports self.old) }
    {
        let full = self.interfaces.full_mask(ports);
        self.age_lsas(alloc, full)?;
        self.send_hellos(alloc, ports)?;
        self.retransmit(alloc, full)
    }

    /// The tick of this group.
    #[tactic(auto, unfolding(crate::specs::Ticks::ticked))]
    pub fn tick(&mut self, alloc: Global, ports: u16, group: u16) -> Result<(), AllocError>
        ensures { OnOk result (self.new ≡ ticked ports group self.old) }
    {
        self.tick = group;
        self.check_dead_neighbours();
        self.run_timers(alloc, ports)
    }
}
