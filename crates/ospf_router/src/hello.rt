//! Hellos (RFC 2328 sections 9.5 and 10.5).

ghost use Rattle.std.specs.Prelude.{◌≡◌, ◌==◌, ◌<◌, IfOk, OnOk, length};
ghost use Rattle.std.specs.List.{list_any};
ghost use Rattle.ospf_router.specs.Hellos.{receive_hello, hello_to, accepts_hello, neighbour_full, one_way_received, two_way_received, replace_neighbour};

use crate::interfaces::Interfaces;
use crate::neighbour::{Heard, Neighbour};
use crate::router::Router;
use ospf_wire::{E_BIT, HELLO_INTERVAL, Hello, Ids, OWN_OPTIONS, ROUTER_DEAD_INTERVAL};
use std::alloc::{AllocError, Global};

/// The Hello that goes out if this is the neighbour (RFC 2328 section 9.5).
pub fn hello_to(alloc: Global, neighbour: Neighbour) -> Result<Hello, AllocError>
    ensures { IfOk result (λ hello. hello ≡ hello_to neighbour) }
{
    Ok(Hello {
        mask: 0,
        interval: HELLO_INTERVAL,
        options: OWN_OPTIONS,
        priority: 0,
        dead: u32::from(ROUTER_DEAD_INTERVAL),
        dr: 0,
        bdr: 0,
        neighbours: Ids::from_vec(neighbour.ids(alloc)?),
    })
}

/// Takes another neighbour than this id Down, which is this project's own.
#[tactic(auto, unfolding(crate::specs::Hellos::replace_neighbour))]
fn replace_neighbour(interfaces: &mut Interfaces, port: u8, from: u32)
    requires { port < length interfaces.old.ports }
    ensures state { interfaces.new ≡ replace_neighbour port from interfaces.old }
    ensures count { length interfaces.new.ports ≡ length interfaces.old.ports }
{
    if interfaces.neighbour(port).is_other(from) {
        interfaces.neighbour_down(port);
    }
}

/// Whether the id stands in the list.
fn lists_router(ids: &[u32], id: u32) -> bool
    ensures { result ≡ list_any (λ x. x == id) ids.now }
{
    ids.contains(&id)
}

impl Router {
    /// Whether a Hello from this id counts (RFC 2328 section 10.5; this profile: not from the id 0 or the
    /// router's own).
    fn accepts_hello(&self, from: u32, hello: &Hello) -> bool
        ensures { result ≡ accepts_hello self.now from hello.now }
    {
        // This profile: no id 0, and not the router's own. RFC 2328 section 10.5: the intervals and the E bit
        // agree. The mask isn't looked at on a point-to-point link.
        from != 0
            && from != self.id()
            && hello.interval == HELLO_INTERVAL
            && hello.dead == u32::from(ROUTER_DEAD_INTERVAL)
            && (hello.options >> E_BIT) & 1 == 1
    }

    /// The neighbour at a port lists this router (RFC 2328 section 10.3, 2-WayReceived; this profile: it
    /// is Full at once, and the whole database is sent to it in place of sections 10.6 to 10.9).
    #[tactic(auto, unfolding(crate::specs::Hellos::two_way_received))]
    fn two_way_received(&mut self, alloc: Global, port: u8, from: u32) -> Result<(), AllocError>
        requires { port < length self.old.interfaces.ports }
        ensures { OnOk result (self.new ≡ two_way_received port from self.old) }
    {
        let was_full = self.interfaces.neighbour(port).is_full();
        let full = Neighbour::Full(Heard::at(from, self.tick));
        self.interfaces.set_neighbour(port, full);
        // RFC 2328 section 10.3: 2-WayReceived changes nothing in the states from 2-Way on.
        if was_full {
            return Ok(());
        }
        let keys = self.db.keys()?;
        self.send_lsas(alloc, port, &keys)
    }

    /// The neighbour at a port doesn't list this router (RFC 2328 section 10.3, 1-WayReceived).
    #[tactic(auto, unfolding(crate::specs::Hellos::one_way_received))]
    fn one_way_received(&mut self, port: u8, from: u32)
        requires { port < length self.old.interfaces.ports }
        ensures { self.new ≡ one_way_received port from self.old }
    {
        let init = Neighbour::Init(Heard::at(from, self.tick));
        self.interfaces.set_neighbour(port, init);
        self.interfaces.empty(port);
    }

    /// A Hello of area 0 that comes on a port from this router id (RFC 2328 section 10.5).
    #[tactic(auto, unfolding(crate::specs::Hellos::receive_hello))]
    pub fn receive_hello(
        &mut self,
        alloc: Global,
        port: u8,
        from: u32,
        hello: &Hello,
    ) -> Result<(), AllocError>
        requires { port < length self.old.interfaces.ports }
        ensures { OnOk result (self.new ≡ receive_hello port from hello.now self.old) }
    {
        // RFC 2328 section 10.5: a Hello that doesn't agree is dropped.
        if !self.accepts_hello(from, hello) {
            return Ok(());
        }
        replace_neighbour(&mut self.interfaces, port, from);
        // RFC 2328 section 10.5: the router is in the list, 2-WayReceived; else 1-WayReceived.
        if lists_router(hello.neighbours.as_slice(), self.id()) {
            return self.two_way_received(alloc, port, from);
        }
        self.one_way_received(port, from);
        Ok(())
    }
}
