//! What a router keeps at its ports: the cost, the neighbour, and the link state retransmission list
//! (RFC 2328 sections 9 and 10).

ghost use Rattle.std.specs.Prelude.{◌≡◌, ◌↔◌, ◌+◌, ◌≤◌, ◌<◌, IsTrue, IfOk, OnOk, length, map};
ghost use Rattle.ospf_flood.specs.Retransmission.{due, list_of, without_lsa_anywhere};
ghost use Rattle.ospf_flood.specs.Flooding.{flooded, state};
ghost use Rattle.ospf_flood.specs.Verdicts.{verdict_of};
ghost use Rattle.ospf_flood.specs.Receiving.{received, step_of};
ghost use Rattle.ospf_router.specs.Interfaces.{emptied, full_from, full_mask, has_port, is_listed, listed, neighbour_down, neighbour_at, opening_port, opening_ports, port_at, unlisted, with_neighbour};

use crate::neighbour::Neighbour;
use dn_guest::is_up;
use ospf_flood::{Lists, Step, flood, receive, with_port};
use ospf_lsdb::{LsaKey, Lsdb};
use ospf_wire::Lsa;
use std::alloc::{AllocError, Global};
use std::marker::Model;

/// A port: its cost, and the neighbour there.
#[derive(Clone, Copy, Debug, PartialEq, Eq)]
pub struct Port {
    pub cost: u16,
    pub neighbour: Neighbour,
}

/// The ports, at most 16, and their retransmission lists.
#[derive(Drop)]
pub struct Interfaces {
    ports: Vec<Port>,
    lists: Lists,
}

impl Model for Interfaces {
    ghost use Rattle.std.specs.Prelude.{◌≡◌, ◌≤◌, length};
    ghost use Rattle.ospf_router.specs.Interfaces.{AtPorts, at_ports};

    ghost Value = { AtPorts };

    ghost view = { λ i. at_ports i.ports.items i.lists };

    ghost invariant = { λ i. (length i.ports.items ≤ 16) × (length i.lists ≡ length i.ports.items) };
}

/// Ports of these costs, each with no neighbour.
fn opening_ports(alloc: Global, costs: &[u16]) -> Result<Vec<Port>, AllocError>
    ensures { IfOk result (λ ports. ports.items ≡ map opening_port costs.now) }
{
    let mut ports = Vec::new(alloc);
    for cost in costs {
        ports.push(Port {
            cost: *cost,
            neighbour: Neighbour::Down,
        })?;
    }
    Ok(ports)
}

/// The mask of the up ports with a Full neighbour. The first of these ports has this number.
fn full_from(port: u8, up: u16, ports: &[Port]) -> u16
    requires { port + length ports.now ≤ 255 }
    ensures { result ≡ full_from port up ports.now }
{
    let Some((first, rest)) = ports.split_first() else {
        return 0;
    };
    let mask = full_from(port + 1, up, rest);
    if is_up(up, port) && first.neighbour.is_full() {
        with_port(mask, port)
    } else {
        mask
    }
}

/// Whether both are the same ports.
fn same_ports(ports: &[Port], others: &[Port]) -> bool
    ensures { IsTrue result ↔ (ports.now ≡ others.now) }
{
    ports == others
}

impl Interfaces {
    /// Ports of these costs, each with no neighbour and an empty list.
    pub fn new(alloc: Global, costs: &[u16]) -> Result<Interfaces, AllocError>
        requires { length costs.now ≤ 16 }
        ensures { IfOk result (λ made. made ≡ opening_ports costs.now) }
    {
        Ok(Interfaces {
            ports: opening_ports(alloc, costs)?,
            lists: Lists::new(alloc, costs.len() as u8)?,
        })
    }

    /// How many ports there are.
    pub fn count(&self) -> u8
        ensures count { result ≡ length self.now.ports }
        ensures few { result ≤ 16 }
        ensures lists { length self.now.lists ≡ length self.now.ports }
    {
        self.ports.len() as u8
    }

    /// Whether the router has this port.
    pub fn has_port(&self, port: u8) -> bool
        ensures { result ≡ has_port self.now port }
    {
        port < self.count()
    }

    /// The ports.
    pub fn ports(&self) -> &[Port]
        ensures ports { result.now ≡ self.now.ports }
        ensures few { length self.now.ports ≤ 16 }
    {
        self.ports.as_slice()
    }

    /// A port.
    pub fn port(&self, port: u8) -> Port
        requires { port < length self.now.ports }
        ensures { result ≡ port_at self.now port }
    {
        self.ports[usize::from(port)]
    }

    /// The neighbour at a port.
    pub fn neighbour(&self, port: u8) -> Neighbour
        requires { port < length self.now.ports }
        ensures { result ≡ neighbour_at self.now port }
    {
        self.ports[usize::from(port)].neighbour
    }

    /// Sets the neighbour at a port.
    #[tactic(auto, unfolding(crate::specs::Interfaces::with_neighbour))]
    pub fn set_neighbour(&mut self, port: u8, neighbour: Neighbour)
        requires { port < length self.old.ports }
        ensures state { self.new ≡ with_neighbour port neighbour self.old }
        ensures count { length self.new.ports ≡ length self.old.ports }
    {
        let cost = self.ports[usize::from(port)].cost;
        self.ports[usize::from(port)] = Port { cost, neighbour };
    }

    /// The mask of the up ports with a Full neighbour.
    #[tactic(auto, unfolding(crate::specs::Interfaces::full_mask))]
    pub fn full_mask(&self, up: u16) -> u16
        ensures { result ≡ full_mask up self.now }
    {
        full_from(0, up, self.ports.as_slice())
    }

    /// Empties a port's list.
    #[tactic(auto, unfolding(crate::specs::Interfaces::emptied))]
    pub fn empty(&mut self, port: u8)
        requires { port < length self.old.ports }
        ensures state { self.new ≡ emptied port self.old }
        ensures count { length self.new.ports ≡ length self.old.ports }
    {
        self.lists.empty(port);
    }

    /// The neighbour at a port goes Down, and its list is emptied (RFC 2328 section 10.3: LLDown and
    /// InactivityTimer).
    #[tactic(auto, unfolding(crate::specs::Interfaces::neighbour_down))]
    pub fn neighbour_down(&mut self, port: u8)
        requires { port < length self.old.ports }
        ensures state { self.new ≡ neighbour_down port self.old }
        ensures count { length self.new.ports ≡ length self.old.ports }
    {
        self.set_neighbour(port, Neighbour::Down);
        self.empty(port);
    }

    /// Puts an LSA on a port's list, last sent at this tick.
    #[tactic(auto, unfolding(crate::specs::Interfaces::listed))]
    pub fn list(&mut self, port: u8, key: LsaKey, tick: u32) -> Result<(), AllocError>
        requires { port < length self.old.ports }
        ensures state { OnOk result (self.new ≡ listed port key tick self.old) }
        ensures count { OnOk result (length self.new.ports ≡ length self.old.ports) }
    {
        self.lists.put(port, key, tick)
    }

    /// Takes an LSA off a port's list.
    #[tactic(auto, unfolding(crate::specs::Interfaces::unlisted))]
    pub fn unlist(&mut self, port: u8, key: &LsaKey)
        requires { port < length self.old.ports }
        ensures state { self.new ≡ unlisted port key.now self.old }
        ensures count { length self.new.ports ≡ length self.old.ports }
    {
        self.lists.take(port, key);
    }

    /// Takes an LSA off all lists.
    pub fn unlist_all(&mut self, key: &LsaKey)
        ensures { self.new ≡ record self.old { lists = without_lsa_anywhere key.now self.old.lists } }
    {
        self.lists.take_all(key);
    }

    /// Whether an LSA stands on some list.
    #[tactic(auto, unfolding(crate::specs::Interfaces::is_listed))]
    pub fn is_listed(&self, key: &LsaKey) -> bool
        ensures { result ≡ is_listed key.now self.now }
    {
        for port in 0..self.count() {
            if self.lists.sent_at(port, key).is_some() {
                return true;
            }
        }
        false
    }

    /// The LSAs that are to be sent again on a port, in ascending order (RFC 2328 section 13.6).
    pub fn due(&self, port: u8, now: u32) -> Result<Vec<LsaKey>, AllocError>
        requires { port < length self.now.ports }
        ensures { IfOk result (λ keys. keys.items ≡ due now (list_of self.now.lists port)) }
    {
        self.lists.due(port, now)
    }

    /// The LSAs on a port's list with the ticks at which they were last sent there, in ascending order.
    pub fn listed(&self, port: u8) -> Result<Vec<(LsaKey, u32)>, AllocError>
        requires { port < length self.now.ports }
        ensures { IfOk result (λ entries. entries.items ≡ list_of self.now.lists port) }
    {
        self.lists.entries(port)
    }

    /// Floods an LSA of the database on the ports of a mask: `ospf_flood::flood` on these lists.
    pub fn flood(
        &mut self,
        db: &mut Lsdb,
        mask: u16,
        key: LsaKey,
        now: u32,
    ) -> Result<(), AllocError>
        ensures database { OnOk result (db.new ≡ (flooded mask key now (state db.old self.old.lists)).db) }
        ensures lists { OnOk result (self.new
            ≡ record self.old { lists = (flooded mask key now (state db.old self.old.lists)).lists }) }
    {
        flood(db, &mut self.lists, mask, key, now)
    }

    /// Receives an LSA that came on a port: `ospf_flood::receive` on these lists.
    pub fn receive(
        &mut self,
        db: &mut Lsdb,
        full: u16,
        from: u8,
        lsa: &Lsa,
        own: u32,
        now: u32,
    ) -> Result<Step, AllocError>
        requires port { from < length self.old.ports }
        requires length { lsa.now.head.length ≡ 20 + length lsa.now.body }
        ensures step { IfOk result (λ step. step
            ≡ step_of (verdict_of db.old (list_of self.old.lists from) lsa.now now) lsa.now own) }
        ensures database { OnOk result (db.new
            ≡ (received (state db.old self.old.lists) full from lsa.now own now).db) }
        ensures lists { OnOk result (self.new
            ≡ record self.old { lists = (received (state db.old self.old.lists) full from lsa.now own now).lists }) }
    {
        receive(db, &mut self.lists, full, from, lsa, own, now)
    }

    /// Equal ports and lists.
    pub fn fork(&self, alloc: Global) -> Result<Interfaces, AllocError>
        ensures { IfOk result (λ made. made ≡ self.now) }
    {
        Ok(Interfaces {
            ports: self.ports.clone()?,
            lists: self.lists.fork(alloc)?,
        })
    }

    /// Whether both have the same ports and lists.
    pub fn same(&self, other: &Interfaces) -> bool
        ensures { IsTrue result ↔ (self.now ≡ other.now) }
    {
        same_ports(self.ports.as_slice(), other.ports.as_slice()) && self.lists.same(&other.lists)
    }
}
