//! The table.

ghost use Rattle.std.specs.Prelude.{◌≡◌, ◌↔◌, ◌≤◌, ◌≢◌, ◌+◌, [], IsTrue, IfOk, OnOk, OnErr, IfSome, Some, None};
ghost use Rattle.std.specs.Prelude.{is_some, length, option_copied};
ghost use Rattle.std.specs.Map.{keys_of};
ghost use Rattle.std.specs.List.Sorted.{IsStrictlySortedBy};
ghost use Rattle.dn_net.specs.Networks.{Network, network_cmp};
ghost use Rattle.rip_wire.specs.Constants.{most_routes};
ghost use Rattle.rip_table.specs.Held.{settled};
ghost use Rattle.rip_table.specs.Own.{own_at, own_count, with_own, without_own};
ghost use Rattle.rip_table.specs.Response.{entry_taken, metric_with_cost, route_after};
ghost use Rattle.rip_table.specs.Routes.{all_changed, any_changed, held_at, is_full, put};
ghost use Rattle.rip_table.specs.Timers.{port_lost, ticked};
ghost use Rattle.rip_table.specs.Updates.{update_entries};
ghost use Rattle.rip_table.specs.Validation.{destination_of};

use crate::Held;
use crate::own::{connect, withdraw};
use crate::response::take_entry;
use crate::timers::{collect_garbage, lose_all_via, time_out};
use crate::updates::update_entries;
use crate::validation::destination_of;
use rip_wire::{Entry, MOST_ROUTES};
use std::alloc::{AllocError, Global};
use std::collections::BTreeMap;
use std::marker::Model;

/// What is held for each network: an address and a length.
pub type Routes = BTreeMap<(u32, u8), Held>;

/// The table: a finite map from a network, its address and the length of its mask, to the route that is
/// held. Contracts see it as the list of its entries in ascending order of address and length. Moments
/// are ticks, one a second; if `now` is before the tick that a route keeps, no tick has passed.
#[derive(Drop)]
pub struct Table {
    alloc: Global,
    routes: Routes,
    /// How many networks of the router's own can be reached.
    own: u64,
}

impl Model for Table {
    ghost use Rattle.std.specs.Prelude.{List, ℕ, ◌≡◌, ◌≤◌, length};
    ghost use Rattle.rip_wire.specs.Constants.{most_routes};
    ghost use Rattle.rip_table.specs.declared.held.Held.{Held};
    ghost use Rattle.rip_table.specs.Own.{own_count};

    ghost Value = { List ((ℕ × ℕ) × Held) };

    ghost view = { λ t. t.routes.entries };

    ghost invariant = { λ t. (length t.routes.entries ≤ most_routes) × (t.own ≡ own_count t.routes.entries) };
}

impl Table {
    /// No routes. It takes no memory.
    pub fn new(alloc: Global) -> Table
        ensures { result ≡ [] }
    {
        Table {
            alloc,
            routes: BTreeMap::new(alloc),
            own: 0,
        }
    }

    /// The route to this network. `None` comes exactly if there is none.
    pub fn get(&self, address: u32, len: u8) -> Option<&Held>
        ensures { option_copied result ≡ held_at self.now (address, len) }
    {
        self.routes.get(&(address, len))
    }

    /// How many routes there are.
    pub fn len(&self) -> u64
        ensures count { result ≡ length self.now }
        ensures few { length self.now ≤ most_routes }
        ensures ascending { IsStrictlySortedBy network_cmp (keys_of self.now) }
    {
        self.routes.len() as u64
    }

    /// Whether there is no route.
    pub fn is_empty(&self) -> bool
        ensures { IsTrue result ↔ (self.now ≡ []) }
    {
        self.routes.is_empty()
    }

    /// The networks, in ascending order of address and length.
    pub fn keys(&self) -> Result<Vec<(u32, u8)>, AllocError>
        ensures keys { IfOk result (λ keys. keys.items ≡ keys_of self.now) }
        ensures ascending { IsStrictlySortedBy network_cmp (keys_of self.now) }
    {
        all_networks(self.alloc, &self.routes)
    }

    /// The networks and their routes, in ascending order of address and length.
    pub fn entries(&self) -> Result<Vec<((u32, u8), Held)>, AllocError>
        ensures { IfOk result (λ entries. entries.items ≡ self.now) }
    {
        all_entries(self.alloc, &self.routes)
    }

    /// How many networks of the router's own can be reached.
    pub fn own_count(&self) -> u64
        ensures { result ≡ own_count self.now }
    {
        self.own
    }

    /// An equal table.
    pub fn fork(&self, alloc: Global) -> Result<Table, AllocError>
        ensures { IfOk result (λ made. made ≡ self.now) }
    {
        Ok(Table {
            alloc,
            routes: self.routes.clone()?,
            own: self.own,
        })
    }

    /// Whether both hold the same routes.
    pub fn same(&self, other: &Table) -> bool
        ensures { IsTrue result ↔ (self.now ≡ other.now) }
    {
        self.routes == other.routes
    }

    /// Takes an entry of a response that came on this port, whose cost is 1 to 16 (RFC 2453 section 3.9.2).
    /// An entry that isn't valid changes nothing. Of the others the route to the entry's network
    /// alone changes: one that is new or shorter is taken, one of the same port is followed. The table
    /// takes memory only for a network that it adds; after `NoMemory` it is as before.
    pub fn response(
        &mut self,
        port: u8,
        cost: u8,
        entry: &Entry,
        now: u32,
    ) -> Result<(), AllocError>
        ensures ok { OnOk result (self.new ≡ entry_taken port cost entry.now now self.old) }
        ensures route { OnOk result (IfSome (destination_of entry.now) (λ n. held_at self.new n
            ≡ route_after (is_full self.old) port entry.now.tag (metric_with_cost cost entry.now) now
            (held_at self.old n))) }
        ensures others { OnOk result ((n : Network)
            → destination_of entry.now ≢ Some n → held_at self.new n ≡ held_at self.old n) }
        ensures err { OnErr result (self.new ≡ self.old) }
    {
        let Some(network) = destination_of(entry) else {
            return Ok(());
        };
        take_entry(&mut self.routes, network, port, cost, entry, now)
    }

    /// Sets a network of the router's own to this metric, which is 1 to 16. It is marked as changed, except that the
    /// mark stays if it was own with that metric. After `NoMemory` the table is as before. This is the project's own.
    pub fn connect(&mut self, address: u32, len: u8, metric: u8, now: u32) -> Result<(), AllocError>
        ensures ok { OnOk result (self.new ≡ with_own self.old address len metric now) }
        ensures err { OnErr result (self.new ≡ self.old) }
    {
        let network = (address, len);
        let before = own_at(&self.routes, network);
        connect(&mut self.routes, network, metric, now)?;
        self.own = self.own - before + own_at(&self.routes, network);
        Ok(())
    }

    /// Begins the deletion of a network of the router's own (RFC 2453 section 3.8). Nothing happens if it isn't own,
    /// can't be reached, or isn't there.
    pub fn lose(&mut self, address: u32, len: u8, now: u32)
        ensures { self.new ≡ without_own self.old address len now }
    {
        let network = (address, len);
        let before = own_at(&self.routes, network);
        withdraw(&mut self.routes, network, now);
        self.own = self.own - before + own_at(&self.routes, network);
    }

    /// Begins the deletion of each route by this port that can be reached. RFC 2453 names no such event: this is the
    /// profile's own.
    pub fn lose_port(&mut self, port: u8, now: u32)
        ensures { self.new ≡ all_changed (port_lost port now) self.old }
    {
        lose_all_via(&mut self.routes, port, now);
    }

    /// Begins the deletion of each route by a port that can be reached and was last heard 180 or more ticks
    /// ago, and removes each that can't be reached and whose deletion began 120 or more ticks ago (RFC 2453
    /// section 3.8).
    pub fn tick(&mut self, now: u32)
        ensures { self.new ≡ ticked now self.old }
    {
        time_out(&mut self.routes, now);
        collect_garbage(&mut self.routes, now);
    }

    /// Whether some route changed since the last update (RFC 2453 section 3.10.1).
    pub fn changed(&self) -> bool
        ensures { result ≡ any_changed self.now }
    {
        any_changed(&self.routes)
    }

    /// Takes the mark of a change from each route (RFC 2453 section 3.10.1).
    pub fn settle(&mut self)
        ensures { self.new ≡ all_changed settled self.old }
    {
        settle_all(&mut self.routes);
    }

    /// The entries of an update, in ascending order of address and length: of all routes, or of those alone
    /// that changed. `to` is the port to which the update goes: the metric of each route by this port is 16
    /// (poisoned reverse, RFC 2453 section 3.4.3).
    pub fn reply(&self, to: Option<u8>, only_changed: bool) -> Result<Vec<Entry>, AllocError>
        ensures { IfOk result (λ entries. entries.items ≡ update_entries to only_changed self.now) }
    {
        update_entries(self.alloc, &self.routes, to, only_changed)
    }
}

/// Whether there are so many routes that none is added.
pub fn is_full(routes: &Routes) -> bool
    ensures full { result ≡ is_full routes.now.entries }
    ensures ascending { IsStrictlySortedBy network_cmp (keys_of routes.now.entries) }
{
    MOST_ROUTES <= routes.len()
}

/// Holds this route in the place of the one before. If there is none, nothing changes.
pub fn put(routes: &mut Routes, network: (u32, u8), route: Option<Held>) -> Result<(), AllocError>
    ensures ok { OnOk result (routes.new.entries ≡ put routes.old.entries network route) }
    ensures len { length routes.new.entries ≤ length routes.old.entries + 1 }
    ensures known { IsTrue (is_some (held_at routes.old.entries network))
        → length routes.new.entries ≡ length routes.old.entries }
    ensures nothing { route ≡ None → length routes.new.entries ≡ length routes.old.entries }
    ensures err { OnErr result (routes.new.entries ≡ routes.old.entries) }
{
    if let Some(held) = route {
        routes.insert(network, held)?;
    }
    Ok(())
}

/// The networks of the routes, in ascending order.
fn all_networks(alloc: Global, routes: &Routes) -> Result<Vec<(u32, u8)>, AllocError>
    ensures keys { IfOk result (λ keys. keys.items ≡ keys_of routes.now.entries) }
    ensures ascending { IsStrictlySortedBy network_cmp (keys_of routes.now.entries) }
{
    routes.keys().copied().collect(alloc)
}

/// The networks and their routes, in ascending order.
fn all_entries(alloc: Global, routes: &Routes) -> Result<Vec<((u32, u8), Held)>, AllocError>
    ensures { IfOk result (λ entries. entries.items ≡ routes.now.entries) }
{
    let mut entries = Vec::with_capacity(alloc, routes.len())?;
    for (network, held) in routes {
        entries.push((*network, *held))?;
    }
    Ok(entries)
}

/// 1 if a network of the router's own is held that can be reached, and 0 otherwise.
#[tactic(auto, using(crate::proofs::OwnLaws::own_few))]
fn own_at(routes: &Routes, network: (u32, u8)) -> u64
    ensures number { result ≡ own_at (held_at routes.now.entries network) }
    ensures among { result ≤ own_count routes.now.entries }
    ensures few { own_count routes.now.entries ≤ length routes.now.entries }
{
    match routes.get(&network) {
        Some(held) if held.is_current() => 1,
        _ => 0,
    }
}

/// Whether some route is marked as changed.
fn any_changed(routes: &Routes) -> bool
    ensures { result ≡ any_changed routes.now.entries }
{
    routes.values().any(|held| held.changed)
}

/// Takes the mark of a change from each route.
fn settle_all(routes: &mut Routes)
    ensures settled { routes.new.entries ≡ all_changed settled routes.old.entries }
    ensures own { own_count routes.new.entries ≡ own_count routes.old.entries }
{
    routes.retain(|_network, held| {
        held.settle();
        true
    });
}
