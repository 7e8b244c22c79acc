//! The router's own networks, which are the stub links of its router-LSA (RFC 2328 section 12.4.1).

ghost use Rattle.std.specs.Prelude.{◌≡◌, ◌↔◌, ◌≤◌, [], IsTrue, IfOk, OnOk, length};
ghost use Rattle.dn_net.specs.Networks.{is_network, network_cmp};
ghost use Rattle.ospf_router.specs.Prefixes.{has_room, with_network, without_network};

use dn_net::is_network;
use std::alloc::{AllocError, Global};
use std::collections::BTreeMap;
use std::marker::Model;

/// The greatest number of own networks.
const MOST: usize = 32;

/// The networks: a finite map from address and length to the cost. Contracts see the list of the entries
/// in ascending order.
#[derive(Drop)]
pub struct Prefixes {
    costs: BTreeMap<(u32, u8), u16>,
}

impl Model for Prefixes {
    ghost use Rattle.std.specs.Prelude.{List, ℕ, ◌≤◌, length};

    ghost Value = { List ((ℕ × ℕ) × ℕ) };

    ghost view = { λ p. p.costs.entries };

    ghost invariant = { λ p. length p.costs.entries ≤ 32 };
}

impl Prefixes {
    /// No networks. It takes no memory.
    pub fn new(alloc: Global) -> Prefixes
        ensures { result ≡ [] }
    {
        Prefixes {
            costs: BTreeMap::new(alloc),
        }
    }

    /// Whether the network is there, or one more may come.
    fn has_room(&self, address: u32, len: u8) -> bool
        ensures { result ≡ has_room self.now (address, len) }
    {
        self.costs.contains_key(&(address, len)) || self.costs.len() < MOST
    }

    /// Sets a network to a cost. Nothing is done where it is no network, where the cost is 0, or where it
    /// would be the 33rd.
    #[tactic(auto, unfolding(crate::specs::Prefixes::with_network))]
    pub fn set(&mut self, address: u32, len: u8, cost: u16) -> Result<(), AllocError>
        ensures { OnOk result (self.new ≡ with_network address len cost self.old) }
    {
        if is_network(address, len) && 1 <= cost && self.has_room(address, len) {
            self.costs.insert((address, len), cost)?;
        }
        Ok(())
    }

    /// Takes a network away, if it is there.
    #[tactic(auto, unfolding(crate::specs::Prefixes::without_network))]
    pub fn remove(&mut self, address: u32, len: u8)
        ensures { self.new ≡ without_network address len self.old }
    {
        if is_network(address, len) {
            let _gone = self.costs.remove(&(address, len));
        }
    }

    /// The networks and their costs, in ascending order.
    pub fn entries(&self, alloc: Global) -> Result<Vec<((u32, u8), u16)>, AllocError>
        ensures entries { IfOk result (λ entries. entries.items ≡ self.now) }
        ensures few { length self.now ≤ 32 }
    {
        all_entries(alloc, &self.costs)
    }

    /// Equal networks.
    pub fn fork(&self) -> Result<Prefixes, AllocError>
        ensures { IfOk result (λ made. made ≡ self.now) }
    {
        Ok(Prefixes {
            costs: self.costs.clone()?,
        })
    }

    /// Whether both have the same networks with the same costs.
    pub fn same(&self, other: &Prefixes) -> bool
        ensures { IsTrue result ↔ (self.now ≡ other.now) }
    {
        self.costs == other.costs
    }
}

/// The entries of a map.
fn all_entries(
    alloc: Global,
    costs: &BTreeMap<(u32, u8), u16>,
) -> Result<Vec<((u32, u8), u16)>, AllocError>
    ensures { IfOk result (λ entries. entries.items ≡ costs.now.entries) }
{
    let mut entries = Vec::new(alloc);
    for (network, cost) in costs {
        entries.push((*network, *cost))?;
    }
    Ok(entries)
}
