//! The entries of an update (RFC 2453 sections 3.4.3, 3.10.2 and 4), with split horizon.

ghost use Rattle.std.specs.Prelude.{◌≡◌, IfOk};
ghost use Rattle.rip_table.specs.Updates.{split_horizon, update_entries, update_entry};

use crate::Held;
use crate::table::Routes;
use dn_net::mask_of;
use rip_wire::{Entry, INFINITY, IP_FAMILY};
use std::alloc::{AllocError, Global};

/// The metric with which a route is told: infinity towards the port by which it goes, which is split horizon
/// with poisoned reverse (RFC 2453 sections 3.4.3 and 3.10.2). Towards no port it is the route's own.
fn split_horizon(to: Option<u8>, held: &Held) -> u8
    ensures { result ≡ split_horizon to held.now }
{
    match to {
        // RFC 2453 section 3.4.3: poisoned reverse
        Some(port) if held.is_via(port) => INFINITY,
        _ => held.metric,
    }
}

/// The entry of a route in an update to this port (RFC 2453 section 4). This profile writes no next hop
/// (section 4.4).
fn update_entry(to: Option<u8>, network: (u32, u8), held: &Held) -> Entry
    ensures { result ≡ update_entry to (network, held.now) }
{
    Entry {
        family: IP_FAMILY,
        tag: held.tag,
        address: network.0,
        mask: mask_of(network.1),
        hop: 0,
        metric: u32::from(split_horizon(to, held)),
    }
}

/// The entries of an update to this port, in order: of all routes in a regular update (RFC 2453 section 3.10),
/// or of those alone that changed in a triggered one (section 3.10.1).
pub fn update_entries(
    alloc: Global,
    routes: &Routes,
    to: Option<u8>,
    only_changed: bool,
) -> Result<Vec<Entry>, AllocError>
    ensures { IfOk result (λ entries. entries.items ≡ update_entries to only_changed routes.now.entries) }
{
    let mut entries = Vec::new(alloc);
    for (network, held) in routes {
        if !only_changed || held.changed {
            entries.push(update_entry(to, *network, held))?;
        }
    }
    Ok(entries)
}
