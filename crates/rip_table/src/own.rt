//! The router's own networks, which RFC 2453 section 3.5 calls directly connected. How they are set and withdrawn is
//! this project's own.

ghost use Rattle.std.specs.Prelude.{◌≡◌, ◌+◌, ◌≤◌, length, OnOk, OnErr, option_map};
ghost use Rattle.rip_wire.specs.Constants.{most_routes};
ghost use Rattle.rip_table.specs.Own.{connected, own_at, own_count, withdrawn};
ghost use Rattle.rip_table.specs.Routes.{held_at, is_full, put};

use crate::Held;
use crate::table::{Routes, is_full, put};
use std::alloc::AllocError;

/// The own network with this metric, after what was held there. None is added to a full table.
fn connected(full: bool, metric: u8, now: u32, held: Option<Held>) -> Option<Held>
    ensures { result ≡ connected full metric now held }
{
    let changed = match held {
        Some(held) => held.via.is_some() || held.metric != metric || held.changed,
        None if full => return None,
        None => true,
    };
    Some(Held {
        tag: 0,
        metric,
        via: None,
        time: now,
        changed,
    })
}

/// Sets an own network to this metric.
pub fn connect(
    routes: &mut Routes,
    network: (u32, u8),
    metric: u8,
    now: u32,
) -> Result<(), AllocError>
    ensures ok { OnOk result (routes.new.entries ≡ put routes.old.entries network
        (connected (is_full routes.old.entries) metric now (held_at routes.old.entries network))) }
    ensures few { length routes.old.entries ≤ most_routes → length routes.new.entries ≤ most_routes }
    ensures own { OnOk result (own_count routes.new.entries + own_at (held_at routes.old.entries network)
        ≡ own_count routes.old.entries + own_at (held_at routes.new.entries network)) }
    ensures err { OnErr result (routes.new.entries ≡ routes.old.entries) }
{
    let held = routes.get(&network).copied();
    let route = connected(is_full(routes), metric, now, held);
    put(routes, network, route)
}

/// Begins the deletion of an own network, if it is there and can be reached (RFC 2453 section 3.8).
pub fn withdraw(routes: &mut Routes, network: (u32, u8), now: u32)
    ensures routes { routes.new.entries
        ≡ put routes.old.entries network (option_map (withdrawn now) (held_at routes.old.entries network)) }
    ensures len { length routes.new.entries ≡ length routes.old.entries }
    ensures own { own_count routes.new.entries + own_at (held_at routes.old.entries network)
        ≡ own_count routes.old.entries + own_at (held_at routes.new.entries network) }
{
    if let Some(held) = routes.get_mut(&network) {
        *held = held.withdrawn(now);
    }
}
