//! What an entry of a response does to the table (RFC 2453 section 3.9.2).

ghost use Rattle.std.specs.Prelude.{◌≡◌, ◌≤◌, length, OnOk, OnErr};
ghost use Rattle.rip_wire.specs.Constants.{most_routes};
ghost use Rattle.rip_table.specs.Own.{own_count};
ghost use Rattle.rip_table.specs.Response.{existing_after, metric_with_cost, route_after};
ghost use Rattle.rip_table.specs.Routes.{held_at, is_full, put};

use crate::Held;
use crate::table::{Routes, is_full, put};
use rip_wire::{Entry, INFINITY};
use std::alloc::AllocError;

/// The metric of the entry's route by a port of this cost: MIN (metric + cost, infinity) of RFC 2453 section 3.9.2.
fn metric_with_cost(cost: u8, entry: &Entry) -> u8
    ensures { result ≡ metric_with_cost cost entry.now }
{
    let metric = u64::from(entry.metric) + u64::from(cost);
    metric.min(u64::from(INFINITY)) as u8
}

/// The route that is held after this metric and tag were told on a port, if this one was held before (RFC 2453
/// section 3.9.2, the steps for an existing route). This profile has no rule for an equal metric after half of
/// the timeout.
fn existing_after(port: u8, tag: u16, metric: u8, now: u32, held: Held) -> Held
    ensures { result ≡ existing_after port tag metric now held }
{
    let told = Held::learnt(port, tag, metric, now);
    // RFC 2453 section 3.9.2: nothing replaces a directly connected network
    if held.is_current() {
        return held;
    }
    // from another router: adopted if the new metric is lower
    if !held.is_via(port) {
        return if metric < held.metric { told } else { held };
    }
    // from the same router, the metric is the same: the timeout begins anew, but not that of a deletion
    if metric == held.metric {
        return if metric < INFINITY {
            held.refreshed(now)
        } else {
            held
        };
    }
    // from the same router, another metric: adopted; infinity begins the deletion (section 3.8)
    if metric < INFINITY {
        told
    } else {
        held.lost(now)
    }
}

/// The route that is held after it, if perhaps none was held before (RFC 2453 section 3.9.2). None is added to a
/// full table, which is this project's own.
fn route_after(
    full: bool,
    port: u8,
    tag: u16,
    metric: u8,
    now: u32,
    held: Option<Held>,
) -> Option<Held>
    ensures { result ≡ route_after full port tag metric now held }
{
    match held {
        Some(held) => Some(existing_after(port, tag, metric, now, held)),
        // RFC 2453 section 3.9.2: no such route, and the metric isn't infinity
        None if metric < INFINITY && !full => Some(Held::learnt(port, tag, metric, now)),
        None => None,
    }
}

/// Takes a valid entry, which tells of this network (RFC 2453 section 3.9.2). After `NoMemory` the routes are as
/// before.
pub fn take_entry(
    routes: &mut Routes,
    network: (u32, u8),
    port: u8,
    cost: u8,
    entry: &Entry,
    now: u32,
) -> Result<(), AllocError>
    ensures ok { OnOk result (routes.new.entries ≡ put routes.old.entries network
        (route_after (is_full routes.old.entries) port entry.now.tag (metric_with_cost cost entry.now) now
        (held_at routes.old.entries network))) }
    ensures few { length routes.old.entries ≤ most_routes → length routes.new.entries ≤ most_routes }
    ensures own { OnOk result (own_count routes.new.entries ≡ own_count routes.old.entries) }
    ensures err { OnErr result (routes.new.entries ≡ routes.old.entries) }
{
    let held = routes.get(&network).copied();
    let metric = metric_with_cost(cost, entry);
    let route = route_after(is_full(routes), port, entry.tag, metric, now, held);
    put(routes, network, route)
}
