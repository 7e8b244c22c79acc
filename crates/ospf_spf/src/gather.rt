//! The best offer of each network, in order.

ghost use Rattle.std.specs.Prelude.{◌≡◌, ℕ, ◌+◌, ◌<◌, ◌≤◌, ◌||◌, length, bit_or, map, IfOk, OnOk};
ghost use Rattle.std.specs.BTreeMap.{values, IsOrdered};
ghost use Rattle.ospf_spf.specs.Search.{pair_cmp};
ghost use Rattle.ospf_spf.specs.Offers.{IsBest, AreGathered};

use crate::route::Route;
use std::alloc::{AllocError, Global};
use std::collections::BTreeMap;

/// Of two offers of a network the cheaper one; at one cost, both with their ports joined (RFC 2328 section
/// 16.1, second stage, steps (1) and (2)).
fn merge(old: &Route, new: &Route) -> Route
    requires prefix { old.now.prefix ≡ new.now.prefix }
    requires len { old.now.len ≡ new.now.len }
    ensures cheaper { new.now.cost < old.now.cost → result ≡ new.now }
    ensures dearer { old.now.cost < new.now.cost → result ≡ old.now }
    ensures both { old.now.cost ≡ new.now.cost → result ≡
        record {
          prefix = old.now.prefix;
          len = old.now.len;
          cost = old.now.cost;
          own = old.now.own || new.now.own;
          via = bit_or old.now.via new.now.via;
        } }
{
    if new.cost < old.cost {
        *new
    } else if new.cost > old.cost {
        *old
    } else {
        Route {
            prefix: old.prefix,
            len: old.len,
            cost: old.cost,
            own: old.own || new.own,
            via: old.via | new.via,
        }
    }
}

/// The best offer of each network, by prefix and length.
fn best(alloc: Global, offers: &[Route]) -> Result<BTreeMap<(u32, u8), Route>, AllocError>
    ensures best { IfOk result (λ best. IsBest offers.now best) }
    ensures ordered { IfOk result (λ best. IsOrdered pair_cmp best) }
{
    let mut best: BTreeMap<(u32, u8), Route> = BTreeMap::new(alloc);
    for offer in offers {
        let merged = match best.get(&(offer.prefix, offer.len)) {
            Some(old) => merge(old, offer),
            None => *offer,
        };
        best.insert((offer.prefix, offer.len), merged)?;
    }
    Ok(best)
}

/// The values of a map, in the order of their keys.
fn listed(alloc: Global, best: &BTreeMap<(u32, u8), Route>) -> Result<Vec<Route>, AllocError>
    ensures { IfOk result (λ routes. routes.items ≡ values best.now) }
{
    best.values().copied().collect(alloc)
}

/// The best offer of each network, in ascending order of prefix and length.
pub fn gather(alloc: Global, offers: &[Route]) -> Result<Vec<Route>, AllocError>
    ensures { IfOk result (λ routes. AreGathered offers.now routes.items) }
{
    let best = best(alloc, offers)?;
    listed(alloc, &best)
}
