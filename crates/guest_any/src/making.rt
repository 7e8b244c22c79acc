//! The guest with which a router begins.

ghost use Rattle.std.specs.Prelude.{◌≡◌, ◌<◌, ◌≤◌, length, map, IfOk, Some, slice_get};
ghost use Rattle.ospf_router.specs.State.{opening as opening_ospf};
ghost use Rattle.rip_guest.specs.State.{opening as opening_rip};
ghost use Rattle.guest_any.specs.declared.any.AnyGuest.TheVariants as any;
ghost use Rattle.guest_any.specs.Openings.{costs_of, networks_of, opening_guest};

use crate::AnyGuest;
use dn_guest::{Flood, NoMemory};
use dn_model::{End, Header, Kind, Prefix, RouterDef, ends};
use dn_net::{Costs, PrefixList};
use ospf_guest::Ospf;
use ospf_router::OspfSettings;
use rip_guest::{Rip, RipSettings};
use std::alloc::Global;

/// The guest of a router before the first event, by the router's kind. Its settings are the router's
/// number, the costs of its ports, which are those of its links in their order, and its prefixes.
#[tactic(auto, unfolding(crate::specs::Openings::opening_guest))]
pub fn make(alloc: Global, header: &Header, router: u16) -> Result<AnyGuest, NoMemory>
    requires { router < length header.now.routers }
    ensures { IfOk result (λ guest. guest ≡ opening_guest header.now router) }
{
    let definition = router_of(header, router);
    match definition.kind {
        Kind::Flood => Ok(AnyGuest::Flood(Flood::new(alloc))),
        Kind::Ospf => make_ospf(alloc, header, router, definition.prefixes.as_slice()),
        Kind::Rip => make_rip(alloc, header, router, definition.prefixes.as_slice()),
    }
}

/// The router of this number.
fn router_of(header: &Header, router: u16) -> &RouterDef
    requires { router < length header.now.routers }
    ensures { slice_get header.now.routers router ≡ Some result.now }
{
    &header.routers.as_slice()[usize::from(router)]
}

/// The OSPF guest of a router with these prefixes.
fn make_ospf(
    alloc: Global,
    header: &Header,
    router: u16,
    prefixes: &[Prefix],
) -> Result<AnyGuest, NoMemory>
    requires { router < length header.now.routers }
    ensures { IfOk result (λ guest. guest
        ≡ any.Ospf (opening_ospf router (costs_of header.now router) (networks_of prefixes.now))) }
{
    let ends = ends(alloc, header, router)?;
    let settings = OspfSettings {
        number: router,
        costs: costs_of(alloc, ends.as_slice())?,
        prefixes: networks_of(alloc, prefixes)?,
    };
    Ok(AnyGuest::Ospf(Ospf::new(alloc, &settings)?))
}

/// The RIP guest of a router with these prefixes.
fn make_rip(
    alloc: Global,
    header: &Header,
    router: u16,
    prefixes: &[Prefix],
) -> Result<AnyGuest, NoMemory>
    requires { router < length header.now.routers }
    ensures { IfOk result (λ guest. guest
        ≡ any.Rip (opening_rip router (costs_of header.now router) (networks_of prefixes.now))) }
{
    let ends = ends(alloc, header, router)?;
    let settings = RipSettings {
        number: router,
        costs: costs_of(alloc, ends.as_slice())?,
        prefixes: networks_of(alloc, prefixes)?,
    };
    Ok(AnyGuest::Rip(Rip::new(alloc, &settings)?))
}

/// The costs of the ports, in order.
fn costs_of(alloc: Global, ends: &[End]) -> Result<Costs, NoMemory>
    ensures { IfOk result (λ costs. costs ≡ map (λ e. e.cost) ends.now) }
{
    let mut costs = Vec::new(alloc);
    for end in ends {
        costs.push(end.cost)?;
    }
    Ok(Costs::from_vec(costs))
}

/// The prefixes as settings have them.
fn networks_of(alloc: Global, prefixes: &[Prefix]) -> Result<PrefixList, NoMemory>
    ensures { IfOk result (λ networks. networks ≡ networks_of prefixes.now) }
{
    let mut networks = Vec::new(alloc);
    for prefix in prefixes {
        networks.push((prefix.address, prefix.len, prefix.cost))?;
    }
    Ok(PrefixList::from_vec(networks))
}
