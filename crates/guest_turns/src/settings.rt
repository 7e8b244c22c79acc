//! The guest that a `router` line tells.

ghost use Rattle.std.specs.Prelude.{◌≤◌, IfOk, length, vec_len};

use dn_guest::{Flood, NoMemory};
use guest_any::AnyGuest;
use ospf_guest::Ospf;
use ospf_router::OspfSettings;
use rip_guest::{Rip, RipSettings};
use std::alloc::Global;
use table_program::Fields;

/// How many ports a router may have.
const MOST_PORTS: usize = 16;

/// What the fields behind the kind tell.
#[derive(Drop)]
struct Settings {
    number: u16,
    costs: Vec<u16>,
    prefixes: Vec<(u32, u8, u16)>,
}

/// A guest: `flood`, or `ospf` or `rip` with a number, the costs of the ports, and own networks.
pub fn guest_of(alloc: Global, fields: &mut Fields<'_>) -> Result<AnyGuest, NoMemory> {
    let kind = fields.word();
    if kind == b"ospf".as_slice() {
        return ospf(alloc, settings_of(alloc, fields)?);
    }
    if kind == b"rip".as_slice() {
        return rip(alloc, settings_of(alloc, fields)?);
    }
    if kind != b"flood".as_slice() {
        fields.refuse();
    }
    Ok(AnyGuest::Flood(Flood::new(alloc)))
}

fn ospf(alloc: Global, settings: Settings) -> Result<AnyGuest, NoMemory>
    requires { vec_len settings.costs ≤ 16 }
{
    let settings = OspfSettings {
        number: settings.number,
        costs: ospf_router::Costs::from_vec(settings.costs),
        prefixes: ospf_router::PrefixList::from_vec(settings.prefixes),
    };
    Ok(AnyGuest::Ospf(Ospf::new(alloc, &settings)?))
}

fn rip(alloc: Global, settings: Settings) -> Result<AnyGuest, NoMemory>
    requires { vec_len settings.costs ≤ 16 }
{
    let settings = RipSettings {
        number: settings.number,
        costs: rip_guest::Costs::from_vec(settings.costs),
        prefixes: rip_guest::PrefixList::from_vec(settings.prefixes),
    };
    Ok(AnyGuest::Rip(Rip::new(alloc, &settings)?))
}

/// The settings: `NUMBER costs COST.. prefix A.B.C.D/LEN COST prefix ..`.
fn settings_of(alloc: Global, fields: &mut Fields<'_>) -> Result<Settings, NoMemory>
    ensures { IfOk result (λ settings. vec_len settings.costs ≤ 16) }
{
    let number = fields.short();
    let mut settings = Settings {
        number,
        costs: Vec::new(alloc),
        prefixes: Vec::new(alloc),
    };
    for _ in 0..u64::MAX {
        if fields.is_done() {
            break;
        }
        setting(fields, &mut settings)?;
    }
    if settings.costs.len() > MOST_PORTS {
        fields.refuse();
        settings.costs.clear();
    }
    Ok(settings)
}

/// A cost, perhaps behind the word `costs`, or the word `prefix` and a network.
fn setting(fields: &mut Fields<'_>, settings: &mut Settings) -> Result<(), NoMemory> {
    if fields.takes(b"prefix") {
        add_prefix(fields, &mut settings.prefixes)
    } else if fields.takes(b"costs") {
        Ok(())
    } else {
        add_cost(fields, &mut settings.costs)
    }
}

/// A network, and its cost behind it.
fn add_prefix(fields: &mut Fields<'_>, prefixes: &mut Vec<(u32, u8, u16)>) -> Result<(), NoMemory> {
    let (address, len) = fields.network();
    prefixes.push((address, len, fields.short()))?;
    Ok(())
}

/// The cost of a port.
fn add_cost(fields: &mut Fields<'_>, costs: &mut Vec<u16>) -> Result<(), NoMemory> {
    costs.push(fields.short())?;
    Ok(())
}
