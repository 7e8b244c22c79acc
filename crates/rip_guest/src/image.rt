//! The bytes that tell the state.

ghost use Rattle.std.specs.Prelude.{◌≡◌, ◌≤◌, ◌++◌, ◌<◌, OnOk, length};
ghost use Rattle.std.specs.List.{flat_map};
ghost use Rattle.dn_guest.specs.KeepsFront.{KeepsFront};
ghost use Rattle.rip_guest.specs.Image.{four, mark_byte, rip_image, route_image, two, via_byte};
ghost use Rattle.rip_guest.specs.State.{state_of};

use dn_guest::Bytes;
use rip_table::{Held, Table};
use std::alloc::AllocError;

/// The byte of an own network in the place of a port.
const OWN: u8 = 255;

/// The two bytes of a number, the highest first.
fn two(n: u16) -> [u8; 2]
    ensures { result ≡ two n }
{
    [(n / 256) as u8, (n % 256) as u8]
}

/// The four bytes of a number, the highest first.
fn four(n: u32) -> [u8; 4]
    ensures { result ≡ four n }
{
    [
        (n / 0x100_0000) as u8,
        (n / 0x1_0000 % 256) as u8,
        (n / 256 % 256) as u8,
        (n % 256) as u8,
    ]
}

/// The port, and 255 for an own network.
fn via_byte(via: Option<u8>) -> u8
    ensures { result ≡ via_byte via }
{
    match via {
        Some(port) => port,
        None => OWN,
    }
}

/// 1 if the route is marked as changed, and 2 more for a port of 255.
fn mark_byte(via: Option<u8>, changed: bool) -> u8
    ensures { result ≡ mark_byte via changed }
{
    let bit = if changed { 1 } else { 0 };
    match via {
        Some(port) if port == OWN => bit + 2,
        _ => bit,
    }
}

/// The 14 bytes of a route.
#[tactic(auto, unfolding(crate::specs::Image::route_image))]
fn route_image(network: (u32, u8), held: Held) -> [u8; 14]
    ensures { result ≡ route_image (network, held) }
{
    let address = four(network.0);
    let tag = two(held.tag);
    let time = four(held.time);
    [
        address[0],
        address[1],
        address[2],
        address[3],
        network.1,
        tag[0],
        tag[1],
        held.metric,
        via_byte(held.via),
        time[0],
        time[1],
        time[2],
        time[3],
        mark_byte(held.via, held.changed),
    ]
}

/// Appends the bytes of routes.
fn push_routes(entries: &[((u32, u8), Held)], out: &mut Bytes) -> Result<(), AllocError>
    ensures ok { OnOk result (out.new ≡ out.old ++ flat_map route_image entries.now) }
    ensures kept { KeepsFront out.old out.new }
{
    for (network, held) in entries {
        out.append(&route_image(*network, *held))?;
    }
    Ok(())
}

/// Appends the bytes that tell the whole state.
#[tactic(auto, unfolding(crate::specs::Image::rip_image))]
pub fn push_image(
    number: u16,
    now: u32,
    costs: &[u8],
    table: &Table,
    out: &mut Bytes,
) -> Result<(), AllocError>
    requires { length costs.now ≤ 16 }
    ensures ok { OnOk result (out.new ≡ out.old ++ rip_image (state_of number now costs.now table.now)) }
    ensures kept { KeepsFront out.old out.new }
{
    let entries = table.entries()?;
    out.append(&two(number))?;
    out.append(&four(now))?;
    out.push(costs.len() as u8)?;
    out.append(costs)?;
    out.append(&two(table.len() as u16))?;
    push_routes(&entries, out)
}
