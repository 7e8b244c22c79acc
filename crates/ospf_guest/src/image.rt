//! The bytes that tell the whole state: the front, the own networks, and the parts of the two other files.
//! They are this project's own.

ghost use Rattle.std.specs.Prelude.{◌≡◌, ◌++◌, OnOk, ◌≤◌, length};
ghost use Rattle.std.specs.List.{flat_map};
ghost use Rattle.dn_guest.specs.KeepsFront.{KeepsFront};
ghost use Rattle.ospf_router.specs.State.{state_of};
ghost use Rattle.ospf_guest.specs.Numbers.{eight, four, one_more, two};
ghost use Rattle.ospf_guest.specs.PlainImage.{front_image, network_image, networks_image};
ghost use Rattle.ospf_guest.specs.Image.{interfaces_image, ospf_image};

use crate::database_image::push_database;
use crate::ports_image::push_ports;
use dn_guest::Bytes;
use ospf_router::{Interfaces, Prefixes, Router};
use std::alloc::{AllocError, Global};

/// The two bytes of a number, the highest first.
pub fn two(n: u16) -> [u8; 2]
    ensures { result ≡ two n }
{
    [(n / 256) as u8, (n % 256) as u8]
}

/// The four bytes of a number, the highest first.
pub fn four(n: u32) -> [u8; 4]
    ensures { result ≡ four n }
{
    [
        (n / 0x100_0000) as u8,
        (n / 0x1_0000 % 256) as u8,
        (n / 256 % 256) as u8,
        (n % 256) as u8,
    ]
}

/// Appends the eight bytes of a number, the highest first.
#[tactic(auto, unfolding(crate::specs::Numbers::eight))]
pub fn push_eight(n: u64, out: &mut Bytes) -> Result<(), AllocError>
    ensures ok { OnOk result (out.new ≡ out.old ++ eight n) }
    ensures kept { KeepsFront out.old out.new }
{
    out.append(&four((n / 0x1_0000_0000) as u32))?;
    out.append(&four((n % 0x1_0000_0000) as u32))
}

/// 0 for none, and one more than the number.
fn one_more(n: Option<u16>) -> u32
    ensures { result ≡ one_more n }
{
    match n {
        None => 0,
        Some(n) => u32::from(n) + 1,
    }
}

/// The seven bytes of an own network.
#[tactic(auto, unfolding(crate::specs::PlainImage::network_image))]
fn network_image(address: u32, len: u8, cost: u16) -> [u8; 7]
    ensures { result ≡ network_image ((address, len), cost) }
{
    let address = four(address);
    let cost = two(cost);
    [
        address[0], address[1], address[2], address[3], len, cost[0], cost[1],
    ]
}

/// Appends own networks.
fn push_networks(networks: &[((u32, u8), u16)], out: &mut Bytes) -> Result<(), AllocError>
    ensures ok { OnOk result (out.new ≡ out.old ++ flat_map network_image networks.now) }
    ensures kept { KeepsFront out.old out.new }
{
    for ((address, len), cost) in networks {
        out.append(&network_image(*address, *len, *cost))?;
    }
    Ok(())
}

/// The ten bytes of the number, the tick, and the tick after that of the last origination.
#[tactic(auto, unfolding(crate::specs::PlainImage::front_image))]
fn front_image(number: u16, tick: u16, originated: Option<u16>) -> [u8; 10]
    ensures { result ≡ front_image number tick originated }
{
    let number = two(number);
    let tick = four(u32::from(tick));
    let last = four(one_more(originated));
    [
        number[0], number[1], tick[0], tick[1], tick[2], tick[3], last[0], last[1], last[2],
        last[3],
    ]
}

/// Appends the own networks behind their number.
#[tactic(auto, unfolding(crate::specs::PlainImage::networks_image))]
fn push_prefixes(alloc: Global, prefixes: &Prefixes, out: &mut Bytes) -> Result<(), AllocError>
    ensures ok { OnOk result (out.new ≡ out.old ++ networks_image prefixes.now) }
    ensures kept { KeepsFront out.old out.new }
{
    let networks = prefixes.entries(alloc)?;
    out.append(&two(networks.len() as u16))?;
    push_networks(&networks, out)
}

/// Appends the ports behind their number.
#[tactic(auto, unfolding(crate::specs::Image::interfaces_image))]
fn push_interfaces(interfaces: &Interfaces, out: &mut Bytes) -> Result<(), AllocError>
    ensures ok { OnOk result (out.new ≡ out.old ++ interfaces_image interfaces.now) }
    ensures kept { KeepsFront out.old out.new }
{
    out.push(interfaces.count())?;
    push_ports(interfaces, out)
}

/// Appends the bytes that tell the whole state.
#[tactic(auto, unfolding(crate::specs::Image::ospf_image))]
pub fn push_image(alloc: Global, router: &Router, out: &mut Bytes) -> Result<(), AllocError>
    ensures ok { OnOk result (out.new ≡ out.old ++ ospf_image (state_of router.now)) }
    ensures kept { KeepsFront out.old out.new }
{
    out.append(&front_image(router.number, router.tick, router.originated))?;
    push_prefixes(alloc, &router.prefixes, out)?;
    push_interfaces(&router.interfaces, out)?;
    push_database(&router.db, out)
}
