//! The bytes that tell the ports: costs, neighbours and retransmission lists. They are this project's own.

ghost use Rattle.std.specs.Prelude.{◌≡◌, ◌++◌, ◌*◌, ◌+◌, OnOk, ◌≤◌, ◌<◌, length};
ghost use Rattle.std.specs.List.{flat_map};
ghost use Rattle.dn_guest.specs.KeepsFront.{KeepsFront};
ghost use Rattle.ospf_flood.specs.Retransmission.{list_of};
ghost use Rattle.ospf_router.specs.Interfaces.{port_at};
ghost use Rattle.ospf_guest.specs.Numbers.{bit, four};
ghost use Rattle.ospf_guest.specs.PlainImage.{heard_image, listed_image, state_byte};
ghost use Rattle.ospf_guest.specs.Image.{count_image, is_long, port_front, port_image, ports_image};

use crate::image::{four, push_eight, two};
use dn_guest::Bytes;
use ospf_lsdb::LsaKey;
use ospf_router::{Interfaces, Neighbour, Port};
use std::alloc::AllocError;

/// The greatest count of two bytes.
const MOST: usize = 65_535;

/// The state of a neighbour, and 3 more where the port's list is long.
fn state_byte(neighbour: Neighbour, is_long: bool) -> u8
    ensures { result ≡ state_byte neighbour + 3 * bit is_long }
{
    let state = match neighbour {
        Neighbour::Down => 0,
        Neighbour::Init(_) => 1,
        Neighbour::Full(_) => 2,
    };
    if is_long { state + 3 } else { state }
}

/// The id of a neighbour and when it was heard.
fn heard_of(neighbour: Neighbour) -> (u32, u16)
    ensures { heard_image neighbour ≡ four result.0 ++ four result.1 }
{
    match neighbour {
        Neighbour::Down => (0, 0),
        Neighbour::Init(heard) | Neighbour::Full(heard) => (heard.id, heard.tick),
    }
}

/// The thirteen bytes of an LSA on a list.
#[tactic(auto, unfolding(crate::specs::PlainImage::listed_image))]
fn listed_image(key: LsaKey, tick: u32) -> [u8; 13]
    ensures { result ≡ listed_image (key, tick) }
{
    let id = four(key.id);
    let router = four(key.router);
    let sent = four(tick);
    [
        key.kind, id[0], id[1], id[2], id[3], router[0], router[1], router[2], router[3], sent[0],
        sent[1], sent[2], sent[3],
    ]
}

/// Appends the LSAs of a list.
fn push_listed(entries: &[(LsaKey, u32)], out: &mut Bytes) -> Result<(), AllocError>
    ensures ok { OnOk result (out.new ≡ out.old ++ flat_map listed_image entries.now) }
    ensures kept { KeepsFront out.old out.new }
{
    for (key, tick) in entries {
        out.append(&listed_image(*key, *tick))?;
    }
    Ok(())
}

/// Appends how many LSAs a list has.
#[tactic(auto, unfolding(crate::specs::Image::count_image))]
fn push_count(entries: &[(LsaKey, u32)], out: &mut Bytes) -> Result<(), AllocError>
    ensures ok { OnOk result (out.new ≡ out.old ++ count_image entries.now) }
    ensures kept { KeepsFront out.old out.new }
{
    let count = entries.len();
    if count <= MOST {
        out.append(&two(count as u16))
    } else {
        push_eight(count as u64, out)
    }
}

/// The eleven bytes of a port's cost and neighbour.
#[tactic(auto, unfolding(crate::specs::Image::port_front))]
fn port_front(port: Port, is_long: bool) -> [u8; 11]
    ensures { result ≡ port_front port is_long }
{
    let cost = two(port.cost);
    let (id, tick) = heard_of(port.neighbour);
    let id = four(id);
    let tick = four(u32::from(tick));
    [
        cost[0],
        cost[1],
        state_byte(port.neighbour, is_long),
        id[0],
        id[1],
        id[2],
        id[3],
        tick[0],
        tick[1],
        tick[2],
        tick[3],
    ]
}

/// Appends a port and its list.
#[tactic(auto, unfolding(crate::specs::Image::port_image))]
fn push_port(port: Port, entries: &[(LsaKey, u32)], out: &mut Bytes) -> Result<(), AllocError>
    ensures ok { OnOk result (out.new ≡ out.old ++ port_image port entries.now) }
    ensures kept { KeepsFront out.old out.new }
{
    out.append(&port_front(port, MOST < entries.len()))?;
    push_count(entries, out)?;
    push_listed(entries, out)
}

/// Appends the ports with their lists.
pub fn push_ports(interfaces: &Interfaces, out: &mut Bytes) -> Result<(), AllocError>
    ensures ok { OnOk result (out.new ≡ out.old ++ ports_image interfaces.now.ports interfaces.now.lists) }
    ensures kept { KeepsFront out.old out.new }
{
    for number in 0..interfaces.count() {
        let entries = interfaces.listed(number)?;
        push_port(interfaces.port(number), &entries, out)?;
    }
    Ok(())
}
