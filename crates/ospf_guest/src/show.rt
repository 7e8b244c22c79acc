//! The lines that tell a reader of neighbours and routes. They are this project's own.

ghost use Rattle.std.specs.Prelude.{◌≡◌, ◌++◌, ◌+◌, ◌≤◌, OnOk, length};
ghost use Rattle.std.specs.List.{flat_map};
ghost use Rattle.dn_guest.specs.KeepsFront.{KeepsFront};
ghost use Rattle.ospf_router.specs.State.{state_of};
ghost use Rattle.ospf_guest.specs.Show.{neighbour_line, neighbour_lines, ospf_show, port_text, port_texts, route_front, route_line, route_lines, where_text};

use dn_guest::{Bytes, is_up};
use dn_net::push_network;
use dn_text::{Piece, append_all};
use ospf_lsdb::Lsdb;
use ospf_router::{Neighbour, Port, Router};
use ospf_spf::{Route, routes};
use std::alloc::{AllocError, Global};

/// The greatest number of LSAs of a database.
const MOST_LSAS: u64 = 65_535;

/// How many ports a mask has.
const PORTS: u8 = 16;

/// Appends the line of a neighbour that isn't Down.
fn push_neighbour(number: u8, neighbour: Neighbour, out: &mut Bytes) -> Result<(), AllocError>
    ensures ok { OnOk result (out.new ≡ out.old ++ neighbour_line number neighbour) }
    ensures kept { KeepsFront out.old out.new }
{
    let (state, heard) = match neighbour {
        Neighbour::Down => return Ok(()),
        Neighbour::Init(heard) => (b" init ", heard),
        Neighbour::Full(heard) => (b" full ", heard),
    };
    let pieces = [
        Piece::Text(b"neighbour "),
        Piece::Decimal(u64::from(number)),
        Piece::Text(state),
        Piece::Decimal(u64::from(heard.id)),
        Piece::Text(b"\n"),
    ];
    append_all(out, &pieces)
}

/// Appends the lines of the neighbours. The first of these ports has this number.
fn push_neighbours(number: u8, ports: &[Port], out: &mut Bytes) -> Result<(), AllocError>
    requires { number + length ports.now ≤ 255 }
    ensures ok { OnOk result (out.new ≡ out.old ++ neighbour_lines number ports.now) }
    ensures kept { KeepsFront out.old out.new }
{
    let Some((first, rest)) = ports.split_first() else {
        return Ok(());
    };
    push_neighbour(number, first.neighbour, out)?;
    push_neighbours(number + 1, rest, out)
}

/// Appends a space and a port, if it is one of the mask.
fn push_port(mask: u16, port: u8, out: &mut Bytes) -> Result<(), AllocError>
    ensures ok { OnOk result (out.new ≡ out.old ++ port_text mask port) }
    ensures kept { KeepsFront out.old out.new }
{
    if !is_up(mask, port) {
        return Ok(());
    }
    out.append(b" ")?;
    append_all(out, &[Piece::Decimal(u64::from(port))])
}

/// Appends the ports of a mask in ascending order, a space before each.
fn push_mask(mask: u16, out: &mut Bytes) -> Result<(), AllocError>
    ensures ok { OnOk result (out.new ≡ out.old ++ port_texts mask) }
    ensures kept { KeepsFront out.old out.new }
{
    for port in 0..PORTS {
        push_port(mask, port, out)?;
    }
    Ok(())
}

/// Appends where a route leads: `own`, and its ports.
#[tactic(auto, unfolding(crate::specs::Show::where_text))]
fn push_where(own: bool, mask: u16, out: &mut Bytes) -> Result<(), AllocError>
    ensures ok { OnOk result (out.new ≡ out.old ++ where_text own mask) }
    ensures kept { KeepsFront out.old out.new }
{
    if !own && mask == 0 {
        return out.append(b" ");
    }
    if own {
        out.append(b" own")?;
    }
    push_mask(mask, out)
}

/// Appends the front of a route's line.
#[tactic(auto, unfolding(crate::specs::Show::route_front))]
fn push_front(route: Route, out: &mut Bytes) -> Result<(), AllocError>
    ensures ok { OnOk result (out.new ≡ out.old ++ route_front route) }
    ensures kept { KeepsFront out.old out.new }
{
    out.append(b"route ")?;
    push_network(route.prefix, route.len, out)?;
    let pieces = [
        Piece::Text(b" "),
        Piece::Decimal(u64::from(route.cost)),
        Piece::Text(b" via"),
    ];
    append_all(out, &pieces)
}

/// Appends the line of a route.
#[tactic(auto, unfolding(crate::specs::Show::route_line))]
fn push_route(route: Route, out: &mut Bytes) -> Result<(), AllocError>
    ensures ok { OnOk result (out.new ≡ out.old ++ route_line route) }
    ensures kept { KeepsFront out.old out.new }
{
    push_front(route, out)?;
    push_where(route.own, route.via, out)?;
    out.append(b"\n")
}

/// Appends the lines of routes.
fn push_each(routes: &[Route], out: &mut Bytes) -> Result<(), AllocError>
    ensures ok { OnOk result (out.new ≡ out.old ++ flat_map route_line routes.now) }
    ensures kept { KeepsFront out.old out.new }
{
    for route in routes {
        push_route(*route, out)?;
    }
    Ok(())
}

/// Appends the lines of the router's routes.
#[tactic(auto, unfolding(crate::specs::Show::route_lines))]
fn push_routes(
    alloc: Global,
    number: u16,
    tick: u16,
    db: &Lsdb,
    out: &mut Bytes,
) -> Result<(), AllocError>
    ensures ok { OnOk result (out.new ≡ out.old ++ route_lines number tick db.now) }
    ensures kept { KeepsFront out.old out.new }
{
    if MOST_LSAS < db.len() {
        return Ok(());
    }
    let table = routes(alloc, db, u32::from(number) + 1, u32::from(tick))?;
    push_each(&table, out)
}

/// Appends the lines that tell neighbours and routes.
#[tactic(auto, unfolding(crate::specs::Show::ospf_show))]
pub fn push_show(alloc: Global, router: &Router, out: &mut Bytes) -> Result<(), AllocError>
    ensures ok { OnOk result (out.new ≡ out.old ++ ospf_show (state_of router.now)) }
    ensures kept { KeepsFront out.old out.new }
{
    push_neighbours(0, router.interfaces.ports(), out)?;
    push_routes(alloc, router.number, router.tick, &router.db, out)
}
