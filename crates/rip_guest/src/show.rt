//! The lines that tell the routes.

ghost use Rattle.std.specs.Prelude.{◌≡◌, ◌++◌, OnOk};
ghost use Rattle.std.specs.List.{flat_map};
ghost use Rattle.dn_guest.specs.KeepsFront.{KeepsFront};
ghost use Rattle.dn_text.specs.Pieces.{piece_text};
ghost use Rattle.rip_guest.specs.Show.{route_line, where_text};

use dn_guest::Bytes;
use dn_net::push_network;
use dn_text::{Piece, append_all};
use rip_table::{Held, Table};
use std::alloc::AllocError;

/// `own`, or the port.
fn where_piece(via: Option<u8>) -> Piece<'static>
    ensures { piece_text result ≡ where_text via }
{
    match via {
        None => Piece::Text(b"own"),
        Some(port) => Piece::Decimal(u64::from(port)),
    }
}

/// Appends the line of a route.
#[tactic(auto, unfolding(crate::specs::Show::route_line))]
fn push_line(network: (u32, u8), held: Held, out: &mut Bytes) -> Result<(), AllocError>
    ensures ok { OnOk result (out.new ≡ out.old ++ route_line (network, held)) }
    ensures kept { KeepsFront out.old out.new }
{
    out.append(b"route ")?;
    push_network(network.0, network.1, out)?;
    let pieces = [
        Piece::Text(b" "),
        Piece::Decimal(u64::from(held.metric)),
        Piece::Text(b" via "),
        where_piece(held.via),
        Piece::Text(b"\n"),
    ];
    append_all(out, &pieces)
}

/// Appends a line for each of the routes.
fn push_lines(entries: &[((u32, u8), Held)], out: &mut Bytes) -> Result<(), AllocError>
    ensures ok { OnOk result (out.new ≡ out.old ++ flat_map route_line entries.now) }
    ensures kept { KeepsFront out.old out.new }
{
    for (network, held) in entries {
        push_line(*network, *held, out)?;
    }
    Ok(())
}

/// Appends a line for each route of a table.
pub fn push_show(table: &Table, out: &mut Bytes) -> Result<(), AllocError>
    ensures ok { OnOk result (out.new ≡ out.old ++ flat_map route_line table.now) }
    ensures kept { KeepsFront out.old out.new }
{
    push_lines(&table.entries()?, out)
}
