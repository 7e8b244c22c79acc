//! The lines that a session writes, but for those of rows.

ghost use Rattle.std.specs.Prelude.{◌≡◌, ◌++◌, OnOk};
ghost use Rattle.dn_model.specs.Routers.{name_at};
ghost use Rattle.dn_debug.specs.Lines.{unknown_line, break_line, watch_line, place_line, waiting_line, reason_text, stop_line, node_text};

use crate::reason::Reason;
use dn_guest::{Bytes, Guest, NoMemory, Node};
use dn_model::RouterDef;
use dn_text::{Piece, append_all, push_decimal, push_hex};
use std::alloc::Global;

/// Appends `?`, which answers what is no command.
pub(crate) fn push_unknown(out: &mut Bytes) -> Result<(), NoMemory>
    ensures { OnOk result (out.new ≡ out.old ++ unknown_line) }
{
    out.append(b"?\n")
}

/// Appends `break I`.
#[tactic(auto, unfolding(crate::specs::Lines::break_line))]
pub(crate) fn push_break(number: u64, out: &mut Bytes) -> Result<(), NoMemory>
    ensures { OnOk result (out.new ≡ out.old ++ break_line number) }
{
    let pieces = [
        Piece::Text(b"break "),
        Piece::Decimal(number),
        Piece::Text(b"\n"),
    ];
    append_all(out, &pieces)
}

/// Appends `watch NAME`.
#[tactic(auto, unfolding(crate::specs::Lines::watch_line))]
pub(crate) fn push_watch(name: &[u8], out: &mut Bytes) -> Result<(), NoMemory>
    ensures { OnOk result (out.new ≡ out.old ++ watch_line name.now) }
{
    let pieces = [
        Piece::Text(b"watch "),
        Piece::Text(name),
        Piece::Text(b"\n"),
    ];
    append_all(out, &pieces)
}

/// Appends `at N`.
#[tactic(auto, unfolding(crate::specs::Lines::place_line))]
pub(crate) fn push_place(place: u64, out: &mut Bytes) -> Result<(), NoMemory>
    ensures { OnOk result (out.new ≡ out.old ++ place_line place) }
{
    let pieces = [
        Piece::Text(b"at "),
        Piece::Decimal(place),
        Piece::Text(b"\n"),
    ];
    append_all(out, &pieces)
}

/// Appends `waiting N`.
#[tactic(auto, unfolding(crate::specs::Lines::waiting_line))]
pub(crate) fn push_waiting(count: u64, out: &mut Bytes) -> Result<(), NoMemory>
    ensures { OnOk result (out.new ≡ out.old ++ waiting_line count) }
{
    let pieces = [
        Piece::Text(b"waiting "),
        Piece::Decimal(count),
        Piece::Text(b"\n"),
    ];
    append_all(out, &pieces)
}

fn push_reason(reason: &Reason, out: &mut Bytes) -> Result<(), NoMemory>
    ensures { OnOk result (out.new ≡ out.old ++ reason_text reason.now) }
{
    match reason {
        Reason::Break(number) => {
            let pieces = [Piece::Text(b"break "), Piece::Decimal(*number)];
            append_all(out, &pieces)
        }
        Reason::Probe(name) => {
            let pieces = [Piece::Text(b"probe "), Piece::Text(name.as_slice())];
            append_all(out, &pieces)
        }
        Reason::Group => out.append(b"group"),
        Reason::Step => out.append(b"step"),
        Reason::End => out.append(b"end"),
        Reason::Cut => out.append(b"cut"),
    }
}

/// Appends the stop line, `at N REASON`.
#[tactic(auto, unfolding(crate::specs::Lines::stop_line))]
pub(crate) fn push_stop(place: u64, reason: &Reason, out: &mut Bytes) -> Result<(), NoMemory>
    ensures { OnOk result (out.new ≡ out.old ++ stop_line place reason.now) }
{
    out.append(b"at ")?;
    push_decimal(out, place)?;
    out.append(b" ")?;
    push_reason(reason, out)?;
    out.append(b"\n")?;
    Ok(())
}

/// Appends `node NAME SENDS PORTS`, and then the guest's show.
#[tactic(auto, unfolding(crate::specs::Lines::node_text, dn_trace::specs::Rows::hex16))]
pub(crate) fn push_node<G: Guest>(
    alloc: Global,
    routers: &[RouterDef],
    router: u16,
    node: &Node<G>,
    out: &mut Bytes,
) -> Result<(), NoMemory>
    ensures { OnOk result (out.new ≡ out.old ++ node_text G.meaning routers.now router node.now) }
{
    out.append(b"node ")?;
    out.append(name_of(routers, router))?;
    out.append(b" ")?;
    push_decimal(out, node.sends)?;
    out.append(b" ")?;
    push_hex(out, &node.ports.to_be_bytes())?;
    out.append(b"\n")?;
    node.guest.show(alloc, out)?;
    Ok(())
}

/// The name of a router; empty where there is none of that number.
fn name_of(routers: &[RouterDef], router: u16) -> &[u8]
    ensures { result.now ≡ name_at routers.now router }
{
    match routers.get(usize::from(router)) {
        Some(found) => found.name.as_slice(),
        None => &[],
    }
}
