//! How a trace begins and ends: the line `trace`; the states and the number of rows, or the line that says that
//! it is cut.

ghost use Rattle.std.specs.Prelude.{◌≡◌, ◌<◌, ◌≤◌, ◌++◌, List, codes, length, OnOk};
ghost use Rattle.dn_guest.specs.KeepsFront.{KeepsFront};
ghost use Rattle.dn_model.specs.declared.feed.External.{External};
ghost use Rattle.dn_model.specs.Network.{Network};
ghost use Rattle.dn_lockstep.specs.Running.{IsAtEnd};
ghost use Rattle.dn_trace.specs.Trace.{end_line, cut_line, last_lines};
ghost use Rattle.dn_trace.specs.Streaming.{line_of_last, node_lines};

use crate::rows::{push_row, push_state};
use dn_guest::{Bytes, Guest, NoMemory};
use dn_lockstep::Engine;
use dn_model::RouterDef;
use dn_text::push_decimal;
use std::alloc::Global;

/// Appends the line `trace`.
pub(crate) fn push_first_line(out: &mut Bytes) -> Result<(), NoMemory>
    ensures { OnOk result (out.new ≡ out.old ++ codes "trace\n") }
{
    out.append(b"trace\n")
}

/// Appends the line of the row handled last, where there is one.
pub(crate) fn push_last<G: Guest>(
    engine: &Engine<G>,
    routers: &[RouterDef],
    out: &mut Bytes,
) -> Result<(), NoMemory>
    ensures { OnOk result (out.new ≡ out.old ++ line_of_last routers.now engine.now.last) }
{
    match engine.last() {
        Some(row) => push_row(out, routers, row),
        None => Ok(()),
    }
}

/// Appends the line of each router's state.
#[tactic(auto, using(crate::proofs::Streams::node_lines_more), unfolding(crate::specs::Streaming::node_lines))]
fn push_states<G: Guest>(
    alloc: Global,
    engine: &Engine<G>,
    routers: &[RouterDef],
    out: &mut Bytes,
) -> Result<(), NoMemory>
    requires same { engine.now.header.routers ≡ routers.now }
    requires few { length routers.now ≤ 64 }
    ensures { OnOk result (out.new ≡ out.old ++
        node_lines G.meaning routers.now engine.now.nodes (length routers.now)) }
{
    for router in 0..routers.len() {
        let number = router as u16;
        push_state(alloc, out, routers, number, engine.node(number))?;
    }
    Ok(())
}

/// Appends the line `end trace N`, which ends the trace of a run of so many rows behind the states.
#[tactic(auto, unfolding(crate::specs::Trace::end_line, crate::specs::Rows::last_field))]
pub fn push_end_line(rows: u64, out: &mut Bytes) -> Result<(), NoMemory>
    ensures ok { OnOk result (out.new ≡ out.old ++ end_line rows) }
    ensures kept { KeepsFront out.old out.new }
{
    out.append(b"end trace ")?;
    push_decimal(out, rows)?;
    out.append(b"\n")?;
    Ok(())
}

/// Appends the line `cut 200000`, which ends the trace of a run of more rows.
#[tactic(auto, unfolding(crate::specs::Trace::cut_line, crate::specs::Rows::last_field, dn_model::specs::Settled::row_limit))]
pub fn push_cut_line(out: &mut Bytes) -> Result<(), NoMemory>
    ensures ok { OnOk result (out.new ≡ out.old ++ cut_line) }
    ensures kept { KeepsFront out.old out.new }
{
    out.append(b"cut ")?;
    push_decimal(out, 200_000)?;
    out.append(b"\n")?;
    Ok(())
}

/// Appends the states and the number of rows, where all rows were handled.
pub(crate) fn push_last_lines<G: Guest>(
    alloc: Global,
    engine: &Engine<G>,
    rows: u64,
    routers: &[RouterDef],
    out: &mut Bytes,
) -> Result<(), NoMemory>
    requires rows { rows ≡ engine.now.place }
    requires same { engine.now.header.routers ≡ routers.now }
    requires few { length routers.now ≤ 64 }
    ensures { (net : Network G) (feed : List External) → net.guests ≡ G.meaning → net.header ≡ engine.now.header →
        IsAtEnd net feed engine.now → OnOk result (out.new ≡ out.old ++ last_lines net feed) }
{
    push_states(alloc, engine, routers, out)?;
    push_end_line(rows, out)?;
    Ok(())
}
