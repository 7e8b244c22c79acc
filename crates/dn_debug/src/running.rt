//! Going on: rows are handled until something stops the run.

ghost use Rattle.std.specs.Prelude.{◌≡◌, ◌++◌, List, nat_lt, slice_get, if◌then◌else◌, IfOk, OnOk};
ghost use Rattle.dn_model.specs.declared.feed.External.{External};
ghost use Rattle.dn_model.specs.Network.{Network};
ghost use Rattle.dn_lockstep.specs.Running.{StandsIn};
ghost use Rattle.dn_model.specs.Settled.{rows};
ghost use Rattle.dn_trace.specs.Rows.{row_lines};
ghost use Rattle.dn_debug.specs.Watching.{watched};
ghost use Rattle.dn_debug.specs.Courses.{is_from};
ghost use Rattle.dn_debug.specs.Situations.{IsAt};
ghost use Rattle.dn_debug.specs.Steps.{HasGone, HasRun, last_if};

use crate::extent::Extent;
use crate::lines::push_stop;
use crate::reason::Reason;
use crate::walk::{Walk, is_at_group, take_row};
use dn_guest::{Bytes, Guest, NoMemory};
use dn_lockstep::{Engine, Next};
use dn_model::RouterDef;
use dn_probe::Probe;
use dn_trace::push_row;
use std::alloc::Global;

/// Handles rows until something stops the run, and gives why it stopped. Appends the line of each row if each is
/// written.
fn go<G: Guest, P: Probe>(
    alloc: Global,
    walk: &mut Walk<G, P>,
    routers: &[RouterDef],
    extent: Extent,
    out: &mut Bytes,
) -> Result<Reason, NoMemory>
    requires { walk.old.engine.header.routers ≡ routers.now }
    ensures header { walk.new.engine.header ≡ walk.old.engine.header }
    ensures breaks { walk.new.breaks.items ≡ walk.old.breaks.items }
    ensures gone { (net : Network G) (feed : List External) → net.guests ≡ G.meaning →
        IsAt net feed walk.old.engine walk.old.latest →
        IfOk result (λ reason. HasGone net feed walk.old.breaks.items extent walk.old.engine.place (watched P.watcher walk.old.watching) walk.new.engine (watched P.watcher walk.new.watching) walk.new.latest reason routers.now out.old out.new) }
{
    'rows: for _row in 0..extent.most {
        if is_at_group(&walk.engine, extent.group) {
            return Ok(Reason::Group);
        }
        match walk.engine.next(alloc)? {
            Next::Row => {}
            Next::End => return Ok(Reason::End),
            Next::Cut => return Ok(Reason::Cut),
        }
        if let Some(reason) = take_row(alloc, walk, routers, extent.each, out)? {
            return Ok(reason);
        }
    }
    Ok(end_of_steps(&walk.engine, extent.group))
}

/// Why the run stops where as many rows were handled as were asked for.
fn end_of_steps<G: Guest>(engine: &Engine<G>, group: Option<u32>) -> Reason
    ensures { (net : Network G) (feed : List External) → StandsIn net feed engine.now →
        result ≡ (if is_from group (slice_get (rows net feed) engine.now.place) then Reason.Group else Reason.Step) }
{
    if is_at_group(engine, group) {
        Reason::Group
    } else {
        Reason::Step
    }
}

/// Handles rows until something stops the run. Appends the lines of the rows that are written, and the stop line.
pub(crate) fn advance<G: Guest, P: Probe>(
    alloc: Global,
    walk: &mut Walk<G, P>,
    routers: &[RouterDef],
    extent: Extent,
    out: &mut Bytes,
) -> Result<(), NoMemory>
    requires { walk.old.engine.header.routers ≡ routers.now }
    ensures header { walk.new.engine.header ≡ walk.old.engine.header }
    ensures breaks { walk.new.breaks.items ≡ walk.old.breaks.items }
    ensures gone { (net : Network G) (feed : List External) → net.guests ≡ G.meaning →
        IsAt net feed walk.old.engine walk.old.latest →
        OnOk result (HasRun net feed walk.old.breaks.items extent walk.old.engine.place (watched P.watcher walk.old.watching) walk.new.engine (watched P.watcher walk.new.watching) walk.new.latest out.old out.new) }
{
    let before = walk.engine.place();
    let reason = go(alloc, walk, routers, extent, out)?;
    push_last(&walk.engine, before, extent.each, routers, out)?;
    push_stop(walk.engine.place(), &reason, out)?;
    Ok(())
}

/// Appends the line of the row handled last, if each row isn't written and there was one since this place.
fn push_last<G: Guest>(
    engine: &Engine<G>,
    before: u64,
    each: bool,
    routers: &[RouterDef],
    out: &mut Bytes,
) -> Result<(), NoMemory>
    ensures { OnOk result (out.new ≡ out.old ++
        row_lines routers.now (last_if each (nat_lt before engine.now.place) engine.now.last)) }
{
    if each || before >= engine.place() {
        return Ok(());
    }
    match engine.last() {
        Some(row) => push_row(out, routers, row),
        None => Ok(()),
    }
}
