//! Handling one row: it is noted, shown to the probes, and looked at by breaks and probes.

ghost use Rattle.std.specs.Prelude.{◌≡◌, ◌≤◌, ◌<◌, ◌++◌, [], ◌∷◌, ℕ, List, Some, length, map, slice_get, IfOk, OnOk, option_copied};
ghost use Rattle.dn_model.specs.declared.event.Event.{Event};
ghost use Rattle.dn_model.specs.declared.feed.External.{External};
ghost use Rattle.dn_model.specs.Network.{Network};
ghost use Rattle.dn_model.specs.Settled.{rows};
ghost use Rattle.dn_lockstep.specs.Running.{StandsIn};
ghost use Rattle.dn_trace.specs.Rows.{row_lines};
ghost use Rattle.dn_debug.specs.Watching.{all_told, first_yes, watched};
ghost use Rattle.dn_debug.specs.Steps.{IsTaken, each_of};
ghost use Rattle.dn_debug.specs.Courses.{first_break, stop_by, is_from, show_after};

use crate::latest::Latest;
use crate::reason::Reason;
use crate::watching::Watching;
use dn_command::Break;
use dn_guest::{Bytes, Guest, NoMemory};
use dn_lockstep::Engine;
use dn_model::{Event, RouterDef, Row};
use dn_probe::Probe;
use dn_trace::push_row;
use std::alloc::Global;

/// A run, and what watches it.
#[derive(Drop)]
pub(crate) struct Walk<G: Guest, P: Probe> {
    pub(crate) engine: Engine<G>,
    pub(crate) breaks: Vec<Break>,
    pub(crate) watching: Watching<P>,
    pub(crate) latest: Latest,
}

/// Whether the next row is of this group or a later one.
pub(crate) fn is_at_group<G: Guest>(engine: &Engine<G>, group: Option<u32>) -> bool
    ensures { (net : Network G) (feed : List External) → StandsIn net feed engine.now →
        result ≡ is_from group (slice_get (rows net feed) engine.now.place) }
{
    is_from(group, engine.peek())
}

fn is_from(group: Option<u32>, row: Option<&Event>) -> bool
    ensures { result ≡ is_from group (option_copied row.entry) }
{
    match (group, row) {
        (Some(group), Some(row)) => group <= row.key.group,
        _ => false,
    }
}

/// The number of the first break that matches the row.
pub(crate) fn first_break(breaks: &[Break], row: &Row) -> Option<u64>
    ensures { result ≡ first_break breaks.now row.now }
{
    let mut number = 0u64;
    let mut left = breaks;
    'breaks: while let Some((stop, rest)) = left.split_first() {
        if stop.matches(row) {
            return Some(number);
        }
        number += 1;
        left = rest;
    }
    None
}

/// Why the row stops the run, if it does.
pub(crate) fn stop_by(number: Option<u64>, probe: Option<Bytes>) -> Option<Reason>
    ensures { result ≡ stop_by number probe }
{
    match (number, probe) {
        (Some(number), _) => Some(Reason::Break(number)),
        (None, Some(name)) => Some(Reason::Probe(name)),
        (None, None) => None,
    }
}

/// The show of a router; empty where there is none of that number.
fn show_of<G: Guest>(
    alloc: Global,
    engine: &Engine<G>,
    count: usize,
    router: u16,
) -> Result<Bytes, NoMemory>
    requires { count ≡ length engine.now.header.routers }
    ensures { (net : Network G) (feed : List External) → net.guests ≡ G.meaning → StandsIn net feed engine.now →
        router < length net.header.routers → IfOk result (λ text. text ≡ show_after net feed engine.now.place router) }
{
    if usize::from(router) >= count {
        return Ok(Bytes::new(alloc));
    }
    let node = engine.node(router);
    let mut text = Bytes::new(alloc);
    node.guest.show(alloc, &mut text)?;
    Ok(text)
}

/// Shows the row that the engine handled last to the attached probes, and gives the name of the first that says yes.
/// Without a probe no show is asked for.
fn show_row<G: Guest, P: Probe>(
    alloc: Global,
    engine: &Engine<G>,
    count: usize,
    row: &Row,
    watching: &mut Watching<P>,
) -> Result<Option<Bytes>, NoMemory>
    requires { count ≡ length engine.now.header.routers }
    ensures { (net : Network G) (feed : List External) → net.guests ≡ G.meaning → StandsIn net feed engine.now →
        row.now.router < length net.header.routers →
        let show = show_after net feed engine.now.place row.now.router in
        IfOk result (λ first. (watched P.watcher watching.new ≡ record (watched P.watcher watching.old) { attached = all_told row.now show (map P.watcher watching.old.attached) }) ×
        (first ≡ first_yes row.now show (map P.watcher watching.old.attached))) }
{
    if watching.is_idle() {
        return Ok(None);
    }
    let show = show_of(alloc, engine, count, row.router)?;
    watching.show(alloc, row, show.as_slice())
}

/// What is done with the row that the engine handled last: it is written if each is, noted, and shown. Gives why it
/// stops the run, if it does.
pub(crate) fn take_row<G: Guest, P: Probe>(
    alloc: Global,
    walk: &mut Walk<G, P>,
    routers: &[RouterDef],
    each: bool,
    out: &mut Bytes,
) -> Result<Option<Reason>, NoMemory>
    requires { walk.old.engine.header.routers ≡ routers.now }
    ensures engine { walk.new.engine ≡ walk.old.engine }
    ensures breaks { walk.new.breaks.items ≡ walk.old.breaks.items }
    ensures taken { (net : Network G) (feed : List External) (row : Event) → net.guests ≡ G.meaning →
        StandsIn net feed walk.old.engine → row.router < length net.header.routers → walk.old.engine.last ≡ Some row →
        IfOk result (λ stop. IsTaken net feed walk.old.breaks.items walk.old.engine.place row (watched P.watcher walk.old.watching) walk.old.latest stop (watched P.watcher walk.new.watching) walk.new.latest) }
    ensures text { (row : Event) → walk.old.engine.last ≡ Some row →
        OnOk result (out.new ≡ out.old ++ row_lines routers.now (each_of each (row ∷ []))) }
{
    let Some(row) = walk.engine.last() else {
        return Ok(None);
    };
    if each {
        push_row(out, routers, row)?;
    }
    walk.latest.note(row.copy(alloc)?);
    let probe = show_row(alloc, &walk.engine, routers.len(), row, &mut walk.watching)?;
    Ok(stop_by(first_break(walk.breaks.as_slice(), row), probe))
}
