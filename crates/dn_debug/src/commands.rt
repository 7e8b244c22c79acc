//! What each command does.

ghost use Rattle.std.specs.Prelude.{◌≡◌, ◌<◌, ◌∷◌, ◌++◌, [], List, length, OnOk};
ghost use Rattle.dn_model.specs.declared.feed.External.{External};
ghost use Rattle.dn_model.specs.Network.{Network, state};
ghost use Rattle.dn_model.specs.SoFar.{by_router};
ghost use Rattle.dn_lockstep.specs.Running.{StandsIn, first_rows};
ghost use Rattle.dn_command.specs.Spelling.{CanBeAsked};
ghost use Rattle.dn_debug.specs.Watching.{watched};
ghost use Rattle.dn_debug.specs.Lines.{break_line, node_text};
ghost use Rattle.dn_debug.specs.Situations.{IsAt, situation};
ghost use Rattle.dn_debug.specs.Replying.{HasWatched, HasUnwatched, IsListed, HasAnswered};

use crate::extent::Extent;
use crate::latest::push_rows;
use crate::lines::{push_break, push_node, push_place, push_unknown, push_waiting, push_watch};
use crate::running::advance;
use crate::walk::Walk;
use crate::watching::Watching;
use dn_command::{Break, Command};
use dn_guest::{Bytes, Guest, NoMemory};
use dn_lockstep::Engine;
use dn_model::{Header, RouterDef};
use dn_probe::Probe;
use std::alloc::Global;

/// More rows than any run shows.
const ALL_ROWS: u64 = 200_001;

/// Sets a further break, and appends its number.
fn set_break(breaks: &mut Vec<Break>, stop: Break, out: &mut Bytes) -> Result<(), NoMemory>
    ensures breaks { OnOk result (breaks.new.items ≡ breaks.old.items ++ stop ∷ []) }
    ensures text { OnOk result (out.new ≡ out.old ++ break_line (length breaks.old.items)) }
{
    let number = breaks.len() as u64;
    breaks.push(stop)?;
    push_break(number, out)?;
    Ok(())
}

/// Attaches the first probe of the name that is there, and appends the answer.
fn watch<P: Probe>(
    alloc: Global,
    watching: &mut Watching<P>,
    header: &Header,
    name: &[u8],
    out: &mut Bytes,
) -> Result<(), NoMemory>
    ensures { OnOk result (HasWatched header.now name.now (watched P.watcher watching.old) (watched P.watcher watching.new) out.old out.new) }
{
    if watching.attach(alloc, header, name)? {
        push_watch(name, out)?;
        return Ok(());
    }
    push_unknown(out)?;
    Ok(())
}

/// Drops the first attached probe of the name, and appends its report.
fn unwatch<P: Probe>(
    watching: &mut Watching<P>,
    name: &[u8],
    out: &mut Bytes,
) -> Result<(), NoMemory>
    ensures { OnOk result (HasUnwatched name.now (watched P.watcher watching.old) (watched P.watcher watching.new) out.old out.new) }
{
    if watching.unwatch(name, out)? {
        return Ok(());
    }
    push_unknown(out)?;
    Ok(())
}

/// Appends how the router is now.
fn show<G: Guest>(
    alloc: Global,
    engine: &Engine<G>,
    routers: &[RouterDef],
    router: u16,
    out: &mut Bytes,
) -> Result<(), NoMemory>
    requires { router < length engine.now.header.routers }
    ensures { (net : Network G) (feed : List External) → StandsIn net feed engine.now →
        OnOk result (out.new ≡ out.old ++ node_text G.meaning routers.now router (state net router (by_router (first_rows net feed engine.now.place) router))) }
{
    push_node(alloc, routers, router, engine.node(router), out)?;
    Ok(())
}

/// Appends what waits at the router.
fn queue<G: Guest>(
    alloc: Global,
    engine: &Engine<G>,
    routers: &[RouterDef],
    router: u16,
    out: &mut Bytes,
) -> Result<(), NoMemory>
    requires { router < length engine.now.header.routers }
    ensures { (net : Network G) (feed : List External) → StandsIn net feed engine.now →
        OnOk result (IsListed net feed engine.now.place router routers.now out.old out.new) }
{
    let found = engine.waiting(alloc, router)?;
    push_rows(found.as_slice(), routers, out)?;
    push_waiting(found.len() as u64, out)?;
    Ok(())
}

/// Does what the command asks for, and appends the answer.
pub(crate) fn answer_command<G: Guest, P: Probe>(
    alloc: Global,
    walk: &mut Walk<G, P>,
    header: &Header,
    command: Command,
    out: &mut Bytes,
) -> Result<(), NoMemory>
    requires same { walk.old.engine.header ≡ header.now }
    requires asked { CanBeAsked header.now.routers command }
    ensures header { walk.new.engine.header ≡ walk.old.engine.header }
    ensures answered { (net : Network G) (feed : List External) → net.guests ≡ G.meaning →
        IsAt net feed walk.old.engine walk.old.latest →
        OnOk result (HasAnswered net feed (situation walk.old.engine.place walk.old.breaks.items (watched P.watcher walk.old.watching)) command walk.new.engine walk.new.latest (situation walk.new.engine.place walk.new.breaks.items (watched P.watcher walk.new.watching)) out.old out.new) }
{
    let routers = header.routers.as_slice();
    match command {
        Command::Step(most) => {
            let extent = Extent {
                most,
                group: None,
                each: true,
            };
            advance(alloc, walk, routers, extent, out)?;
            Ok(())
        }
        Command::Run => {
            let extent = Extent {
                most: ALL_ROWS,
                group: None,
                each: false,
            };
            advance(alloc, walk, routers, extent, out)?;
            Ok(())
        }
        Command::Until(group) => {
            let extent = Extent {
                most: ALL_ROWS,
                group: Some(group),
                each: false,
            };
            advance(alloc, walk, routers, extent, out)?;
            Ok(())
        }
        Command::Break(stop) => {
            set_break(&mut walk.breaks, stop, out)?;
            Ok(())
        }
        Command::Watch(name) => {
            watch(alloc, &mut walk.watching, header, name.as_slice(), out)?;
            Ok(())
        }
        Command::Unwatch(name) => {
            unwatch(&mut walk.watching, name.as_slice(), out)?;
            Ok(())
        }
        Command::Show(router) => {
            show(alloc, &walk.engine, routers, router, out)?;
            Ok(())
        }
        Command::Queue(router) => {
            queue(alloc, &walk.engine, routers, router, out)?;
            Ok(())
        }
        Command::Where => {
            push_place(walk.engine.place(), out)?;
            Ok(())
        }
        Command::Last => {
            walk.latest.push_lines(routers, out)?;
            Ok(())
        }
        Command::Quit => Ok(()),
    }
}
