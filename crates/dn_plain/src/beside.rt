//! Both engines beside each other.

ghost use Rattle.std.specs.Prelude.{◌≡◌, ◌<◌, length};

use crate::engines::{
    ahead, count_of, handle, handle_plainly, node, opening, plain_opening, waiting,
};
use crate::plain::PlainEngine;
use dn_guest::{Flood, NoMemory};
use dn_lockstep::{Engine, Next};
use dn_model::{Case, Event};
use std::alloc::Global;

/// Whether both are None or the same event.
fn same_event(one: Option<&Event>, other: Option<&Event>) -> bool {
    match (one, other) {
        (None, None) => true,
        (Some(one), Some(other)) => one == other,
        _ => false,
    }
}

/// Whether both answers are the same.
fn same_answer(one: Next, other: Next) -> bool {
    matches!(
        (one, other),
        (Next::Row, Next::Row) | (Next::End, Next::End) | (Next::Cut, Next::Cut)
    )
}

/// Whether both have the same messages on their way to the router.
fn same_messages(
    alloc: Global,
    engine: &Engine<Flood>,
    plain: &PlainEngine<Flood>,
    router: u16,
) -> Result<bool, NoMemory>
    requires { router < length engine.now.header.routers }
{
    let one = waiting(alloc, engine, router)?;
    let other = plain.waiting(alloc, router)?;
    Ok(one.as_slice() == other.as_slice())
}

/// Whether both have the same messages on their way.
fn same_flight(
    alloc: Global,
    engine: &Engine<Flood>,
    plain: &PlainEngine<Flood>,
    count: u16,
) -> Result<bool, NoMemory>
    requires { count ≡ length engine.now.header.routers }
{
    for router in 0..count {
        if !same_messages(alloc, engine, plain, router)? {
            return Ok(false);
        }
    }
    Ok(true)
}

/// Whether both have the same last row and the same next one.
fn same_rows(engine: &Engine<Flood>, plain: &PlainEngine<Flood>) -> bool {
    same_event(engine.last(), plain.last()) && same_event(ahead(engine), plain.peek())
}

/// Whether both have the same node of the router.
fn same_node(engine: &Engine<Flood>, plain: &PlainEngine<Flood>, router: u16) -> bool
    requires { router < length engine.now.header.routers }
{
    match plain.nodes().get(usize::from(router)) {
        Some(other) => node(engine, router).same(other),
        None => false,
    }
}

/// Whether both have the same nodes.
fn same_nodes(engine: &Engine<Flood>, plain: &PlainEngine<Flood>, count: u16) -> bool
    requires { count ≡ length engine.now.header.routers }
{
    for router in 0..count {
        if !same_node(engine, plain, router) {
            return false;
        }
    }
    true
}

/// Lets both handle a row, and gives the answer. None where they differ then.
fn next_of_both(
    alloc: Global,
    engine: &mut Engine<Flood>,
    plain: &mut PlainEngine<Flood>,
    count: u16,
) -> Result<Option<Next>, NoMemory>
    requires { count ≡ length engine.old.header.routers }
    ensures { engine.new.header ≡ engine.old.header }
{
    let answer = handle(alloc, engine)?;
    let other = handle_plainly(alloc, plain)?;
    let alike = same_answer(answer, other)
        && same_rows(engine, plain)
        && same_flight(alloc, engine, plain, count)?;
    Ok(if alike { Some(answer) } else { None })
}

/// Whether both do the same up to the end, in fewer than 10,000 rows.
fn do_the_same(
    alloc: Global,
    engine: &mut Engine<Flood>,
    plain: &mut PlainEngine<Flood>,
    count: u16,
) -> Result<bool, NoMemory>
    requires { count ≡ length engine.old.header.routers }
{
    for _row in 0..10_000 {
        match next_of_both(alloc, engine, plain, count)? {
            Some(Next::Row) => {}
            Some(Next::End) => return Ok(same_nodes(engine, plain, count)),
            _ => return Ok(false),
        }
    }
    Ok(false)
}

/// How many rows both engines have handled, if they do the same on the case up to its end.
pub(crate) fn rows_of_both(alloc: Global, case: &Case) -> Result<Option<u64>, NoMemory> {
    let mut engine = opening(alloc, case)?;
    let mut plain = plain_opening(alloc, case)?;
    let alike = do_the_same(alloc, &mut engine, &mut plain, count_of(case))?;
    Ok(if alike { Some(engine.place()) } else { None })
}
