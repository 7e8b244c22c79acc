//! Both engines of a case, and what the others ask of `Engine`.

ghost use Rattle.std.specs.Prelude.{◌≡◌, ◌<◌, length, IfOk};

use crate::plain::PlainEngine;
use dn_guest::{Flood, NoMemory, Node};
use dn_lockstep::{Engine, Next};
use dn_model::{Case, Event};
use std::alloc::Global;
use table_program::flooding_guests;

/// The engine of the case before its first row. All of its routers flood.
pub(crate) fn opening(alloc: Global, case: &Case) -> Result<Engine<Flood>, NoMemory>
    ensures { IfOk result (λ made. made.header ≡ case.now.header) }
{
    let count = case.header.routers.as_slice().len();
    Engine::new(alloc, case, flooding_guests(alloc, count)?)
}

/// The plain engine of the case before its first row.
pub(crate) fn plain_opening(alloc: Global, case: &Case) -> Result<PlainEngine<Flood>, NoMemory> {
    let count = case.header.routers.as_slice().len();
    PlainEngine::new(alloc, case, flooding_guests(alloc, count)?)
}

/// How many routers the case has.
pub(crate) fn count_of(case: &Case) -> u16
    ensures { result ≡ length case.now.header.routers }
{
    case.header.routers.as_slice().len() as u16
}

/// Handles the next row, if there is one.
pub(crate) fn handle(alloc: Global, engine: &mut Engine<Flood>) -> Result<Next, NoMemory>
    ensures { engine.new.header ≡ engine.old.header }
{
    engine.next(alloc)
}

/// Handles the next row in the plain engine, if there is one.
pub(crate) fn handle_plainly(
    alloc: Global,
    plain: &mut PlainEngine<Flood>,
) -> Result<Next, NoMemory> {
    plain.next(alloc)
}

/// The next row.
pub(crate) fn ahead(engine: &Engine<Flood>) -> Option<&Event> {
    engine.peek()
}

/// The router's node.
pub(crate) fn node(engine: &Engine<Flood>, router: u16) -> &Node<Flood>
    requires { router < length engine.now.header.routers }
{
    engine.node(router)
}

/// The messages to a router that are on their way, in order.
pub(crate) fn waiting(
    alloc: Global,
    engine: &Engine<Flood>,
    router: u16,
) -> Result<Vec<Event>, NoMemory>
    requires { router < length engine.now.header.routers }
{
    engine.waiting(alloc, router)
}
