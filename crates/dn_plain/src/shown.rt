//! What is told of `Engine`.

ghost use Rattle.std.specs.Prelude.{◌≡◌, length, IfOk};

use crate::engines::{ahead, count_of, handle, node, opening, waiting};
use dn_guest::{Flood, Input, NoMemory};
use dn_lockstep::{Engine, Next};
use dn_model::{Case, Event};
use std::alloc::Global;
use table_program::{Out, push_key};

/// A word, and the key and the router of an event; a dash where there is none.
fn push_event(word: &str, event: Option<&Event>, out: &mut Out) {
    match event {
        Some(event) => {
            push_key(word, &event.key, out);
            out.number(" at ", u64::from(event.router));
        }
        None => {
            out.text(word);
            out.text("-");
        }
    }
    out.text("\n");
}

/// How the rows end: the answer, how many there were, and the next one.
fn push_end(engine: &Engine<Flood>, answer: Next, out: &mut Out) {
    out.text(match answer {
        Next::Row => "= row\n",
        Next::End => "= end\n",
        Next::Cut => "= cut\n",
    });
    out.number("= rows ", engine.place());
    out.text("\n");
    push_event("= next ", ahead(engine), out);
}

/// The rows of the case, and how they end, at most 10,000 of them.
pub(crate) fn push_rows(alloc: Global, case: &Case, out: &mut Out) -> Result<(), NoMemory> {
    let mut engine = opening(alloc, case)?;
    for _row in 0..10_000 {
        match handle(alloc, &mut engine)? {
            Next::Row => push_event("= ", engine.last(), out),
            answer => {
                push_end(&engine, answer, out);
                return Ok(());
            }
        }
    }
    Ok(())
}

/// A message on its way: its key, its router, the port there and the body.
fn push_message(message: &Event, out: &mut Out) {
    push_key("= on its way ", &message.key, out);
    out.number(" to ", u64::from(message.router));
    if let Input::Msg(port, body) = &message.input {
        out.number(" msg ", u64::from(*port));
        out.hex(" ", body.as_slice());
    }
    out.text("\n");
}

/// How many messages each router has sent.
fn push_sends(engine: &Engine<Flood>, count: u16, out: &mut Out)
    requires { count ≡ length engine.now.header.routers }
{
    out.text("= sent");
    for router in 0..count {
        out.number(" ", node(engine, router).sends);
    }
    out.text("\n");
}

/// The messages that are on their way to any router.
fn push_messages(
    alloc: Global,
    engine: &Engine<Flood>,
    count: u16,
    out: &mut Out,
) -> Result<(), NoMemory>
    requires { count ≡ length engine.now.header.routers }
{
    for router in 0..count {
        for message in waiting(alloc, engine, router)?.as_slice() {
            push_message(message, out);
        }
    }
    Ok(())
}

/// The engine of the case after so many rows, or after all of them.
fn after(alloc: Global, case: &Case, rows: u64) -> Result<Engine<Flood>, NoMemory>
    ensures { IfOk result (λ made. made.header ≡ case.now.header) }
{
    let mut engine = opening(alloc, case)?;
    for _row in 0..rows {
        let _answer = handle(alloc, &mut engine)?;
    }
    Ok(engine)
}

/// How the engine of the case is after so many rows: the last row and the next one, how many messages each router has
/// sent, and the messages on their way.
pub(crate) fn push_after(
    alloc: Global,
    case: &Case,
    rows: u64,
    out: &mut Out,
) -> Result<(), NoMemory> {
    let engine = after(alloc, case, rows)?;
    push_event("= last ", engine.last(), out);
    push_event("= next ", ahead(&engine), out);
    push_sends(&engine, count_of(case), out);
    push_messages(alloc, &engine, count_of(case), out)
}
