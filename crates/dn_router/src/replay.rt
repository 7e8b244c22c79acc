//! What a replay emits.

ghost use Rattle.std.specs.Prelude.{◌≡◌, ◌<◌, IfOk};
ghost use Rattle.dn_router.specs.Replays.{emitted_over};

use dn_guest::{Guest, NoMemory, Node};
use dn_model::{End, Event, Timing, emitted_by};
use std::alloc::Global;

/// All events that the steps of these events emit, in order, beginning at this node.
pub(crate) fn emitted_over<G: Guest>(
    alloc: Global,
    opening: Node<G>,
    timing: &Timing,
    ends: &[End],
    events: &[Event],
) -> Result<Vec<Event>, NoMemory>
    requires { 0 < timing.now.period }
    ensures { IfOk result (λ emitted. emitted.items ≡ emitted_over G.meaning timing.now ends.now opening events.now) }
{
    let mut node = opening;
    let mut emitted = Vec::new(alloc);
    for event in events {
        let sent = node.take(alloc, &event.input)?;
        let mut more = emitted_by(alloc, timing, ends, event, sent)?;
        emitted.append(&mut more)?;
    }
    Ok(emitted)
}
