//! One step of a run: the least event is taken by its router's node, and what it emits waits too.

ghost use Rattle.std.specs.Prelude.{◌≡◌, ◌≢◌, ◌<◌, [], ◌∷◌, ◌++◌, length, IfOk, OnOk};
ghost use Rattle.std.specs.List.Sorted.{IsPermutation};
ghost use Rattle.dn_model.specs.Network.{emitted_by};
ghost use Rattle.dn_lockstep.specs.Least.{IsUpTo};
ghost use Rattle.dn_lockstep.specs.Agendas.{waiting_in, IsFronted};
ghost use Rattle.dn_lockstep.specs.Wirings.{all_ends};
ghost use Rattle.dn_lockstep.specs.Steps.{AreInside, IsHandled};

use crate::agenda::Agenda;
use crate::wiring::Wiring;
use dn_guest::{Guest, NoMemory, Node, Sent};
use dn_model::{End, Event, Header, Timing, message};
use std::alloc::Global;

/// Handles the least event that waits, and gives it.
pub(crate) fn handle_least<G: Guest>(
    alloc: Global,
    header: &Header,
    wiring: &Wiring,
    nodes: &mut [Node<G>],
    agenda: &mut Agenda,
) -> Result<Event, NoMemory>
    requires wired { wiring.now ≡ all_ends header.now.links (length header.now.routers) }
    requires one_each { length nodes.old ≡ length header.now.routers }
    requires inside { AreInside (length header.now.routers) (waiting_in agenda.old) }
    requires fronted { IsFronted agenda.old }
    requires more { waiting_in agenda.old ≢ [] }
    ensures handled { IfOk result (λ event. IsHandled G.meaning header.now nodes.old
        (waiting_in agenda.old) event nodes.new (waiting_in agenda.new)) }
    ensures fronted { OnOk result (IsFronted agenda.new) }
{
    let event = least(agenda);
    let sent = nodes[usize::from(event.router)].take(alloc, &event.input)?;
    send(
        &header.timing(),
        wiring.of(event.router),
        &event,
        sent,
        agenda,
    )?;
    agenda.refill()?;
    Ok(event)
}

/// Takes the least event that waits.
fn least(agenda: &mut Agenda) -> Event
    requires fronted { IsFronted agenda.old }
    requires more { waiting_in agenda.old ≢ [] }
    ensures among { IsPermutation (waiting_in agenda.old) (result ∷ waiting_in agenda.new) }
    ensures first { IsUpTo result (waiting_in agenda.new) }
{
    match agenda.pop() {
        Some(event) => event,
        None => unreachable!(),
    }
}

/// Puts the messages into the agenda that the numbered outputs of the cause become.
fn send(
    timing: &Timing,
    ends: &[End],
    cause: &Event,
    sent: Vec<Sent>,
    agenda: &mut Agenda,
) -> Result<(), NoMemory>
    requires { 0 < timing.now.period }
    ensures { OnOk result (IsPermutation (waiting_in agenda.old ++
        emitted_by timing.now ends.now cause.now sent.items) (waiting_in agenda.new)) }
{
    for output in sent {
        if let Some(event) = message(timing, ends, cause, output) {
            agenda.push(event)?;
        }
    }
    Ok(())
}
