//! What a step emits: the messages that its numbered outputs become.

ghost use Rattle.std.specs.Prelude.{◌≡◌, ◌<◌, ◌≤◌, slice_get, length, IfOk};
ghost use Rattle.dn_model.specs.Links.{ends, ports_of};
ghost use Rattle.dn_model.specs.Network.{message_at, emitted_by, emitted};

use crate::link::ends_of;
use crate::optional::push_some;
use crate::{End, Event, Header, Timing};
use dn_guest::{Input, NoMemory, Sent};
use std::alloc::Global;

/// The far ends of a router's ports, in the order of the ports, with the links' delays and costs.
#[tactic(auto, using(crate::proofs::Ports::ends_length))]
pub fn ends(alloc: Global, header: &Header, router: u16) -> Result<Vec<End>, NoMemory>
    requires { router < length header.now.routers }
    ensures ends { IfOk result (λ made. made.items ≡ ends header.now.links router) }
    ensures ports { IfOk result (λ made. length made.items ≡ ports_of header.now.links router) }
    ensures few { IfOk result (λ made. length made.items ≤ 16) }
{
    ends_of(alloc, header.links.as_slice(), router)
}

/// The message that a numbered output of the cause becomes, with the far ends of its router's ports:
/// None where no link is at the port, or where the message would come after the last group. The body is
/// moved, and no memory is taken.
#[tactic(auto, unfolding(crate::specs::Network::message_at, crate::specs::Network::message_with))]
pub fn message(timing: &Timing, ends: &[End], cause: &Event, sent: Sent) -> Option<Event>
    requires { 0 < timing.now.period }
    ensures { result ≡ message_at timing.now cause.now sent (slice_get ends.now sent.port) }
{
    let end = ends.get(usize::from(sent.port))?;
    let key = timing.next_key(&cause.key, end.delay, cause.router, sent.seq)?;
    Some(Event {
        key,
        router: end.router,
        input: Input::Msg(end.port, sent.body),
    })
}

/// The events that the numbered outputs of the cause become, in order, without those that are discarded.
#[tactic(auto, unfolding(crate::specs::Network::emitted_by))]
pub fn emitted_by(
    alloc: Global,
    timing: &Timing,
    ends: &[End],
    cause: &Event,
    sent: Vec<Sent>,
) -> Result<Vec<Event>, NoMemory>
    requires { 0 < timing.now.period }
    ensures { IfOk result (λ events. events.items ≡ emitted_by timing.now ends.now cause.now sent.items) }
{
    let mut events = Vec::new(alloc);
    for output in sent {
        push_some(&mut events, message(timing, ends, cause, output))?;
    }
    Ok(events)
}

/// The same in a network, from borrowed outputs.
#[tactic(auto, unfolding(crate::specs::Network::emitted))]
pub fn emitted(
    alloc: Global,
    header: &Header,
    cause: &Event,
    sent: &[Sent],
) -> Result<Vec<Event>, NoMemory>
    requires { cause.now.router < length header.now.routers }
    ensures { IfOk result (λ events. events.items ≡ emitted header.now cause.now sent.now) }
{
    let ends = ends(alloc, header, cause.router)?;
    let sent = copies(alloc, sent)?;
    emitted_by(alloc, &header.timing(), ends.as_slice(), cause, sent)
}

/// Copies of the outputs.
fn copies(alloc: Global, sent: &[Sent]) -> Result<Vec<Sent>, NoMemory>
    ensures { IfOk result (λ made. made.items ≡ sent.now) }
{
    let mut made = Vec::new(alloc);
    for output in sent {
        made.push(Sent {
            seq: output.seq,
            port: output.port,
            body: output.body.copy(alloc)?,
        })?;
    }
    Ok(made)
}
