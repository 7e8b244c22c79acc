//! The agenda of a run: the events that wait. The ticks of a group go into the queue when the group
//! begins, so that the queue stays short.

ghost use Rattle.std.specs.Prelude.{◌≡◌, ◌↔◌, ◌<◌, IsTrue, [], ◌∷◌, ◌++◌, true, length, IfOk, IfSome, IfNone, OnOk, OnErr};
ghost use Rattle.std.specs.List.Sorted.{IsPermutation};
ghost use Rattle.dn_model.specs.Network.{externals};
ghost use Rattle.dn_model.specs.SoFar.{by_router};
ghost use Rattle.dn_lockstep.specs.Running.{messages};
ghost use Rattle.dn_lockstep.specs.Least.{IsLeast, IsUpTo};
ghost use Rattle.dn_lockstep.specs.Agendas.{waiting_in, count_before, group_ticks, later_ticks, IsFronted};

use crate::queue::EventQueue;
use dn_guest::NoMemory;
use dn_model::{Event, External, Header};
use std::alloc::Global;
use std::marker::Model;

/// The events that wait: those in the queue, and the ticks of the groups that have not begun.
#[derive(Drop)]
pub(crate) struct Agenda {
    queue: EventQueue,
    /// The next group to begin, and how many are left from it on.
    group: u32,
    left: u32,
    routers: u16,
}

impl Model for Agenda {
    ghost use Rattle.std.specs.Prelude.{◌+◌, ◌<◌, ◌^◌};
    ghost use Rattle.dn_lockstep.specs.Agendas.{Plan};

    ghost Value = { Plan };

    ghost view = { λ a. record { queue = a.queue; group = a.group; left = a.left; routers = a.routers } };

    ghost invariant = { λ a. (a.group + a.left < 2 ^ 32) × (0 < a.routers) };
}

impl Agenda {
    /// All that is injected.
    pub(crate) fn new(alloc: Global, header: &Header, feed: &[External]) -> Result<Agenda, NoMemory>
        ensures fronted { IfOk result (λ made. IsFronted made) }
        ensures all { IfOk result (λ made. IsPermutation (externals 0 feed.now ++
            later_ticks 0 header.now.groups (length header.now.routers)) (waiting_in made)) }
    {
        let mut made = Agenda {
            queue: queued_externals(alloc, feed)?,
            group: 0,
            left: header.groups,
            routers: header.routers.as_slice().len() as u16,
        };
        made.refill()?;
        Ok(made)
    }

    /// Whether nothing waits.
    pub(crate) fn is_empty(&self) -> bool
        ensures { IsFronted self.now → IsTrue result ↔ (waiting_in self.now ≡ []) }
    {
        self.queue.is_empty()
    }

    /// The least event. None exactly where nothing waits.
    pub(crate) fn peek(&self) -> Option<&Event>
        ensures least { IfSome result (λ event. IsFronted self.now → IsLeast event.now (waiting_in self.now)) }
        ensures none { IfNone result (IsFronted self.now → waiting_in self.now ≡ []) }
    {
        self.queue.peek()
    }

    /// Takes the least event out. None exactly where nothing waits.
    pub(crate) fn pop(&mut self) -> Option<Event>
        ensures taken { IfSome result (λ event. IsPermutation (waiting_in self.old) (event ∷ waiting_in self.new)) }
        ensures first { IfSome result (λ event. IsFronted self.old → IsUpTo event (waiting_in self.new)) }
        ensures none { IfNone result (IsFronted self.old → waiting_in self.old ≡ []) }
    {
        self.queue.pop()
    }

    /// One event more.
    pub(crate) fn push(&mut self, event: Event) -> Result<(), NoMemory>
        ensures { OnOk result (IsPermutation (event ∷ waiting_in self.old) (waiting_in self.new)) }
    {
        self.queue.push(event)
    }

    /// Copies of the messages to a router that wait, in no particular order.
    pub(crate) fn messages_to(&self, alloc: Global, router: u16) -> Result<Vec<Event>, NoMemory>
        ensures { IfOk result (λ found. found.items ≡ messages (by_router (waiting_in self.now) router)) }
    {
        self.queue.messages_to(alloc, router)
    }

    /// Begins the next group, unless an event of an earlier group waits.
    pub(crate) fn refill(&mut self) -> Result<(), NoMemory>
        ensures fronted { OnOk result (IsFronted self.new) }
        ensures same { OnOk result (IsPermutation (waiting_in self.old) (waiting_in self.new)) }
    {
        if self.left == 0 || self.has_begun() {
            return Ok(());
        }
        self.begin_group()
    }

    /// Whether an event of an earlier group than the next is in the queue.
    fn has_begun(&self) -> bool
        ensures { IsTrue result ↔ (0 < count_before self.now.group self.now.queue) }
    {
        self.queue.has_before(self.group)
    }

    /// Puts the ticks of the next group into the queue.
    fn begin_group(&mut self) -> Result<(), NoMemory>
        requires { 0 < self.old.left }
        ensures fronted { OnOk result (IsFronted self.new) }
        ensures same { OnOk result (IsPermutation (waiting_in self.old) (waiting_in self.new)) }
    {
        push_ticks(&mut self.queue, self.group, self.routers)?;
        self.left -= 1;
        self.group += 1;
        Ok(())
    }
}

/// Puts a group's ticks at so many routers into the queue.
fn push_ticks(queue: &mut EventQueue, group: u32, routers: u16) -> Result<(), NoMemory>
    ensures { OnOk result (IsPermutation (queue.old ++ group_ticks group routers) queue.new) }
{
    for router in 0..routers {
        queue.push(Event::tick(group, router))?;
    }
    Ok(())
}

/// The externals of a feed in a queue.
fn queued_externals(alloc: Global, feed: &[External]) -> Result<EventQueue, NoMemory>
    ensures { IfOk result (λ made. IsPermutation (externals 0 feed.now) made) }
{
    let mut made = EventQueue::new(alloc);
    for (place, item) in feed.iter().enumerate() {
        made.push(Event::external(alloc, place as u64, item)?)?;
    }
    Ok(made)
}
