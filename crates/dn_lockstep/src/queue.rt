//! The queue of events, of which the least comes first.

ghost use Rattle.std.specs.Prelude.{◌≡◌, ◌↔◌, ◌<◌, [], ◌∷◌, IsTrue, IfSome, IfOk, IfNone, OnOk, OnErr};
ghost use Rattle.std.specs.List.Sorted.{IsPermutation};
ghost use Rattle.dn_model.specs.SoFar.{by_router};
ghost use Rattle.dn_lockstep.specs.Running.{messages};
ghost use Rattle.dn_lockstep.specs.Least.{IsLeast, IsUpTo};
ghost use Rattle.dn_lockstep.specs.Agendas.{count_before};
ghost use Rattle.dn_lockstep.specs.Queues.{is_before_first};

use crate::later::{Later, push_messages};
use crate::queued::{Queued, event_order};
use dn_guest::NoMemory;
use dn_model::Event;
use std::alloc::Global;
use std::marker::Model;

/// Events of which the least is at hand. Contracts see them as a list, in no particular order.
///
/// Most events wait by their moments, unsorted. Those of the first moment are sorted once, when the first
/// of them is taken.
#[derive(Drop)]
pub(crate) struct EventQueue {
    /// The events of the moment that is being taken, falling: the least of all is the last.
    first: Vec<Queued>,
    /// The other events. None of them stands before one of `first`.
    later: Later,
}

impl Model for EventQueue {
    ghost use Rattle.std.specs.Prelude.{List, ◌++◌};
    ghost use Rattle.dn_model.specs.declared.event.Event.{Event};
    ghost use Rattle.dn_lockstep.specs.Queues.{queued_events, IsQueue};

    ghost Value = { List Event };

    ghost view = { λ q. queued_events q.first.items ++ q.later };

    ghost invariant = { λ q. IsQueue q.first.items q.later };
}

impl EventQueue {
    /// An empty queue. It takes no memory.
    pub(crate) fn new(alloc: Global) -> EventQueue
        ensures { result ≡ [] }
    {
        EventQueue {
            first: Vec::new(alloc),
            later: Later::new(alloc),
        }
    }

    /// Whether there is no event.
    pub(crate) fn is_empty(&self) -> bool
        ensures { IsTrue result ↔ (self.now ≡ []) }
    {
        self.first.is_empty() && self.later.is_empty()
    }

    /// One event more. In a run none comes at the moment that is being taken or before it, so that
    /// nothing is sorted twice.
    pub(crate) fn push(&mut self, event: Event) -> Result<(), NoMemory>
        ensures ok { OnOk result (IsPermutation (event ∷ self.old) self.new) }
        ensures err { OnErr result (self.new ≡ self.old) }
    {
        if is_before_first(&event, self.first.as_slice()) {
            self.first.push(Queued { event })?;
            self.first.sort_unstable();
            Ok(())
        } else {
            self.later.push(event)
        }
    }

    /// The least event: None exactly where there is none.
    pub(crate) fn peek(&self) -> Option<&Event>
        ensures least { IfSome result (λ event. IsLeast event.now self.now) }
        ensures none { IfNone result (self.now ≡ []) }
    {
        match self.first.as_slice().last() {
            Some(least) => Some(&least.event),
            None => self.later.peek(),
        }
    }

    /// Whether an event of an earlier group is there.
    pub(crate) fn has_before(&self, group: u32) -> bool
        ensures { IsTrue result ↔ (0 < count_before group self.now) }
    {
        match self.first.as_slice().last() {
            Some(least) => least.event.key.group < group,
            None => self.later.has_before(group),
        }
    }

    /// Takes the least event out: None exactly where there is none.
    pub(crate) fn pop(&mut self) -> Option<Event>
        ensures taken { IfSome result (λ event. IsPermutation self.old (event ∷ self.new)) }
        ensures first { IfSome result (λ event. IsUpTo event self.new) }
        ensures none { IfNone result ((self.old ≡ []) × (self.new ≡ [])) }
    {
        if let Some(least) = self.first.pop() {
            return Some(least.event);
        }
        let mut first = self.later.take_first()?;
        first.sort_unstable();
        let least = first.pop()?;
        self.first = first;
        Some(least.event)
    }

    /// Copies of the messages to a router, in the queue's order.
    pub(crate) fn messages_to(&self, alloc: Global, router: u16) -> Result<Vec<Event>, NoMemory>
        ensures { IfOk result (λ found. found.items ≡ messages (by_router self.now router)) }
    {
        let mut found = Vec::new(alloc);
        push_messages(alloc, router, self.first.as_slice(), &mut found)?;
        self.later.push_messages(alloc, router, &mut found)?;
        Ok(found)
    }
}

/// Whether the event stands before the first, and so the greatest, of these that fall.
fn is_before_first(event: &Event, falling: &[Queued]) -> bool
    ensures { result ≡ is_before_first event.now falling.now }
{
    match falling.first() {
        Some(greatest) => event_order(event, &greatest.event).is_lt(),
        None => false,
    }
}
