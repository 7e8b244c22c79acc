//! The events to handle.

ghost use Rattle.std.specs.Prelude.{◌≡◌, [], OnOk, OnErr, IfOk, slice_get, option_copied, drop, map, ◌++◌};
ghost use Rattle.dn_lists.specs.InOrder.{put_in_order};
ghost use Rattle.dn_model.specs.Order.{event_cmp};
ghost use Rattle.dn_world.specs.World.{stands, without};

use crate::ordered::Ordered;
use dn_guest::NoMemory;
use dn_model::{Event, Key};
use std::alloc::Global;
use std::collections::BTreeSet;
use std::marker::Model;

/// Events in order, of which there may be many. The set has each of them once, and `again` what stands
/// there more than once: an event that is sent, unsent and sent again may do so while its unsend is on the
/// way.
#[derive(Drop)]
pub(crate) struct Todo {
    first: BTreeSet<Event>,
    again: Ordered,
}

impl Model for Todo {
    ghost use Rattle.std.specs.Prelude.{List};
    ghost use Rattle.dn_model.specs.declared.event.Event.{Event};
    ghost use Rattle.dn_queue.specs.Todos.{all_todo, IsFronted};

    ghost Value = { List Event };

    ghost view = { λ t. all_todo t.first.keys t.again };

    ghost invariant = { λ t. IsFronted t.first.keys t.again };
}

impl Todo {
    /// No events. It takes no memory.
    pub(crate) fn new(alloc: Global) -> Todo
        ensures { result ≡ [] }
    {
        Todo {
            first: BTreeSet::new(alloc),
            again: Ordered::new(alloc),
        }
    }

    /// One event more, at its place.
    pub(crate) fn put(&mut self, event: Event) -> Result<(), NoMemory>
        ensures ok { OnOk result (self.new ≡ put_in_order event_cmp event self.old) }
        ensures err { OnErr result (self.new ≡ self.old) }
    {
        if self.first.contains(&event) {
            return self.again.put(event);
        }
        self.first.insert(event)?;
        Ok(())
    }

    /// Takes the event out, once, and answers whether it was there.
    pub(crate) fn take_out(&mut self, event: &Event) -> bool
        ensures stands { result ≡ stands event.now self.old }
        ensures rest { self.new ≡ without event.now self.old }
    {
        if self.again.take(event).is_some() {
            return true;
        }
        self.first.remove(event)
    }

    /// The least event. None exactly where there is none.
    pub(crate) fn least(&self) -> Option<&Event>
        ensures { option_copied result ≡ slice_get self.now 0 }
    {
        self.first.first()
    }

    /// Takes the least event out. None exactly where there is none.
    pub(crate) fn take_least(&mut self) -> Option<Event>
        ensures least { result ≡ slice_get self.old 0 }
        ensures rest { self.new ≡ drop 1 self.old }
    {
        let least = self.first.first()?;
        if let Some(event) = self.again.take(least) {
            return Some(event);
        }
        self.first.pop_first()
    }

    /// The keys of the events, in order.
    pub(crate) fn keys(&self, alloc: Global) -> Result<Vec<Key>, NoMemory>
        ensures { IfOk result (λ keys. keys.items ≡ map (λ e. e.key) self.now) }
    {
        let mut keys = set_keys(alloc, &self.first)?;
        push_keys(self.again.as_slice(), &mut keys)?;
        keys.sort()?;
        Ok(keys)
    }
}

/// The keys of the events, at the end.
fn push_keys(events: &[Event], keys: &mut Vec<Key>) -> Result<(), NoMemory>
    ensures { OnOk result (keys.new.items ≡ keys.old.items ++ map (λ e. e.key) events.now) }
{
    for event in events {
        keys.push(event.key)?;
    }
    Ok(())
}

/// The keys of the events of a set, in order.
fn set_keys(alloc: Global, events: &BTreeSet<Event>) -> Result<Vec<Key>, NoMemory>
    ensures { IfOk result (λ keys. keys.items ≡ map (λ e. e.key) events.now.keys) }
{
    let mut keys = Vec::new(alloc);
    for event in events.iter() {
        keys.push(event.key)?;
    }
    Ok(keys)
}
