//! A few events, in order.

ghost use Rattle.std.specs.Prelude.{◌≡◌, [], OnOk, OnErr, IfSome, is_some};
ghost use Rattle.dn_lists.specs.InOrder.{put_in_order};
ghost use Rattle.dn_model.specs.Order.{event_cmp};
ghost use Rattle.dn_world.specs.World.{stands, without};

use crate::place::{find, place_before};
use dn_guest::NoMemory;
use dn_model::Event;
use std::alloc::Global;
use std::marker::Model;

/// Events in order, of which most often there are few or none. An event may stand there several times.
#[derive(Drop)]
pub(crate) struct Ordered {
    events: Vec<Event>,
}

impl Model for Ordered {
    ghost use Rattle.std.specs.Prelude.{List};
    ghost use Rattle.std.specs.List.Sorted.{IsSorted};
    ghost use Rattle.dn_model.specs.declared.event.Event.{Event};
    ghost use Rattle.dn_model.specs.Order.{event_cmp};

    ghost Value = { List Event };

    ghost view = { λ o. o.events.items };

    ghost invariant = { λ o. IsSorted event_cmp o.events.items };
}

impl Ordered {
    /// No events. It takes no memory.
    pub(crate) fn new(alloc: Global) -> Ordered
        ensures { result ≡ [] }
    {
        Ordered {
            events: Vec::new(alloc),
        }
    }

    /// One event more, at its place.
    pub(crate) fn put(&mut self, event: Event) -> Result<(), NoMemory>
        ensures ok { OnOk result (self.new ≡ put_in_order event_cmp event self.old) }
        ensures err { OnErr result (self.new ≡ self.old) }
    {
        let place = place_before(self.events.as_slice(), &event);
        self.events.insert(place, event)?;
        Ok(())
    }

    /// Takes the event out, once. None exactly where it isn't there.
    pub(crate) fn take(&mut self, event: &Event) -> Option<Event>
        ensures same { IfSome result (λ taken. taken ≡ event.now) }
        ensures stands { is_some result ≡ stands event.now self.old }
        ensures rest { self.new ≡ without event.now self.old }
    {
        match find(self.events.as_slice(), event) {
            Some(place) => Some(self.events.remove(place)),
            None => None,
        }
    }

    /// The events.
    pub(crate) fn as_slice(&self) -> &[Event]
        ensures { result.now ≡ self.now }
    {
        self.events.as_slice()
    }
}
