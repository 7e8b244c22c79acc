//! The queue.

ghost use Rattle.std.specs.Prelude.{◌≡◌, [], ◌∷◌, OnOk, OnErr, IfOk, slice_get, option_copied, drop, map};
ghost use Rattle.dn_world.specs.World.{no_part, with_todo, with_void};
ghost use Rattle.dn_world.specs.Runs.{IsTidy};
ghost use Rattle.dn_queue.specs.Comings.{HasComeInPart};

use crate::ordered::Ordered;
use crate::todo::Todo;
use dn_guest::NoMemory;
use dn_model::{Event, Key};
use std::alloc::Global;
use std::marker::Model;

/// What has come to a router and waits. `todo` is what it has still to handle, `voids` what it is to take
/// out: events whose unsend has come, and that were handled or are still to come. Both are in the order of
/// events, and no event stands in both. An event may stand several times in one of them.
#[derive(Drop)]
pub struct InQueue {
    alloc: Global,
    todo: Todo,
    voids: Ordered,
}

impl Model for InQueue {
    ghost use Rattle.dn_world.specs.World.{Part, no_part};
    ghost use Rattle.dn_world.specs.Runs.{IsTidy};

    ghost Value = { Part };

    ghost view = { λ q. record no_part { todo = q.todo; voids = q.voids } };

    ghost invariant = { λ q. IsTidy (record no_part { todo = q.todo; voids = q.voids }) };
}

impl InQueue {
    /// A queue in which nothing waits. It takes no memory.
    pub fn new(alloc: Global) -> InQueue
        ensures { result ≡ no_part }
    {
        InQueue {
            alloc,
            todo: Todo::new(alloc),
            voids: Ordered::new(alloc),
        }
    }

    /// An event comes: where it stands in `voids` both vanish, once each, otherwise it is to be handled.
    /// After `NoMemory` the queue is as it was.
    pub fn put(&mut self, event: Event) -> Result<(), NoMemory>
        ensures ok { OnOk result (self.new ≡ with_todo (event ∷ []) self.old) }
        ensures err { OnErr result (self.new ≡ self.old) }
    {
        if self.voids.take(&event).is_some() {
            return Ok(());
        }
        self.todo.put(event)
    }

    /// An unsend comes: where its event stands in `todo` both vanish, once each, otherwise it waits in
    /// `voids`. After `NoMemory` the queue is as it was.
    pub fn void(&mut self, event: Event) -> Result<(), NoMemory>
        ensures ok { OnOk result (self.new ≡ with_void event self.old) }
        ensures err { OnErr result (self.new ≡ self.old) }
    {
        if self.todo.take_out(&event) {
            return Ok(());
        }
        self.voids.put(event)
    }

    /// Several events come, as with `put`. After `NoMemory` a front of them has come and the rest is lost: the
    /// caller drops the queue.
    pub fn take_back(&mut self, events: Vec<Event>) -> Result<(), NoMemory>
        ensures ok { OnOk result (self.new ≡ with_todo events.items self.old) }
        ensures err { OnErr result (HasComeInPart events.items self.old self.new) }
    {
        let _ = &self.alloc;
        for event in events {
            self.put(event)?;
        }
        Ok(())
    }

    /// The least event to handle. None exactly where there is none.
    pub fn least(&self) -> Option<&Event>
        ensures { option_copied result ≡ slice_get self.now.todo 0 }
    {
        self.todo.least()
    }

    /// Takes the least event to handle out. None exactly where there is none.
    pub fn take_least(&mut self) -> Option<Event>
        ensures least { result ≡ slice_get self.old.todo 0 }
        ensures rest { self.new ≡ record self.old { todo = drop 1 self.old.todo } }
    {
        self.todo.take_least()
    }

    /// What is to be taken out. Of every queue it holds that `todo` and `voids` are in order, that no event
    /// stands in both, and that nothing was handled.
    pub fn voids(&self) -> &[Event]
        ensures voids { result.now ≡ self.now.voids }
        ensures tidy { IsTidy self.now }
        ensures done { self.now.done ≡ [] }
    {
        self.voids.as_slice()
    }

    /// The keys of what is to be handled, in order.
    pub fn todo_keys(&self) -> Result<Vec<Key>, NoMemory>
        ensures { IfOk result (λ keys. keys.items ≡ map (λ e. e.key) self.now.todo) }
    {
        self.todo.keys(self.alloc)
    }
}
