//! The router.

ghost use Rattle.std.specs.Prelude.{◌≡◌, ◌+◌, ◌<◌, ◌≤◌, [], ◌++◌, ◌↔◌, true, not, IsTrue, length, take, drop, map, slice_get, option_copied, IfOk, OnOk, OnErr};
ghost use Rattle.std.specs.List.{AllByRecursion, filter};
ghost use Rattle.std.specs.List.Sorted.{IsSorted};
ghost use Rattle.dn_model.specs.Order.{event_cmp, is_below};
ghost use Rattle.dn_model.specs.Settled.{below};
ghost use Rattle.dn_world.specs.World.{no_part, key_of, is_behind, is_ready};
ghost use Rattle.dn_world.specs.Steps.{arrived};
ghost use Rattle.dn_world.specs.Runs.{IsPast};
ghost use Rattle.dn_router.specs.Replays.{node_over, last_sent};
ghost use Rattle.dn_router.specs.Routers.{handled, rolled_back, node_of, emits_next, unsent, order_of};
ghost use Rattle.std.specs.Vec.{vec_len, vec_capacity};
ghost use Rattle.dn_router.specs.Answers.{HasApplied, HasLost};
ghost use Rattle.dn_router.specs.Sound.{recounted};

use crate::history::{
    are_and, between, copies, copies_and, count_below, first_wrong, is_before_last, rest, stands,
};
use crate::order::{Applied, Order, Outcome};
use crate::replay::emitted_over;
use dn_ckpt::Shelf;
use dn_guest::{Guest, NoMemory, Node, Sent};
use dn_model::{End, Event, Key, Row, Timing, emitted_by};
use dn_queue::InQueue;
use std::alloc::Global;
use std::marker::Model;

/// A router that handles what has come, at once, and takes back what it handled too early.
#[derive(Drop)]
pub struct Router<G: Guest> {
    alloc: Global,
    number: u16,
    ends: Vec<End>,
    timing: Timing,
    /// The node before the first event.
    opening: Node<G>,
    /// What was handled, in order.
    done: Vec<Event>,
    queue: InQueue,
    /// The nodes after n, n + 1, .. entries of `done`, where n is the number of those committed.
    shelf: Shelf<G>,
    /// How many unsends wait whose event was handled.
    wrong: u64,
    /// How many entries were committed, and the key below which they were.
    committed: u64,
    bound: Key,
}

impl<G: Guest> Model for Router<G> {
    ghost use Rattle.dn_world.specs.World.{Part};
    ghost use Rattle.dn_router.specs.Routers.{Speculation};
    ghost use Rattle.dn_router.specs.Sound.{IsSound};

    ghost Value = { Speculation G };

    ghost view = { λ r. record { number = r.number; ends = r.ends.items; timing = r.timing; opening = r.opening; part = record r.queue { done = r.done.items }; committed = r.committed; bound = r.bound } };

    ghost invariant = { λ r. IsSound G.meaning r.number r.timing.period r.opening (record r.queue { done = r.done.items }) r.shelf r.wrong r.committed r.bound };
}

impl<G: Guest> Router<G> {
    /// A router before its first event: its number, the far ends of its ports in the order of the ports, and
    /// its node.
    pub fn new(
        alloc: Global,
        number: u16,
        ends: Vec<End>,
        timing: Timing,
        node: Node<G>,
    ) -> Result<Router<G>, NoMemory>
        requires { 0 < timing.period }
        ensures { IfOk result (λ made. made ≡ record {
          number = number;
          ends = ends.items;
          timing = timing;
          opening = node;
          part = no_part;
          committed = 0;
          bound = key_of 0 0;
        }) }
    {
        let opening = node.fork(alloc)?;
        let shelf = Shelf::new(alloc, node)?;
        Ok(Router {
            alloc,
            number,
            ends,
            timing,
            opening,
            done: Vec::new(alloc),
            queue: InQueue::new(alloc),
            shelf,
            wrong: 0,
            committed: 0,
            bound: Key {
                group: 0,
                sum: 0,
                class: 0,
                tie: 0,
                origin: 0,
                seq: 0,
            },
        })
    }

    /// A message or another event comes (`plus`), or the unsend of one (not `plus`). The caller knows that it
    /// is at this router, and not below the key of the last `commit_below`.
    pub fn arrive(&mut self, plus: bool, event: Event) -> Result<(), NoMemory>
        requires own { event.router ≡ self.old.number }
        requires past { IsPast self.old.bound event.key }
        ensures ok { OnOk result (self.new ≡
            record self.old { part = arrived (record { plus = plus; event = event }) self.old.part }) }
        ensures err { OnErr result (self.new ≡ self.old) }
    {
        let handled = stands(self.done.as_slice(), &event);
        let before = self.queue.voids().len() as u64;
        arrive_in(&mut self.queue, plus, event)?;
        let after = self.queue.voids().len() as u64;
        self.wrong = recount(self.wrong, handled, before, after);
        Ok(())
    }

    /// Whether an event to handle is less than the last one handled, or an unsend waits whose event was
    /// handled.
    pub fn behind(&self) -> bool
        ensures { result ≡ is_behind self.now.part }
    {
        if self.wrong > 0 {
            return true;
        }
        match self.queue.least() {
            Some(least) => is_before_last(self.done.as_slice(), least),
            None => false,
        }
    }

    /// Whether the router isn't behind and has an event to handle.
    pub fn ready(&self) -> bool
        ensures { result ≡ is_ready self.now.part }
    {
        !self.behind() && self.queue.least().is_some()
    }

    /// The step that the router would take. The caller knows that it is ready.
    pub fn order(&self) -> Result<Order<G>, NoMemory>
        requires { is_ready self.now.part ≡ true }
        ensures { IfOk result (λ order. order ≡ order_of G.meaning self.now) }
    {
        let (place, base) = self.shelf.shared_base_for(self.done.len() as u64)?;
        let least = match self.queue.least() {
            Some(least) => least,
            None => unreachable!(),
        };
        let inputs = copies_and(
            self.alloc,
            rest(self.done.as_slice(), place as usize),
            least,
        )?;
        Ok(Order {
            alloc: self.alloc,
            router: self.number,
            place,
            base,
            inputs,
        })
    }

    /// Handles the event of the outcome, unless the router has moved on: Stale exactly where it isn't ready,
    /// or `order` would give another base or other inputs now. The caller knows that the outcome is of this
    /// router.
    pub fn apply(&mut self, outcome: Outcome<G>) -> Result<Applied, NoMemory>
        requires { outcome.router ≡ self.old.number }
        ensures applied { IfOk result (λ answer. HasApplied G.meaning self.old outcome answer self.new) }
        ensures err { OnErr result (self.new ≡ self.old) }
    {
        if !self.ready() || !self.is_given(&outcome) {
            return Ok(Applied::Stale);
        }
        let (node, sent) = outcome.into_parts();
        Ok(Applied::Done(self.handle(node, sent)?))
    }

    /// Handles the least event, with the node after it and its numbered outputs, and gives what it emits.
    fn handle(&mut self, node: Node<G>, sent: Vec<Sent>) -> Result<Vec<Event>, NoMemory>
        requires ready { is_ready self.old.part ≡ true }
        requires node { node ≡ node_over G.meaning (node_of G.meaning self.old) (take 1 self.old.part.todo) }
        requires sent { sent.items ≡ last_sent G.meaning (node_of G.meaning self.old) [] (take 1 self.old.part.todo) }
        ensures part { OnOk result (self.new ≡ record self.old { part = handled self.old.part }) }
        ensures events { IfOk result (λ events. events.items ≡ emits_next G.meaning self.old) }
        ensures err { OnErr result (self.new ≡ self.old) }
        ensures own { AllByRecursion (λ e. e.router ≡ self.old.number) self.old.part.todo }
    {
        let least = match self.queue.least() {
            Some(least) => least,
            None => unreachable!(),
        };
        let events = emitted_by(self.alloc, &self.timing, self.ends.as_slice(), least, sent)?;
        self.done.reserve(1)?;
        self.shelf.keep(self.done.len() as u64 + 1, node)?;
        move_least(&mut self.queue, &mut self.done);
        Ok(events)
    }

    /// Takes the entries off that were handled too early or ought not to have been handled, puts their events
    /// back to be handled, and gives all that they had emitted, in order: it is to be unsent. The caller knows
    /// that the router is behind. After `NoMemory` events may be lost: the caller drops the router.
    pub fn roll_back(&mut self) -> Result<Vec<Event>, NoMemory>
        requires { is_behind self.old.part ≡ true }
        ensures part { OnOk result (self.new ≡ record self.old { part = rolled_back self.old.part }) }
        ensures unsent { IfOk result (λ events. events.items ≡ unsent G.meaning self.old) }
        ensures err { OnErr result (HasLost self.old self.new) }
        ensures own { AllByRecursion (λ e. e.router ≡ self.old.number) self.old.part.done }
    {
        let place = first_wrong(self.done.as_slice(), &self.queue);
        let node = self.shelf.base_for(place as u64).1.fork(self.alloc)?;
        let unsent = emitted_over(
            self.alloc,
            node,
            &self.timing,
            self.ends.as_slice(),
            rest(self.done.as_slice(), place),
        )?;
        let taken = self.done.split_off(place)?;
        self.shelf.cut(place as u64);
        self.wrong = 0;
        self.queue.take_back(taken)?;
        Ok(unsent)
    }

    /// The entries below the key that weren't committed before, in order. The caller knows that nothing that
    /// waits is below the key, and that the key isn't below that of the last call.
    pub fn commit_below(&mut self, key: &Key) -> Result<Vec<Row>, NoMemory>
        requires waiting { AllByRecursion (λ e. IsPast key.now e.key) (self.old.part.todo ++ self.old.part.voids) }
        requires rising { IsPast self.old.bound key.now }
        ensures committed { OnOk result (self.new ≡
            record self.old { committed = length (below key.now self.old.part.done); bound = key.now }) }
        ensures rows { IfOk result (λ rows. rows.items ≡ drop self.old.committed (below key.now self.old.part.done)) }
        ensures fresh { IfOk result (λ rows. rows.items ≡
            filter (λ e. not (is_below self.old.bound e)) (below key.now self.old.part.done)) }
        ensures err { OnErr result (self.new ≡ self.old) }
    {
        let count = count_below(self.done.as_slice(), key);
        let fresh = between(self.done.as_slice(), self.committed as usize, count);
        let rows = copies(self.alloc, fresh)?;
        self.shelf.trim(count as u64);
        self.committed = count as u64;
        self.bound = *key;
        Ok(rows)
    }

    /// The least event to handle. None exactly where there is none. Of every router it holds that what is to
    /// be handled is in order.
    pub fn least(&self) -> Option<&Event>
        ensures first { option_copied result ≡ slice_get self.now.part.todo 0 }
        ensures sorted { IsSorted event_cmp self.now.part.todo }
    {
        self.queue.least()
    }

    /// The unsends that wait. Of every router it holds that they are in the order of events.
    pub fn voids(&self) -> &[Event]
        ensures voids { result.now ≡ self.now.part.voids }
        ensures sorted { IsSorted event_cmp self.now.part.voids }
    {
        self.queue.voids()
    }

    /// The keys of what is to be handled, in order.
    pub fn todo_keys(&self) -> Result<Vec<Key>, NoMemory>
        ensures { IfOk result (λ keys. keys.items ≡ map (λ e. e.key) self.now.part.todo) }
    {
        self.queue.todo_keys()
    }

    /// The node after the last entry.
    pub fn node(&self) -> &Node<G>
        ensures { result.now ≡ node_of G.meaning self.now }
    {
        self.shelf.base_for(self.done.len() as u64).1
    }

    /// What was handled. Of every router it holds that this is in order, and that each event is at the router.
    pub fn done(&self) -> &[Event]
        ensures done { result.now ≡ self.now.part.done }
        ensures sorted { IsSorted event_cmp self.now.part.done }
        ensures own { AllByRecursion (λ e. e.router ≡ self.now.number) self.now.part.done }
    {
        self.done.as_slice()
    }

    /// Whether the outcome's base and inputs are those that `order` would give now. The router is ready.
    fn is_given(&self, outcome: &Outcome<G>) -> bool
        requires ready { is_ready self.now.part ≡ true }
        requires own { outcome.now.router ≡ self.now.number }
        ensures { IsTrue result ↔ (outcome.now ≡ order_of G.meaning self.now) }
    {
        let (place, base) = self.shelf.base_for(self.done.len() as u64);
        let least = match self.queue.least() {
            Some(least) => least,
            None => unreachable!(),
        };
        if outcome.place != place {
            return false;
        }
        let since = rest(self.done.as_slice(), place as usize);
        if !are_and(outcome.inputs.as_slice(), since, least) {
            return false;
        }
        outcome.base.node().same(base)
    }
}

/// Moves the least event to handle to the end of what was handled, where there is room.
fn move_least(queue: &mut InQueue, done: &mut Vec<Event>)
    requires more { 0 < length queue.old.todo }
    requires room { vec_len done.old + 1 ≤ vec_capacity done.old }
    ensures queue { queue.new ≡ record queue.old { todo = drop 1 queue.old.todo } }
    ensures done { done.new.items ≡ done.old.items ++ take 1 queue.old.todo }
{
    let event = match queue.take_least() {
        Some(event) => event,
        None => unreachable!(),
    };
    match done.push(event) {
        Ok(()) => {}
        Err(_) => unreachable!(),
    }
}

/// The event or the unsend comes into the queue.
fn arrive_in(queue: &mut InQueue, plus: bool, event: Event) -> Result<(), NoMemory>
    ensures ok { OnOk result (queue.new ≡ arrived (record { plus = plus; event = event }) queue.old) }
    ensures err { OnErr result (queue.new ≡ queue.old) }
{
    if plus {
        queue.put(event)
    } else {
        queue.void(event)
    }
}

/// How many unsends of handled events wait, where there were so many and one unsend has come or gone: an
/// unsend of an event that was handled, or not.
fn recount(wrong: u64, handled: bool, before: u64, after: u64) -> u64
    requires some { handled ≡ true → after < before → 0 < wrong }
    requires room { handled ≡ true → before < after → wrong < after }
    ensures { result ≡ recounted wrong handled before after }
{
    if handled && before < after {
        wrong + 1
    } else if handled && after < before {
        wrong - 1
    } else {
        wrong
    }
}
