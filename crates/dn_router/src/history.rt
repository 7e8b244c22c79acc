//! Searches in the list of handled events, which is in order.

ghost use Rattle.std.specs.Prelude.{Bool, ◌≡◌, ◌≤◌, ◌∷◌, [], take, drop, ◌++◌, ◌||◌, ◌↔◌, length, IfOk, IsTrue};
ghost use Rattle.dn_model.specs.declared.event.Event.{Event};
ghost use Rattle.std.specs.List.Sorted.{IsSorted};
ghost use Rattle.dn_model.specs.Order.{event_cmp};
ghost use Rattle.dn_model.specs.Settled.{below};
ghost use Rattle.dn_world.specs.World.{is_before_last, is_same, stands};
ghost use Rattle.dn_world.specs.Steps.{is_after_first, is_wrong, until};

use dn_guest::NoMemory;
use dn_model::{Event, Key};
use dn_queue::{InQueue, find, place_after};
use std::alloc::Global;

/// Whether the event is less than the last of the list.
pub(crate) fn is_before_last(done: &[Event], event: &Event) -> bool
    ensures { result ≡ is_before_last done.now event.now }
{
    match done.last() {
        Some(last) => event.cmp(last).is_lt(),
        None => false,
    }
}

/// Whether the event stands in the list.
pub(crate) fn stands(done: &[Event], event: &Event) -> bool
    requires { IsSorted event_cmp done.now }
    ensures { result ≡ stands event.now done.now }
{
    find(done, event).is_some()
}

/// How many events of the list are below the key. They stand in front.
pub(crate) fn count_below(done: &[Event], key: &Key) -> usize
    requires { IsSorted event_cmp done.now }
    ensures within { result ≤ length done.now }
    ensures front { below key.now done.now ≡ take result done.now }
{
    done.partition_point(|event| event.key.cmp(key).is_lt())
}

/// How many entries stand before the first wrong one: the first that stands in `voids`, or that is greater
/// than the least event to handle.
pub(crate) fn first_wrong(done: &[Event], queue: &InQueue) -> usize
    requires { IsSorted event_cmp done.now }
    ensures { result ≡ length (until (is_wrong queue.now) done.now) }
{
    first_voided(done, queue.voids(), first_later(done, queue))
}

/// How many entries stand before the first that is greater than the least event to handle. All of them where
/// there is none.
fn first_later(done: &[Event], queue: &InQueue) -> usize
    requires { IsSorted event_cmp done.now }
    ensures { result ≡ length (until (is_after_first queue.now.todo) done.now) }
{
    match queue.least() {
        Some(event) => place_after(done, event),
        None => done.len(),
    }
}

/// How many entries stand before the first that stands in `voids` or passes another test, where so many stand
/// before the first that passes it.
fn first_voided(done: &[Event], voids: &[Event], most: usize) -> usize
    requires { IsSorted event_cmp done.now }
    ensures { (test : Event → Bool) → most ≡ length (until test done.now) →
        result ≡ length (until (λ e. stands e voids.now || test e) done.now) }
{
    let mut place = most;
    for void in voids {
        if let Some(at) = find(done, void) {
            place = place.min(at);
        }
    }
    place
}

/// The events from a place on, up to another.
pub(crate) fn between(events: &[Event], from: usize, to: usize) -> &[Event]
    requires start { from ≤ to }
    requires end { to ≤ length events.now }
    ensures { result.now ≡ drop from (take to events.now) }
{
    events.split_at(to).0.split_at(from).1
}

/// The events from a place on.
pub(crate) fn rest(events: &[Event], from: usize) -> &[Event]
    requires { from ≤ length events.now }
    ensures { result.now ≡ drop from events.now }
{
    events.split_at(from).1
}

/// Copies of the events, and of one more.
pub(crate) fn copies_and(
    alloc: Global,
    events: &[Event],
    last: &Event,
) -> Result<Vec<Event>, NoMemory>
    ensures { IfOk result (λ made. made.items ≡ events.now ++ last.now ∷ []) }
{
    let mut made = copies(alloc, events)?;
    made.push(last.copy(alloc)?)?;
    Ok(made)
}

/// Copies of the events.
pub(crate) fn copies(alloc: Global, events: &[Event]) -> Result<Vec<Event>, NoMemory>
    ensures { IfOk result (λ made. made.items ≡ events.now) }
{
    let mut made = Vec::new(alloc);
    for event in events {
        made.push(event.copy(alloc)?)?;
    }
    Ok(made)
}

/// Whether the events are these, and then one more.
pub(crate) fn are_and(events: &[Event], front: &[Event], last: &Event) -> bool
    ensures { IsTrue result ↔ (events.now ≡ front.now ++ last.now ∷ []) }
{
    match events.split_last() {
        Some((end, others)) => are_same(others, front) && *end == *last,
        None => false,
    }
}

/// Whether the events are these.
fn are_same(events: &[Event], others: &[Event]) -> bool
    ensures { IsTrue result ↔ (events.now ≡ others.now) }
{
    events == others
}
