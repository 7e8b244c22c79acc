//! Events by their moments.

ghost use Rattle.std.specs.Prelude.{◌≡◌, ◌↔◌, ◌<◌, [], ◌∷◌, ◌++◌, length, IsTrue, IfSome, IfOk, IfNone, OnOk, OnErr};
ghost use Rattle.std.specs.List.{AllByRecursion};
ghost use Rattle.std.specs.List.Sorted.{IsPermutation};
ghost use Rattle.dn_model.specs.SoFar.{by_router};
ghost use Rattle.dn_lockstep.specs.Least.{IsLeast, IsUpTo};
ghost use Rattle.dn_lockstep.specs.Agendas.{count_before};
ghost use Rattle.dn_lockstep.specs.Running.{messages};
ghost use Rattle.dn_lockstep.specs.Queues.{queued_events};
ghost use Rattle.dn_lockstep.specs.Buckets.{moment_of, in_buckets, AreBuckets};

use crate::queued::{Queued, event_order};
use dn_guest::NoMemory;
use dn_model::Event;
use std::alloc::Global;
use std::collections::BTreeMap;
use std::marker::Model;

/// A moment: a group, and the sum of delays since its begin.
#[derive(Clone, Copy, Debug, PartialEq, Eq, PartialOrd, Ord)]
pub(crate) struct Moment {
    group: u32,
    sum: u32,
}

/// The moment of an event.
fn moment_of(event: &Event) -> Moment
    ensures { result ≡ moment_of event.now }
{
    Moment {
        group: event.key.group,
        sum: event.key.sum,
    }
}

/// Events of one moment, in no particular order.
#[derive(Drop)]
pub(crate) struct Bucket {
    queued: Vec<Queued>,
}

impl Model for Bucket {
    ghost use Rattle.std.specs.Prelude.{List};
    ghost use Rattle.dn_model.specs.declared.event.Event.{Event};
    ghost use Rattle.dn_lockstep.specs.Queues.{queued_events};

    ghost Value = { List Event };

    ghost view = { λ b. queued_events b.queued.items };
}

impl Bucket {
    /// One event.
    fn new(alloc: Global, event: Event) -> Result<Bucket, NoMemory>
        ensures { IfOk result (λ made. made ≡ event ∷ []) }
    {
        let mut queued = Vec::new(alloc);
        queued.push(Queued { event })?;
        Ok(Bucket { queued })
    }

    /// One event more.
    fn push(&mut self, event: Event) -> Result<(), NoMemory>
        ensures ok { OnOk result (self.new ≡ self.old ++ event ∷ []) }
        ensures err { OnErr result (self.new ≡ self.old) }
    {
        self.queued.push(Queued { event })?;
        Ok(())
    }
}

/// Events by their moments. Contracts see them as a list, in no particular order.
#[derive(Drop)]
pub(crate) struct Later {
    alloc: Global,
    buckets: BTreeMap<Moment, Bucket>,
}

impl Model for Later {
    ghost use Rattle.std.specs.Prelude.{List};
    ghost use Rattle.dn_model.specs.declared.event.Event.{Event};
    ghost use Rattle.dn_lockstep.specs.Buckets.{in_buckets, AreBuckets};

    ghost Value = { List Event };

    ghost view = { λ l. in_buckets l.buckets.entries };

    ghost invariant = { λ l. AreBuckets l.buckets.entries };
}

impl Later {
    /// No events. It takes no memory.
    pub(crate) fn new(alloc: Global) -> Later
        ensures { result ≡ [] }
    {
        Later {
            alloc,
            buckets: BTreeMap::new(alloc),
        }
    }

    /// Whether there is none.
    pub(crate) fn is_empty(&self) -> bool
        ensures { IsTrue result ↔ (self.now ≡ []) }
    {
        self.buckets.is_empty()
    }

    /// One event more.
    pub(crate) fn push(&mut self, event: Event) -> Result<(), NoMemory>
        ensures ok { OnOk result (IsPermutation (event ∷ self.old) self.new) }
        ensures err { OnErr result (self.new ≡ self.old) }
    {
        put(self.alloc, &mut self.buckets, event)
    }

    /// The least event: None exactly where there is none. It looks at all events of the first moment.
    pub(crate) fn peek(&self) -> Option<&Event>
        ensures least { IfSome result (λ event. IsLeast event.now self.now) }
        ensures none { IfNone result (self.now ≡ []) }
    {
        let (_moment, bucket) = self.buckets.first_key_value()?;
        least_of(bucket.queued.as_slice())
    }

    /// Whether an event of an earlier group is there.
    pub(crate) fn has_before(&self, group: u32) -> bool
        ensures { IsTrue result ↔ (0 < count_before group self.now) }
    {
        match self.buckets.first_key_value() {
            Some((moment, _bucket)) => moment.group < group,
            None => false,
        }
    }

    /// Takes the events of the first moment out, in no particular order: None exactly where there is
    /// none.
    pub(crate) fn take_first(&mut self) -> Option<Vec<Queued>>
        ensures taken { IfSome result (λ first. self.old ≡ queued_events first.items ++ self.new) }
        ensures some { IfSome result (λ first. 0 < length first.items) }
        ensures first { IfSome result (λ first. AllByRecursion (λ q. IsUpTo q.event self.new) first.items) }
        ensures none { IfNone result ((self.old ≡ []) × (self.new ≡ [])) }
    {
        let (_moment, bucket) = self.buckets.pop_first()?;
        Some(bucket.queued)
    }

    /// Appends copies of the messages to a router.
    pub(crate) fn push_messages(
        &self,
        alloc: Global,
        router: u16,
        found: &mut Vec<Event>,
    ) -> Result<(), NoMemory>
        ensures { OnOk result (found.new.items ≡ found.old.items ++ messages (by_router self.now router)) }
    {
        for bucket in self.buckets.values() {
            push_messages(alloc, router, bucket.queued.as_slice(), found)?;
        }
        Ok(())
    }
}

/// One event more, in the bucket of its moment.
fn put(alloc: Global, buckets: &mut BTreeMap<Moment, Bucket>, event: Event) -> Result<(), NoMemory>
    ensures ok { OnOk result (IsPermutation (event ∷ in_buckets buckets.old.entries) (in_buckets buckets.new.entries)) }
    ensures are { AreBuckets buckets.old.entries → AreBuckets buckets.new.entries }
    ensures err { OnErr result (buckets.new.entries ≡ buckets.old.entries) }
{
    let moment = moment_of(&event);
    match buckets.get_mut(&moment) {
        Some(bucket) => bucket.push(event),
        None => {
            let bucket = Bucket::new(alloc, event)?;
            buckets.insert(moment, bucket)?;
            Ok(())
        }
    }
}

/// The least of some events: None exactly where there is none.
fn least_of(queued: &[Queued]) -> Option<&Event>
    ensures least { IfSome result (λ event. IsLeast event.now (queued_events queued.now)) }
    ensures none { IfNone result (queued.now ≡ []) }
{
    let mut least = queued.first()?;
    for one in queued {
        if event_order(&one.event, &least.event).is_lt() {
            least = one;
        }
    }
    Some(&least.event)
}

/// Appends copies of the messages to a router among some events.
pub(crate) fn push_messages(
    alloc: Global,
    router: u16,
    queued: &[Queued],
    found: &mut Vec<Event>,
) -> Result<(), NoMemory>
    ensures { OnOk result (found.new.items ≡ found.old.items ++
        messages (by_router (queued_events queued.now) router)) }
{
    for one in queued {
        if one.is_message_to(router) {
            found.push(one.event.copy(alloc)?)?;
        }
    }
    Ok(())
}
