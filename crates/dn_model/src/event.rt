//! Events, and their order.

ghost use Rattle.std.specs.Prelude.{◌≡◌, IfOk, refl};
ghost use Rattle.std.specs.Cmp.{partial_equiv_from_equiv, eq_by_cmp_equiv, partial_order_from_total};
ghost use Rattle.std.specs.Ordering.{as_partial_cmp, eq_by_cmp};
ghost use Rattle.dn_model.specs.Network.{external, tick};
ghost use Rattle.dn_model.specs.Order.{event_cmp, event_total};

use crate::{External, Key};
use dn_guest::{Input, NoMemory};
use std::alloc::Global;
use std::cmp::Ordering;

/// An input at a router, with its key. Events are compared by key, then by router, then by input;
/// identical events are interchangeable.
#[derive(Drop)]
pub struct Event {
    pub key: Key,
    pub router: u16,
    pub input: Input,
}

/// An event that was handled, as a trace shows it.
pub type Row = Event;

impl Event {
    /// The tick of a group at a router: at the begin of the group, of class 0.
    pub fn tick(group: u32, router: u16) -> Event
        ensures { result ≡ tick group router }
    {
        Event {
            key: Key {
                group,
                sum: 0,
                class: 0,
                tie: 0,
                origin: router,
                seq: 0,
            },
            router,
            input: Input::Tick(group),
        }
    }

    /// The event of the external at this place of the feed, from 0: at the begin of its group, of class 1.
    pub fn external(alloc: Global, place: u64, item: &External) -> Result<Event, NoMemory>
        ensures { IfOk result (λ made. made ≡ external place item.now) }
    {
        Ok(Event {
            key: Key {
                group: item.group,
                sum: 0,
                class: 1,
                tie: 0,
                origin: item.router,
                seq: place,
            },
            router: item.router,
            input: item.input.copy(alloc)?,
        })
    }

    /// A copy.
    pub fn copy(&self, alloc: Global) -> Result<Event, NoMemory>
        ensures { IfOk result (λ made. made ≡ self.now) }
    {
        Ok(Event {
            key: self.key,
            router: self.router,
            input: self.input.copy(alloc)?,
        })
    }

    /// By key, then router, then input.
    #[tactic(auto, using(crate::proofs::EventOrder::event_cmp_is))]
    fn order(&self, other: &Event) -> Ordering
        ensures { result ≡ event_cmp self.now other.now }
    {
        self.key
            .cmp(&other.key)
            .then(self.router.cmp(&other.router))
            .then_with(|| self.input.cmp(&other.input))
    }
}

impl PartialEq for Event {
    ghost eq = { eq_by_cmp event_cmp };

    ghost laws = { partial_equiv_from_equiv (eq_by_cmp_equiv event_total) };

    fn eq(&self, other: &Event) -> bool {
        self.order(other).is_eq()
    }
}

impl Eq for Event {
    ghost laws = { eq_by_cmp_equiv event_total };
}

impl PartialOrd for Event {
    ghost partial_cmp = { as_partial_cmp event_cmp };

    ghost laws = { partial_order_from_total event_total };

    fn partial_cmp(&self, other: &Event) -> Option<Ordering> {
        Some(self.order(other))
    }
}

impl Ord for Event {
    ghost cmp = { event_cmp };

    ghost total = { event_total };

    ghost matches_partial_cmp = { λ x y. refl };

    ghost matches_eq = { λ x y. refl };

    fn cmp(&self, other: &Event) -> Ordering {
        self.order(other)
    }
}
