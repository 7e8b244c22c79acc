//! An event in a queue. The least event is the greatest of them, so that sorted lists fall.

ghost use Rattle.std.specs.Prelude.{◌≡◌, ◌&&◌, ◌==◌, refl};
ghost use Rattle.std.specs.Ordering.{as_partial_cmp, eq_by_cmp};
ghost use Rattle.std.specs.Cmp.{partial_equiv_from_equiv, eq_by_cmp_equiv, partial_order_from_total};
ghost use Rattle.dn_model.specs.Order.{event_cmp};
ghost use Rattle.dn_model.specs.Network.{is_at};
ghost use Rattle.dn_lockstep.specs.Queues.{later_cmp, later_total};

use dn_model::Event;
use std::cmp::Ordering;

/// An event in the reversed order: the greatest of them is the least event.
#[derive(Drop)]
pub(crate) struct Queued {
    pub(crate) event: Event,
}

impl Queued {
    /// The reversed order of events.
    fn order(&self, other: &Queued) -> Ordering
        ensures { result ≡ later_cmp self.now other.now }
    {
        event_order(&other.event, &self.event)
    }

    /// Whether the event is a message to the router.
    #[tactic(auto, unfolding(dn_model::specs::Network::is_at))]
    pub(crate) fn is_message_to(&self, router: u16) -> bool
        ensures { result ≡ (is_at router self.now.event && (self.now.event.key.class == 2)) }
    {
        self.event.router == router && self.event.key.class == 2
    }
}

/// The order of events. Most often the moments differ, and the rest is not looked at.
pub(crate) fn event_order(one: &Event, other: &Event) -> Ordering
    ensures { result ≡ event_cmp one.now other.now }
{
    match one.key.group.cmp(&other.key.group) {
        Ordering::Equal => match one.key.sum.cmp(&other.key.sum) {
            Ordering::Equal => order_at_a_moment(one, other),
            decided => decided,
        },
        decided => decided,
    }
}

/// The order of events. Most often the keys differ, and the inputs are not looked at.
fn order_at_a_moment(one: &Event, other: &Event) -> Ordering
    ensures { result ≡ event_cmp one.now other.now }
{
    dn_model::laws::order_of_events();
    match one.key.cmp(&other.key) {
        Ordering::Equal => one.cmp(other),
        decided => decided,
    }
}

impl PartialEq for Queued {
    ghost eq = { eq_by_cmp later_cmp };

    ghost laws = { partial_equiv_from_equiv (eq_by_cmp_equiv later_total) };

    fn eq(&self, other: &Queued) -> bool {
        self.order(other).is_eq()
    }
}

impl Eq for Queued {
    ghost laws = { eq_by_cmp_equiv later_total };
}

impl PartialOrd for Queued {
    ghost partial_cmp = { as_partial_cmp later_cmp };

    ghost laws = { partial_order_from_total later_total };

    fn partial_cmp(&self, other: &Queued) -> Option<Ordering> {
        Some(self.order(other))
    }
}

impl Ord for Queued {
    ghost cmp = { later_cmp };

    ghost total = { later_total };

    ghost matches_partial_cmp = { λ x y. refl };

    ghost matches_eq = { λ x y. refl };

    fn cmp(&self, other: &Queued) -> Ordering {
        self.order(other)
    }
}
