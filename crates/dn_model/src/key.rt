//! Keys of events, and their order.

ghost use Rattle.std.specs.Prelude.{◌≡◌, refl};
ghost use Rattle.std.specs.Cmp.{partial_equiv_from_equiv, eq_by_cmp_equiv, partial_order_from_total};
ghost use Rattle.std.specs.Ordering.{as_partial_cmp, eq_by_cmp};
ghost use Rattle.dn_model.specs.Order.{key_cmp, key_total};

use std::cmp::Ordering;

/// The place of an event in the order of the network. Keys are compared by their fields, in the order
/// in which they stand here.
#[derive(Clone, Copy, Debug)]
pub struct Key {
    /// The group, from 0. Its moments begin at group * period.
    pub group: u32,
    /// The sum of delays since the begin of the group, below the period.
    pub sum: u32,
    /// 0 for a tick, 1 for an external, 2 for a message.
    pub class: u8,
    /// Drawn from the seed for a message, otherwise 0.
    pub tie: u64,
    /// The sender of a message, otherwise the router of the event.
    pub origin: u16,
    /// The sender's number of a message, the place in the feed of an external, 0 for a tick.
    pub seq: u64,
}

impl Key {
    /// By group, sum, class, tie, origin and seq.
    #[tactic(auto, unfolding(crate::specs::Order::key_cmp))]
    fn order(&self, other: &Key) -> Ordering
        ensures { result ≡ key_cmp self.now other.now }
    {
        let group = self.group.cmp(&other.group);
        if group.is_ne() {
            return group;
        }
        let sum = self.sum.cmp(&other.sum);
        if sum.is_ne() {
            return sum;
        }
        self.class
            .cmp(&other.class)
            .then(self.tie.cmp(&other.tie))
            .then(self.origin.cmp(&other.origin))
            .then(self.seq.cmp(&other.seq))
    }
}

impl PartialEq for Key {
    ghost eq = { eq_by_cmp key_cmp };

    ghost laws = { partial_equiv_from_equiv (eq_by_cmp_equiv key_total) };

    fn eq(&self, other: &Key) -> bool {
        self.order(other).is_eq()
    }
}

impl Eq for Key {
    ghost laws = { eq_by_cmp_equiv key_total };
}

impl PartialOrd for Key {
    ghost partial_cmp = { as_partial_cmp key_cmp };

    ghost laws = { partial_order_from_total key_total };

    fn partial_cmp(&self, other: &Key) -> Option<Ordering> {
        Some(self.order(other))
    }
}

impl Ord for Key {
    ghost cmp = { key_cmp };

    ghost total = { key_total };

    ghost matches_partial_cmp = { λ x y. refl };

    ghost matches_eq = { λ x y. refl };

    fn cmp(&self, other: &Key) -> Ordering {
        self.order(other)
    }
}
