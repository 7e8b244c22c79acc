//! What each step on the table tells the seat that makes it.

use crate::view::View;
use atomic_table::{Join, Play, Split};
use dn_world::Kept;

/// A try for the value: the word is exchanged from 0 to 1.
pub struct Take;

impl<V: Kept> Play<Option<V>, View<V::Guest>> for Take {
    ghost use Rattle.dn_turn.specs.Rule.{Tried};

    ghost then = { Tried V.header V.opening V.log };
}

/// The word is 0 again, after the value went into its slot.
pub struct Release;

impl<V: Kept> Play<Option<V>, View<V::Guest>> for Release {
    ghost use Rattle.dn_turn.specs.Rule.{Released};

    ghost then = { Released V.log };
}

/// A split that leaves the right to feed where it is.
pub struct SplitPlain;

impl<O> Split<View<O>> for SplitPlain {
    ghost use Rattle.std.specs.Prelude.{false};
    ghost use Rattle.dn_turn.specs.Rule.{left_view, right_view};

    ghost left = { left_view false };

    ghost right = { right_view false };
}

/// A split that hands the right to feed to the new seat.
pub struct SplitFeed;

impl<O> Split<View<O>> for SplitFeed {
    ghost use Rattle.std.specs.Prelude.{true};
    ghost use Rattle.dn_turn.specs.Rule.{left_view, right_view};

    ghost left = { left_view true };

    ghost right = { right_view true };
}

/// A join. It tells nothing yet: the seat has to look once more (`Settle`).
pub struct JoinSeats;

impl<O> Join<View<O>> for JoinSeats {
    ghost use Rattle.dn_turn.specs.Rule.{both_views, spent_view};

    ghost both = { both_views };

    ghost spent = { spent_view };
}

/// A look after a join: of both lists that the seats had seen the longer one begins with the other.
pub struct Settle;

impl<S, O> Play<S, View<O>> for Settle {
    ghost use Rattle.dn_turn.specs.Rule.{Settled};

    ghost then = { Settled };
}
