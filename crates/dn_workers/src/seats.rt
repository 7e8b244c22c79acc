//! The seats of the workers: split off the first one, and joined into it again.

ghost use Rattle.std.specs.Prelude.{◌≡◌, None, true, false, IfOk, vec_len};
ghost use Rattle.std.specs.List.{AllByRecursion};
ghost use Rattle.dn_model.specs.Settled.{IsPrefixOf};
ghost use Rattle.dn_workers.specs.Joined.{IsWorkers, HasSplit, AreNew, HasGathered};

use dn_fabric::Fabric;
use dn_guest::{Guest, NoMemory};
use dn_turn::{Turn, TurnSeat};
use std::alloc::Global;

/// Splits so many seats off the first one. None of them has the right to feed.
pub(crate) fn split_all<G: Guest + Sync>(
    alloc: Global,
    turn: &Turn<Fabric<G>>,
    first: &mut TurnSeat<Fabric<G>>,
    workers: u16,
) -> Result<Vec<TurnSeat<Fabric<G>>>, NoMemory>
    requires turn { first.old.turn ≡ turn.now }
    requires free { first.old.held ≡ None }
    requires first { first.old.first ≡ true }
    requires feeds { first.old.feeds ≡ false }
    ensures first { IfOk result (λ seats. HasSplit workers first.old first.new) }
    ensures count { IfOk result (λ seats. vec_len seats ≡ workers) }
    ensures seats { IfOk result (λ seats. AreNew workers first.old seats.items) }
{
    let mut seats = Vec::new(alloc);
    for _ in 0..workers {
        seats.push(turn.split_seat(first, false))?;
    }
    Ok(seats)
}

/// Joins all of the seats into the first one.
pub(crate) fn join_all<G: Guest + Sync>(
    turn: &Turn<Fabric<G>>,
    first: &mut TurnSeat<Fabric<G>>,
    mut seats: Vec<TurnSeat<Fabric<G>>>,
)
    requires turn { first.old.turn ≡ turn.now }
    requires free { first.old.held ≡ None }
    requires first { first.old.first ≡ true }
    requires feeds { first.old.feeds ≡ true }
    requires out { first.old.out ≡ vec_len seats }
    requires seats { AllByRecursion (IsWorkers first.old) seats.items }
    ensures first { HasGathered 0 first.old first.new }
    ensures seats { AllByRecursion (λ seat. IsPrefixOf seat.seen first.new.seen) seats.items }
{
    while let Some(seat) = seats.pop() {
        turn.join_seat(first, seat);
    }
}
