//! The turn and its seats.

ghost use Rattle.std.specs.Prelude.{◌≡◌, [], Some, None, true, false, IfSome, IfNone, IsSome, IfOk, length, ◌++◌};
ghost use Rattle.dn_model.specs.Settled.{IsPrefixOf};
ghost use Rattle.dn_world.specs.Logs.{fed, is_stopped};
ghost use Rattle.dn_turn.specs.Places.{ArePlaces, StandAt};
ghost use Rattle.dn_turn.specs.Seat.{SeatView, first_seat, holding, released_seat, MayPut, left_seat, right_seat, joined_seat};

use crate::steps::{JoinSeats, Release, Settle, SplitFeed, SplitPlain, Take};
use crate::view::{InTurn, View};
use atomic_table::{Refused, Seat, Table};
use dn_guest::NoMemory;
use dn_world::{Kept, laws};
use std::alloc::{AllocError, Global};
use std::marker::Model;
use std::snapshot::Snapshot;

/// A value that at most one seat has at a time. Contracts see which turn it is, so that a seat of another turn is
/// refused.
#[derive(Drop)]
pub struct Turn<V: Kept> {
    table: Table<Option<V>, View<V::Guest>, Snapshot<V>, InTurn, Global>,
}

impl<V: Kept> Model for Turn<V> {
    ghost use Rattle.std.specs.Prelude.{◌≡◌};
    ghost use Rattle.atomic_table.specs.Seated.{TableId};

    ghost Value = { TableId };

    ghost view = { λ t. t.table.shared.table_id };

    ghost invariant = { λ t. (t.table.shared.table_id.words ≡ 1) × (t.table.shared.table_id.slots ≡ 1) };
}

/// The right to try for the value, and what its owner knows: a `SeatView` of `specs/Seat.antt`. It has no bytes at
/// run time.
#[derive(Drop)]
pub struct TurnSeat<V: Kept> {
    seat: Seat<Option<V>, View<V::Guest>>,
}

impl<V: Kept> Model for TurnSeat<V> {
    ghost use Rattle.dn_turn.specs.Seat.{SeatView, seat_view, IsSeated};

    ghost Value = { SeatView V.Guest };

    ghost view = { λ s. seat_view s.seat.table_id s.seat.me.0 };

    ghost invariant = { λ s. IsSeated s.seat.me };
}

impl<V: Kept> TurnSeat<V> {
    /// Tells that the places of the seat's own entries (`mine`) rise and lie within what it has seen. It does nothing.
    pub fn places(&self)
        ensures { ArePlaces 0 (length self.now.seen) self.now.mine }
    {
        let _ = &self.seat;
    }
}

impl<V: Kept> Turn<V> {
    /// The turn of a value, and its first seat. That seat has the right to feed and doesn't have the value.
    ///
    /// `NoMemory`: the value is dropped.
    pub fn new(alloc: Global, value: V) -> Result<(Turn<V>, TurnSeat<V>), NoMemory>
        ensures { IfOk result (λ t. t.1 ≡ first_seat t.0 (V.header value) (V.opening value) (V.log value)) }
    {
        let about = Snapshot::of(&value);
        let mut slots = Vec::new(alloc);
        slots.push(Some(value))?;
        match Table::new(alloc, &[0], slots, &about) {
            Ok((table, seat)) => Ok((Turn { table }, TurnSeat { seat })),
            Err(Refused { slots: _ }) => Err(AllocError),
        }
    }

    /// Takes the value if no seat has it. `None`: another seat has it; this one is unchanged. The call doesn't wait.
    pub fn try_take(&self, seat: &mut TurnSeat<V>) -> Option<V>
        requires turn { seat.old.turn ≡ self.now }
        requires free { seat.old.held ≡ None }
        ensures none { IfNone result (seat.new ≡ seat.old) }
        ensures alone { seat.old.first ≡ true → seat.old.out ≡ 0 → IsSome result }
        ensures some { IfSome result (λ v. seat.new ≡ holding (V.log v) seat.old) }
        ensures header { IfSome result (λ v. (V.header v ≡ seat.old.header) × (V.opening v ≡ seat.old.opening)) }
        ensures seen { IfSome result (λ v. IsPrefixOf seat.old.seen (V.log v)) }
        ensures mine { IfSome result (λ v. StandAt seat.old.mine seat.old.seen (V.log v)) }
        ensures fed { IfSome result (λ v. seat.old.feeds ≡ true → fed (V.log v) ≡ fed seat.old.seen) }
        ensures stopped { IfSome result (λ v. is_stopped seat.old.seen ≡ true → is_stopped (V.log v) ≡ true) }
    {
        laws::logs();
        let found = self
            .table
            .shared
            .compare_exchange::<Take>(&mut seat.seat, 0, 0, 1);
        if found != 0 {
            prove!(found == 1);
            return None;
        }
        let value = self.table.shared.exchange(&mut seat.seat, 0, None);
        Some(value.unwrap())
    }

    /// Puts the value back. Its log begins with the log with which it was taken, and has the same fed list unless
    /// this seat feeds. What was added are the seat's own entries.
    pub fn put(&self, seat: &mut TurnSeat<V>, value: V)
        requires turn { seat.old.turn ≡ self.now }
        requires value { MayPut seat.old (V.header value) (V.opening value) (V.log value) }
        ensures put { seat.new ≡ released_seat (V.log value) seat.old }
        ensures places { ArePlaces 0 (length seat.new.seen) seat.new.mine }
    {
        drop(self.table.shared.exchange(&mut seat.seat, 0, Some(value)));
        self.table.shared.store::<Release>(&mut seat.seat, 0, 0);
    }

    /// Splits a seat off the first one. With `feeds` the first seat hands it the right to feed.
    pub fn split_seat(&self, seat: &mut TurnSeat<V>, feeds: bool) -> TurnSeat<V>
        requires turn { seat.old.turn ≡ self.now }
        requires free { seat.old.held ≡ None }
        requires first { seat.old.first ≡ true }
        requires feeds { feeds ≡ true → seat.old.feeds ≡ true }
        ensures left { seat.new ≡ left_seat feeds seat.old }
        ensures right { result ≡ right_seat feeds seat.old }
    {
        if feeds {
            self.split_feed(seat)
        } else {
            self.split_plain(seat)
        }
    }

    fn split_feed(&self, seat: &mut TurnSeat<V>) -> TurnSeat<V>
        requires turn { seat.old.turn ≡ self.now }
        requires free { seat.old.held ≡ None }
        requires first { seat.old.first ≡ true }
        requires feeds { seat.old.feeds ≡ true }
        ensures left { seat.new ≡ left_seat true seat.old }
        ensures right { result ≡ right_seat true seat.old }
    {
        let seat = self.table.shared.split_seat::<SplitFeed>(&mut seat.seat);
        TurnSeat { seat }
    }

    fn split_plain(&self, seat: &mut TurnSeat<V>) -> TurnSeat<V>
        requires turn { seat.old.turn ≡ self.now }
        requires free { seat.old.held ≡ None }
        requires first { seat.old.first ≡ true }
        ensures left { seat.new ≡ left_seat false seat.old }
        ensures right { result ≡ right_seat false seat.old }
    {
        let seat = self.table.shared.split_seat::<SplitPlain>(&mut seat.seat);
        TurnSeat { seat }
    }

    /// Joins a seat that was split off into the first one, which then knows what both knew, and has the right to feed
    /// if one of them had it.
    pub fn join_seat(&self, into: &mut TurnSeat<V>, ended: TurnSeat<V>)
        requires turn { (into.old.turn ≡ self.now) × (ended.turn ≡ self.now) }
        requires free { (into.old.held ≡ None) × (ended.held ≡ None) }
        requires first { into.old.first ≡ true }
        ensures joined { into.new ≡ joined_seat into.old ended }
        ensures places { ArePlaces 0 (length into.new.seen) into.new.mine }
        ensures into_seen { IsPrefixOf into.old.seen into.new.seen }
        ensures ended_seen { IsPrefixOf ended.seen into.new.seen }
        ensures ended_fed { ended.feeds ≡ true → fed into.new.seen ≡ fed ended.seen }
        ensures into_fed { ended.feeds ≡ false → into.old.feeds ≡ true → fed into.new.seen ≡ fed into.old.seen }
    {
        laws::fed_logs();
        let TurnSeat { seat } = ended;
        self.table
            .shared
            .join_seat::<JoinSeats>(&mut into.seat, seat);
        self.table.shared.load::<Settle>(&mut into.seat, 0);
    }

    /// Gives the value back at the end, when all seats were joined.
    pub fn close(self, seat: TurnSeat<V>) -> V
        requires turn { seat.turn ≡ self }
        requires free { seat.held ≡ None }
        requires first { seat.first ≡ true }
        requires all { seat.out ≡ 0 }
        ensures header { (V.header result ≡ seat.header) × (V.opening result ≡ seat.opening) }
        ensures seen { IsPrefixOf seat.seen (V.log result) }
        ensures mine { StandAt seat.mine seat.seen (V.log result) }
        ensures fed { fed (V.log result) ≡ fed seat.seen }
        ensures feeds { seat.feeds ≡ true }
        ensures stopped { is_stopped seat.seen ≡ true → is_stopped (V.log result) ≡ true }
    {
        laws::logs();
        let Turn { table } = self;
        let TurnSeat { seat } = seat;
        let mut closed = table.close_with(seat);
        let value = closed.take(0);
        closed.free();
        value.unwrap()
    }
}
