//! The feeder's thread.

ghost use Rattle.std.specs.Prelude.{◌≡◌, ◌⊎◌, Bool, [], List, None, true, false, IfOk, OnOk, OnErr};
ghost use Rattle.dn_model.specs.declared.feed.External.{External};
ghost use Rattle.dn_model.specs.Settled.{IsPrefixOf};
ghost use Rattle.dn_world.specs.Logs.{fed, is_stopped};
ghost use Rattle.dn_fabric.specs.Fabrics.{log_in};
ghost use Rattle.dn_record.specs.declared.feeder.Fed.TheVariants.{Closed};
ghost use Rattle.dn_turn.specs.Seat.{IsSameSeat, holding};
ghost use Rattle.dn_workers.specs.declared.feeding.Round.TheVariants.{GoesOn, Over};
ghost use Rattle.dn_workers.specs.Holds.{HasTaken, HasPutBack};
ghost use Rattle.dn_workers.specs.Feed.{IsFedWith, IsFedUpTo, IsDue, EndsWithClose};

use crate::feeding::{Round, pass_on};
use crossbeam_utils::Backoff;
use dn_fabric::Fabric;
use dn_guest::{Guest, NoMemory};
use dn_record::{Fed, Feeder};
use dn_turn::{Turn, TurnSeat};
use std::alloc::Global;
use std::sync::Wait;

/// Feeds the fabric of the turn with what the feeder gives, each input in the group with which it is stamped, and
/// closes the feed when the feeder has closed; or until another seat has stopped the fabric.
///
/// `NoMemory`: this call, or the feeder, has found no memory, and the fabric was stopped. After any answer the seat
/// doesn't have the fabric.
pub fn feed<G: Guest + Sync, F: Feeder, R: Wait>(
    rt: &R,
    alloc: Global,
    turn: &Turn<Fabric<G>>,
    seat: &mut TurnSeat<Fabric<G>>,
    feeder: &mut F,
) -> Result<(), NoMemory>
    requires turn { seat.old.turn ≡ turn.now }
    requires free { seat.old.held ≡ None }
    requires feeds { seat.old.feeds ≡ true }
    requires unfed { fed seat.old.seen ≡ [] }
    requires header { F.header feeder.old ≡ seat.old.header }
    requires given { F.given feeder.old ≡ [] }
    requires open { F.closed feeder.old ≡ false }
    ensures comes { F.comes feeder.old feeder.new }
    ensures same { IsSameSeat seat.old seat.new }
    ensures free { seat.new.held ≡ None }
    ensures seen { IsPrefixOf seat.old.seen seat.new.seen }
    ensures fed { IsFedWith (F.given feeder.new) (F.closed feeder.new) seat.new.seen }
    ensures ok { OnOk result ((is_stopped seat.new.seen ≡ true)
        ⊎ ((F.closed feeder.new ≡ true) × EndsWithClose seat.new.seen)) }
    ensures err { OnErr result (is_stopped seat.new.seen ≡ true) }
{
    for _ in rt.forever() {
        match feeder.next(alloc) {
            Ok(fed) => {
                let fabric = take(rt, turn, seat);
                match hold(turn, seat, fabric, fed)? {
                    Round::GoesOn => {}
                    Round::Over => return Ok(()),
                }
            }
            Err(error) => {
                let fabric = take(rt, turn, seat);
                halt(turn, seat, fabric);
                return Err(error);
            }
        }
    }
    unreachable!()
}

/// Tries for the fabric until the seat has it.
fn take<G: Guest + Sync, R: Wait>(
    rt: &R,
    turn: &Turn<Fabric<G>>,
    seat: &mut TurnSeat<Fabric<G>>,
) -> Fabric<G>
    requires turn { seat.old.turn ≡ turn.now }
    requires free { seat.old.held ≡ None }
    ensures holding { seat.new ≡ holding (log_in result) seat.old }
    ensures taken { HasTaken seat.new result }
{
    let backoff = Backoff::new();
    for _ in rt.forever() {
        match turn.try_take(seat) {
            None => backoff.snooze(),
            Some(fabric) => return fabric,
        }
    }
    unreachable!()
}

/// One hold of the turn: the fabric was taken, what the feeder has answered is passed on to it, and it is put back.
fn hold<G: Guest + Sync>(
    turn: &Turn<Fabric<G>>,
    seat: &mut TurnSeat<Fabric<G>>,
    mut fabric: Fabric<G>,
    fed: Fed,
) -> Result<Round, NoMemory>
    requires turn { seat.old.turn ≡ turn.now }
    requires taken { HasTaken seat.old fabric }
    requires feeds { seat.old.feeds ≡ true }
    requires due { (given : List External) × (closed : Bool) × IsDue seat.old.header seat.old.seen fed given closed }
    ensures put_back { HasPutBack seat.old seat.new }
    ensures fed { (given : List External) (closed : Bool) → IsDue seat.old.header seat.old.seen fed given closed →
        IsFedWith given closed seat.new.seen }
    ensures more { IfOk result (λ round. round ≡ GoesOn → (given : List External) (closed : Bool) →
        IsDue seat.old.header seat.old.seen fed given closed → (closed ≡ false) × IsFedUpTo given seat.new.seen) }
    ensures over { IfOk result (λ round. round ≡ Over →
        (is_stopped seat.new.seen ≡ true) ⊎ ((fed ≡ Closed) × EndsWithClose seat.new.seen)) }
    ensures err { OnErr result (is_stopped seat.new.seen ≡ true) }
{
    dn_world::laws::logs();
    if fabric.stopped() {
        turn.put(seat, fabric);
        return Ok(Round::Over);
    }
    let passed = pass_on(&mut fabric, fed);
    turn.put(seat, fabric);
    passed
}

/// One hold of the turn, after the feeder has found no memory: the fabric is stopped, and put back.
fn halt<G: Guest + Sync>(
    turn: &Turn<Fabric<G>>,
    seat: &mut TurnSeat<Fabric<G>>,
    mut fabric: Fabric<G>,
)
    requires turn { seat.old.turn ≡ turn.now }
    requires taken { HasTaken seat.old fabric }
    requires feeds { seat.old.feeds ≡ true }
    ensures put_back { HasPutBack seat.old seat.new }
    ensures same_fed { fed seat.new.seen ≡ fed seat.old.seen }
    ensures stopped { is_stopped seat.new.seen ≡ true }
{
    dn_world::laws::logs();
    dn_world::laws::fed_logs();
    fabric.stop();
    turn.put(seat, fabric);
}
