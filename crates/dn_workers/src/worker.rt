//! Workers.

ghost use Rattle.std.specs.Prelude.{◌≡◌, None, true, IfOk, OnOk, OnErr};
ghost use Rattle.dn_world.specs.Logs.{is_stopped};
ghost use Rattle.dn_workers.specs.declared.holding.Found.TheVariants.{Over};
ghost use Rattle.dn_workers.specs.Holds.{HasTaken};
ghost use Rattle.dn_workers.specs.Work.{HasWorked, IsDone};

use crate::gate::Gate;
use crate::holding::{Found, go_on};
use crossbeam_utils::Backoff;
use dn_fabric::Fabric;
use dn_guest::{Guest, NoMemory};
use dn_router::{Order, Outcome};
use dn_turn::{Turn, TurnSeat};
use std::sync::Wait;

/// How many orders a worker computes between two commits.
const ORDERS_A_COMMIT: u64 = 256;

/// Works on the fabric of the turn until all is done: until the world is quiet and committed, or closed and cut,
/// or another seat has stopped the fabric.
///
/// `NoMemory`: this worker has found no memory, and has stopped the fabric. After any answer the seat doesn't have
/// the fabric.
pub fn work<G: Guest + Sync, Y: Gate, R: Wait>(
    rt: &R,
    turn: &Turn<Fabric<G>>,
    seat: &mut TurnSeat<Fabric<G>>,
    gate: &Y,
) -> Result<(), NoMemory>
    requires turn { seat.old.turn ≡ turn.now }
    requires free { seat.old.held ≡ None }
    ensures worked { HasWorked seat.old seat.new }
    ensures ok { OnOk result (IsDone G.meaning seat.new) }
    ensures err { OnErr result (is_stopped seat.new.seen ≡ true) }
{
    let backoff = Backoff::new();
    let mut computed = None;
    let mut orders: u64 = 0;
    for _ in rt.forever() {
        let commits = orders >= ORDERS_A_COMMIT;
        match turn.try_take(seat) {
            None => backoff.snooze(),
            Some(fabric) => match hold(turn, seat, fabric, computed.take(), commits)? {
                Found::Order(order) => {
                    backoff.reset();
                    computed = Some(compute(order, gate));
                    orders = if commits { 1 } else { orders + 1 };
                }
                Found::More => backoff.reset(),
                Found::Nothing => backoff.snooze(),
                Found::Over => return Ok(()),
            },
        }
    }
    unreachable!()
}

/// Computes the order, behind the gate.
fn compute<G: Guest, Y: Gate>(order: Order<G>, gate: &Y) -> Result<Outcome<G>, NoMemory>
    ensures { IfOk result (λ outcome. outcome ≡ order) }
{
    gate.enter(order.router(), order.place());
    order.compute()
}

/// One hold of the turn: the fabric was taken, the worker goes on with it, and puts it back.
fn hold<G: Guest + Sync>(
    turn: &Turn<Fabric<G>>,
    seat: &mut TurnSeat<Fabric<G>>,
    mut fabric: Fabric<G>,
    computed: Option<Result<Outcome<G>, NoMemory>>,
    commits: bool,
) -> Result<Found<G>, NoMemory>
    requires turn { seat.old.turn ≡ turn.now }
    requires taken { HasTaken seat.old fabric }
    ensures worked { HasWorked seat.old seat.new }
    ensures over { IfOk result (λ found. found ≡ Over → IsDone G.meaning seat.new) }
    ensures err { OnErr result (is_stopped seat.new.seen ≡ true) }
{
    dn_world::laws::logs();
    if fabric.stopped() {
        turn.put(seat, fabric);
        return Ok(Found::Over);
    }
    let found = go_on(&mut fabric, computed, commits);
    let _ = fabric.journal();
    turn.put(seat, fabric);
    found
}
