//! A whole run on threads.

ghost use Rattle.std.specs.Prelude.{◌≡◌, ◌≤◌, ◌<◌, [], None, true, false, All, IfOk, OnOk};
ghost use Rattle.dn_world.specs.Logs.{fed};
ghost use Rattle.dn_fabric.specs.Driven.{IsOpening};
ghost use Rattle.dn_workers.specs.Joined.{HasAnswered, HaveAnswered, HasFedAll};
ghost use Rattle.dn_workers.specs.Runs.{HasRun};

use crate::feeder::feed;
use crate::gate::Gate;
use crate::laws;
use crate::seats::{join_all, split_all};
use crate::worker::work;
use dn_fabric::Fabric;
use dn_guest::{Guest, NoMemory};
use dn_record::Feeder;
use dn_turn::{Turn, TurnSeat};
use std::alloc::{AllocError, Global};
use std::sync::Wait;
use std::thread::{Threads, for_each_mut, join_mut};

/// One worker. If it finds no memory its seat has seen the stop, so its answer isn't kept.
fn work_alone<G: Guest + Sync, Y: Gate, R: Wait>(
    rt: &R,
    turn: &Turn<Fabric<G>>,
    seat: &mut TurnSeat<Fabric<G>>,
    gate: &Y,
)
    requires turn { seat.old.turn ≡ turn.now }
    requires free { seat.old.held ≡ None }
    ensures { HasAnswered G.meaning seat.old seat.new }
{
    let _ = work(rt, turn, seat, gate);
}

/// A worker for each seat, on at most so many threads.
fn work_all<G: Guest + Sync, Y: Gate + Sync, R: Threads + Wait + Sync>(
    rt: &R,
    turn: &Turn<Fabric<G>>,
    threads: usize,
    seats: &mut [TurnSeat<Fabric<G>>],
    gate: &Y,
)
    requires threads { 0 < threads }
    requires seats { All (λ seat. (seat.turn ≡ turn.now) × (seat.held ≡ None)) seats.old }
    ensures { HaveAnswered G.meaning seats.old seats.new }
{
    let each = |_: usize, seat: &mut TurnSeat<Fabric<G>>|
        requires { (seat.now.turn ≡ turn.now) × (seat.now.held ≡ None) }
        ensures { HasAnswered G.meaning seat.entry.now seat.exit.now }
    { work_alone(rt, turn, seat, gate) };
    for_each_mut(rt, seats, threads, &each);
}

/// The feeder. If it finds no memory its seat has seen the stop, so its answer isn't kept.
fn feed_all<G: Guest + Sync, F: Feeder, R: Wait>(
    rt: &R,
    alloc: Global,
    turn: &Turn<Fabric<G>>,
    seat: &mut TurnSeat<Fabric<G>>,
    feeder: &mut F,
)
    requires turn { (seat.old.turn ≡ turn.now) × (seat.old.held ≡ None) × (seat.old.feeds ≡ true) }
    requires unfed { fed seat.old.seen ≡ [] }
    requires feeder { (F.header feeder.old ≡ seat.old.header) × (F.given feeder.old ≡ [])
        × (F.closed feeder.old ≡ false) }
    ensures comes { F.comes feeder.old feeder.new }
    ensures fed { HasFedAll (F.given feeder.new) (F.closed feeder.new) seat.old seat.new }
{
    let _ = feed(rt, alloc, turn, seat, feeder);
}

/// The feeder and a worker for each seat, at once. `join_mut` calls its second closure on this thread, and the first one
/// behind it if no thread can be started: so the feeder is the second one, since workers wait for it.
fn feed_and_work<'a, G: Guest + Sync, F: Feeder + Send, Y: Gate + Sync, R: Threads + Wait + Sync>(
    rt: &'a R,
    alloc: Global,
    turn: &'a Turn<Fabric<G>>,
    seat: &'a mut TurnSeat<Fabric<G>>,
    feeder: &'a mut F,
    threads: usize,
    seats: &'a mut [TurnSeat<Fabric<G>>],
    gate: &'a Y,
)
    requires turn { (seat.old.turn ≡ turn.now) × (seat.old.held ≡ None) × (seat.old.feeds ≡ true) }
    requires unfed { fed seat.old.seen ≡ [] }
    requires feeder { (F.header feeder.old ≡ seat.old.header) × (F.given feeder.old ≡ [])
        × (F.closed feeder.old ≡ false) }
    requires threads { 0 < threads }
    requires seats { All (λ seat. (seat.turn ≡ turn.now) × (seat.held ≡ None)) seats.old }
    ensures comes { F.comes feeder.old feeder.new }
    ensures fed { HasFedAll (F.given feeder.new) (F.closed feeder.new) seat.old seat.new }
    ensures worked { HaveAnswered G.meaning seats.old seats.new }
{
    join_mut(
        rt,
        &mut ||
            requires threads { 0 < threads }
            requires seats { All (λ seat. (seat.turn ≡ turn.now) × (seat.held ≡ None)) seats.now }
            ensures { HaveAnswered G.meaning seats.entry.now seats.exit.now }
        { work_all(rt, turn, threads, seats, gate) },
        &mut ||
            requires turn { (seat.now.turn ≡ turn.now) × (seat.now.held ≡ None) × (seat.now.feeds ≡ true) }
            requires unfed { fed seat.now.seen ≡ [] }
            requires feeder { (F.header feeder.now ≡ seat.now.header) × (F.given feeder.now ≡ [])
                × (F.closed feeder.now ≡ false) }
            ensures comes { F.comes feeder.entry.now feeder.exit.now }
            ensures fed { HasFedAll (F.given feeder.exit.now) (F.closed feeder.exit.now) seat.entry.now
                seat.exit.now }
        { feed_all(rt, alloc, turn, seat, feeder) },
    );
}

/// Runs the fabric by a feeder and so many workers, each on a thread of its own, until the feeder has closed and
/// nothing is left to do: all of the case was accepted, and the network is quiet and committed, or cut. Where a thread
/// can't be started the calls run one after another, the feeder first.
///
/// `NoMemory`: one of them has found no memory, or this call has, before any of them began.
pub fn run_threads<G: Guest + Sync, F: Feeder + Send, Y: Gate + Sync, R: Threads + Wait + Sync>(
    rt: &R,
    alloc: Global,
    fabric: Fabric<G>,
    workers: u16,
    feeder: &mut F,
    gate: &Y,
) -> Result<Fabric<G>, NoMemory>
    requires opening { IsOpening fabric }
    requires some { 1 ≤ workers }
    requires few { workers ≤ 16 }
    requires header { F.header feeder.old ≡ fabric.live.header }
    requires given { F.given feeder.old ≡ [] }
    requires open { F.closed feeder.old ≡ false }
    ensures comes { F.comes feeder.old feeder.new }
    ensures ok { IfOk result (λ now. HasRun G.meaning fabric (F.given feeder.new) now) }
    ensures closed { OnOk result (F.closed feeder.new ≡ true) }
{
    let (turn, mut first) = Turn::new(alloc, fabric)?;
    let mut feeder_seat = turn.split_seat(&mut first, true);
    let mut seats = split_all(alloc, &turn, &mut first, workers)?;
    feed_and_work(
        rt,
        alloc,
        &turn,
        &mut feeder_seat,
        feeder,
        usize::from(workers),
        seats.as_mut_slice(),
        gate,
    );
    turn.join_seat(&mut first, feeder_seat);
    join_all(&turn, &mut first, seats);
    let fabric = turn.close(first);
    laws::ended_runs::<G>();
    if fabric.stopped() {
        return Err(AllocError);
    }
    let _ = fabric.journal();
    Ok(fabric)
}
