//! Runs by a schedule.

ghost use Rattle.std.specs.Prelude.{◌≡◌, ◌<◌, ◌%◌, IfOk};
ghost use Rattle.dn_model.specs.Cases.{IsRecording};
ghost use Rattle.dn_model.specs.Network.{Network, routers};
ghost use Rattle.dn_world.specs.World.{opening};
ghost use Rattle.dn_fabric.specs.Driven.{IsOpening};
ghost use Rattle.dn_fabric.specs.Fabrics.{IsNetworkOf};
ghost use Rattle.dn_drive.specs.Allowed.{rerun};
ghost use Rattle.dn_drive.specs.Choices.{drawn, schedule};
ghost use Rattle.dn_drive.specs.Driving.{IsOfSameNetwork};
ghost use Rattle.dn_drive.specs.Endings.{IsLegalEnd, StandsAt};

use crate::Ended;
use crate::allowed::rest_after;
use crate::choices::{Counts, choice};
use crate::ended::end_of;
use crate::laws::cut_runs;
use crate::taking::take_step;
use dn_fabric::Fabric;
use dn_guest::{Guest, NoMemory};
use dn_model::{External, fin};
use std::alloc::Global;

/// Takes the steps of the schedule of this number in the case with this feed, in at most so many turns. The
/// fabric is as `Fabric::new` gives it, with a guest for each router.
///
/// The journal is then the schedule's list of steps, each of them allowed, and the answer is that of its
/// replay: never `Illegal`. After `NoMemory` nothing is said of the fabric but that its network is the one
/// from before; it may have taken some of the steps.
pub fn shake<G: Guest>(
    alloc: Global,
    fabric: &mut Fabric<G>,
    feed: &[External],
    number: u64,
    steps: u64,
) -> Result<Ended, NoMemory>
    requires opening { IsOpening fabric.old }
    requires case { IsRecording (record { header = fabric.old.live.header; feed = feed.now }) }
    ensures journal { (net : Network G) →
        IsNetworkOf net G.meaning fabric.old.live.header fabric.old.live.openings →
        IfOk result (λ ended. fabric.new.journal ≡ schedule net (opening (routers net)) feed.now number steps) }
    ensures answer { (net : Network G) → IsNetworkOf net G.meaning fabric.old.live.header fabric.old.live.openings →
        IfOk result (λ ended. ended ≡
        rerun net (opening (routers net)) feed.now 0 (schedule net (opening (routers net)) feed.now number steps)) }
    ensures legal { IfOk result IsLegalEnd }
    ensures stands { (net : Network G) → IsNetworkOf net G.meaning fabric.old.live.header fabric.old.live.openings →
        IfOk result (λ ended. StandsAt net feed.now ended fabric.new) }
    ensures network { IsOfSameNetwork fabric.old fabric.new }
{
    // What the journal's own contract says holds of the fabric as it is given.
    let _journal = fabric.journal();
    dn_model::laws::order_of_events();
    dn_fabric::laws::networks::<G>();
    cut_runs::<G>();
    let mut rest = feed;
    let mut last = number;
    for _turn in 0..steps {
        let counts = Counts::of(fabric);
        let count = counts.total(fabric);
        if count == 0 {
            return Ok(end_of(fabric));
        }
        last = drawn(last);
        let step = choice(alloc, fabric, rest, &counts, place_of(last, count))?;
        take_step(alloc, fabric, &step)?;
        if fabric.is_cut() {
            return Ok(Ended::Cut);
        }
        rest = rest_after(rest, &step);
    }
    Ok(end_of(fabric))
}

/// The next number, from which a turn's place is drawn.
#[tactic(auto, unfolding(crate::specs::Choices::drawn))]
fn drawn(last: u64) -> u64
    ensures { result ≡ drawn last }
{
    fin(last.wrapping_add(0x9E37_79B9_7F4A_7C15))
}

/// The place of this number among so many.
fn place_of(drawn: u64, count: u128) -> u64
    requires { 0 < count }
    ensures { result ≡ drawn % count }
{
    (u128::from(drawn) % count) as u64
}
