//! Replays of a journal.

ghost use Rattle.std.specs.Prelude.{◌≡◌, IfOk};
ghost use Rattle.dn_model.specs.Cases.{IsRecording};
ghost use Rattle.dn_model.specs.Network.{Network, routers};
ghost use Rattle.dn_world.specs.World.{opening};
ghost use Rattle.dn_fabric.specs.Driven.{IsOpening};
ghost use Rattle.dn_fabric.specs.Fabrics.{IsNetworkOf};
ghost use Rattle.dn_drive.specs.Allowed.{rerun, legal_front};
ghost use Rattle.dn_drive.specs.Driving.{IsOfSameNetwork};
ghost use Rattle.dn_drive.specs.Endings.{StandsAt};

use crate::Ended;
use crate::allowed::{is_allowed, rest_after};
use crate::ended::end_of;
use crate::laws::cut_runs;
use crate::taking::take_step;
use dn_fabric::Fabric;
use dn_guest::{Guest, NoMemory};
use dn_model::External;
use dn_world::Step;
use std::alloc::Global;

/// Takes the steps on the fabric, one after another, in the case with this feed. The fabric is as
/// `Fabric::new` gives it, with a guest for each router.
///
/// The journal is then the steps before the first that isn't allowed, and goes no further than the first that
/// leaves a cut world. After `NoMemory` nothing is said of the fabric but that its network is the one from
/// before; it may have taken some of the steps.
pub fn replay<G: Guest>(
    alloc: Global,
    fabric: &mut Fabric<G>,
    feed: &[External],
    steps: &[Step],
) -> Result<Ended, NoMemory>
    requires opening { IsOpening fabric.old }
    requires case { IsRecording (record { header = fabric.old.live.header; feed = feed.now }) }
    ensures answer { (net : Network G) → IsNetworkOf net G.meaning fabric.old.live.header fabric.old.live.openings →
        IfOk result (λ ended. ended ≡ rerun net (opening (routers net)) feed.now 0 steps.now) }
    ensures journal { (net : Network G) →
        IsNetworkOf net G.meaning fabric.old.live.header fabric.old.live.openings →
        IfOk result (λ ended. fabric.new.journal ≡ legal_front net (opening (routers net)) feed.now steps.now) }
    ensures stands { (net : Network G) → IsNetworkOf net G.meaning fabric.old.live.header fabric.old.live.openings →
        IfOk result (λ ended. StandsAt net feed.now ended fabric.new) }
    ensures network { IsOfSameNetwork fabric.old fabric.new }
{
    // What the journal's own contract says holds of the fabric as it is given.
    let _journal = fabric.journal();
    dn_model::laws::order_of_events();
    dn_fabric::laws::networks::<G>();
    cut_runs::<G>();
    let mut rest = feed;
    for index in 0..steps.len() {
        let step = &steps[index];
        if !is_allowed(fabric, rest, step) {
            return Ok(Ended::Illegal(index as u64 + 1));
        }
        take_step(alloc, fabric, step)?;
        if fabric.is_cut() {
            return Ok(Ended::Cut);
        }
        rest = rest_after(rest, step);
    }
    Ok(end_of(fabric))
}
