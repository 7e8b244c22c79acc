//! Taking one step.

ghost use Rattle.std.specs.Prelude.{◌≡◌, ◌<◌, true, false, length, get_or, OnOk, OnErr};
ghost use Rattle.dn_model.specs.Network.{Network};
ghost use Rattle.dn_world.specs.declared.step.Step.TheVariants.{Handle, Commit};
ghost use Rattle.dn_world.specs.World.{part, is_ready};
ghost use Rattle.dn_world.specs.Steps.{is_enabled};
ghost use Rattle.dn_fabric.specs.Fabrics.{IsNetworkOf, HasStepped, HasStopped};
ghost use Rattle.dn_drive.specs.Driving.{IsDriven, IsOfSameNetwork};

use dn_fabric::Fabric;
use dn_guest::{Guest, NoMemory};
use dn_world::Step;
use std::alloc::Global;

/// Takes a step that is enabled.
pub(crate) fn take_step<G: Guest>(
    alloc: Global,
    fabric: &mut Fabric<G>,
    step: &Step,
) -> Result<(), NoMemory>
    requires driven { IsDriven fabric.old }
    requires enabled { (net : Network G) →
        IsNetworkOf net G.meaning fabric.old.live.header fabric.old.live.openings →
        is_enabled net fabric.old.live.world step.now ≡ true }
    ensures ok { (net : Network G) → IsNetworkOf net G.meaning fabric.old.live.header fabric.old.live.openings →
        OnOk result (HasStepped net fabric.old step.now fabric.new) }
    ensures driven { OnOk result (IsDriven fabric.new) }
    ensures network { IsOfSameNetwork fabric.old fabric.new }
{
    dn_fabric::laws::networks::<G>();
    match step {
        Step::Beacon => fabric.beacon(),
        Step::Inject(external) => fabric.inject(external.router, external.input.copy(alloc)?),
        Step::Close => fabric.close(),
        Step::Deliver(place) => fabric.deliver(*place),
        Step::Handle(router) => handle(fabric, *router),
        Step::RollBack(router) => fabric.roll_back(*router),
        Step::Commit => commit(fabric),
    }
}

/// Lets a ready router handle its least event: its order is given out, computed, and its outcome comes back
/// at once. So the router would give the same order then.
fn handle<G: Guest>(fabric: &mut Fabric<G>, router: u16) -> Result<(), NoMemory>
    requires driven { IsDriven fabric.old }
    requires inside { router < length fabric.old.live.header.routers }
    requires ready { is_ready (part fabric.old.live.world router) ≡ true }
    ensures ok { (net : Network G) → IsNetworkOf net G.meaning fabric.old.live.header fabric.old.live.openings →
        OnOk result (HasStepped net fabric.old (Handle router) fabric.new) }
    ensures err { OnErr result (IsOfSameNetwork fabric.old fabric.new) }
{
    dn_fabric::laws::networks::<G>();
    let order = fabric.lease(router)?;
    match order.compute() {
        Ok(outcome) => {
            let _applied = fabric.finish(outcome)?;
            Ok(())
        }
        Err(error) => {
            fabric.stop();
            Err(error)
        }
    }
}

/// Commits what is below the horizon.
fn commit<G: Guest>(fabric: &mut Fabric<G>) -> Result<(), NoMemory>
    requires { fabric.old.live.stopped ≡ false }
    ensures ok { (net : Network G) → IsNetworkOf net G.meaning fabric.old.live.header fabric.old.live.openings →
        OnOk result (HasStepped net fabric.old Commit fabric.new) }
    ensures err { OnErr result (HasStopped fabric.old fabric.new) }
{
    let _moved = fabric.commit()?;
    Ok(())
}
