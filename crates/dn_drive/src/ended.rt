//! How a drive ends.

ghost use Rattle.std.specs.Prelude.{◌≡◌, true, false};
ghost use Rattle.dn_model.specs.Network.{Network};
ghost use Rattle.dn_world.specs.World.{horizon, is_quiet};
ghost use Rattle.dn_world.specs.Runs.{IsAllPast};
ghost use Rattle.dn_fabric.specs.Fabrics.{IsNetworkOf};
ghost use Rattle.dn_fabric.specs.Promises.{IsAtRest};
ghost use Rattle.dn_fabric.specs.Work.{can_commit};
ghost use Rattle.dn_drive.specs.Allowed.{end_of};
ghost use Rattle.dn_drive.specs.Endings.{IsLegalEnd};

use dn_fabric::Fabric;
use dn_guest::Guest;

/// What the steps of a drive came to.
#[derive(Clone, Copy, Debug, PartialEq, Eq)]
pub enum Ended {
    /// All steps were taken. Nothing waits or flies any more, and all is committed.
    Whole,
    /// A step left more rows below the boundary than a trace shows, and no step was taken after it.
    Cut,
    /// The step of this number, from 1, isn't allowed where it comes.
    Illegal(u64),
    /// All steps were taken, and something is left to do.
    Open,
}

/// Whole in a quiet world whose horizon isn't above its boundary, Open in any other.
#[tactic(auto, unfolding(crate::specs::Allowed::end_of))]
pub(crate) fn end_of<G: Guest>(fabric: &Fabric<G>) -> Ended
    ensures answer { result ≡ end_of fabric.now.live.header fabric.now.live.world }
    ensures legal { IsLegalEnd result }
    ensures at_rest { (net : Network G) →
        IsNetworkOf net G.meaning fabric.now.live.header fabric.now.live.openings →
        fabric.now.live.stopped ≡ false → is_quiet fabric.now.live.world ≡ true → IsAtRest net fabric.now.live }
    ensures committed { (net : Network G) → net.header ≡ fabric.now.live.header
        → IsAllPast net fabric.now.live.world.boundary fabric.now.live.world → result ≡ Ended.Whole
        → fabric.now.live.world.boundary ≡ horizon net.header fabric.now.live.world }
{
    dn_world::laws::horizon::<G>();
    let quiet = fabric.quiet();
    let more = can_commit(fabric);
    if quiet && !more {
        Ended::Whole
    } else {
        Ended::Open
    }
}

/// Whether the horizon is above the boundary.
#[tactic(auto, unfolding(dn_fabric::specs::Work::can_commit))]
pub(crate) fn can_commit<G: Guest>(fabric: &Fabric<G>) -> bool
    ensures { result ≡ can_commit fabric.now.live.header fabric.now.live.world }
{
    fabric.horizon() > fabric.boundary()
}
