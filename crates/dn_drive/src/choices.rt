//! What a turn of a schedule chooses from.

ghost use Rattle.std.specs.Prelude.{◌≡◌, ◌<◌, ◌≤◌, Some, List, [], length, slice_get, IfOk};
ghost use Rattle.dn_model.specs.declared.feed.External.{External};
ghost use Rattle.dn_world.specs.World.{part, is_behind, is_ready};
ghost use Rattle.dn_drive.specs.Choices.{choices, next_group, open_feed, passing};
ghost use Rattle.dn_drive.specs.Counting.{AreCounts, test_of};

use crate::allowed::has_next_group;
use crate::ended::can_commit;
use dn_fabric::Fabric;
use dn_guest::{Guest, NoMemory};
use dn_model::External;
use dn_world::Step;
use std::alloc::Global;

/// How many steps of each kind a turn chooses from.
#[derive(Clone, Copy, Debug)]
pub(crate) struct Counts {
    /// Steps that feed the case: 0 or 1.
    pub feeding: u64,
    /// Packets that fly.
    pub flying: u64,
    /// Routers that are behind.
    pub behind: u64,
    /// Ready routers.
    pub ready: u64,
    /// Commits: 0 or 1.
    pub committing: u64,
}

impl Counts {
    /// How many steps of each kind the fabric has to choose from.
    pub(crate) fn of<G: Guest>(fabric: &Fabric<G>) -> Counts
        requires { length fabric.now.live.world.parts ≡ length fabric.now.live.header.routers }
        ensures { (rest : List External) → AreCounts fabric.now.live.header fabric.now.live.world rest result }
    {
        let (behind, ready) = count_routers(fabric);
        Counts {
            feeding: u64::from(!fabric.closed()),
            flying: fabric.flying(),
            behind,
            ready,
            committing: u64::from(can_commit(fabric)),
        }
    }

    /// How many steps there are to choose from. A flight of fewer than 2 ^ 64 packets may make it more than
    /// fits 64 bits.
    pub(crate) fn total<G: Guest>(&self, fabric: &Fabric<G>) -> u128
        requires { (rest : List External) → AreCounts fabric.now.live.header fabric.now.live.world rest self.now }
        ensures { (rest : List External) → result ≡ length (choices fabric.now.live.header fabric.now.live.world rest) }
    {
        let routers = u128::from(self.behind) + u128::from(self.ready);
        let others = u128::from(self.feeding) + u128::from(self.committing);
        u128::from(self.flying) + routers + others
    }
}

/// How many routers are behind, and how many are ready.
fn count_routers<G: Guest>(fabric: &Fabric<G>) -> (u64, u64)
    requires { length fabric.now.live.world.parts ≡ length fabric.now.live.header.routers }
    ensures behind { result.0 ≡ length (passing is_behind 0 fabric.now.live.world.parts) }
    ensures ready { result.1 ≡ length (passing is_ready 0 fabric.now.live.world.parts) }
{
    let mut behind: u64 = 0;
    let mut ready: u64 = 0;
    for router in 0..router_count(fabric) {
        behind += u64::from(fabric.behind(router));
        ready += u64::from(fabric.ready(router));
    }
    (behind, ready)
}

/// How many routers there are.
fn router_count<G: Guest>(fabric: &Fabric<G>) -> u16
    ensures count { result ≡ length fabric.now.live.header.routers }
    ensures few { result ≤ 64 }
{
    fabric.header().routers.as_slice().len() as u16
}

/// The step at this place of what there is to choose from.
pub(crate) fn choice<G: Guest>(
    alloc: Global,
    fabric: &Fabric<G>,
    rest: &[External],
    counts: &Counts,
    place: u64,
) -> Result<Step, NoMemory>
    requires parts { length fabric.now.live.world.parts ≡ length fabric.now.live.header.routers }
    requires counts { AreCounts fabric.now.live.header fabric.now.live.world rest.now counts.now }
    requires there { place < length (choices fabric.now.live.header fabric.now.live.world rest.now) }
    ensures { IfOk result (λ step. slice_get (choices fabric.now.live.header fabric.now.live.world rest.now) place ≡
        Some step) }
{
    if place < counts.feeding {
        return feed_step(alloc, fabric, rest);
    }
    let place = place - counts.feeding;
    if place < counts.flying {
        return Ok(Step::Deliver(place));
    }
    let place = place - counts.flying;
    if place < counts.behind {
        return Ok(Step::RollBack(nth_router(fabric, Wanted::Behind, place)));
    }
    let place = place - counts.behind;
    if place < counts.ready {
        return Ok(Step::Handle(nth_router(fabric, Wanted::Ready, place)));
    }
    Ok(Step::Commit)
}

/// The step that feeds the case next.
fn feed_step<G: Guest>(
    alloc: Global,
    fabric: &Fabric<G>,
    rest: &[External],
) -> Result<Step, NoMemory>
    ensures { IfOk result (λ step. step ≡ open_feed fabric.now.live.header fabric.now.live.world rest.now) }
{
    match rest.first() {
        Some(next) => {
            if next.group == fabric.floor() {
                Ok(Step::Inject(next.copy(alloc)?))
            } else {
                Ok(next_group(fabric))
            }
        }
        None => Ok(next_group(fabric)),
    }
}

/// Beacon where a group is left to begin, otherwise Close.
fn next_group<G: Guest>(fabric: &Fabric<G>) -> Step
    ensures { result ≡ next_group fabric.now.live.header fabric.now.live.world }
{
    if has_next_group(fabric) {
        Step::Beacon
    } else {
        Step::Close
    }
}

/// Which routers are looked for.
#[derive(Clone, Copy, Debug)]
enum Wanted {
    Behind,
    Ready,
}

/// Whether the router is one of those that are looked for.
fn is_wanted<G: Guest>(fabric: &Fabric<G>, wanted: Wanted, router: u16) -> bool
    requires { router < length fabric.now.live.header.routers }
    ensures { result ≡ test_of wanted (part fabric.now.live.world router) }
{
    match wanted {
        Wanted::Behind => fabric.behind(router),
        Wanted::Ready => fabric.ready(router),
    }
}

/// The number of the router at this place of those that are looked for.
fn nth_router<G: Guest>(fabric: &Fabric<G>, wanted: Wanted, place: u64) -> u16
    requires parts { length fabric.now.live.world.parts ≡ length fabric.now.live.header.routers }
    requires there { place < length (passing (test_of wanted) 0 fabric.now.live.world.parts) }
    ensures { slice_get (passing (test_of wanted) 0 fabric.now.live.world.parts) place ≡ Some result }
{
    let mut left = place;
    for router in 0..router_count(fabric) {
        if is_wanted(fabric, wanted, router) {
            if left == 0 {
                return router;
            }
            left -= 1;
        }
    }
    0
}
