//! What a worker does while it has the fabric.

ghost use Rattle.std.specs.Prelude.{◌≡◌, true, false, Some, get_or, IfOk, OnOk, OnErr};
ghost use Rattle.dn_workers.specs.declared.holding.Found.TheVariants.{Over};
ghost use Rattle.dn_workers.specs.Holds.{HasGoneOn, IsOver};

use dn_fabric::{Fabric, Work};
use dn_guest::{Guest, NoMemory};
use dn_router::{Order, Outcome};

/// How many steps a worker takes at most before it puts the fabric back.
const STEPS_A_HOLD: u64 = 256;

/// What a worker has found in one hold of the turn.
#[derive(Drop)]
pub(crate) enum Found<G: Guest> {
    /// This order is to be computed.
    Order(Order<G>),
    /// There is more to do than was done in this hold.
    More,
    /// There is nothing to do until something comes from outside, or another worker is done with its order.
    Nothing,
    /// All is done, or the fabric was stopped.
    Over,
}

/// Brings back what was computed, then takes steps until there is an order to compute, or nothing to do. If it is
/// time to commit, that is done in between.
pub(crate) fn go_on<G: Guest>(
    fabric: &mut Fabric<G>,
    computed: Option<Result<Outcome<G>, NoMemory>>,
    commits: bool,
) -> Result<Found<G>, NoMemory>
    requires { fabric.old.live.stopped ≡ false }
    ensures gone_on { HasGoneOn fabric.old fabric.new }
    ensures running { OnOk result (fabric.new.live.stopped ≡ false) }
    ensures over { IfOk result (λ found. found ≡ Over → IsOver fabric.new) }
    ensures err { OnErr result (fabric.new.live.stopped ≡ true) }
{
    bring_back(fabric, computed)?;
    if commits {
        commit_ahead(fabric)?;
    }
    for _ in 0..STEPS_A_HOLD {
        if let Some(found) = take_step(fabric)? {
            return Ok(found);
        }
    }
    Ok(Found::More)
}

/// Brings an outcome back to its router. That of a lease which has ended counts for nothing. Where the guest found
/// no memory the fabric is stopped.
fn bring_back<G: Guest>(
    fabric: &mut Fabric<G>,
    computed: Option<Result<Outcome<G>, NoMemory>>,
) -> Result<(), NoMemory>
    requires { fabric.old.live.stopped ≡ false }
    ensures gone_on { HasGoneOn fabric.old fabric.new }
    ensures running { OnOk result (fabric.new.live.stopped ≡ false) }
    ensures err { OnErr result (fabric.new.live.stopped ≡ true) }
{
    match computed {
        None => Ok(()),
        Some(Ok(outcome)) => finish(fabric, outcome),
        Some(Err(error)) => {
            fabric.stop();
            Err(error)
        }
    }
}

/// Finishes an outcome, if its router is leased.
fn finish<G: Guest>(fabric: &mut Fabric<G>, outcome: Outcome<G>) -> Result<(), NoMemory>
    requires { fabric.old.live.stopped ≡ false }
    ensures gone_on { HasGoneOn fabric.old fabric.new }
    ensures running { OnOk result (fabric.new.live.stopped ≡ false) }
    ensures err { OnErr result (fabric.new.live.stopped ≡ true) }
{
    if !is_leased(fabric, outcome.router()) {
        return Ok(());
    }
    let _finished = fabric.finish(outcome)?;
    Ok(())
}

/// Commits what is below the horizon, if that is above the boundary. Nothing asks for it before the end of the run,
/// since there is always an order to compute; but what is committed needs no kept nodes any more.
fn commit_ahead<G: Guest>(fabric: &mut Fabric<G>) -> Result<(), NoMemory>
    requires { fabric.old.live.stopped ≡ false }
    ensures gone_on { HasGoneOn fabric.old fabric.new }
    ensures running { OnOk result (fabric.new.live.stopped ≡ false) }
    ensures err { OnErr result (fabric.new.live.stopped ≡ true) }
{
    if fabric.horizon() > fabric.boundary() {
        let _moved = fabric.commit()?;
    }
    Ok(())
}

/// Whether there is such a router, and it is leased.
fn is_leased<G: Guest>(fabric: &Fabric<G>, router: u16) -> bool
    ensures { result ≡ get_or fabric.now.leased router false }
{
    let _ = fabric.journal();
    usize::from(router) < fabric.header().routers.as_slice().len() && fabric.leased(router)
}

/// Takes the next step that there is to take. Some where there is none, or where an order is to be computed first.
fn take_step<G: Guest>(fabric: &mut Fabric<G>) -> Result<Option<Found<G>>, NoMemory>
    requires { fabric.old.live.stopped ≡ false }
    ensures gone_on { HasGoneOn fabric.old fabric.new }
    ensures running { OnOk result (fabric.new.live.stopped ≡ false) }
    ensures over { IfOk result (λ found. found ≡ Some Over → IsOver fabric.new) }
    ensures err { OnErr result (fabric.new.live.stopped ≡ true) }
{
    if fabric.closed() && fabric.is_cut() {
        return Ok(Some(Found::Over));
    }
    match fabric.next_work() {
        Work::Deliver(place) => {
            fabric.deliver(place)?;
            Ok(None)
        }
        Work::RollBack(router) => {
            fabric.roll_back(router)?;
            Ok(None)
        }
        Work::Handle(router) => {
            let order = fabric.lease(router)?;
            Ok(Some(Found::Order(order)))
        }
        Work::Commit => {
            let _moved = fabric.commit()?;
            Ok(None)
        }
        Work::Nothing => Ok(Some(Found::Nothing)),
        Work::Ended => Ok(Some(Found::Over)),
    }
}
