//! Steps of a fabric. Each tests what its call asks, and answers whether it could be taken.

ghost use Rattle.std.specs.Prelude.{◌≡◌, ◌<◌, length, nat_lt, IfOk};
ghost use Rattle.dn_world.specs.Steps.{is_injectable};

use crate::shown::next_work;
use dn_fabric::{Fabric, Finished, Moved, Work};
use dn_guest::{Flood, Input, NoMemory};
use dn_journal::Step;
use dn_model::{External, Header, ends};
use dn_router::{Order, Outcome};
use std::alloc::Global;
use table_program::Out;

/// Takes the step if it may be taken, and tells what Commit answered. Whether it could be taken.
pub(crate) fn take(
    alloc: Global,
    fabric: &mut Fabric<Flood>,
    step: Step,
    out: &mut Out,
) -> Result<bool, NoMemory> {
    match step {
        Step::Beacon => beacon(fabric),
        Step::Inject(coming) => inject(alloc, fabric, coming),
        Step::Close => close(fabric),
        Step::Deliver(place) => deliver(fabric, place),
        Step::Handle(router) => handle(fabric, router),
        Step::RollBack(router) => roll_back(fabric, router),
        Step::Commit => commit(fabric, out),
    }
}

/// Whether there is a router of this number.
pub(crate) fn is_router(fabric: &Fabric<Flood>, router: u16) -> bool
    ensures { result ≡ nat_lt router (length fabric.now.live.header.routers) }
{
    usize::from(router) < fabric.header().routers.as_slice().len()
}

/// Begins the next group, if there is one.
fn beacon(fabric: &mut Fabric<Flood>) -> Result<bool, NoMemory> {
    let next = u64::from(fabric.floor()) + 1;
    if fabric.stopped() || fabric.closed() || next >= u64::from(fabric.header().groups) {
        return Ok(false);
    }
    fabric.beacon()?;
    Ok(true)
}

/// Whether the input may come from outside to the router.
#[tactic(auto, unfolding(dn_world::specs::Steps::is_injectable))]
fn is_asked(alloc: Global, header: &Header, router: u16, input: &Input) -> Result<bool, NoMemory>
    requires { router < length header.now.routers }
    ensures { IfOk result (λ asked. asked ≡ is_injectable header.now router input.now) }
{
    match input {
        Input::Cmd(body) => Ok(1 <= body.len() && body.len() <= 255),
        Input::Down(port) => Ok(usize::from(*port) < ends(alloc, header, router)?.len()),
        Input::Up(port) => Ok(usize::from(*port) < ends(alloc, header, router)?.len()),
        Input::Tick(_) => Ok(false),
        Input::Msg(_, _) => Ok(false),
    }
}

/// The external comes, if its group has begun last and its router takes it.
fn inject(alloc: Global, fabric: &mut Fabric<Flood>, coming: External) -> Result<bool, NoMemory> {
    if fabric.stopped() || fabric.closed() || !is_router(fabric, coming.router) {
        return Ok(false);
    }
    if coming.group != fabric.floor() {
        return Ok(false);
    }
    if !is_asked(alloc, fabric.header(), coming.router, &coming.input)? {
        return Ok(false);
    }
    fabric.inject(coming.router, coming.input)?;
    Ok(true)
}

/// Closes the feed in the last group.
fn close(fabric: &mut Fabric<Flood>) -> Result<bool, NoMemory> {
    let next = u64::from(fabric.floor()) + 1;
    if fabric.stopped() || fabric.closed() || next != u64::from(fabric.header().groups) {
        return Ok(false);
    }
    fabric.close()?;
    Ok(true)
}

/// Delivers the packet at the place, if there is one.
fn deliver(fabric: &mut Fabric<Flood>, place: u64) -> Result<bool, NoMemory> {
    if fabric.stopped() || place >= fabric.flying() {
        return Ok(false);
    }
    fabric.deliver(place)?;
    Ok(true)
}

/// Takes back what the router handled too early, if it is behind.
fn roll_back(fabric: &mut Fabric<Flood>, router: u16) -> Result<bool, NoMemory> {
    if fabric.stopped() || !is_router(fabric, router) || !fabric.behind(router) {
        return Ok(false);
    }
    fabric.roll_back(router)?;
    Ok(true)
}

/// Commits what is below the horizon, and tells how many rows there are more, or that the rows are cut.
fn commit(fabric: &mut Fabric<Flood>, out: &mut Out) -> Result<bool, NoMemory> {
    if fabric.stopped() {
        return Ok(false);
    }
    push_moved(fabric.commit()?, out);
    Ok(true)
}

/// What a Commit answered.
fn push_moved(moved: Moved, out: &mut Out) {
    match moved {
        Moved::Moved(count) => out.number("moved ", count),
        Moved::Cut => out.text("cut"),
    }
    out.text("; ");
}

/// The order of a router that is ready and not leased.
pub(crate) fn lease(
    fabric: &mut Fabric<Flood>,
    router: u16,
) -> Result<Option<Order<Flood>>, NoMemory> {
    if fabric.stopped() || !is_router(fabric, router) {
        return Ok(None);
    }
    if !fabric.ready(router) || fabric.leased(router) {
        return Ok(None);
    }
    Ok(Some(fabric.lease(router)?))
}

/// What becomes of the outcome, where its router is leased.
pub(crate) fn finish(
    fabric: &mut Fabric<Flood>,
    outcome: Outcome<Flood>,
) -> Result<Option<Finished>, NoMemory> {
    let router = outcome.router();
    if fabric.stopped() || !is_router(fabric, router) || !fabric.leased(router) {
        return Ok(None);
    }
    Ok(Some(fabric.finish(outcome)?))
}

/// Lets a ready router handle its least event. Whether it was handled.
fn handle(fabric: &mut Fabric<Flood>, router: u16) -> Result<bool, NoMemory> {
    let Some(order) = lease(fabric, router)? else {
        return Ok(false);
    };
    let finished = finish(fabric, order.compute()?)?;
    Ok(matches!(finished, Some(Finished::Applied)))
}

/// The next work as a step: None where there is none.
fn next_step(fabric: &Fabric<Flood>) -> Option<Step> {
    match next_work(fabric) {
        Work::Deliver(place) => Some(Step::Deliver(place)),
        Work::RollBack(router) => Some(Step::RollBack(router)),
        Work::Handle(router) => Some(Step::Handle(router)),
        Work::Commit => Some(Step::Commit),
        Work::Nothing | Work::Ended => None,
    }
}

/// Does the next work until there is none, at most 1,000 times. Whether each could be done, and none is left.
pub(crate) fn work(alloc: Global, fabric: &mut Fabric<Flood>) -> Result<bool, NoMemory> {
    let mut untold = Out::new(alloc);
    for _turn in 0..1000 {
        let Some(next) = next_step(fabric) else {
            return Ok(true);
        };
        if !take(alloc, fabric, next, &mut untold)? {
            return Ok(false);
        }
    }
    Ok(false)
}
