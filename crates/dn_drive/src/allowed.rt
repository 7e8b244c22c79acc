//! Whether a step may be taken.

ghost use Rattle.std.specs.Prelude.{◌≡◌, suc, ◌==◌, nat_lt, length, drop};
ghost use Rattle.dn_drive.specs.Allowed.{is_allowed_here, is_next, is_same_external, rest_after, starts_later};

use dn_fabric::Fabric;
use dn_guest::Guest;
use dn_model::External;
use dn_world::Step;

/// Whether the step is enabled, and the case, of whose feed this is the rest, asks for it or leaves it free.
/// In the feed of a case an external is one that its router takes, so this isn't looked at again.
pub(crate) fn is_allowed<G: Guest>(fabric: &Fabric<G>, rest: &[External], step: &Step) -> bool
    ensures { result ≡ is_allowed_here fabric.now.live.header fabric.now.live.world rest.now step.now }
{
    match step {
        Step::Beacon => {
            !fabric.closed() && has_next_group(fabric) && starts_later(fabric.floor(), rest)
        }
        Step::Inject(external) => {
            !fabric.closed() && external.group == fabric.floor() && is_next(rest, external)
        }
        Step::Close => !fabric.closed() && is_in_last_group(fabric) && rest.is_empty(),
        Step::Deliver(place) => *place < fabric.flying(),
        Step::Handle(router) => is_router(fabric, *router) && fabric.ready(*router),
        Step::RollBack(router) => is_router(fabric, *router) && fabric.behind(*router),
        Step::Commit => true,
    }
}

/// Whether a group is left to begin.
pub(crate) fn has_next_group<G: Guest>(fabric: &Fabric<G>) -> bool
    ensures { result ≡ nat_lt (suc fabric.now.live.world.floor) fabric.now.live.header.groups }
{
    fabric.floor() < fabric.header().groups - 1
}

/// Whether the last group has begun last.
fn is_in_last_group<G: Guest>(fabric: &Fabric<G>) -> bool
    ensures { result ≡ (suc fabric.now.live.world.floor == fabric.now.live.header.groups) }
{
    fabric.floor() == fabric.header().groups - 1
}

/// Whether there is a router of this number.
fn is_router<G: Guest>(fabric: &Fabric<G>, router: u16) -> bool
    ensures { result ≡ nat_lt router (length fabric.now.live.header.routers) }
{
    usize::from(router) < fabric.header().routers.as_slice().len()
}

/// Whether the next external, if there is one, is of a later group.
fn starts_later(floor: u32, rest: &[External]) -> bool
    ensures { result ≡ starts_later floor rest.now }
{
    match rest.first() {
        Some(next) => floor < next.group,
        None => true,
    }
}

/// Whether this is the next external.
fn is_next(rest: &[External], external: &External) -> bool
    ensures { result ≡ is_next rest.now external.now }
{
    match rest.first() {
        Some(next) => is_same_external(next, external),
        None => false,
    }
}

/// Whether both are the same external.
fn is_same_external(one: &External, other: &External) -> bool
    ensures { result ≡ is_same_external one.now other.now }
{
    one.group == other.group && one.router == other.router && one.input == other.input
}

/// The rest of the feed after the step.
pub(crate) fn rest_after<'a>(rest: &'a [External], step: &Step) -> &'a [External]
    ensures { result.now ≡ rest_after rest.now step.now }
{
    match step {
        Step::Inject(_) => after_first(rest),
        _ => rest,
    }
}

/// The externals after the first one.
fn after_first(rest: &[External]) -> &[External]
    ensures { result.now ≡ drop 1 rest.now }
{
    if rest.is_empty() { rest } else { &rest[1..] }
}
