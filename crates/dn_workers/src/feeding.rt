//! What a feeder does with a fabric that it has.

ghost use Rattle.std.specs.Prelude.{◌≡◌, ℕ, ◌+◌, ◌-◌, ◌<◌, ◌≤◌, ◌++◌, ◌∷◌, [], Bool, List, true, false, length, replicate, IfOk, OnOk, OnErr};
ghost use Rattle.dn_model.specs.declared.feed.External.{External};
ghost use Rattle.dn_world.specs.declared.step.Step.TheVariants.{Beacon, Inject, Close};
ghost use Rattle.dn_world.specs.Steps.{is_injectable};
ghost use Rattle.dn_world.specs.Logs.{is_stopped};
ghost use Rattle.dn_fabric.specs.Fabrics.{HasStopped, log_in};
ghost use Rattle.dn_record.specs.declared.feeder.Fed.TheVariants.{Closed};
ghost use Rattle.dn_record.specs.Feeding.{last_group};
ghost use Rattle.dn_workers.specs.declared.feeding.Round.TheVariants.{GoesOn, Over};
ghost use Rattle.dn_workers.specs.Holds.{HasGrown};
ghost use Rattle.dn_workers.specs.Feed.{HasFed, HasStoppedAfter, IsFedWith, IsFedUpTo, IsDue, EndsWithClose};

use dn_fabric::Fabric;
use dn_guest::{Guest, Input, NoMemory};
use dn_record::Fed;

/// What a hold of the turn has left for a feeder to do.
#[derive(Drop)]
pub(crate) enum Round {
    /// The feeder is asked for more.
    GoesOn,
    /// The feed is closed, or the fabric was stopped.
    Over,
}

/// Passes on what the feeder has answered: the input in the group with which it is stamped, or that no more comes.
pub(crate) fn pass_on<G: Guest>(fabric: &mut Fabric<G>, fed: Fed) -> Result<Round, NoMemory>
    requires running { fabric.old.live.stopped ≡ false }
    requires due { (given : List External) × (closed : Bool) ×
        IsDue fabric.old.live.header (log_in fabric.old) fed given closed }
    ensures grown { HasGrown fabric.old fabric.new }
    ensures fed { (given : List External) (closed : Bool) →
        IsDue fabric.old.live.header (log_in fabric.old) fed given closed →
        IsFedWith given closed (log_in fabric.new) }
    ensures more { IfOk result (λ round. round ≡ GoesOn → (given : List External) (closed : Bool) →
        IsDue fabric.old.live.header (log_in fabric.old) fed given closed →
        (closed ≡ false) × IsFedUpTo given (log_in fabric.new)) }
    ensures over { IfOk result (λ round. round ≡ Over → (fed ≡ Closed) × EndsWithClose (log_in fabric.new)) }
    ensures err { OnErr result (is_stopped (log_in fabric.new) ≡ true) }
{
    dn_world::laws::logs();
    dn_world::laws::fed_logs();
    so_far(fabric);
    match fed {
        Fed::One(router, input, group) => {
            give(fabric, router, input, group)?;
            Ok(Round::GoesOn)
        }
        Fed::Closed => {
            let last = fabric.header().groups - 1;
            close_at_the_end(fabric, last)?;
            Ok(Round::Over)
        }
    }
}

/// Tells how far the feed has come, when the feeder has given these externals and the fabric has taken them all:
/// the group of the last one has begun, and none behind it. It does nothing.
fn so_far<G: Guest>(fabric: &Fabric<G>)
    requires running { fabric.now.live.stopped ≡ false }
    ensures floor { (given : List External) → IsFedUpTo given (log_in fabric.now) →
        fabric.now.live.world.floor ≡ last_group 0 given }
    ensures unclosed { (given : List External) → IsFedUpTo given (log_in fabric.now) →
        fabric.now.live.world.closed ≡ false }
    ensures inside { (given : List External) → IsFedUpTo given (log_in fabric.now) →
        last_group 0 given < fabric.now.live.header.groups }
{
    dn_world::laws::fed_logs();
    dn_world::laws::fed_alone::<G>();
    dn_world::laws::runs::<G>();
    dn_world::laws::playable_cases::<G>();
    let _ = fabric.journal();
}

/// One group more begins.
fn beat<G: Guest>(fabric: &mut Fabric<G>) -> Result<(), NoMemory>
    requires running { fabric.old.live.stopped ≡ false }
    requires unclosed { fabric.old.live.world.closed ≡ false }
    requires left { fabric.old.live.world.floor + 1 < fabric.old.live.header.groups }
    ensures ok { OnOk result (HasFed fabric.old (Beacon ∷ []) (fabric.old.live.world.floor + 1) false fabric.new) }
    ensures err { OnErr result (HasStopped fabric.old fabric.new) }
{
    let _ = fabric.journal();
    fabric.beacon()?;
    Ok(())
}

/// Beacons until the group has begun, and no more.
pub fn reach<G: Guest>(fabric: &mut Fabric<G>, group: u32) -> Result<(), NoMemory>
    requires running { fabric.old.live.stopped ≡ false }
    requires unclosed { fabric.old.live.world.closed ≡ false }
    requires ahead { fabric.old.live.world.floor ≤ group }
    requires inside { group < fabric.old.live.header.groups }
    ensures ok { OnOk result (HasFed fabric.old (replicate (group - fabric.old.live.world.floor) Beacon) group false
        fabric.new) }
    ensures err { OnErr result ((beats : ℕ) × (beats ≤ group - fabric.old.live.world.floor)
        × HasStoppedAfter fabric.old beats fabric.new) }
{
    let floor = fabric.floor();
    for _begun in floor..group {
        beat(fabric)?;
    }
    Ok(())
}

/// Beacons until the group has begun, and then the input comes to the router, stamped with that group.
pub fn give<G: Guest>(
    fabric: &mut Fabric<G>,
    router: u16,
    input: Input,
    group: u32,
) -> Result<(), NoMemory>
    requires running { fabric.old.live.stopped ≡ false }
    requires unclosed { fabric.old.live.world.closed ≡ false }
    requires ahead { fabric.old.live.world.floor ≤ group }
    requires inside { group < fabric.old.live.header.groups }
    requires there { router < length fabric.old.live.header.routers }
    requires asked { is_injectable fabric.old.live.header router input ≡ true }
    ensures ok { OnOk result (HasFed fabric.old (replicate (group - fabric.old.live.world.floor) Beacon
        ++ Inject (record { group = group; router = router; input = input }) ∷ []) group false fabric.new) }
    ensures err { OnErr result ((beats : ℕ) × (beats ≤ group - fabric.old.live.world.floor)
        × HasStoppedAfter fabric.old beats fabric.new) }
{
    reach(fabric, group)?;
    let _ = fabric.journal();
    fabric.inject(router, input)?;
    Ok(())
}

/// Beacons until the last group has begun, and then nothing more comes from outside.
pub fn close_at_the_end<G: Guest>(fabric: &mut Fabric<G>, last: u32) -> Result<(), NoMemory>
    requires running { fabric.old.live.stopped ≡ false }
    requires unclosed { fabric.old.live.world.closed ≡ false }
    requires ahead { fabric.old.live.world.floor ≤ last }
    requires last { last + 1 ≡ fabric.old.live.header.groups }
    ensures ok { OnOk result (HasFed fabric.old (replicate (last - fabric.old.live.world.floor) Beacon ++ Close ∷ [])
        last true fabric.new) }
    ensures err { OnErr result ((beats : ℕ) × (beats ≤ last - fabric.old.live.world.floor)
        × HasStoppedAfter fabric.old beats fabric.new) }
{
    reach(fabric, last)?;
    let _ = fabric.journal();
    fabric.close()?;
    Ok(())
}
