//! What holds of every fabric. Each law is the contract of a function that does nothing; whoever needs one
//! calls it.

ghost use Rattle.std.specs.Prelude.{ℕ, ◌≡◌, ◌≤◌, ◌++◌, ◌∷◌, [], List, false, true, length};
ghost use Rattle.std.specs.List.{AllByRecursion};
ghost use Rattle.dn_guest.specs.Meaning.{Meaning};
ghost use Rattle.dn_model.specs.declared.feed.External.{External};
ghost use Rattle.dn_model.specs.Cases.{Heading, IsHeading};
ghost use Rattle.dn_model.specs.Network.{Network};
ghost use Rattle.dn_model.specs.Settled.{IsFeedOf, is_cut, shown_rows};
ghost use Rattle.dn_world.specs.World.{horizon, is_quiet, part};
ghost use Rattle.dn_world.specs.Steps.{after, is_enabled, taken_off};
ghost use Rattle.dn_world.specs.Runs.{Continues, IsPast, fresh_rows, settled_rows};
ghost use Rattle.dn_world.specs.Logs.{log_of};
ghost use Rattle.dn_world.specs.declared.entry.Entry.TheVariants.{Did, Stop};
ghost use Rattle.dn_world.specs.declared.step.Step.{Step};
ghost use Rattle.dn_world.specs.declared.step.Step.TheVariants.{RollBack};
ghost use Rattle.dn_fabric.specs.Fabrics.{Fabric, HasStepped, HasStopped, IsNetworkOf, IsReached, log_in, stepped};
ghost use Rattle.dn_fabric.specs.Promises.{AreSent, IsAtRest, IsFinal};

/// There is a network of every header with a router, and with a guest for each of its routers. So what holds
/// for each such network, and says nothing of it, holds.
pub fn networks<S>()
    ensures { (guests : Meaning S) (header : Heading) (openings : List S) → 1 ≤ length header.routers →
        length openings ≡ length header.routers → (net : Network S) × IsNetworkOf net guests header openings }
{}

/// A call that found no memory put the mark Stop behind the log. (A step that was noted says itself what it put
/// there.)
pub fn stops<S>()
    ensures { (before now : Fabric S) → before.live.stopped ≡ false → HasStopped before now →
        log_in now ≡ log_in before ++ Stop ∷ [] }
{
    dn_world::laws::logs();
}

/// What a fabric promises whose journal leads to its world, whatever the steps were. For every case that goes on
/// where the world is, what is committed is final; each committed message was sent; the horizon isn't before the
/// boundary; and a quiet fabric is at the end of its run.
pub fn reached_fabrics<S>()
    ensures last { (net : Network S) (f : Fabric S) (feed : List External) → IsHeading net.header → IsReached net f
        → IsFeedOf net.header feed → Continues feed f.live.world → IsFinal net f.live feed }
    ensures cut { (net : Network S) (f : Fabric S) (feed : List External) → IsHeading net.header → IsReached net f
        → IsFeedOf net.header feed → Continues feed f.live.world → f.live.cut ≡ true → is_cut net feed ≡ true }
    ensures cut_rows { (net : Network S) (f : Fabric S) (feed : List External) → IsHeading net.header
        → IsReached net f → IsFeedOf net.header feed → Continues feed f.live.world → f.live.cut ≡ true
        → f.live.rows ≡ shown_rows net feed }
    ensures sent { (net : Network S) (f : Fabric S) → IsHeading net.header → IsReached net f → AreSent net f.live }
    ensures ahead { (net : Network S) (f : Fabric S) → IsReached net f
        → IsPast f.live.world.boundary (horizon net.header f.live.world) }
    ensures at_rest { (net : Network S) (f : Fabric S) → IsHeading net.header → IsReached net f
        → is_quiet f.live.world ≡ true → IsAtRest net f.live }
{
    dn_model::laws::one_settled_family::<S>();
    dn_model::laws::same_families::<S>();
    dn_world::laws::playable_cases::<S>();
    dn_world::laws::runs::<S>();
    dn_world::laws::prefix::<S>();
    dn_world::laws::unsent::<S>();
    dn_world::laws::quiet::<S>();
    dn_world::laws::horizon::<S>();
}

/// What a step of a fabric may count on whose journal leads to its world. A step that is enabled there leads to
/// such a fabric again; it adds the rows that are new below its boundary, and a rollback takes off nothing that
/// was committed.
pub fn one_more_step<S>()
    ensures onward { (net : Network S) (f : Fabric S) (s : Step) → IsHeading net.header → IsReached net f
        → is_enabled net f.live.world s ≡ true → HasStepped net f s (stepped net f s) }
    ensures stays { (net : Network S) (f : Fabric S) (s : Step) → IsReached net f
        → is_enabled net f.live.world s ≡ true → (after net f.live.world s).boundary ≡ f.live.world.boundary
        → settled_rows net (after net f.live.world s) ≡ settled_rows net f.live.world }
    ensures grows { (net : Network S) (f : Fabric S) (s : Step) → IsReached net f
        → is_enabled net f.live.world s ≡ true
        → settled_rows net f.live.world ++ fresh_rows net f.live.world.boundary (after net f.live.world s) ≡ settled_rows net (after net f.live.world s) }
    ensures taken_off { (net : Network S) (f : Fabric S) (router : ℕ) → IsReached net f
        → is_enabled net f.live.world (RollBack router) ≡ true
        → AllByRecursion (λ e. IsPast f.live.world.boundary e.key) (taken_off net (part f.live.world router)) }
    ensures log { (steps : List Step) (s : Step) → log_of (steps ++ s ∷ []) false ≡ log_of steps false ++ Did s ∷ [] }
{
    dn_world::laws::playable_cases::<S>();
    dn_world::laws::equation::<S>();
    dn_world::laws::boundary::<S>();
    dn_world::laws::runs::<S>();
    dn_world::laws::growth::<S>();
    dn_world::laws::logs();
}
