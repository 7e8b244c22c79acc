//! What the steps are that a drive takes, and which step can cut. Each law is the contract of a function that
//! does nothing; whoever needs it calls it.

ghost use Rattle.std.specs.Prelude.{ℕ, ◌≡◌, true, false, List};
ghost use Rattle.dn_model.specs.declared.feed.External.{External};
ghost use Rattle.dn_model.specs.Cases.{Recording, IsRecording};
ghost use Rattle.dn_model.specs.Network.{Network, routers};
ghost use Rattle.dn_model.specs.Settled.{IsPrefixOf, IsTimed, is_cut, shown_rows};
ghost use Rattle.dn_world.specs.declared.step.Step.{Step};
ghost use Rattle.dn_world.specs.declared.step.Step.TheVariants.{Commit};
ghost use Rattle.dn_world.specs.World.{World, horizon, is_quiet, opening};
ghost use Rattle.dn_world.specs.Steps.{is_enabled, after};
ghost use Rattle.dn_world.specs.Runs.{Continues, IsAllPast, IsBalanced, IsLegal, IsLegalOf, committed, injects, is_cut_off, world};
ghost use Rattle.dn_drive.specs.declared.ended.Ended.TheVariants.{Cut, Illegal, Open, Whole};
ghost use Rattle.dn_drive.specs.Allowed.{legal_front, rerun};
ghost use Rattle.dn_drive.specs.Choices.{schedule};
ghost use Rattle.dn_drive.specs.Outcomes.{StaysOpen, StopsAt};

/// Steps that come to `Whole` are a legal run of the case that takes all of its feed, and ends quiet with the
/// boundary at the horizon.
pub fn whole_journals<S>()
    ensures legal { (net : Network S) (feed : List External) (steps : List Step) →
        rerun net (opening (routers net)) feed 0 steps ≡ Whole → IsLegalOf net feed steps }
    ensures all { (net : Network S) (feed : List External) (steps : List Step) →
        rerun net (opening (routers net)) feed 0 steps ≡ Whole → injects steps ≡ feed }
    ensures quiet { (net : Network S) (feed : List External) (steps : List Step) →
        rerun net (opening (routers net)) feed 0 steps ≡ Whole → is_quiet (world net steps) ≡ true }
    ensures committed { (net : Network S) (feed : List External) (steps : List Step) → IsTimed net.header →
        rerun net (opening (routers net)) feed 0 steps ≡ Whole →
        (world net steps).boundary ≡ horizon net.header (world net steps) }
{
    dn_model::laws::order_of_events();
    dn_world::laws::boundary::<S>();
    dn_world::laws::horizon::<S>();
}

/// The steps that are taken are a front of the journal and a legal run of the case, whatever the journal comes
/// to. Where it comes to `Cut` they lead to a cut world.
pub fn taken_steps<S>()
    ensures front { (net : Network S) (feed : List External) (steps : List Step) →
        IsPrefixOf (legal_front net (opening (routers net)) feed steps) steps }
    ensures legal { (net : Network S) (feed : List External) (steps : List Step) →
        IsLegalOf net feed (legal_front net (opening (routers net)) feed steps) }
    ensures cut { (net : Network S) (feed : List External) (steps : List Step) →
        rerun net (opening (routers net)) feed 0 steps ≡ Cut →
        is_cut_off net (world net (legal_front net (opening (routers net)) feed steps)) ≡ true }
{
    dn_model::laws::order_of_events();
}

/// The number at `Illegal` is that of the first step that isn't allowed: the steps before it are taken, and the
/// world that they reach isn't cut. Where steps stop so, the answer says so.
pub fn illegal_steps<S>()
    ensures stops { (net : Network S) (feed : List External) (steps : List Step) (n : ℕ)
        → rerun net (opening (routers net)) feed 0 steps ≡ Illegal n → StopsAt net feed steps n }
    ensures only { (net : Network S) (feed : List External) (steps : List Step) (n : ℕ) → StopsAt net feed steps n
        → rerun net (opening (routers net)) feed 0 steps ≡ Illegal n }
{
    dn_model::laws::order_of_events();
    dn_world::laws::before_the_first_step::<S>();
}

/// At `Open` all steps are taken, the world that they reach isn't cut, and it isn't quiet or has its horizon
/// above its boundary. Where steps leave such a world, the answer says so.
pub fn open_steps<S>()
    ensures stays { (net : Network S) (feed : List External) (steps : List Step)
        → rerun net (opening (routers net)) feed 0 steps ≡ Open → StaysOpen net feed steps }
    ensures only { (net : Network S) (feed : List External) (steps : List Step) → StaysOpen net feed steps
        → rerun net (opening (routers net)) feed 0 steps ≡ Open }
{
    dn_model::laws::order_of_events();
    dn_world::laws::before_the_first_step::<S>();
}

/// Each step of a schedule of a case is taken.
pub fn schedules_are_taken<S>()
    ensures { (net : Network S) (case : Recording) (number turns : ℕ) → IsRecording case →
        net.header ≡ case.header →
        legal_front net (opening (routers net)) case.feed (schedule net (opening (routers net)) case.feed number turns) ≡
        schedule net (opening (routers net)) case.feed number turns }
{
    dn_model::laws::order_of_events();
    dn_world::laws::equation::<S>();
}

/// A legal run is fed as the case of just what it injects asks, so each of its steps is taken: they come to `Cut`
/// where they lead to a cut world, and to `Whole` where they lead to a quiet one that isn't cut, with its boundary
/// at the horizon.
pub fn legal_runs_are_taken<S>()
    ensures cut { (net : Network S) (feed : List External) (steps : List Step) → IsLegal net steps →
        injects steps ≡ feed → is_cut_off net (world net steps) ≡ true →
        rerun net (opening (routers net)) feed 0 steps ≡ Cut }
    ensures whole { (net : Network S) (feed : List External) (steps : List Step) → IsTimed net.header →
        IsLegal net steps → injects steps ≡ feed → is_cut_off net (world net steps) ≡ false →
        is_quiet (world net steps) ≡ true →
        (world net steps).boundary ≡ horizon net.header (world net steps) →
        rerun net (opening (routers net)) feed 0 steps ≡ Whole }
{
    dn_world::laws::before_the_first_step::<S>();
    dn_world::laws::lasting::<S>();
}

/// A step that leaves a cut world where none was is a Commit. So a drive that ends with a cut ends with a
/// Commit. What it asks of the world holds after every legal run (`dn_world::laws`).
pub fn only_a_commit_cuts<S>()
    ensures { (net : Network S) (w : World) (s : Step) → is_enabled net w s ≡ true → IsBalanced net w →
        IsAllPast net w.boundary w → is_cut_off net w ≡ false → is_cut_off net (after net w s) ≡ true → s ≡ Commit }
{
    dn_world::laws::growth::<S>();
}

/// What a run of a case has committed where it is cut: the rows of the case's trace, which is cut there.
pub fn cut_runs<S>()
    ensures rows { (net : Network S) (case : Recording) (steps : List Step) → IsRecording case
        → net.header ≡ case.header → IsLegal net steps → Continues case.feed (world net steps)
        → is_cut_off net (world net steps) ≡ true → committed net (world net steps) ≡ shown_rows net case.feed }
    ensures cut { (net : Network S) (case : Recording) (steps : List Step) → IsRecording case
        → net.header ≡ case.header → IsLegal net steps → Continues case.feed (world net steps)
        → is_cut_off net (world net steps) ≡ true → is_cut net case.feed ≡ true }
{
    dn_model::laws::cases_are_timed::<S>();
    dn_world::laws::playable_cases::<S>();
    dn_world::laws::prefix::<S>();
}
