//! What the seats of a run tell of the fabric at its end. The law is the contract of a function that does nothing;
//! whoever needs it calls it.

ghost use Rattle.std.specs.Prelude.{◌≡◌, Bool, true, List};
ghost use Rattle.dn_guest.specs.Meaning.{Meaning};
ghost use Rattle.dn_model.specs.declared.feed.External.{External};
ghost use Rattle.dn_model.specs.Cases.{IsHeading};
ghost use Rattle.dn_model.specs.Network.{Network};
ghost use Rattle.dn_world.specs.Logs.{fed};
ghost use Rattle.dn_world.specs.Runs.{injects};
ghost use Rattle.dn_fabric.specs.Fabrics.{Fabric, IsNetworkOf, IsReached, log_in};
ghost use Rattle.dn_turn.specs.Seat.{SeatView};
ghost use Rattle.dn_workers.specs.Holds.{IsOver};
ghost use Rattle.dn_workers.specs.Joined.{HasAllOf, HasFedAll};
ghost use Rattle.dn_workers.specs.Work.{IsDone};

/// A fabric that isn't stopped, and whose log has all that a seat has seen. If the seat's worker found that all is
/// done, so it is in the fabric, whatever steps have come since. If the seat is the feeder's, and nobody else has fed,
/// then the feeder has closed, all that it has given was accepted, and the fabric is closed.
pub(crate) fn ended_runs<S>()
    ensures over { (meaning : Meaning S) (net : Network S) (f : Fabric S) (seat : SeatView S) →
        IsHeading f.live.header → IsNetworkOf net meaning f.live.header f.live.openings → IsReached net f →
        HasAllOf seat f → IsDone meaning seat → IsOver f }
    ensures feeder { (f : Fabric S) (given : List External) (closed : Bool) (before seat : SeatView S) →
        HasAllOf seat f → HasFedAll given closed before seat → closed ≡ true }
    ensures given { (f : Fabric S) (given : List External) (closed : Bool) (before seat : SeatView S) →
        HasAllOf seat f → HasFedAll given closed before seat → fed (log_in f) ≡ fed seat.seen →
        injects f.journal ≡ given }
    ensures accepted { (net : Network S) (f : Fabric S) → IsReached net f →
        f.live.world.accepted ≡ injects f.journal }
    ensures closed { (net : Network S) (f : Fabric S) (given : List External) (closed : Bool)
        (before seat : SeatView S) → IsReached net f → HasAllOf seat f → HasFedAll given closed before seat →
        fed (log_in f) ≡ fed seat.seen → f.live.world.closed ≡ true }
{
    dn_model::laws::cases_are_timed::<S>();
    dn_world::laws::runs::<S>();
    dn_world::laws::runs_together::<S>();
    dn_world::laws::lasting::<S>();
    dn_world::laws::fed_alone::<S>();
    dn_world::laws::logs();
    dn_world::laws::fed_logs();
}
