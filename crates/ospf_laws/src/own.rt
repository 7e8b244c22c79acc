//! The router's own LSA.

ghost use Rattle.std.specs.Prelude.{◌≡◌, ◌⊎◌, ℕ, false};
ghost use Rattle.dn_guest.specs.declared.input.Input.{Input};
ghost use Rattle.ospf_lsdb.specs.Keys.{own_key};
ghost use Rattle.ospf_lsdb.specs.Database.{kept_at};
ghost use Rattle.ospf_router.specs.Sound.{HasBytes};
ghost use Rattle.ospf_router.specs.State.{OspfState, id_of, router_of};
ghost use Rattle.ospf_router.specs.Step.{handled, is_passed_over, ospf_after};
ghost use Rattle.ospf_laws.specs.Current.{HasCurrentLsa, IsAtLastSequence, IsRecent, IsSpaced};
ghost use Rattle.ospf_laws.specs.Reached.{IsReached};

use crate::states::reached_states;
use ospf_router::sound_parts;

/// Two originations of the own LSA are MinLSInterval or more ticks apart (RFC 2328 section 12.4), whatever asks for
/// them: a step that originates notes its own tick as that of the last origination, and the one noted before is 5 or
/// more ticks earlier. A step that doesn't originate leaves the note as it was.
pub fn originations_are_spaced()
    ensures { (s : OspfState) (ports : ℕ) (input : Input)
        → ((ospf_after s ports input).originated ≡ s.originated)
        ⊎ IsSpaced (ospf_after s ports input).tick s.originated (ospf_after s ports input).originated }
{}

/// The own LSA says what the router knows (RFC 2328 sections 12.4 and 12.4.1): after every step, so after every tick
/// that is taken, the database has it with the links to the Full neighbours of the up ports and the own networks, an
/// instance of the router's own, younger than LSRefreshTime. Only two things hold that back: the last origination was
/// fewer than MinLSInterval ticks ago, or the copy that is there when the step comes to its end has the last sequence
/// number. A tick that is passed over does nothing.
pub fn own_lsa_is_current()
    ensures { (s : OspfState) (ports : ℕ) (input : Input) → IsReached s → HasBytes input
        → is_passed_over s.tick input ≡ false
        → HasCurrentLsa ports (ospf_after s ports input)
        ⊎ (IsRecent (ospf_after s ports input).tick s.originated
        ⊎ IsAtLastSequence (kept_at (handled ports input (router_of s)).db
        (own_key (id_of (handled ports input (router_of s)))))) }
{
    reached_states();
    sound_parts();
}
