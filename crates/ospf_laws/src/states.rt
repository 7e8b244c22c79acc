//! The states that a router reaches.

ghost use Rattle.std.specs.Prelude.{◌≤◌, ℕ, List, length};
ghost use Rattle.dn_guest.specs.declared.input.Input.{Input};
ghost use Rattle.ospf_router.specs.Sound.{HasBytes, IsSoundState};
ghost use Rattle.ospf_router.specs.State.{OspfState, Prefix, opening};
ghost use Rattle.ospf_router.specs.Step.{ospf_after};
ghost use Rattle.ospf_laws.specs.Reached.{IsReached};

use ospf_router::sound_states;

/// A router reaches the state with which it begins, and from each that it reaches the one after any input, whatever the
/// mask of its up ports is. Each of them is sound.
pub fn reached_states()
    ensures opening { (number : ℕ) (costs : List ℕ) (prefixes : List Prefix) → length costs ≤ 16
        → IsReached (opening number costs prefixes) }
    ensures step { (s : OspfState) (ports : ℕ) (input : Input) → HasBytes input → IsReached s
        → IsReached (ospf_after s ports input) }
    ensures sound { (s : OspfState) → IsReached s → IsSoundState s }
{
    sound_states();
}
