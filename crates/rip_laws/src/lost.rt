//! What a step gives up.

ghost use Rattle.std.specs.Prelude.{◌≡◌, ◌≢◌, ◌<◌, ◌⊎◌, ℕ, List, true, Some};
ghost use Rattle.dn_guest.specs.declared.input.Input.{Input};
ghost use Rattle.dn_guest.specs.declared.input.Input.TheVariants.{Cmd};
ghost use Rattle.dn_net.specs.Networks.{Network};
ghost use Rattle.rip_wire.specs.Constants.{garbage_collection, infinity};
ghost use Rattle.rip_table.specs.declared.held.Held.{Held};
ghost use Rattle.rip_table.specs.Held.{is_current};
ghost use Rattle.rip_table.specs.Routes.{held_at};
ghost use Rattle.rip_guest.specs.State.{RipState};
ghost use Rattle.rip_guest.specs.Step.{rip_after};
ghost use Rattle.rip_laws.specs.GivenUp.{IsHeld, IsOver, IsReachable, MayGiveUp};
ghost use Rattle.rip_laws.specs.Reached.{IsReached};

use crate::tables::{reached_states, tables_are_in_order};
use rip_guest::no_mark_is_left;
use rip_table::{a_change_is_at_one_network, sound_tables};
use rip_wire::read_messages_fit;

/// An own network that can be reached stays as it is, whatever the neighbours tell, however long it is and whichever
/// port goes down: a command alone changes it. RFC 2453 section 3.5 calls such networks directly connected.
pub fn own_networks_stay()
    ensures { (s : RipState) (ports : ℕ) (input : Input) → IsReached s → ((body : List ℕ) → input ≢ Cmd body)
        → (n : Network) (h : Held) → held_at s.routes n ≡ Some h → is_current h ≡ true
        → held_at (rip_after s ports input).routes n ≡ Some h }
{
    reached_states();
    tables_are_in_order();
    no_mark_is_left();
    a_change_is_at_one_network();
    read_messages_fit();
}

/// Timers never fire early (RFC 2453 sections 3.8 and 3.9.2). After a step a network that could be reached by a port
/// can still be reached, unless a tick came 180 or more after the route was last heard, its port went down, or the
/// input tells that the network is unreachable. And an entry is removed only at a tick that comes 120 or more after the
/// deletion began of its route.
pub fn timers_never_fire_early()
    ensures given_up { (s : RipState) (ports : ℕ) (input : Input) → IsReached s → (n : Network) (h : Held) (port : ℕ)
        → held_at s.routes n ≡ Some h → h.via ≡ Some port → h.metric < infinity
        → IsReachable (rip_after s ports input).routes n ⊎ MayGiveUp s input port n h }
    ensures removed { (s : RipState) (ports : ℕ) (input : Input) → IsReached s → (n : Network) (h : Held)
        → held_at s.routes n ≡ Some h
        → IsHeld (rip_after s ports input).routes n ⊎ ((h.metric ≡ infinity) × IsOver input h garbage_collection) }
{
    reached_states();
    tables_are_in_order();
    a_change_is_at_one_network();
    read_messages_fit();
    sound_tables();
}
