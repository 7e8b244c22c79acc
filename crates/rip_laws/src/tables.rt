//! What holds of the table between two steps.

ghost use Rattle.std.specs.Prelude.{◌≡◌, ◌≤◌, ◌<◌, ◌^◌, ℕ, List, false, true, Some, IfSome, drop, slice_index};
ghost use Rattle.std.specs.List.{AllByRecursion};
ghost use Rattle.std.specs.List.Sorted.{IsStrictlySortedBy};
ghost use Rattle.std.specs.Map.{keys_of};
ghost use Rattle.dn_guest.specs.declared.input.Input.{Input};
ghost use Rattle.dn_guest.specs.declared.input.Input.TheVariants.{Cmd, Tick};
ghost use Rattle.dn_net.specs.Networks.{network_cmp};
ghost use Rattle.rip_wire.specs.Constants.{last_tick_taken, most_own_networks};
ghost use Rattle.rip_table.specs.Own.{own_count};
ghost use Rattle.rip_table.specs.Routes.{held_at};
ghost use Rattle.rip_guest.specs.Commands.{address_at_1, is_current_at, is_setting};
ghost use Rattle.rip_guest.specs.Sound.{AreSettings, HasBytes, IsSoundState};
ghost use Rattle.rip_guest.specs.State.{Prefix, RipState, opening};
ghost use Rattle.rip_guest.specs.Step.{rip_after};
ghost use Rattle.rip_laws.specs.Reached.{IsReached};
ghost use Rattle.rip_laws.specs.Timely.{IsTimely};

use rip_guest::{no_mark_is_left, sound_states};

/// A router reaches the state with which it begins, and from each that it reaches the one after any input, whatever the
/// mask of its up ports is. Each of them is sound.
pub fn reached_states()
    ensures opening { (number : ℕ) (costs : List ℕ) (prefixes : List Prefix) → AreSettings number costs prefixes
        → IsReached (opening number costs prefixes) }
    ensures step { (s : RipState) (ports : ℕ) (input : Input) → HasBytes input → IsReached s
        → IsReached (rip_after s ports input) }
    ensures sound { (s : RipState) → IsReached s → IsSoundState s }
{
    sound_states();
}

/// The table has one entry for each destination (RFC 2453 section 3.5): the networks ascend, and each entry is the
/// route that is held at its network.
pub fn tables_are_in_order()
    ensures ascending { (s : RipState) → IsReached s → IsStrictlySortedBy network_cmp (keys_of s.routes) }
    ensures entries { (s : RipState) → IsReached s
        → AllByRecursion (λ e. held_at s.routes e.0 ≡ Some e.1) s.routes }
{
    reached_states();
}

/// At most 32 own networks can be reached, however many commands there were; and where there are 32, a command that
/// sets another one does nothing. This is the project's own.
pub fn few_own_networks()
    ensures few { (s : RipState) → IsReached s → own_count s.routes ≤ most_own_networks }
    ensures full { (s : RipState) (ports : ℕ) (body : List ℕ) → IsReached s
        → own_count s.routes ≡ most_own_networks → is_setting body ≡ true
        → is_current_at (held_at s.routes (address_at_1 body, slice_index body 5)) ≡ false
        → rip_after s ports (Cmd body) ≡ s }
{
    reached_states();
    no_mark_is_left();
}

/// After every step the route change flag of each entry is clear (RFC 2453 section 3.10.1).
pub fn no_mark_between_steps()
    ensures { (s : RipState) → IsReached s → AllByRecursion (λ e. e.1.changed ≡ false) s.routes }
{
    no_mark_is_left();
}

/// No timer of a route is ever over between two steps (RFC 2453 section 3.8): at the last tick, and so after every tick
/// that the router takes, each route that was learnt and can be reached was heard fewer than 180 ticks ago, and the
/// deletion of each that can't be reached began fewer than 120 ticks ago.
pub fn timers_are_kept()
    ensures always { (s : RipState) → IsReached s → AllByRecursion (λ e. IsTimely s.last_tick e.1) s.routes }
    ensures tick { (s : RipState) (ports group : ℕ) → IsReached s → s.last_tick ≤ group → group ≤ last_tick_taken
        → AllByRecursion (λ e. IsTimely group e.1) (rip_after s ports (Tick group)).routes }
{
    reached_states();
}
