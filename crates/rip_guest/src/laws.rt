//! What holds of every state that a router reaches, and what its image is.

ghost use Rattle.std.specs.Prelude.{◌≡◌, ℕ, List, false, length};
ghost use Rattle.std.specs.List.{AllByRecursion};
ghost use Rattle.dn_guest.specs.declared.input.Input.{Input};
ghost use Rattle.rip_table.specs.Routes.{any_changed};
ghost use Rattle.rip_guest.specs.Image.{rip_image};
ghost use Rattle.rip_guest.specs.PlainImage.{plain_image};
ghost use Rattle.rip_guest.specs.Sound.{AreSettings, HasBytes, IsSent, IsSoundState, rip_run};
ghost use Rattle.rip_guest.specs.State.{Prefix, RipState, opening};
ghost use Rattle.rip_guest.specs.Step.{handled, is_passed_over, rip_after, rip_outs};

use rip_table::{one_own_network_more, sound_tables};
use rip_wire::{read_messages_fit, written_messages_are_read};

/// Every state that a router reaches is sound: the one at the start, and the one after each step from a sound state,
/// whatever the mask of its up ports and its input are. So is the state in the middle of a step, before the triggered
/// update. It rests on the laws of the table and of messages.
pub fn sound_states()
    ensures opening { (number : ℕ) (costs : List ℕ) (prefixes : List Prefix) → AreSettings number costs prefixes
        → IsSoundState (opening number costs prefixes) }
    ensures handled { (s : RipState) (input : Input) → HasBytes input → is_passed_over s input ≡ false
        → IsSoundState s → IsSoundState (handled s input) }
    ensures step { (s : RipState) (ports : ℕ) (input : Input) → HasBytes input → IsSoundState s
        → IsSoundState (rip_after s ports input) }
    ensures run { (number : ℕ) (costs : List ℕ) (prefixes : List Prefix) (steps : List (ℕ × Input))
        → AreSettings number costs prefixes → AllByRecursion (λ (e : ℕ × Input). HasBytes e.1) steps
        → IsSoundState (rip_run (opening number costs prefixes) steps) }
{
    sound_tables();
    one_own_network_more();
    read_messages_fit();
}

/// What a router sends in a step from a sound state is messages, in bytes, on ports that it has.
pub fn sound_states_send_messages()
    ensures { (s : RipState) (ports : ℕ) (input : Input) → HasBytes input → IsSoundState s
        → AllByRecursion (IsSent (length s.costs)) (rip_outs s ports input) }
{
    sound_states();
    sound_tables();
    read_messages_fit();
    written_messages_are_read();
}

/// Between two steps no route is marked as changed, whatever a router began with and is given.
pub fn no_mark_is_left()
    ensures opening { (number : ℕ) (costs : List ℕ) (prefixes : List Prefix)
        → any_changed (opening number costs prefixes).routes ≡ false }
    ensures step { (s : RipState) (ports : ℕ) (input : Input) → any_changed s.routes ≡ false
        → any_changed (rip_after s ports input).routes ≡ false }
    ensures run { (number : ℕ) (costs : List ℕ) (prefixes : List Prefix) (steps : List (ℕ × Input))
        → any_changed (rip_run (opening number costs prefixes) steps).routes ≡ false }
{}

/// The image of a sound state is the plain one: nothing in it marks what no router has.
pub fn sound_states_are_told_plainly()
    ensures { (s : RipState) → IsSoundState s → rip_image s ≡ plain_image s }
{}
