//! What a step sends.

ghost use Rattle.std.specs.Prelude.{◌≡◌, ℕ, false};
ghost use Rattle.std.specs.List.{AllByRecursion};
ghost use Rattle.dn_guest.specs.declared.input.Input.{Input};
ghost use Rattle.rip_guest.specs.Sound.{HasBytes};
ghost use Rattle.rip_guest.specs.State.{RipState};
ghost use Rattle.rip_guest.specs.Step.{rip_after, rip_outs};
ghost use Rattle.rip_laws.specs.Poisoned.{IsPoisoned, is_single_request};
ghost use Rattle.rip_laws.specs.Reached.{IsReached};

use crate::tables::reached_states;
use rip_guest::sound_states;
use rip_table::sound_tables;
use rip_wire::written_messages_are_read;

/// Split horizon with poisoned reverse (RFC 2453 sections 3.4.3 and 3.10.2): no message that is sent on a port tells a
/// metric below 16 for a network whose route was learnt from that port. So it is of regular updates, triggered ones
/// and whole tables that are asked for. The answer to a request of single entries alone has the table's metrics
/// (section 3.9.1).
pub fn updates_have_split_horizon()
    ensures { (s : RipState) (ports : ℕ) (input : Input) → IsReached s → HasBytes input
        → is_single_request input ≡ false
        → AllByRecursion (IsPoisoned (rip_after s ports input).routes) (rip_outs s ports input) }
{
    reached_states();
    sound_states();
    sound_tables();
    written_messages_are_read();
}
