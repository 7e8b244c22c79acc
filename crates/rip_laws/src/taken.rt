//! What a step takes from its input.

ghost use Rattle.std.specs.Prelude.{◌≡◌, ◌≤◌, ◌<◌, ◌⊎◌, ℕ, List, false, true, Some, None, IfSome, length};
ghost use Rattle.std.specs.List.{AllByRecursion};
ghost use Rattle.dn_guest.specs.declared.input.Input.{Input};
ghost use Rattle.dn_guest.specs.declared.input.Input.TheVariants.{Msg};
ghost use Rattle.dn_guest.specs.declared.node.Node.{Node};
ghost use Rattle.dn_guest.specs.Node.{node_after};
ghost use Rattle.dn_guest.specs.Ports.{is_up};
ghost use Rattle.dn_net.specs.Networks.{Network};
ghost use Rattle.rip_wire.specs.Constants.{infinity, request_command};
ghost use Rattle.rip_wire.specs.declared.message.Message.{Message};
ghost use Rattle.rip_wire.specs.Reading.{message_at};
ghost use Rattle.rip_table.specs.Routes.{held_at};
ghost use Rattle.rip_table.specs.Validation.{destination_of};
ghost use Rattle.rip_guest.specs.Requests.{is_authenticated};
ghost use Rattle.rip_guest.specs.Rip.{rip};
ghost use Rattle.rip_guest.specs.Sound.{AreSettings, HasBytes};
ghost use Rattle.rip_guest.specs.State.{Prefix, RipState};
ghost use Rattle.rip_guest.specs.Step.{rip_after};
ghost use Rattle.rip_laws.specs.Reached.{IsReached};
ghost use Rattle.rip_laws.specs.Told.{IsTold};
ghost use Rattle.rip_laws.specs.UpPorts.{AreByUpPorts, node_run, opening_node};

use crate::tables::{reached_states, tables_are_in_order};
use rip_guest::no_mark_is_left;
use rip_table::{a_change_is_at_one_network, sound_tables};
use rip_wire::read_messages_fit;

/// A route that was learnt comes from a message (RFC 2453 section 3.9.2): after a step each route by a port that can be
/// reached is as it was before, or the input is a response on that port that told it. Its metric is the one that was
/// told and the cost of the port, so at least one more, and below 16.
pub fn routes_come_from_messages()
    ensures { (s : RipState) (ports : ℕ) (input : Input) → IsReached s → (n : Network)
        → IfSome (held_at (rip_after s ports input).routes n) (λ h. h.metric < infinity
        → (port : ℕ) → h.via ≡ Some port → (held_at s.routes n ≡ Some h) ⊎ IsTold s input port n h) }
{
    reached_states();
    tables_are_in_order();
    no_mark_is_left();
    a_change_is_at_one_network();
    read_messages_fit();
}

/// A message changes nothing at all of the router (RFC 2453 sections 3.9, 3.9.1, 3.9.2 and 4.1) if it comes on a port
/// that the router doesn't have, if its bytes are no message, if it is a request, if its first entry is one of
/// authentication, or if no entry tells of a network: the entries that aren't valid are passed over.
pub fn messages_that_change_nothing()
    ensures port { (s : RipState) (ports port : ℕ) (body : List ℕ) → IsReached s → length s.costs ≤ port
        → rip_after s ports (Msg port body) ≡ s }
    ensures no_message { (s : RipState) (ports port : ℕ) (body : List ℕ) → IsReached s → message_at body ≡ None
        → rip_after s ports (Msg port body) ≡ s }
    ensures request { (s : RipState) (ports port : ℕ) (body : List ℕ) (m : Message) → IsReached s
        → message_at body ≡ Some m → m.command ≡ request_command → rip_after s ports (Msg port body) ≡ s }
    ensures authentication { (s : RipState) (ports port : ℕ) (body : List ℕ) (m : Message) → IsReached s
        → message_at body ≡ Some m → is_authenticated m.entries ≡ true → rip_after s ports (Msg port body) ≡ s }
    ensures entries { (s : RipState) (ports port : ℕ) (body : List ℕ) (m : Message) → IsReached s
        → message_at body ≡ Some m → AllByRecursion (λ e. destination_of e ≡ None) m.entries
        → rip_after s ports (Msg port body) ≡ s }
{
    no_mark_is_left();
}

/// No route is taken from a port that is down: a step leaves each route by such a port that can be reached as it was
/// before. And no route that was learnt and can be reached goes by a port that is down, at the end of any run of a
/// router in its node. RFC 2453 names no port that goes down; this is the profile's own.
pub fn no_route_by_a_down_port()
    ensures step { (node : Node RipState) (input : Input) → IsReached node.guest → (n : Network)
        → IfSome (held_at (node_after rip node input).guest.routes n) (λ h. h.metric < infinity
        → (port : ℕ) → h.via ≡ Some port → is_up node.ports port ≡ false → held_at node.guest.routes n ≡ Some h) }
    ensures run { (number : ℕ) (costs : List ℕ) (prefixes : List Prefix) (ports : ℕ) (inputs : List Input)
        → AreSettings number costs prefixes → AllByRecursion HasBytes inputs
        → AreByUpPorts (node_run (opening_node number costs prefixes ports) inputs) }
{
    reached_states();
    routes_come_from_messages();
    a_change_is_at_one_network();
    sound_tables();
}
