//! What holds of the retransmission lists between two steps.

ghost use Rattle.std.specs.Prelude.{ℕ, List};
ghost use Rattle.dn_guest.specs.declared.input.Input.{Input};
ghost use Rattle.ospf_router.specs.State.{OspfState, Prefix};
ghost use Rattle.ospf_laws.specs.Lists.{AreOfFull};
ghost use Rattle.ospf_laws.specs.Reached.{IsReached};
ghost use Rattle.ospf_laws.specs.UpPorts.{AreOfUpPorts, node_run, opening_node};

/// Only a Full neighbour has LSAs on its link state retransmission list (RFC 2328 sections 10, 10.3 and 13.3): the list
/// of a port whose neighbour is Down or Init is empty, so what was flooded to a neighbour that was lost is never sent
/// to the next one.
pub fn lists_are_of_full_neighbours()
    ensures { (s : OspfState) → IsReached s → AreOfFull s.interfaces }
{}

/// The list of a port that is down is empty too (RFC 2328 section 10.3, LLDown): at the end of any run of a router in its
/// node, whatever the settings, the mask at the start and the inputs are, the list of each port is empty, unless the
/// port is up and its neighbour Full.
pub fn lists_are_of_up_ports()
    ensures { (number : ℕ) (costs : List ℕ) (prefixes : List Prefix) (ports : ℕ) (inputs : List Input)
        → AreOfUpPorts (node_run (opening_node number costs prefixes ports) inputs) }
{}
