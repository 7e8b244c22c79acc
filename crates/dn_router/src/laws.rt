//! What ties a router to a network. A law is the contract of a function that does nothing; whoever needs it
//! calls it.

ghost use Rattle.std.specs.Prelude.{ℕ, ◌≡◌, List};
ghost use Rattle.std.specs.List.{AllByRecursion};
ghost use Rattle.dn_guest.specs.declared.node.Node.{Node};
ghost use Rattle.dn_model.specs.declared.event.Event.{Event};
ghost use Rattle.dn_model.specs.Cases.{timing_of};
ghost use Rattle.dn_model.specs.Links.{ends};
ghost use Rattle.dn_model.specs.Network.{Network, opening_node, state, state_from, sent_from};
ghost use Rattle.dn_model.specs.declared.key.Key.{Key};
ghost use Rattle.dn_world.specs.World.{Part, key_of};
ghost use Rattle.dn_world.specs.Runs.{IsPast};
ghost use Rattle.dn_world.specs.Steps.{emits, kept, taken_off};
ghost use Rattle.dn_router.specs.Replays.{node_over, emitted_at, emitted_over};
ghost use Rattle.dn_router.specs.Routers.{staying, taken_back};

/// A router with the number r, the far ends and the timing of a network and the network's opening node has
/// the network's nodes, and its sendings are the network's, where each event is at the router.
pub fn of_a_network<S>()
    ensures node { (net : Network S) (r : ℕ) (history : List Event) →
        node_over net.guests (opening_node net r) history ≡ state net r history }
    ensures node_from { (net : Network S) (node : Node S) (history : List Event) →
        node_over net.guests node history ≡ state_from net node history }
    ensures emits { (net : Network S) (r : ℕ) (history : List Event) (e : Event) → e.router ≡ r →
        emitted_at net.guests (timing_of net.header) (ends net.header.links r) (state net r history) e ≡
        emits net r history e }
    ensures sent { (net : Network S) (r : ℕ) (node : Node S) (history : List Event) →
        AllByRecursion (λ e. e.router ≡ r) history →
        emitted_over net.guests (timing_of net.header) (ends net.header.links r) node history ≡
        sent_from net node history }
    ensures staying { (net : Network S) (p : Part) → staying p ≡ kept net p }
    ensures taken { (net : Network S) (p : Part) → taken_back p ≡ taken_off net p }
{}

/// No key is before the key of zeros, which is the bound of a router before its first commit.
pub fn nothing_before_zeros()
    ensures { (k : Key) → IsPast (key_of 0 0) k }
{}
