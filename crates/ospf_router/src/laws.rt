//! What holds of every state that a router reaches.

ghost use Rattle.std.specs.Prelude.{◌≡◌, ◌≤◌, ◌<◌, ◌^◌, ℕ, List, Some, All, IfSome, is_some, true, false, length};
ghost use Rattle.std.specs.List.{AllByRecursion};
ghost use Rattle.dn_guest.specs.declared.input.Input.{Input};
ghost use Rattle.ospf_wire.specs.declared.lsa.Lsa.{Lsa};
ghost use Rattle.ospf_wire.specs.declared.packet.Body.TheVariants.{Update};
ghost use Rattle.ospf_wire.specs.declared.packet.Packet.{Packet};
ghost use Rattle.ospf_wire.specs.Reading.{packet_at};
ghost use Rattle.ospf_lsdb.specs.declared.key.LsaKey.{LsaKey};
ghost use Rattle.ospf_lsdb.specs.Database.{kept_at};
ghost use Rattle.ospf_router.specs.declared.router.Router.{Router};
ghost use Rattle.ospf_router.specs.ReceiveUpdate.{Taken, receive_lsa};
ghost use Rattle.ospf_router.specs.Flooding.{flood_lsa, send_lsas};
ghost use Rattle.ospf_router.specs.Sound.{IsSoundState, HasBytes, ospf_run};
ghost use Rattle.ospf_router.specs.State.{OspfState, Prefix, opening, state_of};
ghost use Rattle.ospf_router.specs.Step.{handled, is_passed_over, ospf_after};
ghost use Rattle.ospf_router.specs.BuildUpdates.{copy_of, is_sendable};

/// Every state that a router reaches is sound. The one at the start is, where there are at most 16 ports.
/// Each step leaves a sound one, whatever the mask of its up ports and its input are.
pub fn sound_states()
    ensures opening { (number : ℕ) (costs : List ℕ) (prefixes : List Prefix) → length costs ≤ 16
        → IsSoundState (opening number costs prefixes) }
    ensures step { (s : OspfState) (ports : ℕ) (input : Input) → HasBytes input → IsSoundState s
        → IsSoundState (ospf_after s ports input) }
    ensures run { (number : ℕ) (costs : List ℕ) (prefixes : List Prefix) (steps : List (ℕ × Input))
        → length costs ≤ 16 → AllByRecursion (λ (e : ℕ × Input). HasBytes e.1) steps
        → IsSoundState (ospf_run (opening number costs prefixes) steps) }
{}

/// So is the state in the middle of a step: before its end, and after each sending. An LSA that is received
/// can be sent, which `sound_states_are_plain` says of all that come.
pub fn sound_parts()
    ensures handled { (r : Router) (ports : ℕ) (input : Input) → HasBytes input
        → is_passed_over r.tick input ≡ false → IsSoundState (state_of r)
        → IsSoundState (state_of (handled ports input r)) }
    ensures flooded { (r : Router) (mask : ℕ) (key : LsaKey) → is_some (kept_at r.db key) ≡ true
        → IsSoundState (state_of r) → IsSoundState (state_of (flood_lsa mask key r)) }
    ensures send_lsas { (r : Router) (port : ℕ) (keys : List LsaKey)
        → AllByRecursion (λ key. is_some (kept_at r.db key) ≡ true) keys → IsSoundState (state_of r)
        → IsSoundState (state_of (send_lsas port keys r)) }
    ensures received { (t : Taken) (full port : ℕ) (l : Lsa) → is_sendable l ≡ true
        → IsSoundState (state_of t.router) → IsSoundState (state_of (receive_lsa full port t l).router) }
{}

/// No LSA of a sound state is passed over when it is sent, nor is one that comes. There are at most 65,535
/// LSAs, and as many on each retransmission list.
pub fn sound_states_are_plain()
    ensures copies { (s : OspfState) (now : ℕ) (key : LsaKey) → IsSoundState s
        → IfSome (copy_of now s.db key) (λ l. is_sendable l ≡ true) }
    ensures received { (bytes : List ℕ) (p : Packet) (ls : List Lsa) → All (λ b. b < 2 ^ 8) bytes
        → packet_at bytes ≡ Some p → p.body ≡ Update ls → AllByRecursion (λ l. is_sendable l ≡ true) ls }
    ensures few { (s : OspfState) → IsSoundState s → length s.db ≤ 65535 }
    ensures lists { (s : OspfState) → IsSoundState s → AllByRecursion (λ l. length l ≤ 65535) s.interfaces.lists }
{}
