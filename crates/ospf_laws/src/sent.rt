//! What a step puts out.

ghost use Rattle.std.specs.Prelude.{◌≡◌, ◌≤◌, ◌<◌, ◌%◌, ℕ, true, Contains, length};
ghost use Rattle.dn_guest.specs.declared.input.Input.TheVariants.{Tick};
ghost use Rattle.dn_guest.specs.Ports.{is_up};
ghost use Rattle.ospf_wire.specs.Constants.{HelloInterval};
ghost use Rattle.ospf_router.specs.State.{OspfState};
ghost use Rattle.ospf_router.specs.Step.{ospf_outs};
ghost use Rattle.ospf_laws.specs.Heard.{hello_on};

/// A Hello goes out of every up port at every tick that is taken and that HelloInterval divides (RFC 2328 section 9.5),
/// from any state. It lists the neighbour at the port exactly if that was heard fewer than RouterDeadInterval ticks ago
/// (sections 9.5 and 10.2).
pub fn hellos_go_out()
    ensures { (s : OspfState) (ports group port : ℕ) → s.tick ≤ group → group ≤ 65535 → group % HelloInterval ≡ 0
        → port < length s.interfaces.ports → is_up ports port ≡ true
        → Contains (ospf_outs s ports (Tick group)) (hello_on s group port) }
{}
