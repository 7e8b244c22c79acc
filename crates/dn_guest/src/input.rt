//! What a guest is given, and the order of inputs.

ghost use Rattle.std.specs.Prelude.{◌≡◌, IfOk, refl};
ghost use Rattle.std.specs.Cmp.{partial_equiv_from_equiv, eq_by_cmp_equiv, partial_order_from_total};
ghost use Rattle.std.specs.Ordering.{as_partial_cmp, eq_by_cmp};
ghost use Rattle.dn_guest.specs.InputOrder.{kind_of, input_cmp, input_total};

use crate::Bytes;
use std::alloc::{AllocError, Global};
use std::cmp::Ordering;

/// One input of a router. Ports are numbered from 0.
#[derive(Drop)]
pub enum Input {
    /// The tick of a group; it tells the guest the time, one tick a second.
    Tick(u32),
    /// A command from outside.
    Cmd(Bytes),
    /// The port went down.
    Down(u8),
    /// The port went up.
    Up(u8),
    /// A message, and the port on which it comes.
    Msg(u8, Bytes),
}

impl Input {
    /// A copy.
    pub fn copy(&self, alloc: Global) -> Result<Input, AllocError>
        ensures { IfOk result (λ made. made ≡ self.now) }
    {
        match self {
            Input::Tick(group) => Ok(Input::Tick(*group)),
            Input::Cmd(body) => Ok(Input::Cmd(body.copy(alloc)?)),
            Input::Down(port) => Ok(Input::Down(*port)),
            Input::Up(port) => Ok(Input::Up(*port)),
            Input::Msg(port, body) => Ok(Input::Msg(*port, body.copy(alloc)?)),
        }
    }

    /// The place of the kind in the order of kinds.
    fn kind(&self) -> u8
        ensures { result ≡ kind_of self.now }
    {
        match self {
            Input::Tick(_) => 0,
            Input::Cmd(_) => 1,
            Input::Down(_) => 2,
            Input::Up(_) => 3,
            Input::Msg(_, _) => 4,
        }
    }

    /// By kind, then by port or number, then by the body's bytes.
    #[tactic(auto, using(crate::proofs::Orderings::then_equal), unfolding(crate::specs::InputOrder::input_cmp))]
    fn order(&self, other: &Input) -> Ordering
        ensures { result ≡ input_cmp self.now other.now }
    {
        match (self, other) {
            (Input::Tick(a), Input::Tick(b)) => a.cmp(b),
            (Input::Cmd(a), Input::Cmd(b)) => a.as_slice().cmp(b.as_slice()),
            (Input::Down(a), Input::Down(b)) => a.cmp(b),
            (Input::Up(a), Input::Up(b)) => a.cmp(b),
            (Input::Msg(p, a), Input::Msg(q, b)) => p.cmp(q).then(a.as_slice().cmp(b.as_slice())),
            _ => self.kind().cmp(&other.kind()),
        }
    }
}

impl PartialEq for Input {
    ghost eq = { eq_by_cmp input_cmp };

    ghost laws = { partial_equiv_from_equiv (eq_by_cmp_equiv input_total) };

    fn eq(&self, other: &Input) -> bool {
        self.order(other).is_eq()
    }
}

impl Eq for Input {
    ghost laws = { eq_by_cmp_equiv input_total };
}

impl Ord for Input {
    ghost cmp = { input_cmp };

    ghost total = { input_total };

    ghost matches_partial_cmp = { λ x y. refl };

    ghost matches_eq = { λ x y. refl };

    fn cmp(&self, other: &Input) -> Ordering {
        self.order(other)
    }
}

impl PartialOrd for Input {
    ghost partial_cmp = { as_partial_cmp input_cmp };

    ghost laws = { partial_order_from_total input_total };

    fn partial_cmp(&self, other: &Input) -> Option<Ordering> {
        Some(self.order(other))
    }
}
