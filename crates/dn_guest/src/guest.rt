//! What a guest is.

ghost use Rattle.std.specs.Prelude.{◌≡◌, ◌↔◌, ◌++◌, List, ℕ, IsTrue, IfOk, OnOk};
ghost use Rattle.dn_guest.specs.declared.input.Input.{Input};
ghost use Rattle.dn_guest.specs.KeepsFront.{KeepsFront};
ghost use Rattle.dn_guest.specs.Meaning.{Meaning};

use crate::{Bytes, Input, Outbox};
use std::alloc::{AllocError, Global};

/// A pure step over ticks, commands, port changes and messages. In a clause a guest is its state as
/// plain data.
pub trait Guest: Drop + Send + Sized {
    /// The step, the sort, the image and the show, as functions of the state.
    ghost meaning: { Meaning Self };

    /// One step under this mask of up ports. After `NoMemory` nothing is said of the state and of
    /// `out`: the caller drops both.
    fn step(
        &mut self,
        alloc: Global,
        ports: u16,
        input: &Input,
        out: &mut Outbox,
    ) -> Result<(), AllocError>
        ensures state { OnOk result (self.new ≡ meaning.after self.old ports input.now) }
        ensures outputs { OnOk result (out.new ≡ out.old ++ meaning.outs self.old ports input.now) };

    /// An equal state.
    fn fork(&self, alloc: Global) -> Result<Self, AllocError>
        ensures { IfOk result (λ made. made ≡ self.now) };

    /// Whether the states are equal.
    fn same(&self, other: &Self) -> bool
        ensures { IsTrue result ↔ (self.now ≡ other.now) };

    /// The number of the protocol: 0 flooding, 1 OSPF, 2 RIP.
    fn sort(&self) -> u8
        ensures { result ≡ meaning.sort self.now };

    /// Appends bytes that tell the whole state. After `NoMemory` what was in `out` before still stands
    /// at its front.
    fn image(&self, alloc: Global, out: &mut Bytes) -> Result<(), AllocError>
        ensures ok { OnOk result (out.new ≡ out.old ++ meaning.image self.now) }
        ensures kept { KeepsFront out.old out.new };

    /// Appends lines that tell a reader of the state, as neighbours and routes. After `NoMemory` what
    /// was in `out` before still stands at its front.
    fn show(&self, alloc: Global, out: &mut Bytes) -> Result<(), AllocError>
        ensures ok { OnOk result (out.new ≡ out.old ++ meaning.show self.now) }
        ensures kept { KeepsFront out.old out.new };

    /// No step changes the sort.
    ghost sort_stays: { (state : Self) (ports : ℕ) (input : Input) → meaning.sort (meaning.after state ports input) ≡ meaning.sort state };

    /// Two states of one sort with one image are equal.
    ghost image_tells: { (one other : Self) → meaning.sort one ≡ meaning.sort other → meaning.image one ≡ meaning.image other → one ≡ other };
}
