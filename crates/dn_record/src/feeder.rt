//! Feeders, and what they answer.

use dn_guest::{Input, NoMemory};
use std::alloc::Global;

/// What a feeder answers.
#[derive(Drop)]
pub enum Fed {
    /// An input for the router of this number, with the group with which it is stamped.
    One(u16, Input, u32),
    /// Nothing more comes.
    Closed,
}

/// What gives the inputs from outside, one after another.
///
/// Its meanings are the header that it feeds, what it has given, whether it has closed, and what a later state of it
/// has to do with an earlier one.
pub trait Feeder {
    ghost use Rattle.std.specs.Prelude.{◌≡◌, Bool, false, List, IfOk, OnErr};
    ghost use Rattle.dn_model.specs.Cases.{Heading};
    ghost use Rattle.dn_model.specs.declared.feed.External.{External};
    ghost use Rattle.dn_record.specs.Feeding.{HasGiven};

    ghost header: { Self → Heading };

    ghost given: { Self → List External };

    ghost closed: { Self → Bool };

    /// Whether the second state comes from the first one.
    ghost comes: { Self → Self → Type 0 };

    /// The next input, or `Closed` when no more comes. After `NoMemory` nothing was given, and the feeder isn't
    /// asked again.
    fn next(&mut self, alloc: Global) -> Result<Fed, NoMemory>
        requires open { closed self.old ≡ false }
        ensures comes { comes self.old self.new }
        ensures ok { IfOk result (λ fed. HasGiven (header self.old) (given self.old) fed (given self.new)
            (closed self.new)) }
        ensures err { OnErr result ((given self.new ≡ given self.old) × (closed self.new ≡ false)) };

    ghost comes_from_itself: { (x : Self) → comes x x };

    ghost comes_onward: { (x y z : Self) → comes x y → comes y z → comes x z };

    ghost comes_with_header: { (x y : Self) → comes x y → header y ≡ header x };
}
