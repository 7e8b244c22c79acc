//! What a router's settings are made of.

ghost use Rattle.std.specs.Prelude.{◌≡◌};

use std::marker::Model;

/// The costs of a router's ports, in the order of the ports.
#[derive(Drop)]
pub struct Costs {
    items: Vec<u16>,
}

impl Model for Costs {
    ghost use Rattle.std.specs.Prelude.{List, ℕ};

    ghost Value = { List ℕ };

    ghost view = { λ l. l.items.items };
}

impl Costs {
    /// The same costs, with no memory taken.
    pub fn from_vec(items: Vec<u16>) -> Costs
        ensures { result ≡ items.items }
    {
        Costs { items }
    }

    /// The costs.
    pub fn as_slice(&self) -> &[u16]
        ensures { result.now ≡ self.now }
    {
        self.items.as_slice()
    }
}

/// A router's own networks, each an address, the length of its mask, and a cost or metric.
#[derive(Drop)]
pub struct PrefixList {
    items: Vec<(u32, u8, u16)>,
}

impl Model for PrefixList {
    ghost use Rattle.std.specs.Prelude.{List, ℕ};

    ghost Value = { List (ℕ × ℕ × ℕ) };

    ghost view = { λ l. l.items.items };
}

impl PrefixList {
    /// The same networks, with no memory taken.
    pub fn from_vec(items: Vec<(u32, u8, u16)>) -> PrefixList
        ensures { result ≡ items.items }
    {
        PrefixList { items }
    }

    /// The networks.
    pub fn as_slice(&self) -> &[(u32, u8, u16)]
        ensures { result.now ≡ self.now }
    {
        self.items.as_slice()
    }
}
