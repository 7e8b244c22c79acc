//! The shelf.

ghost use Rattle.std.specs.Prelude.{ℕ, ◌≡◌, ◌≤◌, [], ◌∷◌, Some, OnOk, OnErr, IfOk, slice_get};
ghost use Rattle.std.specs.Map.{keys_of};
ghost use Rattle.dn_ckpt.specs.Shelves.{HasBase, base_place, kept_at, kept_from, kept_up_to, with_kept};

use crate::ends::{drop_before, drop_past};
use crate::shared::SharedNode;
use dn_guest::{Guest, NoMemory, Node};
use std::alloc::Global;
use std::collections::BTreeMap;
use std::marker::Model;

/// The nodes that are kept, each at a place: the number of events that led to it.
#[derive(Drop)]
pub struct Shelf<G: Guest> {
    alloc: Global,
    kept: BTreeMap<u64, SharedNode<G>>,
}

impl<G: Guest> Model for Shelf<G> {
    ghost use Rattle.std.specs.Prelude.{◌<◌, length};
    ghost use Rattle.dn_ckpt.specs.Shelves.{Kept};

    ghost Value = { Kept G };

    ghost view = { λ s. s.kept.entries };

    ghost invariant = { λ s. 0 < length s.kept.entries };
}

impl<G: Guest> Shelf<G> {
    /// A shelf with this node at place 0.
    pub fn new(alloc: Global, opening: Node<G>) -> Result<Shelf<G>, NoMemory>
        ensures { IfOk result (λ made. made ≡ (0, opening) ∷ []) }
    {
        let mut kept = BTreeMap::new(alloc);
        let opening = SharedNode::new(alloc, opening)?;
        kept.insert(0, opening)?;
        Ok(Shelf { alloc, kept })
    }

    /// The least kept place. Each place from it on has a base.
    pub fn least_place(&self) -> u64
        ensures least { slice_get (keys_of self.now) 0 ≡ Some result }
        ensures base { (place : ℕ) → result ≤ place → HasBase place self.now }
    {
        match self.kept.first_key_value() {
            Some((at, _)) => *at,
            None => unreachable!(),
        }
    }

    /// The kept node with the greatest place that isn't past this one, and that place. The caller knows that
    /// it isn't before the least kept place.
    pub fn base_for(&self, place: u64) -> (u64, &Node<G>)
        requires { HasBase place self.now }
        ensures place { result.0 ≡ base_place place self.now }
        ensures node { kept_at self.now result.0 ≡ Some result.1.now }
    {
        let (at, shared) = self.entry_for(place);
        (at, shared.node())
    }

    /// The same place and node, where the node gets another owner. The caller knows that the place isn't before
    /// the least kept place. `NoMemory`: the node has as many owners as can be counted.
    pub fn shared_base_for(&self, place: u64) -> Result<(u64, SharedNode<G>), NoMemory>
        requires { HasBase place self.now }
        ensures place { IfOk result (λ base. base.0 ≡ base_place place self.now) }
        ensures node { IfOk result (λ base. kept_at self.now base.0 ≡ Some base.1) }
    {
        let (at, shared) = self.entry_for(place);
        Ok((at, shared.share()?))
    }

    /// That place, and its node as it is kept.
    fn entry_for(&self, place: u64) -> (u64, &SharedNode<G>)
        requires { HasBase place self.now }
        ensures place { result.0 ≡ base_place place self.now }
        ensures node { kept_at self.now result.0 ≡ Some result.1.now }
    {
        match self.kept.range(..=place).next_back() {
            Some((at, node)) => (*at, node),
            None => unreachable!(),
        }
    }

    /// Keeps the node at the place, where another that was kept there is dropped.
    pub fn keep(&mut self, place: u64, node: Node<G>) -> Result<(), NoMemory>
        ensures ok { OnOk result (self.new ≡ with_kept self.old place node) }
        ensures err { OnErr result (self.new ≡ self.old) }
    {
        let node = SharedNode::new(self.alloc, node)?;
        self.kept.insert(place, node)?;
        Ok(())
    }

    /// Drops the nodes past the place. The caller knows that it isn't before the least kept place.
    pub fn cut(&mut self, place: u64)
        requires { HasBase place self.old }
        ensures { self.new ≡ kept_up_to place self.old }
    {
        drop_past(&mut self.kept, place);
    }

    /// Drops the nodes before the greatest kept place that isn't past this one. The caller knows that it
    /// isn't before the least kept place.
    pub fn trim(&mut self, place: u64)
        requires { HasBase place self.old }
        ensures { self.new ≡ kept_from (base_place place self.old) self.old }
    {
        let base = self.base_for(place).0;
        drop_before(&mut self.kept, base);
    }
}
