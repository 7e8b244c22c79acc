//! A set of bodies that copies share.

ghost use Rattle.std.specs.Prelude.{◌≡◌, ◌↔◌, [], ◌∷◌, IsTrue, IfNone, IfOk, IfSome, OnOk, OnErr, length};
ghost use Rattle.std.specs.Arc.{arc_value};
ghost use Rattle.std.specs.Ordering.{nat_cmp};
ghost use Rattle.std.specs.Cmp.Lexicographic.{slice_cmp};
ghost use Rattle.std.specs.BTreeSet.{insert_key};
ghost use Rattle.dn_guest.specs.Flood.{has};

use crate::Bytes;
use std::alloc::{AllocError, Global};
use std::collections::BTreeSet;
use std::marker::Model;
use std::sync::Arc;

/// A set of bodies. Copies share it until one of them is given a further body: that one then has a set of its
/// own. Contracts see it as the list of its bodies in ascending order.
#[derive(Drop)]
pub struct BodySet {
    /// None where there is no body.
    shared: Option<Arc<BTreeSet<Bytes>>>,
}

impl Model for BodySet {
    ghost use Rattle.std.specs.Prelude.{List, ℕ};
    ghost use Rattle.dn_guest.specs.SharedBodies.{shared_bodies};

    ghost Value = { List (List ℕ) };

    ghost view = { λ s. shared_bodies s.shared };
}

impl BodySet {
    /// No bodies. It takes no memory.
    pub fn new() -> BodySet
        ensures { result ≡ [] }
    {
        BodySet { shared: None }
    }

    /// How many bodies there are.
    pub fn len(&self) -> usize
        ensures { result ≡ length self.now }
    {
        match &self.shared {
            Some(bodies) => bodies.len(),
            None => 0,
        }
    }

    /// Whether the body is there.
    pub fn has(&self, body: &Bytes) -> bool
        ensures { result ≡ has self.now body.now }
    {
        match &self.shared {
            Some(bodies) => bodies.contains(body),
            None => false,
        }
    }

    /// Puts the body into the set.
    pub fn insert(&mut self, alloc: Global, body: Bytes) -> Result<(), AllocError>
        ensures ok { OnOk result (self.new ≡ insert_key (slice_cmp nat_cmp) self.old body) }
        ensures err { OnErr result (self.new ≡ self.old) }
    {
        match &mut self.shared {
            Some(bodies) => insert_into(bodies, body),
            None => {
                self.shared = Some(Arc::new(alloc, set_of_one(alloc, body)?)?);
                Ok(())
            }
        }
    }

    /// The same set, shared.
    pub fn fork(&self) -> Result<BodySet, AllocError>
        ensures { IfOk result (λ made. made ≡ self.now) }
    {
        let shared = match &self.shared {
            Some(bodies) => Some(Arc::try_clone(bodies)?),
            None => None,
        };
        Ok(BodySet { shared })
    }

    /// Whether both have the same bodies.
    pub fn same(&self, other: &BodySet) -> bool
        ensures { IsTrue result ↔ (self.now ≡ other.now) }
    {
        match (&self.shared, &other.shared) {
            (Some(bodies), Some(others)) => same_bodies(bodies, others),
            (Some(bodies), None) | (None, Some(bodies)) => bodies.is_empty(),
            (None, None) => true,
        }
    }

    /// The bodies, in ascending order; None where there is none.
    pub fn bodies(&self) -> Option<&BTreeSet<Bytes>>
        ensures some { IfSome result (λ bodies. bodies.now.keys ≡ self.now) }
        ensures none { IfNone result (self.now ≡ []) }
    {
        match &self.shared {
            Some(bodies) => Some(&**bodies),
            None => None,
        }
    }
}

/// The set of one body.
fn set_of_one(alloc: Global, body: Bytes) -> Result<BTreeSet<Bytes>, AllocError>
    ensures { IfOk result (λ made. made.keys ≡ body ∷ []) }
{
    let mut bodies = BTreeSet::new(alloc);
    bodies.insert(body)?;
    Ok(bodies)
}

/// Puts the body into the set, where others share it into a copy.
fn insert_into(bodies: &mut Arc<BTreeSet<Bytes>>, body: Bytes) -> Result<(), AllocError>
    ensures ok { OnOk result ((arc_value bodies.new).keys
        ≡ insert_key (slice_cmp nat_cmp) (arc_value bodies.old).keys body) }
    ensures err { OnErr result ((arc_value bodies.new).keys ≡ (arc_value bodies.old).keys) }
{
    let own = Arc::make_mut(bodies)?;
    own.insert(body)?;
    Ok(())
}

/// Whether both have the same bodies.
fn same_bodies(bodies: &BTreeSet<Bytes>, others: &BTreeSet<Bytes>) -> bool
    ensures { IsTrue result ↔ (bodies.now.keys ≡ others.now.keys) }
{
    bodies == others
}
