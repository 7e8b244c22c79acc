//! The routers so far, looked up by name.

ghost use Rattle.std.specs.Prelude.{◌≡◌, ◌<◌, ◌++◌, ◌∷◌, [], length, None, Some, slice_get, IfSome, OnOk, OnErr};
ghost use Rattle.dn_model.specs.Routers.{number_of};
ghost use Rattle.dn_case.specs.Standings.{with_prefix};

use dn_guest::NoMemory;
use dn_model::{Prefix, RouterDef, Routers};
use indexmap::IndexSet;
use std::alloc::{AllocError, Global};
use std::marker::Model;

/// Routers whose names are apart. Contracts see the list of routers; the names stand in the same order
/// in a set by which they are looked up.
#[derive(Drop)]
pub struct KnownRouters {
    items: Vec<RouterDef>,
    names: IndexSet<Vec<u8>>,
}

impl Model for KnownRouters {
    ghost use Rattle.std.specs.Prelude.{◌≡◌, List, map};
    ghost use Rattle.dn_model.specs.declared.router.RouterDef.{RouterDef};

    ghost Value = { List RouterDef };

    ghost view = { λ k. k.items.items };

    ghost invariant = { λ k. map (λ key. key.items) k.names.keys ≡ map (λ r. r.name) k.items.items };
}

impl KnownRouters {
    /// No router. It takes no memory.
    pub fn new(alloc: Global) -> KnownRouters
        ensures { result ≡ [] }
    {
        KnownRouters {
            items: Vec::new(alloc),
            names: IndexSet::new(alloc),
        }
    }

    /// How many routers there are.
    pub fn len(&self) -> usize
        ensures { result ≡ length self.now }
    {
        self.items.len()
    }

    /// The number of the router of a name.
    pub fn number_of(&self, name: &[u8]) -> Option<usize>
        ensures found { result ≡ number_of self.now name.now }
        ensures within { IfSome result (λ i. i < length self.now) }
    {
        self.names.get_index_of(name)
    }

    /// The router of this number.
    pub fn router(&self, number: usize) -> &RouterDef
        requires { number < length self.now }
        ensures { slice_get self.now number ≡ Some result.now }
    {
        &self.items[number]
    }

    /// One router at the end, whose name is new.
    pub fn push(&mut self, alloc: Global, router: RouterDef) -> Result<(), NoMemory>
        requires { number_of self.old router.name ≡ None }
        ensures ok { OnOk result (self.new ≡ self.old ++ router ∷ []) }
        ensures err { OnErr result (self.new ≡ self.old) }
    {
        let name = Vec::from_slice(alloc, router.name.as_slice())?;
        self.items.push(router)?;
        match self.names.insert(name) {
            Ok(_) => Ok(()),
            Err(_) => {
                let _router = self.items.pop();
                Err(AllocError)
            }
        }
    }

    /// One prefix at the end of those of a router.
    #[tactic(auto, using(crate::proofs::RouterLaws::with_prefix_is))]
    pub fn push_prefix(&mut self, number: usize, prefix: Prefix) -> Result<(), NoMemory>
        requires { number < length self.old }
        ensures ok { OnOk result (self.new ≡ with_prefix self.old number prefix) }
        ensures err { OnErr result (self.new ≡ self.old) }
        ensures len { length self.new ≡ length self.old }
    {
        self.items[number].prefixes.push(prefix)?;
        Ok(())
    }

    /// The routers alone, with no memory taken.
    pub fn into_routers(self) -> Routers
        ensures { result ≡ self }
    {
        Routers::from_vec(self.items)
    }
}
