//! Routers of a header, with their kinds and prefixes.

ghost use Rattle.std.specs.Prelude.{◌≡◌, ◌++◌, ◌∷◌, [], IfOk, OnOk, OnErr};

use crate::Name;
use dn_guest::NoMemory;
use std::alloc::Global;
use std::marker::Model;

/// The guest that a router runs.
#[derive(Clone, Copy, Debug)]
pub enum Kind {
    Flood,
    Ospf,
    Rip,
}

/// A prefix of a router: the first `len` bits of the address, and the cost at which it is told. A flooding
/// router has none; `specs/Kinds.antt` has the rules.
#[derive(Clone, Copy, Debug)]
pub struct Prefix {
    pub address: u32,
    pub len: u8,
    pub cost: u16,
}

/// The prefixes of a router, in the order of the case.
#[derive(Drop)]
pub struct Prefixes {
    items: Vec<Prefix>,
}

impl Model for Prefixes {
    ghost use Rattle.std.specs.Prelude.{List};
    ghost use Rattle.dn_model.specs.declared.router.Prefix.{Prefix};

    ghost Value = { List Prefix };

    ghost view = { λ l. l.items.items };
}

impl Prefixes {
    /// The same prefixes, with no memory taken.
    pub fn from_vec(items: Vec<Prefix>) -> Self
        ensures { result ≡ items.items }
    {
        Prefixes { items }
    }

    /// The prefixes as a slice.
    pub fn as_slice(&self) -> &[Prefix]
        ensures { result.now ≡ self.now }
    {
        self.items.as_slice()
    }

    /// One prefix at the end.
    pub fn push(&mut self, prefix: Prefix) -> Result<(), NoMemory>
        ensures ok { OnOk result (self.new ≡ self.old ++ prefix ∷ []) }
        ensures err { OnErr result (self.new ≡ self.old) }
    {
        self.items.push(prefix)?;
        Ok(())
    }

    /// A copy.
    pub fn copy(&self, alloc: Global) -> Result<Prefixes, NoMemory>
        ensures { IfOk result (λ made. made ≡ self.now) }
    {
        Ok(Prefixes {
            items: self.items.as_slice().to_vec(alloc)?,
        })
    }
}

/// A router: its name, the guest that it runs, and its prefixes.
#[derive(Drop)]
pub struct RouterDef {
    pub name: Name,
    pub kind: Kind,
    pub prefixes: Prefixes,
}

impl RouterDef {
    /// A copy.
    pub fn copy(&self, alloc: Global) -> Result<RouterDef, NoMemory>
        ensures { IfOk result (λ made. made ≡ self.now) }
    {
        Ok(RouterDef {
            name: self.name.copy(alloc)?,
            kind: self.kind,
            prefixes: self.prefixes.copy(alloc)?,
        })
    }
}

/// The routers of a header; a router's number is its place, from 0.
#[derive(Drop)]
pub struct Routers {
    items: Vec<RouterDef>,
}

impl Model for Routers {
    ghost use Rattle.std.specs.Prelude.{List};
    ghost use Rattle.dn_model.specs.declared.router.RouterDef.{RouterDef};

    ghost Value = { List RouterDef };

    ghost view = { λ l. l.items.items };
}

impl Routers {
    /// The same routers, with no memory taken.
    pub fn from_vec(items: Vec<RouterDef>) -> Self
        ensures { result ≡ items.items }
    {
        Routers { items }
    }

    /// The routers as a slice.
    pub fn as_slice(&self) -> &[RouterDef]
        ensures { result.now ≡ self.now }
    {
        self.items.as_slice()
    }

    /// One router at the end.
    pub fn push(&mut self, router: RouterDef) -> Result<(), NoMemory>
        ensures ok { OnOk result (self.new ≡ self.old ++ router ∷ []) }
        ensures err { OnErr result (self.new ≡ self.old) }
    {
        self.items.push(router)?;
        Ok(())
    }

    /// A copy.
    pub fn copy(&self, alloc: Global) -> Result<Routers, NoMemory>
        ensures { IfOk result (λ made. made ≡ self.now) }
    {
        let mut items = Vec::new(alloc);
        for router in &self.items {
            items.push(router.copy(alloc)?)?;
        }
        Ok(Routers { items })
    }
}
