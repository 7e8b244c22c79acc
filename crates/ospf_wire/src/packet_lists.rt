//! The lists that packets hold.

ghost use Rattle.std.specs.Prelude.{◌≡◌};

use crate::{Lsa, LsaHeader, RouterLink};
use std::marker::Model;

/// Router ids, in order.
#[derive(Drop)]
pub struct Ids {
    items: Vec<u32>,
}

impl Model for Ids {
    ghost use Rattle.std.specs.Prelude.{List, ℕ};

    ghost Value = { List ℕ };

    ghost view = { λ l. l.items.items };
}

impl Ids {
    /// The same ids, with no memory taken.
    pub fn from_vec(items: Vec<u32>) -> Ids
        ensures { result ≡ items.items }
    {
        Ids { items }
    }

    /// The ids.
    pub fn as_slice(&self) -> &[u32]
        ensures { result.now ≡ self.now }
    {
        self.items.as_slice()
    }

    /// The same ids, with no memory taken.
    pub fn into_vec(self) -> Vec<u32>
        ensures { result.items ≡ self }
    {
        self.items
    }
}

/// LSAs, in order.
#[derive(Drop)]
pub struct Lsas {
    items: Vec<Lsa>,
}

impl Model for Lsas {
    ghost use Rattle.std.specs.Prelude.{List};
    ghost use Rattle.ospf_wire.specs.declared.lsa.Lsa.{Lsa};

    ghost Value = { List Lsa };

    ghost view = { λ l. l.items.items };
}

impl Lsas {
    /// The same LSAs, with no memory taken.
    pub fn from_vec(items: Vec<Lsa>) -> Lsas
        ensures { result ≡ items.items }
    {
        Lsas { items }
    }

    /// The LSAs.
    pub fn as_slice(&self) -> &[Lsa]
        ensures { result.now ≡ self.now }
    {
        self.items.as_slice()
    }

    /// The same LSAs, with no memory taken.
    pub fn into_vec(self) -> Vec<Lsa>
        ensures { result.items ≡ self }
    {
        self.items
    }
}

/// Headers of LSAs, in order.
#[derive(Drop)]
pub struct LsaHeaders {
    items: Vec<LsaHeader>,
}

impl Model for LsaHeaders {
    ghost use Rattle.std.specs.Prelude.{List};
    ghost use Rattle.ospf_wire.specs.declared.lsa.LsaHeader.{LsaHeader};

    ghost Value = { List LsaHeader };

    ghost view = { λ l. l.items.items };
}

impl LsaHeaders {
    /// The same headers, with no memory taken.
    pub fn from_vec(items: Vec<LsaHeader>) -> LsaHeaders
        ensures { result ≡ items.items }
    {
        LsaHeaders { items }
    }

    /// The headers.
    pub fn as_slice(&self) -> &[LsaHeader]
        ensures { result.now ≡ self.now }
    {
        self.items.as_slice()
    }

    /// The same headers, with no memory taken.
    pub fn into_vec(self) -> Vec<LsaHeader>
        ensures { result.items ≡ self }
    {
        self.items
    }
}

/// Links of a router-LSA, in order.
#[derive(Drop)]
pub struct RouterLinks {
    items: Vec<RouterLink>,
}

impl Model for RouterLinks {
    ghost use Rattle.std.specs.Prelude.{List};
    ghost use Rattle.ospf_wire.specs.declared.router_lsa.RouterLink.{RouterLink};

    ghost Value = { List RouterLink };

    ghost view = { λ l. l.items.items };
}

impl RouterLinks {
    /// The same links, with no memory taken.
    pub fn from_vec(items: Vec<RouterLink>) -> RouterLinks
        ensures { result ≡ items.items }
    {
        RouterLinks { items }
    }

    /// The links.
    pub fn as_slice(&self) -> &[RouterLink]
        ensures { result.now ≡ self.now }
    {
        self.items.as_slice()
    }

    /// The same links, with no memory taken.
    pub fn into_vec(self) -> Vec<RouterLink>
        ensures { result.items ≡ self }
    {
        self.items
    }
}
