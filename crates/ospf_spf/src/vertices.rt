//! The vertices of a database (RFC 2328 section 16.1, step 2).

ghost use Rattle.std.specs.Prelude.{◌≡◌, ◌≤◌, IfOk, length, option_and_then};
ghost use Rattle.ospf_lsdb.specs.declared.kept.Kept.{Kept};
ghost use Rattle.ospf_lsdb.specs.Database.{kept_at};
ghost use Rattle.ospf_spf.specs.Graph.{is_current, vertex_of, graph_of, AreInOrder};

use crate::graph::Vertex;
use ospf_lsdb::{Kept, LsaKey, Lsdb};
use ospf_wire::{MAX_AGE, ROUTER_LSA_TYPE, router_links};
use std::alloc::{AllocError, Global};

/// Whether an LSA is a router-LSA under its router's id that isn't too old (RFC 2328 section 16.1, step
/// (2)(b)).
fn is_current(now: u32, key: &LsaKey, kept: &Kept) -> bool
    ensures { result ≡ is_current now key.now kept.now }
{
    key.kind == ROUTER_LSA_TYPE && key.id == key.router && kept.age(now) < MAX_AGE
}

/// The vertex of an LSA, if it is one.
fn vertex_of(
    alloc: Global,
    now: u32,
    key: &LsaKey,
    kept: &Kept,
) -> Result<Option<Vertex>, AllocError>
    ensures { IfOk result (λ found. found ≡ vertex_of now (key.now, kept.now)) }
{
    if !is_current(now, key, kept) {
        return Ok(None);
    }
    match router_links(alloc, kept.lsa.body.as_slice())? {
        Some(links) => Ok(Some(Vertex { id: key.id, links })),
        None => Ok(None),
    }
}

/// The vertex of the LSA at a key, if there is one.
fn vertex_at(alloc: Global, db: &Lsdb, now: u32, key: &LsaKey) -> Result<Option<Vertex>, AllocError>
    ensures { IfOk result (λ found. found ≡
        option_and_then (λ k. vertex_of now (key.now, k)) (kept_at db.now key.now)) }
{
    match db.get(key) {
        Some(kept) => vertex_of(alloc, now, key, kept),
        None => Ok(None),
    }
}

/// The vertices of the database at this tick, in the order of their ids.
pub fn vertices(alloc: Global, db: &Lsdb, now: u32) -> Result<Vec<Vertex>, AllocError>
    ensures graph { IfOk result (λ vertices. vertices.items ≡ graph_of now db.now) }
    ensures order { IfOk result (λ vertices. AreInOrder vertices.items) }
    ensures size { IfOk result (λ vertices. length vertices.items ≤ length db.now) }
{
    let keys = db.keys()?;
    let mut vertices = Vec::new(alloc);
    for key in &keys {
        if let Some(vertex) = vertex_at(alloc, db, now, key)? {
            vertices.push(vertex)?;
        }
    }
    Ok(vertices)
}
