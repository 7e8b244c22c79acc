//! The links that lead from one vertex to another that links back (RFC 2328 section 16.1, step 2b), by the
//! places of the vertices in the graph in place of their ids.

ghost use Rattle.std.specs.Prelude.{◌≡◌, ℕ, ◌+◌, ◌*◌, ◌^◌, ◌<◌, ◌≤◌, ◌≢◌, ◌↔◌, length, slice_index, IfOk, OnOk, MatchOption, IsTrue};
ghost use Rattle.std.specs.List.{All};
ghost use Rattle.ospf_spf.specs.declared.graph.Hop.{Hop};
ghost use Rattle.ospf_spf.specs.declared.graph.Vertex.{Vertex};
ghost use Rattle.ospf_spf.specs.Graph.{AreInOrder};
ghost use Rattle.ospf_spf.specs.Walks.{LeadsTo};
ghost use Rattle.ospf_spf.specs.Hops.{ids_of, AreRising, IsMarked, AreWays, IsHopOf, AreRow, AreHopsOf};

use crate::graph::{Hop, Vertex};
use ospf_wire::{POINT_TO_POINT, RouterLink};
use std::alloc::{AllocError, Global};
use std::collections::BTreeSet;

/// Whether a link can be used to get to its other end.
fn leads(link: &RouterLink) -> bool
    ensures { IsTrue result ↔ LeadsTo link.now link.now.id }
{
    // RFC 2328 section 16.1, step (2). This profile: point-to-point links alone, and a metric of 0 is no link.
    link.kind == POINT_TO_POINT && link.metric > 0
}

/// The place of an id.
pub(crate) fn position(ids: &[u32], id: u32) -> Option<usize>
    requires { AreRising ids.now }
    ensures { MatchOption result ((i : ℕ) → i < length ids.now →
        slice_index ids.now i ≢ id) (λ i. (i < length ids.now) × (slice_index ids.now i ≡ id)) }
{
    ids.binary_search(&id).ok()
}

/// The ids, place by place.
pub(crate) fn ids(alloc: Global, graph: &[Vertex]) -> Result<Vec<u32>, AllocError>
    ensures { IfOk result (λ ids. ids.items ≡ ids_of graph.now) }
{
    let mut ids = Vec::new(alloc);
    for vertex in graph {
        ids.push(vertex.id)?;
    }
    Ok(ids)
}

/// Notes where the links of a router lead, as pairs of router ids.
fn mark(from: u32, links: &[RouterLink], ways: &mut BTreeSet<(u32, u32)>) -> Result<(), AllocError>
    ensures { OnOk result (IsMarked from links.now ways.old ways.new) }
{
    for link in links {
        if leads(link) {
            ways.insert((from, link.id))?;
        }
    }
    Ok(())
}

/// Notes where the links of all routers lead.
fn ways(alloc: Global, graph: &[Vertex]) -> Result<BTreeSet<(u32, u32)>, AllocError>
    ensures { IfOk result (λ ways. AreWays graph.now ways) }
{
    let mut ways = BTreeSet::new(alloc);
    for vertex in graph {
        mark(vertex.id, vertex.links.as_slice(), &mut ways)?;
    }
    Ok(ways)
}

/// A hop to a place. (The metric is passed by value, so its bound is known.)
fn hop_to(to: usize, port: u32, metric: u16) -> Hop
    ensures hop { result ≡ record { to = to; port = port; metric = metric } }
    ensures small { metric ≤ 65535 }
{
    Hop { to, port, metric }
}

/// The hop of a link, if it leads to a vertex that links back.
fn hop_of(from: u32, link: &RouterLink, ids: &[u32], ways: &BTreeSet<(u32, u32)>) -> Option<Hop>
    requires { AreRising ids.now }
    ensures { MatchOption result ((h : Hop) → IsHopOf from ids.now ways.now h link.now →
        ⊥) (λ h. IsHopOf from ids.now ways.now h link.now × (h.metric ≤ 65535)) }
{
    // RFC 2328 section 16.1, step (2)(b): the other end must link back.
    if !leads(link) || !ways.contains(&(link.id, from)) {
        return None;
    }
    let to = position(ids, link.id)?;
    Some(hop_to(to, link.data, link.metric))
}

/// The hops of a router.
fn hops_from(
    alloc: Global,
    from: u32,
    links: &[RouterLink],
    ids: &[u32],
    ways: &BTreeSet<(u32, u32)>,
) -> Result<Vec<Hop>, AllocError>
    requires { AreRising ids.now }
    ensures row { IfOk result (λ hops. AreRow from ids.now ways.now links.now hops.items) }
    ensures small { IfOk result (λ hops. All (λ h. h.metric ≤ 65535) hops.items) }
{
    let mut hops = Vec::new(alloc);
    for link in links {
        if let Some(hop) = hop_of(from, link, ids, ways) {
            hops.push(hop)?;
        }
    }
    Ok(hops)
}

/// The hops of each router, place by place.
pub fn hops_of(alloc: Global, graph: &[Vertex]) -> Result<Vec<Vec<Hop>>, AllocError>
    requires { AreInOrder graph.now }
    ensures { IfOk result (λ hops. AreHopsOf graph.now hops.items) }
{
    let ids = ids(alloc, graph)?;
    let ways = ways(alloc, graph)?;
    let mut rows = Vec::new(alloc);
    for vertex in graph {
        let row = hops_from(alloc, vertex.id, vertex.links.as_slice(), &ids, &ways)?;
        rows.push(row)?;
    }
    Ok(rows)
}
