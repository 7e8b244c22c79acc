//! The routing table of a router (RFC 2328 section 16.1).

ghost use Rattle.std.specs.Prelude.{◌≡◌, ℕ, ◌+◌, ◌^◌, ◌<◌, ◌≤◌, All, length, IfOk, slice_index};
ghost use Rattle.ospf_spf.specs.declared.graph.Vertex.{Vertex};
ghost use Rattle.ospf_spf.specs.Graph.{AreInOrder, graph_of};
ghost use Rattle.ospf_spf.specs.Routes.{AreRoutes};
ghost use Rattle.ospf_spf.specs.Table.{IsWide, table_of};
ghost use Rattle.ospf_spf.specs.Hops.{ids_of};

use crate::gather::gather;
use crate::graph::Vertex;
use crate::hops::{hops_of, ids, position};
use crate::offers::offers;
use crate::ports::first_ports;
use crate::route::Route;
use crate::search::least_costs;
use crate::vertices::vertices;
use ospf_lsdb::Lsdb;
use std::alloc::{AllocError, Global};

/// The routes of the router at a place.
fn routes_from(alloc: Global, graph: &[Vertex], root: usize) -> Result<Vec<Route>, AllocError>
    requires order { AreInOrder graph.now }
    requires size { length graph.now ≤ 65535 }
    requires root { root < length graph.now }
    ensures { IfOk result (λ routes. AreRoutes graph.now (slice_index (ids_of graph.now) root) routes.items) }
{
    let hops = hops_of(alloc, graph)?;
    let found = least_costs(alloc, &hops, root)?;
    let masks = first_ports(alloc, &hops, root, &found)?;
    let offered = offers(alloc, graph, root, &found.best, &masks)?;
    gather(alloc, &offered)
}

/// The routes of the router `root` over these vertices.
fn routes_over(alloc: Global, graph: &[Vertex], root: u32) -> Result<Vec<Route>, AllocError>
    requires order { AreInOrder graph.now }
    requires size { length graph.now ≤ 65535 }
    ensures { IfOk result (λ routes. AreRoutes graph.now root routes.items) }
{
    let ids = ids(alloc, graph)?;
    let Some(place) = position(&ids, root) else {
        return Ok(Vec::new(alloc));
    };
    routes_from(alloc, graph, place)
}

/// The fields of a route have the width of their types.
fn see_width(route: Route)
    ensures { IsWide (2 ^ 32) (2 ^ 32) route }
{}

/// The same of each of these; nothing is done.
fn see_widths(routes: &[Route])
    ensures { All (IsWide (2 ^ 32) (2 ^ 32)) routes.now }
{
    for route in routes {
        see_width(*route);
    }
}

/// The routing table of the router `root` at the tick `now`: each network that some way leads to, with
/// the least cost, whether it is the root's own at that cost, and all ports by which a way of that cost
/// begins, in ascending order of prefix and length. Where the root's own LSA is missing, too old or not
/// well formed there is no route (RFC 2328 section 16.1).
pub fn routes(alloc: Global, db: &Lsdb, root: u32, now: u32) -> Result<Vec<Route>, AllocError>
    requires { length db.now ≤ 65535 }
    ensures routes { IfOk result (λ routes. AreRoutes (graph_of now db.now) root routes.items) }
    ensures table { IfOk result (λ routes. routes.items ≡ table_of (graph_of now db.now) root) }
{
    let graph = vertices(alloc, db, now)?;
    let table = routes_over(alloc, &graph, root)?;
    see_widths(&table);
    Ok(table)
}
