//! The ports by which ways of least cost begin (RFC 2328 section 16.1.1), as masks with bit q for port q.
//! Metrics are above 0, so the last hop of a way of least cost comes from a vertex of less cost: gone over
//! in the order of their costs, a vertex's mask is whole when its turn comes.

ghost use Rattle.std.specs.Prelude.{◌≡◌, ℕ, ◌+◌, ◌*◌, ◌^◌, ◌<◌, ◌≤◌, ◌↔◌, length, slice_set, slice_index, bit_or, Bool, IfOk, OnOk};
ghost use Rattle.std.specs.List.{All};
ghost use Rattle.std.specs.Int.{bit_at};
ghost use Rattle.ospf_spf.specs.Search.{label, AreHops, IsLeast};
ghost use Rattle.ospf_spf.specs.Ports.{Carries, ArePassedOn, AreVia};

use crate::graph::Hop;
use crate::search::Found;
use std::alloc::{AllocError, Global};

/// The bit of a port, by the data of a link to it; none for other data.
fn port_bit(port: u32) -> u16
    ensures { (q : ℕ) → q < 16 → (bit_at result q ≡ 1) ↔ (port ≡ q + 1) }
{
    if port >= 1 && port <= 16 {
        1 << (port - 1)
    } else {
        0
    }
}

/// The ports of the ways that go on by a hop: at the root its own port, else those of the vertex.
fn carried(at_root: bool, ports: u16, port: u32) -> u16
    ensures { (q : ℕ) → q < 16 → (bit_at result q ≡ 1) ↔ Carries at_root ports port q }
{
    // RFC 2328 section 16.1.1: the root's own interface, else the next hops of the vertex.
    if at_root { port_bit(port) } else { ports }
}

/// Adds the ports of a vertex at a cost to each vertex that its hops reach at least cost (RFC 2328 section
/// 16.1.1).
fn pass_ports_on(
    row: &[Hop],
    cost: u32,
    at_root: bool,
    ports: u16,
    best: &[Option<u32>],
    masks: &mut [u16],
)
    requires cost { cost + 65535 < 2 ^ 32 }
    requires row { All (λ h. h.to < length masks.old) row.now }
    requires best { length best.now ≡ length masks.old }
    ensures { ArePassedOn row.now cost at_root ports (label best.now) masks.old masks.new }
{
    for hop in row {
        if let Some(least) = best[hop.to] {
            if least == cost + u32::from(hop.metric) {
                masks[hop.to] |= carried(at_root, ports, hop.port);
            }
        }
    }
}

/// The ports by which the ways of least cost to each vertex begin.
pub fn first_ports(
    alloc: Global,
    hops: &[Vec<Hop>],
    root: usize,
    found: &Found,
) -> Result<Vec<u16>, AllocError>
    requires size { length hops.now ≤ 65535 }
    requires hops { AreHops hops.now (length hops.now) }
    requires len { length found.now.best.items ≡ length hops.now }
    requires least { IsLeast hops.now root (label found.now.best.items) found.now.order.items (length hops.now) }
    ensures len { IfOk result (λ masks. length masks.items ≡ length hops.now) }
    ensures via { IfOk result (λ masks. AreVia hops.now root (label found.now.best.items) masks.items) }
{
    let mut masks = vec![in alloc; 0; hops.len()]?;
    for vertex in &found.order {
        let vertex = *vertex;
        if let Some(cost) = found.best[vertex] {
            let ports = masks[vertex];
            pass_ports_on(
                &hops[vertex],
                cost,
                vertex == root,
                ports,
                &found.best,
                &mut masks,
            );
        }
    }
    Ok(masks)
}
