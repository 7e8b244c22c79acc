//! Least costs (RFC 2328 section 16.1, steps 2d and 3): the nearest of the vertices that wait is settled,
//! and the vertices that its hops lead to wait at no more than its cost and the hop's. What waits is an
//! ordered set of costs and places. Each vertex is settled once, at a cost of at most 65,535 for each vertex
//! settled before it, so no cost passes 32 bits.

ghost use Rattle.std.specs.Prelude.{◌≡◌, ℕ, ◌+◌, ◌*◌, ◌^◌, ◌<◌, ◌≤◌, length, slice_set, slice_index_or, true, IfOk, OnOk};
ghost use Rattle.std.specs.List.{All};
ghost use Rattle.ospf_spf.specs.Search.{label, flag, lesser_cost, IsExact, inside, Relaxed, AreSettled, AreHops, IsLeast};

use crate::graph::Hop;
use std::alloc::{AllocError, Global};
use std::collections::BTreeSet;

/// Gives a vertex a cost, if it had none or a greater one (RFC 2328 section 16.1, step (2)(d)).
fn lower_cost(
    to: usize,
    new: u32,
    best: &mut [Option<u32>],
    done: &[bool],
    todo: &mut BTreeSet<(u32, usize)>,
) -> Result<(), AllocError>
    requires within { to < length best.old }
    requires exact { IsExact (label best.old) (flag done.now) (inside todo.old) }
    requires settled { flag done.now to ≡ true → (c : ℕ) × (label best.old to ≡ Some c) × (c ≤ new) }
    ensures best { OnOk result (best.new ≡ slice_set best.old to (Some (lesser_cost (label best.old to) new))) }
    ensures exact { OnOk result (IsExact (label best.new) (flag done.now) (inside todo.new)) }
{
    match best[to] {
        // RFC 2328 section 16.1, step (2)(d): it is on the candidate list; a smaller cost is kept.
        Some(old) => {
            if new < old {
                todo.remove(&(old, to));
                todo.insert((new, to))?;
                best[to] = Some(new);
            }
        }
        // Section 16.1, step (2)(d): it is not, and is added.
        None => {
            todo.insert((new, to))?;
            best[to] = Some(new);
        }
    }
    Ok(())
}

/// Lowers the costs of the vertices that the hops of a vertex lead to (RFC 2328 section 16.1, step (2)).
fn relax(
    row: &[Hop],
    cost: u32,
    best: &mut [Option<u32>],
    done: &[bool],
    todo: &mut BTreeSet<(u32, usize)>,
) -> Result<(), AllocError>
    requires cost { cost + 65535 < 2 ^ 32 }
    requires row { All (λ h. h.to < length best.old) row.now }
    requires exact { IsExact (label best.old) (flag done.now) (inside todo.old) }
    requires settled { AreSettled (label best.old) (flag done.now) cost }
    ensures relaxed { OnOk result (Relaxed row.now cost (label best.old) (label best.new)) }
    ensures exact { OnOk result (IsExact (label best.new) (flag done.now) (inside todo.new)) }
{
    for hop in row {
        lower_cost(hop.to, cost + u32::from(hop.metric), best, done, todo)?;
    }
    Ok(())
}

/// What the search finds: the least cost of each vertex, where it is reached, and the places of those
/// vertices in the order of their costs.
#[derive(Drop)]
pub struct Found {
    pub best: Vec<Option<u32>>,
    pub order: Vec<usize>,
}

/// Finds the least costs from the root, a place (RFC 2328 section 16.1, steps (1) to (3)).
pub fn least_costs(alloc: Global, hops: &[Vec<Hop>], root: usize) -> Result<Found, AllocError>
    requires size { length hops.now ≤ 65535 }
    requires root { root < length hops.now }
    requires hops { AreHops hops.now (length hops.now) }
    ensures len { IfOk result (λ found. length found.best.items ≡ length hops.now) }
    ensures least { IfOk result (λ found. IsLeast hops.now root (label found.best.items) found.order.items
        (length hops.now)) }
{
    let mut best = vec![in alloc; None; hops.len()]?;
    let mut done = vec![in alloc; false; hops.len()]?;
    let mut order = Vec::new(alloc);
    let mut todo = BTreeSet::new(alloc);
    todo.insert((0, root))?;
    best[root] = Some(0);
    // RFC 2328 section 16.1, step (3): the nearest candidate joins the tree.
    while let Some((cost, vertex)) = todo.pop_first() {
        done[vertex] = true;
        order.push(vertex)?;
        relax(&hops[vertex], cost, &mut best, &done, &mut todo)?;
    }
    Ok(Found { best, order })
}
