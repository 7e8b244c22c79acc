//! The nodes before the first event.

ghost use Rattle.std.specs.Prelude.{◌≡◌, ◌≤◌, length, IfOk};
ghost use Rattle.dn_lockstep.specs.Openings.{opening_from};

use dn_guest::{Guest, NoMemory, Node};
use dn_model::{Header, opening};
use std::alloc::Global;

#[tactic(auto, unfolding(crate::specs::Openings::opening_from))]
/// A node for each guest, the first at router 0.
pub fn opening_nodes<G: Guest>(
    alloc: Global,
    header: &Header,
    guests: Vec<G>,
) -> Result<Vec<Node<G>>, NoMemory>
    requires one_each { length guests.items ≡ length header.now.routers }
    requires few { length header.now.routers ≤ 64 }
    ensures { IfOk result (λ made. made.items ≡ opening_from header.now.links 0 guests.items) }
{
    let mut made = Vec::new(alloc);
    let mut router: u16 = 0;
    for guest in guests {
        made.push(opening(alloc, header, router, guest)?)?;
        router += 1;
    }
    Ok(made)
}
