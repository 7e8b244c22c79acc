//! How a run begins, and how long its trace may be.

ghost use Rattle.std.specs.Prelude.{◌≡◌, ◌<◌, ◌≤◌, ◌-◌, ◌^◌, length, IfOk};
ghost use Rattle.dn_model.specs.Links.{ports_of};
ghost use Rattle.dn_model.specs.Settled.{row_limit};

use crate::Header;
use crate::emission::ends;
use dn_guest::{Guest, NoMemory, Node};
use std::alloc::Global;

/// The node before the first event: every port of the router is up, and nothing was sent.
pub fn opening<G: Guest>(
    alloc: Global,
    header: &Header,
    router: u16,
    guest: G,
) -> Result<Node<G>, NoMemory>
    requires { router < length header.now.routers }
    ensures { IfOk result (λ made. made ≡ record {
      guest = guest;
      ports = 2 ^ ports_of header.now.links router - 1;
      sends = 0;
    }) }
{
    let count = ends(alloc, header, router)?.len();
    Ok(Node {
        guest,
        ports: all_up(count),
        sends: 0,
    })
}

/// The mask of so many ports, all of them up.
fn all_up(count: usize) -> u16
    requires { count ≤ 16 }
    ensures { result ≡ 2 ^ count - 1 }
{
    ((1u32 << count) - 1) as u16
}

/// The greatest number of rows that a trace shows. A run with more is cut there.
#[tactic(auto, unfolding(crate::specs::Settled::row_limit))]
pub fn row_limit(_header: &Header) -> u64
    ensures { result ≡ row_limit }
{
    200_000
}
