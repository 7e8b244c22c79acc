//! What stub links offer (RFC 2328 section 16.1, second stage): each of a vertex that is reached offers a
//! route to its network.

ghost use Rattle.std.specs.Prelude.{◌≡◌, ℕ, ◌+◌, ◌-◌, ◌*◌, ◌^◌, ◌<◌, ◌≤◌, ◌≢◌, length, bit_and, IfOk, OnOk, MatchOption};
ghost use Rattle.ospf_spf.specs.declared.route.Route.{Route};
ghost use Rattle.dn_net.specs.Networks.{mask_of};
ghost use Rattle.ospf_spf.specs.Search.{label};
ghost use Rattle.ospf_spf.specs.Offers.{IsOffer, AreOffers, AreOffered};

use crate::graph::Vertex;
use crate::route::Route;
use dn_net::mask_len;
use ospf_wire::{RouterLink, STUB_NETWORK};
use std::alloc::{AllocError, Global};

/// The length of a contiguous mask.
fn length_of(mask: u32) -> Option<u8>
    ensures { MatchOption result ((n : ℕ) → n ≤ 32 → mask ≢ mask_of n) (λ n. (n ≤ 32) × (mask ≡ mask_of n)) }
{
    mask_len(mask)
}

/// The offer of a link, if it is a stub link (RFC 2328 section 16.1, second stage, steps (1) and (2)).
fn offer_of(link: &RouterLink, cost: u32, own: bool, via: u16) -> Option<Route>
    requires { cost + 65535 < 2 ^ 32 }
    ensures { MatchOption result ((r : Route) → IsOffer cost own via link.now r →
        ⊥) (λ r. IsOffer cost own via link.now r) }
{
    if link.kind != STUB_NETWORK {
        return None;
    }
    // This profile: a mask with a gap gives nothing.
    let len = length_of(link.data)?;
    Some(Route {
        prefix: link.id & link.data,
        len,
        cost: cost + u32::from(link.metric),
        own,
        via,
    })
}

/// Adds the offers of a vertex.
fn offer_all(
    links: &[RouterLink],
    cost: u32,
    own: bool,
    via: u16,
    offers: &mut Vec<Route>,
) -> Result<(), AllocError>
    requires { cost + 65535 < 2 ^ 32 }
    ensures { OnOk result (AreOffers cost own via links.now offers.old.items offers.new.items) }
{
    for link in links {
        if let Some(offer) = offer_of(link, cost, own, via) {
            offers.push(offer)?;
        }
    }
    Ok(())
}

/// The offers of all vertices that are reached.
pub fn offers(
    alloc: Global,
    graph: &[Vertex],
    root: usize,
    best: &[Option<u32>],
    masks: &[u16],
) -> Result<Vec<Route>, AllocError>
    requires best { length best.now ≡ length graph.now }
    requires masks { length masks.now ≡ length graph.now }
    requires small { (v c : ℕ) → label best.now v ≡ Some c → c + 65535 < 2 ^ 32 }
    ensures { IfOk result (λ offers. AreOffered graph.now root (label best.now) masks.now
        (length graph.now) offers.items) }
{
    let mut offers = Vec::new(alloc);
    for (i, vertex) in graph.iter().enumerate() {
        if let Some(cost) = best[i] {
            offer_all(
                vertex.links.as_slice(),
                cost,
                i == root,
                masks[i],
                &mut offers,
            )?;
        }
    }
    Ok(offers)
}
