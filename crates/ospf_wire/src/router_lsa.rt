//! The body of a router-LSA (RFC 2328 section 12.4.1 and appendix A.4.2): flags, a zero byte, the number
//! of links, and the links. Each link has its id, its data, its type, the number of its TOS metrics, its
//! metric, and 4 bytes for each TOS metric. Flags, zero byte, types and TOS metrics are not looked at.

ghost use Rattle.std.specs.Prelude.{◌≡◌, ◌↔◌, ◌+◌, ◌*◌, ◌≤◌, ◌∷◌, ◌++◌, All, List, Some, IsTrue, IfOk, IfSome, IfNone, MatchOption, OnOk, length};
ghost use Rattle.ospf_wire.specs.declared.router_lsa.RouterLink.{RouterLink};
ghost use Rattle.ospf_wire.specs.Fields.{number};
ghost use Rattle.ospf_wire.specs.RouterLsas.{link_of, link_len, link_bytes, links_bytes, router_body_bytes, FitsLink, IsRouterBody};
ghost use Rattle.ospf_wire.specs.Reading.{are_links, is_well_formed, link_at, links_at, router_links_at};

use crate::RouterLinks;
use crate::fields::{bytes_from, u8_at, u16_at, u32_at};
use byteorder::{BigEndian, ByteOrder};
use dn_guest::Bytes;
use std::alloc::{AllocError, Global};

/// A link of a router-LSA, without its TOS metrics.
#[derive(Clone, Copy, Debug, PartialEq, Eq)]
pub struct RouterLink {
    /// What the link leads to: at type 1 the neighbour's router id, at type 3 a network's address.
    pub id: u32,
    /// At type 1 what names the interface, at type 3 the network's mask.
    pub data: u32,
    /// The type: 1 point-to-point, 2 transit, 3 stub, 4 virtual. Another byte is kept as it came.
    pub kind: u8,
    pub metric: u16,
}

/// How many bytes the link at the front takes, if it is whole.
fn link_len(bytes: &[u8]) -> Option<usize>
    ensures { MatchOption result (length bytes.now + 1 ≤ link_len bytes.now) (λ n. (n
        ≡ link_len bytes.now) × (n ≤ length bytes.now) × (12 ≤ n)) }
{
    if bytes.len() < 12 {
        return None;
    }
    let len = 12 + 4 * usize::from(u8_at(bytes, 9));
    if bytes.len() < len {
        return None;
    }
    Some(len)
}

/// The link at the front.
#[tactic(auto, unfolding(crate::specs::RouterLsas::link_of))]
fn read_link(bytes: &[u8]) -> RouterLink
    requires { 12 ≤ length bytes.now }
    ensures { result ≡ link_of bytes.now }
{
    RouterLink {
        id: u32_at(bytes, 0),
        data: u32_at(bytes, 4),
        kind: u8_at(bytes, 8),
        metric: u16_at(bytes, 10),
    }
}

/// The links that fill these bytes, if there are just so many.
fn read_links(alloc: Global, count: u16, bytes: &[u8]) -> Result<Option<RouterLinks>, AllocError>
    ensures { IfOk result (λ found. found ≡ links_at count bytes.now) }
{
    let mut links = Vec::new(alloc);
    let mut rest = bytes;
    for place in 0..count {
        let Some(len) = link_len(rest) else {
            return Ok(None);
        };
        links.push(read_link(rest))?;
        rest = bytes_from(rest, len);
    }
    if !rest.is_empty() {
        return Ok(None);
    }
    Ok(Some(RouterLinks::from_vec(links)))
}

/// The links of the body, if they fill it.
#[tactic(auto, unfolding(crate::specs::Reading::router_links_at))]
fn read_body(alloc: Global, body: &[u8]) -> Result<Option<RouterLinks>, AllocError>
    ensures { IfOk result (λ found. found ≡ router_links_at body.now) }
{
    if body.len() < 4 {
        return Ok(None);
    }
    read_links(alloc, u16_at(body, 2), bytes_from(body, 4))
}

/// The links of the router-LSA with this body, in their order. `None` comes exactly where its links don't
/// fill it. It takes memory for the links that are there, and none for a number that is only claimed.
pub fn router_links(alloc: Global, body: &[u8]) -> Result<Option<RouterLinks>, AllocError>
    ensures exact { IfOk result (λ found. found ≡ router_links_at body.now) }
    ensures found { IfOk result (λ found. IfSome found (λ ls. IsRouterBody body.now ls)) }
    ensures none { IfOk result (λ found. IfNone found ((ls : List RouterLink) → ¬ IsRouterBody body.now ls)) }
{
    read_body(alloc, body)
}

/// Whether just so many links fill these bytes.
fn are_links(count: u16, bytes: &[u8]) -> bool
    ensures { result ≡ are_links count bytes.now }
{
    let mut rest = bytes;
    for place in 0..count {
        let Some(len) = link_len(rest) else {
            return false;
        };
        rest = bytes_from(rest, len);
    }
    rest.is_empty()
}

/// Whether the links of the body fill it.
#[tactic(auto, unfolding(crate::specs::Reading::router_links_at))]
fn has_links(body: &[u8]) -> bool
    ensures { result ≡ is_well_formed body.now }
{
    if body.len() < 4 {
        return false;
    }
    are_links(u16_at(body, 2), bytes_from(body, 4))
}

/// Whether the body is one of a router-LSA: its links fill it exactly. It takes no memory.
pub fn is_well_formed(body: &[u8]) -> bool
    ensures test { result ≡ is_well_formed body.now }
    ensures meaning { IsTrue result ↔ ((ls : List RouterLink) × IsRouterBody body.now ls) }
{
    has_links(body)
}

/// The 12 bytes of a link without TOS metrics.
#[tactic(auto, unfolding(crate::specs::RouterLsas::link_bytes, crate::specs::Fields::number))]
fn link_bytes(link: RouterLink) -> [u8; 12]
    ensures bytes { result ≡ link_bytes link }
    ensures fits { FitsLink link }
{
    let mut bytes = [0; 12];
    BigEndian::write_u32(&mut bytes, link.id);
    BigEndian::write_u32(&mut bytes[4..], link.data);
    bytes[8] = link.kind;
    BigEndian::write_u16(&mut bytes[10..], link.metric);
    bytes
}

/// Appends links.
fn push_links(links: &[RouterLink], out: &mut Vec<u8>) -> Result<(), AllocError>
    ensures bytes { OnOk result (out.new.items ≡ out.old.items ++ links_bytes links.now) }
    ensures fits { OnOk result (All FitsLink links.now) }
{
    for link in links {
        out.extend_from_slice(&link_bytes(*link))?;
    }
    Ok(())
}

/// The flags, the zero byte and the number of links.
#[tactic(auto, unfolding(crate::specs::Fields::number))]
fn links_head(count: u16) -> [u8; 4]
    ensures { result ≡ 0 ∷ 0 ∷ number 2 count }
{
    let mut bytes = [0; 4];
    BigEndian::write_u16(&mut bytes[2..], count);
    bytes
}

/// The body of a router-LSA with these links, in their order: flags 0, no TOS metrics, 4 bytes and 12 for
/// each link.
pub fn router_body(alloc: Global, links: &[RouterLink]) -> Result<Bytes, AllocError>
    requires { length links.now ≤ 65535 }
    ensures bytes { IfOk result (λ body. body ≡ router_body_bytes links.now) }
    ensures len { IfOk result (λ body. length body ≡ 4 + 12 * length links.now) }
    ensures back { IfOk result (λ body. IsRouterBody body links.now) }
    ensures read { IfOk result (λ body. router_links_at body ≡ Some links.now) }
{
    let mut bytes = Vec::new(alloc);
    bytes.extend_from_slice(&links_head(links.len() as u16))?;
    push_links(links, &mut bytes)?;
    Ok(Bytes::from_vec(bytes))
}
