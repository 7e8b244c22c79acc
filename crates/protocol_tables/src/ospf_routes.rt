//! The routes of OSPF (RFC 2328 section 16.1): `router` and `lsa` install LSAs, `routes` tells the routes.

use crate::lsas::lsa_of;
use crate::named::{address, number, short};
use dn_guest::NoMemory;
use dn_text::first_part;
use ospf_lsdb::Lsdb;
use ospf_spf::Route;
use ospf_wire::{INITIAL_SEQUENCE_NUMBER, Lsa, LsaBody, LsaHeader, RouterLink, router_body};
use std::alloc::Global;
use table_program::{Fields, Out};

/// `router`: installs the router-LSA of a router at tick 0. Behind commas stand its links: `to` a router,
/// with the link data and the metric, and `stub` to a network, with the mask and the metric. Whether the line could
/// be read.
pub(crate) fn router(alloc: Global, database: &mut Lsdb, line: &[u8]) -> Result<bool, NoMemory> {
    let (front, rest) = first_part(b',', line);
    let mut fields = Fields::new(alloc, front)?;
    let links = links_of(alloc, rest, &mut fields)?;
    install_router(alloc, database, links.as_slice(), &mut fields)?;
    Ok(fields.is_read())
}

/// Installs the router-LSA with these links.
fn install_router(
    alloc: Global,
    database: &mut Lsdb,
    links: &[RouterLink],
    fields: &mut Fields<'_>,
) -> Result<(), NoMemory> {
    let id = number(fields, b"router", 0);
    let age = short(fields, b"age", 0);
    if links.len() > 100 {
        fields.refuse();
        return Ok(());
    }
    let head = LsaHeader {
        age,
        options: 2,
        kind: 1,
        id,
        router: id,
        seq: INITIAL_SEQUENCE_NUMBER,
        sum: 0,
        length: (24 + 12 * links.len()) as u16,
    };
    let body = LsaBody::new(router_body(alloc, links)?)?;
    database.install(Lsa { head, body }, 0, true, false)
}

/// The links behind commas; where one can't be read that is noted.
fn links_of(
    alloc: Global,
    rest: Option<&[u8]>,
    fields: &mut Fields<'_>,
) -> Result<Vec<RouterLink>, NoMemory> {
    let mut links = Vec::new(alloc);
    let Some(rest) = rest else {
        return Ok(links);
    };
    for part in rest.split(|byte| *byte == b',') {
        let mut of_link = Fields::new(alloc, part)?;
        links.push(link_of(&mut of_link))?;
        if !of_link.is_read() {
            fields.refuse();
        }
    }
    Ok(links)
}

/// The link that the words between two commas describe, before which a space stands.
fn link_of(fields: &mut Fields<'_>) -> RouterLink {
    let _space = fields.takes(b"");
    let metric = short(fields, b"metric", 0);
    if fields.takes(b"to") {
        RouterLink {
            id: fields.long(),
            data: number(fields, b"data", 0),
            kind: 1,
            metric,
        }
    } else {
        RouterLink {
            id: address(fields, b"stub", 0),
            data: address(fields, b"mask", 0),
            kind: 3,
            metric,
        }
    }
}

/// `lsa`: installs the LSA at tick 0.
pub(crate) fn lsa(
    alloc: Global,
    database: &mut Lsdb,
    fields: &mut Fields<'_>,
) -> Result<(), NoMemory> {
    database.install(lsa_of(alloc, fields)?, 0, true, false)
}

/// `routes`: the routes of a router at the tick `now`.
pub(crate) fn routes(
    alloc: Global,
    database: &Lsdb,
    fields: &mut Fields<'_>,
    out: &mut Out,
) -> Result<(), NoMemory> {
    let root = fields.long();
    let now = number(fields, b"now", 0);
    if database.len() > 65_535 {
        fields.refuse();
        return Ok(());
    }
    let found = ospf_spf::routes(alloc, database, root, now)?;
    out.flag(found.is_empty(), "-> none\n");
    for route in found.as_slice() {
        push_route(*route, out);
    }
    Ok(())
}

/// Appends a route, with the ports by which its ways begin.
fn push_route(route: Route, out: &mut Out) {
    out.address("-> ", route.prefix);
    out.number("/", u64::from(route.len));
    out.number(" cost ", u64::from(route.cost));
    out.flag(route.own, " own");
    for port in 0..16u16 {
        if route.via & (1 << port) != 0 {
            out.number(" port ", u64::from(port));
        }
    }
    out.text("\n");
}
