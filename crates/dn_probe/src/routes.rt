//! The routes that a show tells.

ghost use Rattle.std.specs.Prelude.{◌≡◌, ◌++◌, IfOk, OnOk, codes};
ghost use Rattle.std.specs.Option.{option_map, option_copied, option_to_list};
ghost use Rattle.dn_text.specs.Lines.{parts};
ghost use Rattle.dn_probe.specs.Routes.{is_word, lesser, least_port, port_of, is_route, route_of, told, route_of_line, routes, leads_to, route_to, has_route, loses};

use dn_guest::{Bytes, NoMemory};
use dn_text::{decimal, first_part};
use std::alloc::Global;

/// A route as a show tells it: a line `route PREFIX COST via WHERE`.
#[derive(Drop)]
pub struct Route {
    /// The text PREFIX.
    pub prefix: Bytes,
    /// The least port of WHERE; None where WHERE begins with `own`, or has no port.
    pub port: Option<u64>,
}

/// A route that a line tells.
#[derive(Clone, Copy)]
struct RouteLine<'a> {
    prefix: &'a [u8],
    port: Option<u64>,
}

fn is_word(text: &[u8], word: &[u8]) -> bool
    ensures { result ≡ is_word text.now word.now }
{
    text == word
}

fn lesser(a: Option<u64>, b: Option<u64>) -> Option<u64>
    ensures { result ≡ lesser a b }
{
    match (a, b) {
        (None, b) => b,
        (Some(a), None) => Some(a),
        (Some(a), Some(b)) => Some(if b < a { b } else { a }),
    }
}

/// The least of the words that are ports.
#[tactic(auto, using(crate::proofs::Ports::lesser_moves, crate::proofs::Ports::lesser_none), unfolding(crate::specs::Routes::least_port))]
fn least_port(text: &[u8]) -> Option<u64>
    ensures { result ≡ least_port (parts 32 text.now) }
{
    let mut least = None;
    let mut left = Some(text);
    'words: while let Some(text) = left {
        let (word, rest) = first_part(b' ', text);
        least = lesser(least, decimal(word));
        left = rest;
    }
    least
}

/// The port by which a route goes on, by its WHERE.
fn port_of(text: &[u8]) -> Option<u64>
    ensures { result ≡ port_of (parts 32 text.now) }
{
    let (word, _) = first_part(b' ', text);
    if is_word(word, b"own") {
        None
    } else {
        least_port(text)
    }
}

/// Whether a line that begins with these words, and then WHERE, tells a route.
fn is_route(rip: bool, first: &[u8], cost: &[u8], via: &[u8]) -> bool
    ensures { result ≡ is_route rip first.now cost.now via.now }
{
    is_word(first, b"route") && is_word(via, b"via") && !(rip && is_word(cost, b"16"))
}

/// The route that a line tells.
fn route_of_line(rip: bool, line: &[u8]) -> Option<RouteLine<'_>>
    ensures { option_map told result ≡ route_of_line rip line.now }
{
    let (first, rest) = first_part(b' ', line);
    let (prefix, rest) = first_part(b' ', rest?);
    let (cost, rest) = first_part(b' ', rest?);
    let (via, rest) = first_part(b' ', rest?);
    let ways = rest?;
    if is_route(rip, first, cost, via) {
        let port = port_of(ways);
        Some(RouteLine { prefix, port })
    } else {
        None
    }
}

/// The routes that a show tells, in order. A router that runs RIP has no route of metric 16.
#[tactic(auto, unfolding(crate::specs::Routes::routes))]
pub(crate) fn read_routes(alloc: Global, rip: bool, show: &[u8]) -> Result<Vec<Route>, NoMemory>
    ensures { IfOk result (λ made. made.items ≡ routes rip show.now) }
{
    let mut made = Vec::new(alloc);
    let mut left = Some(show);
    'lines: while let Some(text) = left {
        let (line, rest) = first_part(b'\n', text);
        push_route(alloc, &mut made, route_of_line(rip, line))?;
        left = rest;
    }
    Ok(made)
}

/// Appends the route, where there is one.
fn push_route(
    alloc: Global,
    made: &mut Vec<Route>,
    route: Option<RouteLine<'_>>,
) -> Result<(), NoMemory>
    ensures { OnOk result (made.new.items ≡ made.old.items ++ option_to_list (option_map told route.entry)) }
{
    if let Some(route) = route {
        let prefix = Bytes::from_slice(alloc, route.prefix)?;
        let port = route.port;
        made.push(Route { prefix, port })?;
    }
    Ok(())
}

/// The first route to the prefix.
#[tactic(auto, unfolding(crate::specs::Routes::route_to))]
pub(crate) fn route_to<'a>(routes: &'a [Route], prefix: &[u8]) -> Option<&'a Route>
    ensures { option_copied result ≡ route_to prefix.now routes.now }
{
    let mut left = routes;
    'routes: while let Some((route, rest)) = left.split_first() {
        if is_word(route.prefix.as_slice(), prefix) {
            return Some(route);
        }
        left = rest;
    }
    None
}

/// Whether there was a route to a prefix to which there is none now.
#[tactic(auto, unfolding(crate::specs::Routes::loses))]
pub(crate) fn loses(before: &[Route], now: &[Route]) -> bool
    ensures { result ≡ loses before.now now.now }
{
    before
        .iter()
        .any(|route| !has_route(now, route.prefix.as_slice()))
}

/// Whether there is a route to the prefix.
pub(crate) fn has_route(routes: &[Route], prefix: &[u8]) -> bool
    ensures { result ≡ has_route prefix.now routes.now }
{
    routes
        .iter()
        .any(|route| is_word(route.prefix.as_slice(), prefix))
}
