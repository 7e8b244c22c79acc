//! Live lines.

ghost use Rattle.std.specs.Prelude.{◌≡◌, ◌<◌, ℕ, IfOk, IfSome, length};
ghost use Rattle.std.specs.Option.{option_map};
ghost use Rattle.dn_guest.specs.declared.input.Input.{Input as InputValue};
ghost use Rattle.dn_model.specs.Routers.{number_of};
ghost use Rattle.dn_model.specs.Links.{names, ports_of};
ghost use Rattle.dn_text.specs.Lines.{parts};
ghost use Rattle.dn_text.specs.declared.decimals.Number.TheVariants.{Is};
ghost use Rattle.dn_case.specs.Shapes.{ask, External as ExternalLine};
ghost use Rattle.dn_case.specs.LiveLines.{live_of_fields, IsLiveLine, ReadsLive, OnBad};

use crate::cause::{Cause, LiveError};
use crate::external_lines::{ask_fits, input_of, lacks_port};
use crate::shape::{Asked, ask_of, name_of};
use dn_guest::Input;
use dn_model::{Header, Link, RouterDef};
use dn_text::first_part;
use std::alloc::Global;

/// Reads a live line, an external line without its group and its newline, as `a cmd 41`: the number of the
/// router, and its input. `Bad` has the first cause that holds for the line; Order can't come.
pub fn read_live(alloc: Global, header: &Header, line: &[u8]) -> Result<(u16, Input), LiveError>
    // It is the line of that input at that router.
    ensures found { IfOk result (λ x. IsLiveLine header.now x.0 x.1 line.now) }
    // A bad line is that of no input at any router.
    ensures none { OnBad result ((router : ℕ) (input : InputValue) → ¬ IsLiveLine header.now router input line.now) }
    // It is read, and judged, as the external line that it is with a group.
    ensures read { ReadsLive header.now line.now result }
{
    let routers = header.routers.as_slice();
    let links = header.links.as_slice();
    let Some((name, asked)) = live_fields(line) else {
        return Err(LiveError::Bad(Cause::Syntax));
    };
    if !ask_fits(asked) {
        return Err(LiveError::Bad(Cause::Range));
    }
    let Some(router) = number_of(routers, name) else {
        return Err(LiveError::Bad(Cause::Name));
    };
    if lacks_port(ports_of(links, router), asked) {
        return Err(LiveError::Bad(Cause::Port));
    }
    Ok((router as u16, input_of(alloc, asked)?))
}

/// The name of the router, and what is asked.
fn live_fields(line: &[u8]) -> Option<(&[u8], Asked<'_>)>
    ensures { option_map (λ x. ExternalLine (Is 0) x.0.now (ask x.1)) result ≡ live_of_fields (parts 32 line.now) }
{
    let (name, rest) = first_part(b' ', line);
    let (word, rest) = first_part(b' ', rest?);
    let (field, rest) = first_part(b' ', rest?);
    match rest {
        None => Some((name_of(name)?, ask_of(word, field)?)),
        Some(_rest) => None,
    }
}

/// The number of the router of a name, looked for in turn; None if no router has it.
pub fn number_of(routers: &[RouterDef], name: &[u8]) -> Option<usize>
    ensures found { result ≡ number_of routers.now name.now }
    ensures within { IfSome result (λ i. i < length routers.now) }
{
    let mut number = 0usize;
    let mut left = routers;
    'routers: while let Some((router, rest)) = left.split_first() {
        if name == router.name.as_slice() {
            return Some(number);
        }
        number += 1;
        left = rest;
    }
    None
}

/// How many ports a router has.
fn ports_of(links: &[Link], router: usize) -> u64
    ensures { result ≡ ports_of links.now router }
{
    let mut count: u64 = 0;
    let mut left = links;
    'links: while let Some((link, rest)) = left.split_first() {
        count += u64::from(is_end(link, router));
        left = rest;
    }
    count
}

/// Whether the link names the router.
fn is_end(link: &Link, router: usize) -> bool
    ensures { result ≡ names router link.now }
{
    usize::from(link.a) == router || usize::from(link.b) == router
}
