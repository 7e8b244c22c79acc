//! A header, ready for lines that speak of its routers.

ghost use Rattle.std.specs.Prelude.{◌≡◌, ◌≤◌, ◌<◌, [], length, IfOk, IfSome};
ghost use Rattle.dn_model.specs.Routers.{number_of};
ghost use Rattle.dn_model.specs.Cases.{AreRouters, AreLinks, IsHeading};
ghost use Rattle.dn_case.specs.Externals.{Finds, IsExternalLine};

use crate::cause::LineError;
use crate::counted_links::CountedLinks;
use crate::known_routers::KnownRouters;
use crate::place::Place;
use crate::shape::{Shape, line_of};
use crate::standing::Standing;
use dn_guest::NoMemory;
use dn_model::{External, Feed, Header, Link, RouterDef};
use std::alloc::{AllocError, Global};
use std::marker::Model;

/// A header whose routers are looked up by name, with each router's count of ports. Contracts see the
/// header.
#[derive(Drop)]
pub struct KnownHeader {
    /// What stands behind the header's lines.
    standing: Standing,
}

impl Model for KnownHeader {
    ghost use Rattle.std.specs.Prelude.{◌≡◌, []};
    ghost use Rattle.dn_model.specs.Cases.{Heading, IsHeading};
    ghost use Rattle.dn_case.specs.Reading.{case_of};

    ghost Value = { Heading };

    ghost view = { λ k. (case_of k.standing).header };

    ghost invariant = { λ k. IsHeading (case_of k.standing).header × (k.standing.feed ≡ []) };
}

impl KnownHeader {
    /// The header, with a copy of its routers.
    pub fn new(alloc: Global, header: &Header) -> Result<KnownHeader, NoMemory>
        ensures same { IfOk result (λ known. known ≡ header.now) }
        ensures rules { IfOk result (λ known. IsHeading known) }
    {
        let routers = known_routers(alloc, header.routers.as_slice())?;
        let links = counted_links(alloc, header.links.as_slice())?;
        Ok(KnownHeader {
            standing: Standing {
                place: Place::Feed,
                period: header.period,
                groups: header.groups,
                seed: header.seed,
                routers,
                links,
                feed: Feed::from_vec(Vec::new(alloc)),
            },
        })
    }

    /// The number of the router of a name; None where no router has it.
    pub fn number_of(&self, name: &[u8]) -> Option<u16>
        ensures { result ≡ number_of self.now.routers name.now }
    {
        match self.standing.routers.number_of(name) {
            None => None,
            Some(number) => Some(number as u16),
        }
    }

    /// The external of a line with its newline, as a case of this header may have it, whatever groups
    /// stood before; None where the line is of no external.
    pub fn external(&self, alloc: Global, line: &[u8]) -> Result<Option<External>, NoMemory>
        ensures { IfOk result (λ found. Finds (λ x. IsExternalLine self.now x line.now) found) }
    {
        let standing = &self.standing;
        let Some(shape) = line_of(line) else {
            return Ok(None);
        };
        let Shape::External(group, name, asked) = shape else {
            return Ok(None);
        };
        match standing.external(alloc, group, name, asked) {
            Ok(external) => Ok(Some(external)),
            Err(LineError::Bad(_)) => Ok(None),
            Err(LineError::NoMemory) => Err(AllocError),
        }
    }
}

fn known_routers(alloc: Global, routers: &[RouterDef]) -> Result<KnownRouters, NoMemory>
    requires { AreRouters [] routers.now }
    ensures { IfOk result (λ known. known ≡ routers.now) }
{
    let mut known = KnownRouters::new(alloc);
    let mut left = routers;
    'routers: while let Some((router, rest)) = left.split_first() {
        known.push(alloc, router.copy(alloc)?)?;
        left = rest;
    }
    Ok(known)
}

fn counted_links(alloc: Global, links: &[Link]) -> Result<CountedLinks, NoMemory>
    requires { AreLinks 64 [] links.now }
    ensures { IfOk result (λ counted. counted ≡ links.now) }
{
    let mut counted = CountedLinks::new(alloc);
    let mut left = links;
    'links: while let Some((link, rest)) = left.split_first() {
        counted.push(*link)?;
        left = rest;
    }
    Ok(counted)
}
