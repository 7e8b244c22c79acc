//! What the lines so far say, and one more line.

ghost use Rattle.std.specs.Prelude.{◌≡◌, ◌<◌, ◌≤◌, IsTrue, IfSome, IfOk, [], length, Ok};
ghost use Rattle.dn_model.specs.Names.{is_name};
ghost use Rattle.dn_case.specs.Shapes.{IsNamed, line, Version, Period, Groups, Seed, Router, Feed as FeedLine, End};
ghost use Rattle.dn_case.specs.Standings.{start, is_end, taken, judged, read_line};
ghost use Rattle.dn_case.specs.Takings.{Reads, IsFew};

use crate::cause::{Cause, LineError};
use crate::counted_links::CountedLinks;
use crate::known_routers::KnownRouters;
use crate::number::{between, narrow_u32};
use crate::place::Place;
use crate::shape::{Shape, line_of};
use dn_guest::{Bytes, NoMemory};
use dn_model::{Feed, Kind, Name, Prefixes, RouterDef};
use dn_text::Number;
use std::alloc::Global;

/// What the lines so far say.
#[derive(Drop)]
pub struct Standing {
    pub place: Place,
    pub period: u32,
    pub groups: u32,
    pub seed: u64,
    pub routers: KnownRouters,
    pub links: CountedLinks,
    pub feed: Feed,
}

impl Standing {
    /// Before the first line. It takes no memory.
    pub fn new(alloc: Global) -> Standing
        ensures { result ≡ start }
    {
        Standing {
            place: Place::Start,
            period: 0,
            groups: 0,
            seed: 0,
            routers: KnownRouters::new(alloc),
            links: CountedLinks::new(alloc),
            feed: Feed::from_vec(Vec::new(alloc)),
        }
    }

    /// Takes one line of the text, with its newline.
    pub fn take_line(&mut self, alloc: Global, text: &[u8]) -> Result<(), LineError>
        requires { IsFew self.old }
        ensures read { Reads result self.new (read_line self.old text.now) }
        ensures few { IsFew self.new }
    {
        let Some(shape) = line_of(text) else {
            return Err(LineError::Bad(Cause::Syntax));
        };
        if !self.place.may_precede(Place::of(&shape)) {
            return Err(LineError::Bad(Cause::Syntax));
        }
        self.take(alloc, shape)
    }

    /// Takes a line that may stand here.
    fn take(&mut self, alloc: Global, shape: Shape<'_>) -> Result<(), LineError>
        requires named { IsNamed (line shape) }
        requires few { IsFew self.old }
        ensures read { Reads result self.new (taken self.old (line shape.entry)) }
        ensures few { IsFew self.new }
    {
        match shape {
            Shape::Version(n) => self.take_version(n),
            Shape::Period(n) => self.take_period(n),
            Shape::Groups(n) => self.take_groups(n),
            Shape::Seed(n) => self.take_seed(n),
            Shape::Router(name, kind) => self.take_router(alloc, name, kind),
            Shape::Link(a, b, delay, cost) => self.take_link(a, b, delay, cost),
            Shape::Prefix(name, net, cost) => self.take_prefix(name, net, cost),
            Shape::Feed => {
                self.take_feed();
                Ok(())
            }
            Shape::External(group, name, asked) => self.take_external(alloc, group, name, asked),
            Shape::End => {
                self.take_end();
                Ok(())
            }
        }
    }

    fn take_version(&mut self, n: Number) -> Result<(), LineError>
        requires { IsFew self.old }
        ensures read { Reads result self.new (taken self.old (Version n)) }
        ensures few { IsFew self.new }
    {
        if !between(1, 1, n) {
            return Err(LineError::Bad(Cause::Version));
        }
        self.place = Place::Version;
        Ok(())
    }

    fn take_period(&mut self, n: Number) -> Result<(), LineError>
        requires { IsFew self.old }
        ensures read { Reads result self.new (taken self.old (Period n)) }
        ensures few { IsFew self.new }
    {
        if !between(1, 1_000_000, n) {
            return Err(LineError::Bad(Cause::Range));
        }
        self.place = Place::Period;
        self.period = narrow_u32(n);
        Ok(())
    }

    fn take_groups(&mut self, n: Number) -> Result<(), LineError>
        requires { IsFew self.old }
        ensures read { Reads result self.new (taken self.old (Groups n)) }
        ensures few { IsFew self.new }
    {
        if !between(1, 4096, n) {
            return Err(LineError::Bad(Cause::Range));
        }
        self.place = Place::Groups;
        self.groups = narrow_u32(n);
        Ok(())
    }

    fn take_seed(&mut self, n: Number) -> Result<(), LineError>
        requires { IsFew self.old }
        ensures read { Reads result self.new (taken self.old (Seed n)) }
        ensures few { IsFew self.new }
    {
        match n {
            Number::Is(n) => {
                self.place = Place::Seed;
                self.seed = n;
                Ok(())
            }
            Number::Beyond => Err(LineError::Bad(Cause::Range)),
        }
    }

    fn take_router(&mut self, alloc: Global, name: &[u8], kind: Kind) -> Result<(), LineError>
        requires named { IsTrue (is_name name.now) }
        requires few { IsFew self.old }
        ensures read { Reads result self.new (taken self.old (Router name.now kind)) }
        ensures few { IsFew self.new }
    {
        if self.routers.number_of(name).is_some() {
            return Err(LineError::Bad(Cause::Twice));
        }
        if self.routers.len() >= 64 {
            return Err(LineError::Bad(Cause::Many));
        }
        let router = router_def(alloc, name, kind)?;
        self.routers.push(alloc, router)?;
        self.place = Place::Router;
        Ok(())
    }

    fn take_feed(&mut self)
        requires { IsFew self.old }
        ensures read { taken self.old FeedLine ≡ Ok self.new }
        ensures few { IsFew self.new }
    {
        self.place = Place::Feed;
    }

    fn take_end(&mut self)
        requires { IsFew self.old }
        ensures read { taken self.old End ≡ Ok self.new }
        ensures few { IsFew self.new }
    {
        self.place = Place::End;
    }
}

/// A router without prefixes.
fn router_def(alloc: Global, name: &[u8], kind: Kind) -> Result<RouterDef, NoMemory>
    requires { IsTrue (is_name name.now) }
    ensures { IfOk result (λ router. router ≡ record { name = name.now; kind = kind; prefixes = [] }) }
{
    let name = Name::from_bytes(Bytes::from_slice(alloc, name)?).unwrap();
    Ok(RouterDef {
        name,
        kind,
        prefixes: Prefixes::from_vec(Vec::new(alloc)),
    })
}
