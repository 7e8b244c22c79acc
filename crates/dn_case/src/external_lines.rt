//! Lines of externals.

ghost use Rattle.std.specs.Prelude.{◌≡◌, ◌<◌, IsTrue, IfOk, length};
ghost use Rattle.dn_case.specs.Shapes.{ask, External as ExternalLine};
ghost use Rattle.dn_case.specs.Standings.{last_group, ask_fits, lacks_port, input_of, taken};
ghost use Rattle.dn_case.specs.Takings.{Reads, FindsNext, IsFew};

use crate::cause::{Cause, LineError};
use crate::number::{below, between, narrow_u8, narrow_u32, value};
use crate::place::Place;
use crate::shape::Asked;
use crate::standing::Standing;
use dn_guest::{Bytes, Input, NoMemory};
use dn_model::External;
use dn_text::{Number, unhex};
use std::alloc::Global;

impl Standing {
    pub fn take_external(
        &mut self,
        alloc: Global,
        group: Number,
        name: &[u8],
        asked: Asked<'_>,
    ) -> Result<(), LineError>
        requires { IsFew self.old }
        ensures read { Reads result self.new (taken self.old (ExternalLine group name.now (ask asked.entry))) }
        ensures few { IsFew self.new }
    {
        let external = self.external(alloc, group, name, asked)?;
        self.feed.push(external)?;
        self.place = Place::External;
        Ok(())
    }

    /// The external of a line, behind those that stand.
    pub fn external(
        &self,
        alloc: Global,
        group: Number,
        name: &[u8],
        asked: Asked<'_>,
    ) -> Result<External, LineError>
        requires { IsFew self.now }
        ensures { FindsNext self.now result (taken self.now (ExternalLine group name.now (ask asked.entry))) }
    {
        if !(below(u64::from(self.groups), group) && ask_fits(asked)) {
            return Err(LineError::Bad(Cause::Range));
        }
        let Some(i) = self.routers.number_of(name) else {
            return Err(LineError::Bad(Cause::Name));
        };
        if value(group) < u64::from(last_group(self.feed.as_slice())) {
            return Err(LineError::Bad(Cause::Order));
        }
        if lacks_port(u64::from(self.links.ports_of(i)), asked) {
            return Err(LineError::Bad(Cause::Port));
        }
        Ok(External {
            group: narrow_u32(group),
            router: i as u16,
            input: input_of(alloc, asked)?,
        })
    }
}

/// The group of the last external, or 0 where there is none.
fn last_group(feed: &[External]) -> u32
    ensures { result ≡ last_group 0 feed.now }
{
    match feed.last() {
        None => 0,
        Some(external) => external.group,
    }
}

/// Whether what is asked is in range.
pub fn ask_fits(asked: Asked<'_>) -> bool
    ensures { result ≡ ask_fits (ask asked.entry) }
{
    match asked {
        Asked::Cmd(hex) => hex.len() <= 2 * 255,
        Asked::Down(port) => between(0, 15, port),
        Asked::Up(port) => between(0, 15, port),
    }
}

/// Whether a port is asked that isn't one of so many ports.
pub fn lacks_port(ports: u64, asked: Asked<'_>) -> bool
    ensures { result ≡ lacks_port ports (ask asked.entry) }
{
    match asked {
        Asked::Cmd(_) => false,
        Asked::Down(port) => ports <= value(port),
        Asked::Up(port) => ports <= value(port),
    }
}

/// The input of what is asked.
pub fn input_of(alloc: Global, asked: Asked<'_>) -> Result<Input, NoMemory>
    requires { IsTrue (ask_fits (ask asked)) }
    ensures { IfOk result (λ input. input ≡ input_of (ask asked.entry)) }
{
    match asked {
        Asked::Cmd(hex) => match unhex(alloc, hex)? {
            None => Ok(Input::Cmd(Bytes::new(alloc))),
            Some(body) => Ok(Input::Cmd(body)),
        },
        Asked::Down(port) => Ok(Input::Down(narrow_u8(port))),
        Asked::Up(port) => Ok(Input::Up(narrow_u8(port))),
    }
}
