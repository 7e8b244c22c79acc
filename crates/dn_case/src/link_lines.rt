//! Lines of links.

ghost use Rattle.std.specs.Prelude.{◌≡◌};
ghost use Rattle.dn_case.specs.Shapes.{Link as LinkLine};
ghost use Rattle.dn_case.specs.Standings.{taken};
ghost use Rattle.dn_case.specs.Takings.{Reads, IsFew};

use crate::cause::{Cause, LineError};
use crate::number::{between, narrow_u16, narrow_u32};
use crate::place::Place;
use crate::standing::Standing;
use dn_model::Link;
use dn_text::Number;

impl Standing {
    pub fn take_link(
        &mut self,
        a: &[u8],
        b: &[u8],
        delay: Number,
        cost: Number,
    ) -> Result<(), LineError>
        requires { IsFew self.old }
        ensures read { Reads result self.new (taken self.old (LinkLine a.now b.now delay cost)) }
        ensures few { IsFew self.new }
    {
        if !(between(1, 1_000_000, delay) && between(1, 65_535, cost)) {
            return Err(LineError::Bad(Cause::Range));
        }
        let Some(i) = self.routers.number_of(a) else {
            return Err(LineError::Bad(Cause::Name));
        };
        let Some(j) = self.routers.number_of(b) else {
            return Err(LineError::Bad(Cause::Name));
        };
        if a == b {
            return Err(LineError::Bad(Cause::Same));
        }
        let a_port = self.links.ports_of(i);
        let b_port = self.links.ports_of(j);
        if self.links.len() >= 256 || (a_port >= 16 || b_port >= 16) {
            return Err(LineError::Bad(Cause::Many));
        }
        self.links.push(Link {
            a: i as u16,
            a_port,
            b: j as u16,
            b_port,
            delay: narrow_u32(delay),
            cost: narrow_u16(cost),
        })?;
        self.place = Place::Link;
        Ok(())
    }
}
