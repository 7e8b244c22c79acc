//! A case: a header with a feed.

ghost use Rattle.std.specs.Prelude.{◌≡◌, IfOk};

use crate::{Feed, Header};
use dn_guest::NoMemory;
use std::alloc::Global;
use std::marker::Model;

/// What a run is given, and what repeats it. Each case meets the rules of `specs/Cases.antt`.
#[derive(Drop)]
pub struct Case {
    pub header: Header,
    pub feed: Feed,
}

impl Model for Case {
    ghost use Rattle.dn_model.specs.Cases.{Recording, IsRecording};

    ghost Value = { Recording };

    ghost view = { λ c. record { header = c.header; feed = c.feed } };

    ghost invariant = { λ c. IsRecording (record { header = c.header; feed = c.feed }) };
}

impl Case {
    /// A copy.
    pub fn copy(&self, alloc: Global) -> Result<Case, NoMemory>
        ensures { IfOk result (λ made. made ≡ self.now) }
    {
        let header = self.header.copy(alloc)?;
        let feed = self.feed.copy(alloc)?;
        Ok(Case { header, feed })
    }
}
