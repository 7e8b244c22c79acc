//! The feeder of a list.

ghost use Rattle.std.specs.Prelude.{◌≡◌, ◌∷◌, true, false, length, IfOk, OnErr, Ok};
ghost use Rattle.dn_model.specs.Cases.{IsRecording};
ghost use Rattle.dn_model.specs.Settled.{IsPrefixOf};
ghost use Rattle.dn_record.specs.declared.feeder.Fed.TheVariants.{Closed};
ghost use Rattle.dn_record.specs.Feeding.{HasGiven, ListFeeding, IsListFeeding, ComesFrom, given_of};

use crate::{Fed, Feeder};
use dn_guest::NoMemory;
use dn_model::{External, Feed, Header};
use std::alloc::Global;
use std::marker::Model;

/// The feeder of a case: it gives the case's feed in order, and closes behind its last external.
#[derive(Drop)]
pub struct ListFeed {
    header: Header,
    feed: Feed,
    place: usize,
    closed: bool,
}

impl Model for ListFeed {
    ghost use Rattle.dn_record.specs.Feeding.{ListFeeding, IsListFeeding};

    ghost Value = { ListFeeding };

    ghost view = { λ f. record { header = f.header; feed = f.feed; place = f.place; closed = f.closed } };

    ghost invariant = { λ f. IsListFeeding (record { header = f.header; feed = f.feed; place = f.place; closed = f.closed }) };
}

impl ListFeed {
    /// The feeder of this case, which has given nothing yet.
    pub fn new(header: Header, feed: Feed) -> ListFeed
        requires case { IsRecording (record { header = header; feed = feed }) }
        ensures { result ≡ record { header = header; feed = feed; place = 0; closed = false } }
    {
        ListFeed {
            header,
            feed,
            place: 0,
            closed: false,
        }
    }

    /// What it has given: the first externals of its list, and all of them once it has closed.
    pub fn given(&self) -> &[External]
        ensures given { result.now ≡ given_of self.now }
        ensures prefix { IsPrefixOf (given_of self.now) self.now.feed }
        ensures all { self.now.closed ≡ true → given_of self.now ≡ self.now.feed }
    {
        &self.feed.as_slice()[..self.place]
    }
}

impl Feeder for ListFeed {
    ghost use Rattle.dn_record.specs.Feeding.{ComesFrom, given_of};
    ghost use Rattle.std.specs.Prelude.{refl};
    ghost use Rattle.std.proofs.Common.{◌∙◌};

    ghost header = { λ f. f.header };

    ghost given = { given_of };

    ghost closed = { λ f. f.closed };

    ghost comes = { ComesFrom };

    fn next(&mut self, alloc: Global) -> Result<Fed, NoMemory>
        requires open { self.old.closed ≡ false }
        ensures comes { ComesFrom self.old self.new }
        ensures ok { IfOk result (λ fed. HasGiven self.old.header (given_of self.old) fed
            (given_of self.new) self.new.closed) }
        ensures err { OnErr result ((given_of self.new ≡ given_of self.old) × (self.new.closed ≡ false)) }
        ensures closed { IfOk result (λ fed. fed ≡ Closed → self.old.place ≡ length self.old.feed) }
        ensures last { self.old.place ≡ length self.old.feed → result ≡ Ok Closed }
    {
        let Some(external) = self.feed.as_slice().get(self.place) else {
            self.closed = true;
            return Ok(Fed::Closed);
        };
        let input = external.input.copy(alloc)?;
        let fed = Fed::One(external.router, input, external.group);
        self.place += 1;
        Ok(fed)
    }

    ghost comes_from_itself = { λ f. record { header = refl; feed = refl } };

    ghost comes_onward = { λ f g h c d. record { header = d.header ∙ c.header; feed = d.feed ∙ c.feed } };

    ghost comes_with_header = { λ f g c. c.header };
}
