//! The text of a trace, piece by piece: the line `trace`, the line of each row as the engine handles it,
//! and the end. So a trace is written or compared without ever standing whole in memory.

ghost use Rattle.std.specs.Prelude.{◌≡◌, ◌<◌, ◌≤◌, ◌++◌, List, length, IfOk, OnOk};
ghost use Rattle.dn_model.specs.declared.feed.External.{External};
ghost use Rattle.dn_model.specs.Network.{Network};
ghost use Rattle.dn_lockstep.specs.Running.{StandsIn};
ghost use Rattle.dn_trace.specs.Streaming.{to_come, rows_to_come, steps_left, ended_of, EndsRightly, IsRunOf};

use crate::ends::{push_cut_line, push_first_line, push_last, push_last_lines};
use dn_guest::{Bytes, Guest, NoMemory};
use dn_lockstep::{Engine, Next};
use dn_model::{Case, RouterDef};
use std::alloc::Global;

/// How a trace ends.
#[derive(Clone, Copy, Debug, PartialEq, Eq)]
pub enum Ending {
    /// With the states and the number of rows.
    Whole,
    /// After as many rows as a trace shows, since there are more.
    Cut,
}

/// How far the text has come.
#[derive(Clone, Copy, Debug)]
pub(crate) enum Stage {
    Opening,
    Rows,
    Ended(Ending),
}

/// A trace on its way.
#[derive(Drop)]
pub(crate) struct TraceText<G: Guest> {
    pub(crate) engine: Engine<G>,
    pub(crate) stage: Stage,
}

impl<G: Guest> TraceText<G> {
    /// The trace of the case's lockstep run with these guests, of which nothing has come.
    pub(crate) fn new(alloc: Global, case: &Case, guests: Vec<G>) -> Result<TraceText<G>, NoMemory>
        requires { length guests.items ≡ length case.now.header.routers }
        ensures stands { IfOk result (λ made. (net : Network G) →
            IsRunOf net G.meaning case.now.header guests.items → StandsIn net case.now.feed made.engine) }
        ensures place { IfOk result (λ made. made.engine.place ≡ 0) }
        ensures opening { IfOk result (λ made. made.stage ≡ Stage.Opening) }
        ensures header { IfOk result (λ made. made.engine.header ≡ case.now.header) }
    {
        Ok(TraceText {
            engine: Engine::new(alloc, case, guests)?,
            stage: Stage::Opening,
        })
    }

    /// How the trace ended, where it has.
    pub(crate) fn ended(&self) -> Option<Ending>
        ensures { result ≡ ended_of self.now.stage }
    {
        match self.stage {
            Stage::Opening | Stage::Rows => None,
            Stage::Ended(ending) => Some(ending),
        }
    }

    /// Appends the next piece of the text. After `NoMemory` the trace is to be dropped.
    #[tactic(auto, unfolding(crate::specs::Streaming::to_come))]
    pub(crate) fn push_next(
        &mut self,
        alloc: Global,
        routers: &[RouterDef],
        out: &mut Bytes,
    ) -> Result<(), NoMemory>
        requires same { self.old.engine.header.routers ≡ routers.now }
        requires few { length routers.now ≤ 64 }
        ensures text { (net : Network G) (feed : List External) → net.guests ≡ G.meaning →
            net.header ≡ self.old.engine.header → StandsIn net feed self.old.engine →
            OnOk result (out.new ++ to_come net feed self.new.stage self.new.engine.place ≡ out.old ++
            to_come net feed self.old.stage self.old.engine.place) }
        ensures stands { (net : Network G) (feed : List External) → net.guests ≡ G.meaning →
            StandsIn net feed self.old.engine → OnOk result (StandsIn net feed self.new.engine) }
        ensures ending { (net : Network G) (feed : List External) → net.guests ≡ G.meaning →
            StandsIn net feed self.old.engine → EndsRightly net feed self.old.stage →
            OnOk result (EndsRightly net feed self.new.stage) }
        ensures onward { OnOk result (0 < steps_left self.old.stage self.old.engine.place →
            steps_left self.new.stage self.new.engine.place < steps_left self.old.stage self.old.engine.place) }
        ensures header { self.new.engine.header ≡ self.old.engine.header }
    {
        match self.stage {
            Stage::Opening => {
                push_first_line(out)?;
                self.stage = Stage::Rows;
                Ok(())
            }
            Stage::Rows => self.push_row(alloc, routers, out),
            Stage::Ended(_) => Ok(()),
        }
    }

    /// Handles the next row and appends its line; or appends how the trace ends.
    #[tactic(auto, unfolding(crate::specs::Streaming::to_come))]
    fn push_row(
        &mut self,
        alloc: Global,
        routers: &[RouterDef],
        out: &mut Bytes,
    ) -> Result<(), NoMemory>
        requires same { self.old.engine.header.routers ≡ routers.now }
        requires few { length routers.now ≤ 64 }
        requires rows { self.old.stage ≡ Stage.Rows }
        ensures text { (net : Network G) (feed : List External) → net.guests ≡ G.meaning →
            net.header ≡ self.old.engine.header → StandsIn net feed self.old.engine →
            OnOk result (out.new ++ to_come net feed self.new.stage self.new.engine.place ≡ out.old ++
            rows_to_come net feed self.old.engine.place) }
        ensures stands { (net : Network G) (feed : List External) → net.guests ≡ G.meaning →
            StandsIn net feed self.old.engine → OnOk result (StandsIn net feed self.new.engine) }
        ensures ending { (net : Network G) (feed : List External) → net.guests ≡ G.meaning →
            StandsIn net feed self.old.engine → OnOk result (EndsRightly net feed self.new.stage) }
        ensures onward { OnOk result (steps_left self.new.stage self.new.engine.place < steps_left Stage.Rows self.old.engine.place) }
        ensures header { self.new.engine.header ≡ self.old.engine.header }
    {
        match self.engine.next(alloc)? {
            Next::Row => {
                push_last(&self.engine, routers, out)?;
                Ok(())
            }
            Next::End => {
                let rows = self.engine.place();
                push_last_lines(alloc, &self.engine, rows, routers, out)?;
                self.stage = Stage::Ended(Ending::Whole);
                Ok(())
            }
            Next::Cut => {
                push_cut_line(out)?;
                self.stage = Stage::Ended(Ending::Cut);
                Ok(())
            }
        }
    }
}
