//! The session.

ghost use Rattle.std.specs.Prelude.{◌≡◌, ◌<◌, ◌≤◌, ℕ, List, Some, [], map, length, slice_get, IfOk, IsErrOf};
ghost use Rattle.dn_model.specs.Network.{Network, routers};
ghost use Rattle.dn_io.specs.Streams.{Rose};
ghost use Rattle.dn_model.specs.declared.feed.External.{External};
ghost use Rattle.dn_debug.specs.Situations.{SitsIn, situation_of};
ghost use Rattle.dn_debug.specs.Replying.{Outcome};

use crate::answer::answer;
use crate::latest::Latest;
use crate::walk::Walk;
use crate::watching::Watching;
use dn_guest::{Bytes, Guest, NoMemory};
use dn_io::Sink;
use dn_lockstep::Engine;
use dn_model::Case;
use dn_probe::Probe;
use dn_trace::{WriteError, put_text};
use std::alloc::Global;
use std::marker::Model;

/// What a session says of its going on.
#[derive(Clone, Copy, Debug, PartialEq, Eq)]
pub enum Told {
    /// It goes on.
    Go,
    /// It was asked to end.
    Quit,
}

/// The lockstep run of a case, and what a person who debugs it has set up.
#[derive(Drop)]
pub struct Session<G: Guest, P: Probe> {
    pub(crate) case: Case,
    pub(crate) walk: Walk<G, P>,
}

impl<G: Guest, P: Probe> Model for Session<G, P> {
    ghost use Rattle.std.specs.Prelude.{◌≡◌};
    ghost use Rattle.dn_debug.specs.Situations.{Sitting};

    ghost Value = { Sitting G P };

    ghost view = { λ s. record { case = s.case; engine = s.walk.engine; breaks = s.walk.breaks.items; probes = s.walk.watching; latest = s.walk.latest } };

    ghost invariant = { λ s. s.walk.engine.header ≡ s.case.header };
}

impl<G: Guest, P: Probe> Session<G, P> {
    /// The session of a case before its first row, with these guests at routers 0, 1, .. and these probes there to be
    /// attached.
    pub fn new(
        alloc: Global,
        case: Case,
        guests: Vec<G>,
        probes: Vec<P>,
    ) -> Result<Session<G, P>, NoMemory>
        requires { length guests.items ≡ length case.header.routers }
        ensures case { IfOk result (λ made. made.case ≡ case) }
        ensures opening { IfOk result (λ made. situation_of P.watcher made ≡
            record { place = 0; breaks = []; attached = []; there = map P.watcher probes.items }) }
        ensures sits { IfOk result (λ made. (net : Network G) → net.header ≡ case.header → net.guests ≡ G.meaning →
            ((r : ℕ) → r < routers net → slice_get guests.items r ≡ Some (net.opening r)) →
            SitsIn net case.feed made) }
    {
        let engine = Engine::new(alloc, &case, guests)?;
        let walk = Walk {
            engine,
            breaks: Vec::new(alloc),
            watching: Watching::new(alloc, probes),
            latest: Latest::new(alloc)?,
        };
        Ok(Session { case, walk })
    }

    /// Answers a line without its newline, and says whether the session goes on. The answer is gathered whole, and
    /// put out then. After `NoMemory` nothing was put out, and the session is to be dropped.
    pub fn command<K: Sink>(
        &mut self,
        alloc: Global,
        line: &[u8],
        sink: &mut K,
    ) -> Result<Told, WriteError>
        ensures case { self.new.case ≡ self.old.case }
        ensures outcome { (net : Network G) (feed : List External) → net.guests ≡ G.meaning → SitsIn net feed self.old →
            Outcome net feed P.watcher self.old line.now result self.new (K.holds sink.old) (K.holds sink.new) }
        ensures fault { IsErrOf result WriteError.Fault → Rose (K.faults sink.old) (K.faults sink.new) }
        ensures later { K.faults sink.old ≤ K.faults sink.new }
    {
        let mut text = Bytes::new(alloc);
        let Ok(told) = answer(alloc, &mut self.walk, &self.case.header, line, &mut text) else {
            return Err(WriteError::NoMemory);
        };
        put_text(sink, &text)?;
        Ok(told)
    }
}
