//! A whole session, line by line.

ghost use Rattle.std.specs.Prelude.{◌≡◌, ◌<◌, ◌≤◌, ◌++◌, List, None, Some, IsErrOf, true};
ghost use Rattle.dn_io.specs.Streams.{Gives, Rose};
ghost use Rattle.dn_model.specs.declared.feed.External.{External};
ghost use Rattle.dn_model.specs.Network.{Network};
ghost use Rattle.dn_debug.specs.Situations.{SitsIn, situation_of};
ghost use Rattle.dn_debug.specs.Conversing.{RepliesSo, Turns, HasConversed};

use crate::{Session, Told};
use dn_guest::Guest;
use dn_io::{Line, LineReader, Sink, Source};
use dn_probe::Probe;
use dn_trace::WriteError;
use std::alloc::Global;

/// How a session has ended.
#[derive(Clone, Copy, Debug, PartialEq, Eq)]
pub enum Conversed {
    /// By `quit`, or by the end of the input.
    Done,
    /// The source failed.
    ReadFault,
    /// More bytes came than the reader's limit allows.
    TooBig,
    /// The sink failed.
    WriteFault,
    /// There was no memory.
    NoMemory,
}

/// Answers the line.
fn reply<G: Guest, P: Probe, K: Sink>(
    alloc: Global,
    session: &mut Session<G, P>,
    line: &[u8],
    sink: &mut K,
) -> Result<Told, Conversed>
    ensures case { session.new.case ≡ session.old.case }
    ensures replied { (net : Network G) (feed : List External) → net.guests ≡ G.meaning → SitsIn net feed session.old →
        RepliesSo net feed P.watcher session.old line.now result session.new (K.holds sink.old) (K.holds sink.new) }
    ensures reads_nothing { IsErrOf result Conversed.ReadFault → ⊥ }
    ensures fault { IsErrOf result Conversed.WriteFault → Rose (K.faults sink.old) (K.faults sink.new) }
    ensures later { K.faults sink.old ≤ K.faults sink.new }
{
    match session.command(alloc, line, sink) {
        Ok(told) => Ok(told),
        Err(WriteError::Fault) => Err(Conversed::WriteFault),
        Err(WriteError::NoMemory) => Err(Conversed::NoMemory),
    }
}

/// Reads the next line and answers it. Gives how the session has ended, if it has.
fn turn<G: Guest, P: Probe, S: Source, K: Sink>(
    alloc: Global,
    session: &mut Session<G, P>,
    lines: &mut LineReader,
    source: &mut S,
    sink: &mut K,
) -> Option<Conversed>
    requires { lines.old.is_open ≡ true }
    ensures onward { result ≡ None → (lines.new.is_open ≡ true) × (lines.new.room < lines.old.room) }
    ensures turned { (net : Network G) (feed : List External) → net.guests ≡ G.meaning → SitsIn net feed session.old →
        Gives (S.left source.old) (S.left source.new) (λ came. Turns net feed P.watcher session.old lines.old (lines.old.held ++ came) (S.left source.new) result session.new lines.new (K.holds sink.old) (K.holds sink.new)) }
    ensures case { session.new.case ≡ session.old.case }
    ensures read_fault { result ≡ Some Conversed.ReadFault → Rose (S.faults source.old) (S.faults source.new) }
    ensures read_later { S.faults source.old ≤ S.faults source.new }
    ensures write_fault { result ≡ Some Conversed.WriteFault → Rose (K.faults sink.old) (K.faults sink.new) }
    ensures write_later { K.faults sink.old ≤ K.faults sink.new }
{
    match lines.next(alloc, source) {
        Ok(Line::Full(line)) => match reply(alloc, session, line.as_slice(), sink) {
            Ok(Told::Go) => None,
            Ok(Told::Quit) => Some(Conversed::Done),
            Err(how) => Some(how),
        },
        Ok(Line::Rest(line)) => match reply(alloc, session, line.as_slice(), sink) {
            Ok(_told) => Some(Conversed::Done),
            Err(how) => Some(how),
        },
        Ok(Line::End) => Some(Conversed::Done),
        Ok(Line::Failed) => Some(Conversed::ReadFault),
        Ok(Line::TooBig) => Some(Conversed::TooBig),
        Err(_) => Some(Conversed::NoMemory),
    }
}

/// Answers the lines of the source one after another, up to `quit` or the end of the input, and says how the session has
/// ended. Each answer is put out before the next line is read.
pub fn converse<G: Guest, P: Probe, S: Source, K: Sink>(
    alloc: Global,
    session: &mut Session<G, P>,
    lines: &mut LineReader,
    source: &mut S,
    sink: &mut K,
) -> Conversed
    requires { lines.old.is_open ≡ true }
    ensures conversed { (net : Network G) (feed : List External) → net.guests ≡ G.meaning →
        SitsIn net feed session.old → Gives (S.left source.old) (S.left source.new)
        (λ came. HasConversed net feed (situation_of P.watcher session.old) lines.old.room (lines.old.held ++ came) (S.left source.new) result (K.holds sink.old) (K.holds sink.new)) }
    ensures case { session.new.case ≡ session.old.case }
    ensures read_fault { result ≡ Conversed.ReadFault → Rose (S.faults source.old) (S.faults source.new) }
    ensures read_later { S.faults source.old ≤ S.faults source.new }
    ensures write_fault { result ≡ Conversed.WriteFault → Rose (K.faults sink.old) (K.faults sink.new) }
    ensures write_later { K.faults sink.old ≤ K.faults sink.new }
{
    'turns: loop {
        if let Some(how) = turn(alloc, session, lines, source, sink) {
            return how;
        }
    }
}
