//! What a live feed keeps, and how it listens.

ghost use Rattle.std.specs.Prelude.{◌≡◌, ◌↔◌, ◌<◌, ◌+◌, ◌^◌, ◌⊎◌, List, None, Some, true, false, codes, is_some, IfOk, OnOk, OnErr, IsTrue};
ghost use Rattle.dn_model.specs.Cases.{IsRecording};
ghost use Rattle.dn_case.specs.LiveLines.{IsLiveLine};
ghost use Rattle.dn_record.specs.Feeding.{HasGiven, last_group};
ghost use Rattle.dn_record.specs.Live.{Live, IsOpen, Follows, hearing, opening_live};
ghost use Rattle.dn_record.specs.Listening.{Takes, TakesLine, Accepts, ClosesFor, IsLeft, IfFull};

use crate::{Fed, LiveEnd, Recorder};
use dn_case::{CaseFault, Cause, LiveError, read_live};
use dn_guest::{Input, NoMemory};
use dn_io::{Line, LineReader, Metronome, Source};
use dn_model::{Case, External, Feed, Header};
use std::alloc::{AllocError, Global};
use std::marker::Model;

/// What a live feed keeps. It counts as spent while it listens, so that it is spent once it has found no memory.
#[derive(Drop)]
pub struct LiveLog {
    header: Header,
    lines: LineReader,
    recorder: Recorder,
    given: Feed,
    /// The number of the next line.
    number: u64,
    ended: Option<LiveEnd>,
    spent: bool,
}

impl Model for LiveLog {
    ghost use Rattle.dn_record.specs.Live.{Live};
    ghost use Rattle.dn_record.specs.Listening.{IsLive};

    ghost Value = { Live };

    ghost view = { λ l. record { header = l.header; reader = l.lines; given = l.given; last = l.recorder.last; number = l.number; ended = l.ended; spent = l.spent } };

    ghost invariant = { λ l. IsLive (record { header = l.header; reader = l.lines; given = l.given; last = l.recorder.last; number = l.number; ended = l.ended; spent = l.spent }) l.recorder.groups };
}

impl LiveLog {
    /// Nothing was heard yet; the first live line has this number.
    pub(crate) fn new(alloc: Global, header: Header, lines: LineReader, first: u64) -> LiveLog
        requires open { lines.is_open ≡ true }
        requires few { first + lines.room < 2 ^ 64 }
        ensures { result ≡ opening_live header lines first }
    {
        let recorder = Recorder::new(header.groups);
        LiveLog {
            header,
            lines,
            recorder,
            given: Feed::from_vec(Vec::new(alloc)),
            number: first,
            ended: None,
            spent: false,
        }
    }

    /// Why it has closed, if it has.
    pub(crate) fn ended(&self) -> Option<LiveEnd>
        ensures { result ≡ self.now.ended }
    {
        self.ended
    }

    /// The header with all that was given: the recording.
    pub(crate) fn into_case(self) -> Case
        ensures { result ≡ record { header = self.header; feed = self.given } }
    {
        Case {
            header: self.header,
            feed: self.given,
        }
    }

    /// Listens until a line has come, or the feed closes.
    pub(crate) fn hear<S: Source, M: Metronome>(
        &mut self,
        alloc: Global,
        source: &mut S,
        beats: &mut M,
    ) -> Result<Fed, NoMemory>
        requires { self.old.ended ≡ None }
        ensures follows { Follows
            (hearing self.old (S.left source.old) (S.faults source.old) (M.beats beats.old))
            (hearing self.new (S.left source.new) (S.faults source.new) (M.beats beats.new)) }
        ensures ok { IfOk result (λ fed. HasGiven self.old.header self.old.given fed self.new.given
            (is_some self.new.ended)) }
        ensures err { OnErr result ((self.new.given ≡ self.old.given) × (self.new.ended ≡ None)
            × (self.new.spent ≡ true)) }
    {
        if self.spent {
            return Err(AllocError);
        }
        self.spent = true;
        let line = self.lines.next(alloc, source)?;
        let fed = self.take(alloc, line, beats)?;
        self.spent = false;
        Ok(fed)
    }

    /// Takes an answer of the reader.
    fn take<M: Metronome>(
        &mut self,
        alloc: Global,
        line: Line,
        beats: &mut M,
    ) -> Result<Fed, NoMemory>
        requires open { (self.old.ended ≡ None) × (self.old.spent ≡ true) }
        requires last { self.old.last ≡ last_group 0 self.old.given }
        requires few { IfFull line (self.old.number + 1 < 2 ^ 64) }
        ensures takes { OnOk result (Takes line self.old self.new (M.beats beats.old) (M.beats beats.new)) }
        ensures ok { IfOk result (λ fed. HasGiven self.old.header self.old.given fed self.new.given
            (is_some self.new.ended)) }
        ensures err { OnErr result (IsLeft self.old self.new) }
    {
        match line {
            Line::Full(text) => self.take_line(alloc, text.as_slice(), beats),
            Line::Rest(_text) => Ok(self.close_at(Cause::Syntax)),
            Line::End => Ok(self.close(LiveEnd::Closed)),
            Line::Failed => Ok(self.close(LiveEnd::Failed)),
            Line::TooBig => Ok(self.close(LiveEnd::TooBig)),
        }
    }

    /// Takes a line, without its newline.
    fn take_line<M: Metronome>(
        &mut self,
        alloc: Global,
        text: &[u8],
        beats: &mut M,
    ) -> Result<Fed, NoMemory>
        requires open { (self.old.ended ≡ None) × (self.old.spent ≡ true) }
        requires last { self.old.last ≡ last_group 0 self.old.given }
        requires few { self.old.number + 1 < 2 ^ 64 }
        ensures takes { OnOk result (TakesLine text.now self.old self.new (M.beats beats.old) (M.beats beats.new)) }
        ensures ok { IfOk result (λ fed. HasGiven self.old.header self.old.given fed self.new.given
            (is_some self.new.ended)) }
        ensures err { OnErr result (IsLeft self.old self.new) }
    {
        if is_end(text) {
            return Ok(self.close(LiveEnd::Closed));
        }
        match read_live(alloc, &self.header, text) {
            Ok((router, input)) => self.accept(alloc, text, router, input, beats),
            Err(LiveError::Bad(cause)) => Ok(self.close_at(cause)),
            Err(LiveError::NoMemory) => Err(AllocError),
        }
    }

    /// Gives the input of a line, stamped by the beat that comes now.
    fn accept<M: Metronome>(
        &mut self,
        alloc: Global,
        text: &[u8],
        router: u16,
        input: Input,
        beats: &mut M,
    ) -> Result<Fed, NoMemory>
        requires open { (self.old.ended ≡ None) × (self.old.spent ≡ true) }
        requires last { self.old.last ≡ last_group 0 self.old.given }
        requires few { self.old.number + 1 < 2 ^ 64 }
        requires read { IsLiveLine self.old.header router input text.now }
        ensures accepts { OnOk result (Accepts text.now self.old self.new (M.beats beats.old) (M.beats beats.new)) }
        ensures ok { IfOk result (λ fed. HasGiven self.old.header self.old.given fed self.new.given
            (is_some self.new.ended)) }
        ensures err { OnErr result (IsLeft self.old self.new) }
    {
        let kept = input.copy(alloc)?;
        let group = self.recorder.stamp(beats.passed());
        self.given.push(External {
            group,
            router,
            input: kept,
        })?;
        self.number += 1;
        Ok(Fed::One(router, input, group))
    }

    /// Closes at the next line, which has no reading for this cause.
    fn close_at(&mut self, cause: Cause) -> Fed
        requires { self.old.ended ≡ None }
        ensures closed { self.new ≡ record self.old {
          ended = Some (LiveEnd.Bad (record { line = self.old.number; cause = cause }));
        } }
        ensures fed { result ≡ Fed.Closed }
    {
        let line = self.number;
        self.close(LiveEnd::Bad(CaseFault { line, cause }))
    }

    /// Closes.
    fn close(&mut self, end: LiveEnd) -> Fed
        ensures closed { self.new ≡ record self.old { ended = Some end } }
        ensures fed { result ≡ Fed.Closed }
    {
        self.ended = Some(end);
        Fed::Closed
    }
}

/// Whether it is the line that closes a feed.
fn is_end(text: &[u8]) -> bool
    ensures { IsTrue result ↔ (text.now ≡ codes "end") }
{
    text == b"end".as_slice()
}
