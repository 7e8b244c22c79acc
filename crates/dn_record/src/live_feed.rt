//! The feeder of lines that come while the run goes on.

ghost use Rattle.std.specs.Prelude.{◌≡◌, ◌<◌, ◌+◌, ◌^◌, None, true, false, is_some, IfOk, OnErr};
ghost use Rattle.dn_record.specs.Feeding.{HasGiven};
ghost use Rattle.dn_record.specs.Live.{Live, Follows, hearing, opening_live};

use crate::live_log::LiveLog;
use crate::{Fed, Feeder, LiveEnd};
use dn_guest::NoMemory;
use dn_io::{LineReader, Metronome, Source};
use dn_model::{Case, Header};
use std::alloc::Global;

/// The feeder of live lines: it gives what each line of the source asks, stamped with the group of the beat at which
/// the line came, and closes behind the last one.
///
/// Seen as `Hearing` of `specs/Live.antt`.
#[derive(Drop)]
pub struct LiveFeed<'s, 'm, S: Source, M: Metronome> {
    pub(crate) live: LiveLog,
    pub(crate) source: &'s mut S,
    pub(crate) beats: &'m mut M,
}

impl<'s, 'm, S: Source, M: Metronome> LiveFeed<'s, 'm, S, M> {
    /// A feeder of the lines that the reader gives from now on, of which the first has this number.
    pub fn new(
        alloc: Global,
        header: Header,
        lines: LineReader,
        first: u64,
        source: &'s mut S,
        beats: &'m mut M,
    ) -> LiveFeed<'s, 'm, S, M>
        requires open { lines.is_open ≡ true }
        requires few { first + lines.room < 2 ^ 64 }
        ensures live { result.live ≡ opening_live header lines first }
        ensures source { (result.source.ghost_name ≡ source.entry.ghost_name) × (result.source.now ≡ source.old) }
        ensures beats { (result.beats.ghost_name ≡ beats.entry.ghost_name) × (result.beats.now ≡ beats.old) }
    {
        let live = LiveLog::new(alloc, header, lines, first);
        LiveFeed {
            live,
            source,
            beats,
        }
    }

    /// Why it has closed; None while it hasn't.
    pub fn ended(&self) -> Option<LiveEnd>
        ensures { result ≡ self.now.live.ended }
    {
        self.live.ended()
    }

    /// The header with all that was given, the recording of what was heard; and the source and the metronome, as they
    /// are.
    pub fn into_parts(self) -> (Case, &'s mut S, &'m mut M)
        ensures case { result.0 ≡ record { header = self.entry.live.header; feed = self.entry.live.given } }
        ensures source { (result.1.ghost_name ≡ self.entry.source.ghost_name)
            × (result.1.now ≡ self.entry.source.now) }
        ensures beats { (result.2.ghost_name ≡ self.entry.beats.ghost_name)
            × (result.2.now ≡ self.entry.beats.now) }
    {
        let LiveFeed {
            live,
            source,
            beats,
        } = self;
        (live.into_case(), source, beats)
    }
}

impl<'s, 'm, S: Source, M: Metronome> Feeder for LiveFeed<'s, 'm, S, M> {
    ghost use Rattle.std.specs.Prelude.{◌≡◌, is_some};
    ghost use Rattle.std.proofs.Common.{◌∙◌, refl};
    ghost use Rattle.dn_record.specs.Live.{Follows, hearing};
    ghost use Rattle.dn_record.specs.Following.{follows_itself, follows_onward, follows_with_header};

    ghost header = { λ f. f.live.header };

    ghost given = { λ f. f.live.given };

    ghost closed = { λ f. is_some f.live.ended };

    ghost comes = { λ f g. (g.source.ghost_name ≡ f.source.ghost_name) × (g.beats.ghost_name ≡ f.beats.ghost_name)
        × Follows (hearing f.live (S.left f.source.now) (S.faults f.source.now) (M.beats f.beats.now))
        (hearing g.live (S.left g.source.now) (S.faults g.source.now) (M.beats g.beats.now)) };

    fn next(&mut self, alloc: Global) -> Result<Fed, NoMemory> {
        self.live.hear(alloc, self.source, self.beats)
    }

    ghost comes_from_itself = { λ f. (refl, refl, follows_itself _) };

    ghost comes_onward = { λ f g h c d. (d.0 ∙ c.0, d.1 ∙ c.1, follows_onward _ _ _ c.2 d.2) };

    ghost comes_with_header = { λ f g c. follows_with_header _ _ c.2 };
}
