//! `run --live`: the lines that come while the run goes on, the run of what was heard, and what is written of it.

ghost use Rattle.std.specs.Prelude.{◌≡◌, ◌≤◌, ◌<◌, ◌+◌, ◌^◌, [], None, true, is_some, IfOk, OnOk};
ghost use Rattle.dn_record.specs.Live.{Follows, hearing};
ghost use Rattle.dn_fabric.specs.Driven.{IsOpening};
ghost use Rattle.dn_workers.specs.Runs.{HasRun};
ghost use Rattle.guest_any.specs.Any.{any};
ghost use Rattle.dn_top.specs.Drives.{HasEnded};
ghost use Rattle.dn_top.specs.Commands.{streams};
ghost use Rattle.dn_top.specs.LiveRuns.{Listens, LivePromise, last_status, refusal_or};

use crate::live_head::{Head, read_head};
use crate::shown::fabric_of;
use crate::status::Status;
use crate::threads::write_threaded;
use crate::words::RunOptions;
use dn_fabric::Fabric;
use dn_guest::NoMemory;
use dn_io::{Metronome, Sink, Source};
use dn_model::Case;
use dn_record::{LiveEnd, LiveFeed};
use dn_workers::{Gate, run_threads};
use guest_any::AnyGuest;
use std::alloc::Global;
use std::sync::Wait;
use std::thread::Threads;

/// Reads the head, listens behind it until the feed closes, and writes what was heard and the trace of its run.
pub(crate) fn run_live<
    S: Source + Send,
    K: Sink,
    M: Metronome + Send,
    Y: Gate + Sync,
    R: Threads + Wait + Sync,
>(
    rt: &R,
    alloc: Global,
    options: RunOptions,
    source: &mut S,
    sink: &mut K,
    beats: &mut M,
    gate: &Y,
) -> Status
    requires some { 1 ≤ options.workers }
    requires few { options.workers ≤ 16 }
    ensures { LivePromise options result
        (streams (S.left source.old) (S.faults source.old) (K.holds sink.old) (K.faults sink.old))
        (streams (S.left source.new) (S.faults source.new) (K.holds sink.new) (K.faults sink.new))
        (M.beats beats.old) (M.beats beats.new) }
{
    match read_head(alloc, source) {
        Ok(head) => match hear(rt, alloc, head, options.workers, source, beats, gate) {
            Ok(heard) => {
                let written = write_threaded(
                    alloc,
                    &heard.case,
                    &heard.fabric,
                    options.journal,
                    sink,
                );
                behind(written, heard.end)
            }
            Err(_) => Status::NoMemory,
        },
        Err(status) => status,
    }
}

/// What was heard, its run at the end or where that is cut, and why nothing more is heard.
#[derive(Drop)]
struct Heard {
    case: Case,
    fabric: Fabric<AnyGuest>,
    end: LiveEnd,
}

/// Listens until the feed closes, and runs what comes on threads.
fn hear<S: Source + Send, M: Metronome + Send, Y: Gate + Sync, R: Threads + Wait + Sync>(
    rt: &R,
    alloc: Global,
    head: Head,
    workers: u16,
    source: &mut S,
    beats: &mut M,
    gate: &Y,
) -> Result<Heard, NoMemory>
    requires some { 1 ≤ workers }
    requires few { workers ≤ 16 }
    requires open { (head.lines.is_open ≡ true) × (head.first + head.lines.room < 2 ^ 64) }
    ensures heard { IfOk result (λ heard. Listens head.case.header head.lines head.first (S.left source.old)
        (S.left source.new) (S.faults source.old) (S.faults source.new) (M.beats beats.old) (M.beats beats.new)
        heard.case heard.end) }
    ensures ended { IfOk result (λ heard. HasEnded heard.case heard.fabric) }
{
    let Head { case, lines, first } = head;
    let fabric = fabric_of(alloc, &case)?;
    let header = case.header;
    let mut feed = LiveFeed::new(alloc, header, lines, first, source, beats);
    let fabric = run_by(rt, alloc, fabric, workers, &mut feed, gate)?;
    let Some(end) = feed.ended() else {
        unreachable!();
    };
    let (case, source, beats) = feed.into_parts();
    // Both borrows end here, each by itself.
    let _source = source;
    let _beats = beats;
    Ok(Heard { case, fabric, end })
}

/// Runs the fabric by a live feed until that has closed. The feed keeps its source and its metronome.
fn run_by<'s, 'm, S: Source + Send, M: Metronome + Send, Y: Gate + Sync, R: Threads + Wait + Sync>(
    rt: &R,
    alloc: Global,
    fabric: Fabric<AnyGuest>,
    workers: u16,
    feed: &mut LiveFeed<'s, 'm, S, M>,
    gate: &Y,
) -> Result<Fabric<AnyGuest>, NoMemory>
    requires opening { IsOpening fabric }
    requires some { 1 ≤ workers }
    requires few { workers ≤ 16 }
    requires feed { (feed.old.live.header ≡ fabric.live.header) × (feed.old.live.given ≡ [])
        × (feed.old.live.ended ≡ None) }
    ensures source { feed.new.source.ghost_name ≡ feed.old.source.ghost_name }
    ensures beats { feed.new.beats.ghost_name ≡ feed.old.beats.ghost_name }
    ensures follows { Follows
        (hearing feed.old.live (S.left feed.old.source.now) (S.faults feed.old.source.now) (M.beats feed.old.beats.now))
        (hearing feed.new.live (S.left feed.new.source.now) (S.faults feed.new.source.now) (M.beats feed.new.beats.now)) }
    ensures ran { IfOk result (λ now. HasRun any fabric feed.new.live.given now) }
    ensures closed { OnOk result (is_some feed.new.live.ended ≡ true) }
{
    run_threads(rt, alloc, fabric, workers, feed, gate)
}

/// How the run ended, behind what was written: a refusal of a live line goes before a cut.
#[tactic(auto, unfolding(crate::specs::LiveRuns::last_status, crate::specs::LiveRuns::refusal_or))]
fn behind(written: Status, end: LiveEnd) -> Status
    ensures { result ≡ last_status written end }
{
    match written {
        Status::Ok => refusal_or(Status::Ok, end),
        Status::Cut => refusal_or(Status::Cut, end),
        other => other,
    }
}

/// The refusal that ended the feed; if it was none, this status.
fn refusal_or(status: Status, end: LiveEnd) -> Status
    ensures { result ≡ refusal_or status end }
{
    match end {
        LiveEnd::Closed => status,
        LiveEnd::Failed => Status::ReadFault,
        LiveEnd::TooBig => Status::TooBig,
        LiveEnd::Bad(fault) => Status::BadCase(fault),
    }
}
