//! `run`: a feeder and workers, each on a thread of its own, take the steps of a case.

ghost use Rattle.std.specs.Prelude.{◌≡◌, ◌≤◌, [], false, length, IfOk};
ghost use Rattle.dn_io.specs.Streams.{Rose};
ghost use Rattle.dn_model.specs.Cases.{Recording, IsRecording};
ghost use Rattle.dn_record.specs.Feeding.{ListFeeding};
ghost use Rattle.dn_fabric.specs.Fabrics.{Fabric, IsReached};
ghost use Rattle.dn_workers.specs.Holds.{IsOver};
ghost use Rattle.guest_any.specs.declared.any.AnyGuest.{AnyGuest};
ghost use Rattle.dn_top.specs.declared.words.Command.TheVariants.{Run};
ghost use Rattle.dn_top.specs.Promises.{HasCase, IsCaseRun, network_of, is_cut_case, run_text};
ghost use Rattle.dn_top.specs.Drives.{HasEnded, ShowsCase, Writes};
ghost use Rattle.dn_top.specs.Commands.{Fulfils};

use crate::input::Given;
use crate::shown::{fabric_of, write_with_journal};
use crate::status::Status;
use crate::words::RunOptions;
use crate::written::{Shown, write_run};
use dn_fabric::Fabric;
use dn_guest::{Bytes, NoMemory};
use dn_io::Sink;
use dn_model::Case;
use dn_record::ListFeed;
use dn_workers::{Gate, run_threads};
use guest_any::AnyGuest;
use std::alloc::Global;
use std::sync::Wait;
use std::thread::Threads;

/// Runs the case on threads, and writes what they come to.
pub(crate) fn run_case<K: Sink, Y: Gate + Sync, R: Threads + Wait + Sync>(
    rt: &R,
    alloc: Global,
    options: RunOptions,
    given: &Given,
    sink: &mut K,
    gate: &Y,
) -> Status
    requires has { HasCase given.now.input.items given.now.case given.now.size }
    requires some { 1 ≤ options.workers }
    requires few { options.workers ≤ 16 }
    ensures { Fulfils (Run options) given.now.input.items result (K.holds sink.old) (K.holds sink.new)
        (K.faults sink.old) (K.faults sink.new) }
{
    match threaded(rt, alloc, &given.case, options.workers, gate) {
        Ok(fabric) => write_threaded(alloc, &given.case, &fabric, options.journal, sink),
        Err(_) => Status::NoMemory,
    }
}

/// The feeder of the case, which has given nothing yet.
fn feed_of(alloc: Global, case: &Case) -> Result<ListFeed, NoMemory>
    ensures { IfOk result (λ feeder. feeder ≡ record {
      header = case.now.header;
      feed = case.now.feed;
      place = 0;
      closed = false;
    }) }
{
    let header = case.header.copy(alloc)?;
    let feed = case.feed.copy(alloc)?;
    Ok(ListFeed::new(header, feed))
}

/// The fabric of the case at the end of its run, or where that is cut.
fn threaded<Y: Gate + Sync, R: Threads + Wait + Sync>(
    rt: &R,
    alloc: Global,
    case: &Case,
    workers: u16,
    gate: &Y,
) -> Result<Fabric<AnyGuest>, NoMemory>
    requires some { 1 ≤ workers }
    requires few { workers ≤ 16 }
    ensures { IfOk result (λ fabric. HasEnded case.now fabric) }
{
    let fabric = fabric_of(alloc, case)?;
    let mut feeder = feed_of(alloc, case)?;
    let ran = run_threads(rt, alloc, fabric, workers, &mut feeder, gate)?;
    let _all = feeder.given();
    Ok(ran)
}

/// Writes the recording and the trace, and then the journal if that is asked for.
pub(crate) fn write_threaded<K: Sink>(
    alloc: Global,
    case: &Case,
    fabric: &Fabric<AnyGuest>,
    journal: bool,
    sink: &mut K,
) -> Status
    requires { HasEnded case.now fabric.now }
    ensures run { IsCaseRun case.now (is_cut_case case.now) fabric.now.journal }
    ensures answers { Writes case.now (run_text journal case.now fabric.now.journal) result (K.holds sink.old)
        (K.holds sink.new) }
    ensures fault { result ≡ Status.WriteFault → Rose (K.faults sink.old) (K.faults sink.new) }
    ensures later { K.faults sink.old ≤ K.faults sink.new }
{
    ended_fabrics();
    let header = &case.header;
    let _steps = fabric.journal();
    if journal {
        write_with_journal(alloc, case, header, fabric, sink)
    } else {
        let nothing = Bytes::new(alloc);
        write_run(alloc, case, Shown::Driven(fabric), &nothing, sink)
    }
}

/// A fabric that has ended shows the run of the case, and its steps are such a run.
fn ended_fabrics()
    ensures shows { (c : Recording) (f : Fabric AnyGuest) → IsRecording c → HasEnded c f
        → IsReached (network_of c.header) f → ShowsCase c f }
    ensures run { (c : Recording) (f : Fabric AnyGuest) → IsRecording c → HasEnded c f
        → IsReached (network_of c.header) f → IsCaseRun c (is_cut_case c) f.journal }
{
    dn_model::laws::cases_are_timed::<AnyGuest>();
    dn_world::laws::runs::<AnyGuest>();
    dn_fabric::laws::reached_fabrics::<AnyGuest>();
    dn_drive::laws::cut_runs::<AnyGuest>();
    dn_drive::laws::legal_runs_are_taken::<AnyGuest>();
}
