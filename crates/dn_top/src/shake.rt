//! `shake`: the steps of a schedule are taken one by one.

ghost use Rattle.std.specs.Prelude.{◌≡◌, ◌≤◌, false, IfOk};
ghost use Rattle.dn_io.specs.Streams.{Rose};
ghost use Rattle.dn_model.specs.Cases.{IsRecording};
ghost use Rattle.dn_fabric.specs.Driven.{IsOpening};
ghost use Rattle.dn_drive.specs.Endings.{IsLegalEnd, StandsAt};
ghost use Rattle.dn_top.specs.Promises.{network_of, outcome_of, steps_of, shaken};
ghost use Rattle.dn_top.specs.Drives.{IsFabricOf, Drives, is_illegal};

use crate::shown::{fabric_of, write_with_journal};
use crate::status::Status;
use crate::words::Schedule;
use dn_drive::{Ended, shake};
use dn_fabric::Fabric;
use dn_guest::NoMemory;
use dn_io::Sink;
use dn_model::{Case, External};
use guest_any::AnyGuest;
use std::alloc::Global;

/// Takes the steps of the schedule on the case's fabric, as it is before the first one.
fn scheduled(
    alloc: Global,
    case: &Case,
    feed: &[External],
    schedule: Schedule,
    fabric: &mut Fabric<AnyGuest>,
) -> Result<Ended, NoMemory>
    requires opening { IsOpening fabric.old }
    requires of { IsFabricOf case.now fabric.old }
    requires rules { IsRecording case.now }
    requires same { case.now.feed ≡ feed.now }
    ensures comes { IfOk result (λ ended. ended ≡ outcome_of case.now (steps_of case.now schedule)) }
    ensures journal { IfOk result (λ ended. fabric.new.journal ≡ steps_of case.now schedule) }
    ensures stands { IfOk result (λ ended. StandsAt (network_of case.now.header) case.now.feed ended fabric.new) }
    ensures legal { IfOk result IsLegalEnd }
    ensures of { IsFabricOf case.now fabric.new }
{
    shake(alloc, fabric, feed, schedule.number, schedule.steps)
}

/// Takes the steps, and writes what they come to.
pub(crate) fn shake_case<K: Sink>(
    alloc: Global,
    schedule: Schedule,
    case: &Case,
    sink: &mut K,
) -> Status
    ensures answers { Drives case.now (outcome_of case.now (steps_of case.now schedule))
        (shaken case.now (steps_of case.now schedule)) result (K.holds sink.old) (K.holds sink.new) }
    ensures rules { IsRecording case.now }
    ensures legal { is_illegal result ≡ false }
    ensures fault { result ≡ Status.WriteFault → Rose (K.faults sink.old) (K.faults sink.new) }
    ensures later { K.faults sink.old ≤ K.faults sink.new }
{
    let feed = case.feed.as_slice();
    let Ok(mut fabric) = fabric_of(alloc, case) else {
        return Status::NoMemory;
    };
    match scheduled(alloc, case, feed, schedule, &mut fabric) {
        Ok(ended) => write_shake(alloc, case, &fabric, ended, sink),
        Err(_) => Status::NoMemory,
    }
}

/// Writes the recording, the trace and the journal, where there is a trace to show.
fn write_shake<K: Sink>(
    alloc: Global,
    case: &Case,
    fabric: &Fabric<AnyGuest>,
    ended: Ended,
    sink: &mut K,
) -> Status
    requires of { IsFabricOf case.now fabric.now }
    requires stands { StandsAt (network_of case.now.header) case.now.feed ended fabric.now }
    requires legal { IsLegalEnd ended }
    ensures answers { Drives case.now ended (shaken case.now fabric.now.journal) result (K.holds sink.old)
        (K.holds sink.new) }
    ensures legal { is_illegal result ≡ false }
    ensures fault { result ≡ Status.WriteFault → Rose (K.faults sink.old) (K.faults sink.new) }
    ensures later { K.faults sink.old ≤ K.faults sink.new }
{
    match ended {
        Ended::Whole | Ended::Cut => write_with_journal(alloc, case, &case.header, fabric, sink),
        Ended::Illegal(_) => unreachable!(),
        Ended::Open => Status::Open,
    }
}
