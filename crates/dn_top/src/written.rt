//! Writing a case and the trace of its run, which the lockstep engine or a fabric shows.

ghost use Rattle.std.specs.Prelude.{◌≡◌, ◌≤◌, ◌++◌, map, length, IfOk, OnOk, IsErrOf};
ghost use Rattle.std.specs.List.{range_with_len};
ghost use Rattle.dn_io.specs.Streams.{Rose, behind, PutsFront};
ghost use Rattle.dn_case.specs.Spelling.{case_text};
ghost use Rattle.guest_any.specs.Any.{any};
ghost use Rattle.guest_any.specs.Openings.{opening_guest};
ghost use Rattle.dn_trace.specs.Streaming.{IsRunOf};
ghost use Rattle.dn_top.specs.Promises.{network_of, written, trace_of, is_cut_case, is_cut_ending};
ghost use Rattle.dn_top.specs.Drives.{IsShown, Writes};

use crate::shown::write_driven_trace;
use crate::status::Status;
use dn_case::write_case;
use dn_fabric::Fabric;
use dn_guest::{Bytes, NoMemory};
use dn_io::Sink;
use dn_model::{Case, Header};
use dn_trace::{Ending, WriteError, put_text, write_trace};
use guest_any::{AnyGuest, make};
use std::alloc::Global;

/// The run of a case whose trace is written.
#[derive(Clone, Copy)]
pub(crate) enum Shown<'a> {
    /// The lockstep run, which is made while it is written.
    Lockstep,
    /// What this fabric shows of the run.
    Driven(&'a Fabric<AnyGuest>),
}

/// Writes the recording and the trace of the lockstep run.
pub(crate) fn lockstep_case<K: Sink>(alloc: Global, case: &Case, sink: &mut K) -> Status
    ensures answers { Writes case.now (written case.now) result (K.holds sink.old) (K.holds sink.new) }
    ensures fault { result ≡ Status.WriteFault → Rose (K.faults sink.old) (K.faults sink.new) }
    ensures later { K.faults sink.old ≤ K.faults sink.new }
{
    let nothing = Bytes::new(alloc);
    write_run(alloc, case, Shown::Lockstep, &nothing, sink)
}

/// Writes the recording, the trace of the run that is shown, and then more.
pub(crate) fn write_run<K: Sink>(
    alloc: Global,
    case: &Case,
    shown: Shown,
    more: &Bytes,
    sink: &mut K,
) -> Status
    requires { IsShown case.now shown }
    ensures answers { Writes case.now (written case.now ++ more.now) result (K.holds sink.old) (K.holds sink.new) }
    ensures fault { result ≡ Status.WriteFault → Rose (K.faults sink.old) (K.faults sink.new) }
    ensures later { K.faults sink.old ≤ K.faults sink.new }
{
    match write_all(alloc, case, shown, more, sink) {
        Ok(Ending::Whole) => Status::Ok,
        Ok(Ending::Cut) => Status::Cut,
        Err(WriteError::Fault) => Status::WriteFault,
        Err(WriteError::NoMemory) => Status::NoMemory,
    }
}

/// The recording and the trace, and then more.
fn write_all<K: Sink>(
    alloc: Global,
    case: &Case,
    shown: Shown,
    more: &Bytes,
    sink: &mut K,
) -> Result<Ending, WriteError>
    requires { IsShown case.now shown }
    ensures whole { OnOk result (K.holds sink.new ≡ behind (K.holds sink.old) (written case.now ++ more.now)) }
    ensures ending { IfOk result (λ ending. is_cut_case case.now ≡ is_cut_ending ending) }
    ensures front { PutsFront (K.holds sink.old) (K.holds sink.new) (written case.now ++ more.now) }
    ensures fault { IsErrOf result WriteError.Fault → Rose (K.faults sink.old) (K.faults sink.new) }
    ensures later { K.faults sink.old ≤ K.faults sink.new }
{
    dn_io::laws::one_behind_the_other();
    dn_io::laws::fronts();
    let ending = write_both(alloc, case, shown, sink)?;
    put_text(sink, more)?;
    Ok(ending)
}

/// The recording, and then the trace.
fn write_both<K: Sink>(
    alloc: Global,
    case: &Case,
    shown: Shown,
    sink: &mut K,
) -> Result<Ending, WriteError>
    requires { IsShown case.now shown }
    ensures whole { OnOk result (K.holds sink.new ≡ behind (K.holds sink.old) (written case.now)) }
    ensures ending { IfOk result (λ ending. is_cut_case case.now ≡ is_cut_ending ending) }
    ensures front { PutsFront (K.holds sink.old) (K.holds sink.new) (written case.now) }
    ensures fault { IsErrOf result WriteError.Fault → Rose (K.faults sink.old) (K.faults sink.new) }
    ensures later { K.faults sink.old ≤ K.faults sink.new }
{
    dn_io::laws::one_behind_the_other();
    dn_io::laws::fronts();
    write_recording(alloc, case, sink)?;
    match shown {
        Shown::Lockstep => write_lockstep_trace(alloc, case, sink),
        Shown::Driven(fabric) => write_driven_trace(alloc, case, &case.header, fabric, sink),
    }
}

/// The recording: the one spelling of the case.
fn write_recording<K: Sink>(alloc: Global, case: &Case, sink: &mut K) -> Result<(), WriteError>
    ensures all { OnOk result (K.holds sink.new ≡ behind (K.holds sink.old) (case_text case.now)) }
    ensures front { PutsFront (K.holds sink.old) (K.holds sink.new) (case_text case.now) }
    ensures fault { IsErrOf result WriteError.Fault → Rose (K.faults sink.old) (K.faults sink.new) }
    ensures later { K.faults sink.old ≤ K.faults sink.new }
{
    let mut text = Bytes::new(alloc);
    let Ok(()) = write_case(case, &mut text) else {
        return Err(WriteError::NoMemory);
    };
    put_text(sink, &text)
}

/// The trace of the lockstep run, with the guest of its kind at each router.
fn write_lockstep_trace<K: Sink>(
    alloc: Global,
    case: &Case,
    sink: &mut K,
) -> Result<Ending, WriteError>
    ensures whole { OnOk result (K.holds sink.new ≡ behind (K.holds sink.old) (trace_of case.now)) }
    ensures ending { IfOk result (λ ending. is_cut_case case.now ≡ is_cut_ending ending) }
    ensures front { PutsFront (K.holds sink.old) (K.holds sink.new) (trace_of case.now) }
    ensures fault { IsErrOf result WriteError.Fault → Rose (K.faults sink.old) (K.faults sink.new) }
    ensures later { K.faults sink.old ≤ K.faults sink.new }
{
    let Ok(guests) = guests_of(alloc, case) else {
        return Err(WriteError::NoMemory);
    };
    write_trace(alloc, case, guests, sink)
}

/// The guest of each router of the case, before the first event.
pub(crate) fn guests_of(alloc: Global, case: &Case) -> Result<Vec<AnyGuest>, NoMemory>
    ensures one_each { IfOk result (λ guests. length guests.items ≡ length case.now.header.routers) }
    ensures run { IfOk result (λ guests. IsRunOf (network_of case.now.header) any case.now.header guests.items) }
{
    let guests = made_guests(alloc, &case.header)?;
    Ok(guests)
}

/// The guests of the routers, in order.
fn made_guests(alloc: Global, header: &Header) -> Result<Vec<AnyGuest>, NoMemory>
    ensures { IfOk result (λ guests. guests.items ≡
        map (λ r. opening_guest header.now r) (range_with_len 0 (length header.now.routers))) }
{
    let count = header.routers.as_slice().len() as u16;
    let mut guests = Vec::new(alloc);
    for router in 0..count {
        guests.push(make(alloc, header, router)?)?;
    }
    Ok(guests)
}
