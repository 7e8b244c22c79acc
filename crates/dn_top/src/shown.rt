//! The fabric of a case, and writing the trace that it shows and its journal, whoever drove it.

ghost use Rattle.std.specs.Prelude.{◌≡◌, ◌≤◌, ◌++◌, length, IfOk, OnOk, IsErrOf};
ghost use Rattle.dn_io.specs.Streams.{Rose, behind, PutsFront};
ghost use Rattle.dn_model.specs.Network.{state};
ghost use Rattle.dn_world.specs.World.{part};
ghost use Rattle.dn_fabric.specs.Driven.{IsOpening};
ghost use Rattle.dn_fabric.specs.Fabrics.{IsNetworkOf};
ghost use Rattle.guest_any.specs.Any.{any};
ghost use Rattle.dn_journal.specs.Spelling.{journal_text};
ghost use Rattle.dn_trace.specs.Trace.{state_lines, end_line, end_text};
ghost use Rattle.dn_top.specs.Promises.{network_of, trace_of, shaken, is_cut_case, is_cut_ending};
ghost use Rattle.dn_top.specs.Drives.{IsFabricOf, ShowsCase, Writes};

use crate::status::Status;
use crate::written::{Shown, guests_of, write_run};
use dn_fabric::Fabric;
use dn_guest::{Bytes, NoMemory};
use dn_io::Sink;
use dn_journal::write_journal;
use dn_model::{Case, Header, RouterDef};
use dn_trace::{Ending, WriteError, push_cut_line, push_end_line, push_state, write_shown};
use guest_any::AnyGuest;
use std::alloc::Global;

/// The fabric of the case before its first step, with the guest of its kind at each router.
pub(crate) fn fabric_of(alloc: Global, case: &Case) -> Result<Fabric<AnyGuest>, NoMemory>
    ensures opening { IfOk result (λ made. IsOpening made) }
    ensures case { IfOk result (λ made. IsFabricOf case.now made) }
{
    let guests = guests_of(alloc, case)?;
    Fabric::new(alloc, case.header.copy(alloc)?, guests)
}

/// Appends the line of each router's state.
fn push_states(
    alloc: Global,
    case: &Case,
    routers: &[RouterDef],
    fabric: &Fabric<AnyGuest>,
    out: &mut Bytes,
) -> Result<(), NoMemory>
    requires of { IsFabricOf case.now fabric.now }
    requires same { case.now.header.routers ≡ routers.now }
    requires few { length routers.now ≤ 64 }
    ensures { OnOk result (out.new ≡ out.old ++
        state_lines any routers.now (λ r. state (network_of case.now.header) r (part fabric.now.live.world r).done) (length routers.now)) }
{
    for router in 0..routers.len() {
        let number = router as u16;
        push_state(alloc, out, routers, number, fabric.node(number))?;
    }
    Ok(())
}

/// Appends the number of rows.
fn push_row_count(fabric: &Fabric<AnyGuest>, out: &mut Bytes) -> Result<(), NoMemory>
    ensures { OnOk result (out.new ≡ out.old ++ end_line (length fabric.now.live.rows)) }
{
    push_end_line(fabric.rows_from(0).len() as u64, out)
}

/// Appends how the trace ends behind its rows.
fn push_ends(
    alloc: Global,
    case: &Case,
    routers: &[RouterDef],
    fabric: &Fabric<AnyGuest>,
    out: &mut Bytes,
) -> Result<(), NoMemory>
    requires of { IsFabricOf case.now fabric.now }
    requires same { case.now.header.routers ≡ routers.now }
    requires few { length routers.now ≤ 64 }
    requires shows { ShowsCase case.now fabric.now }
    ensures { OnOk result (out.new ≡ out.old ++ end_text (network_of case.now.header) case.now.feed) }
{
    if fabric.is_cut() {
        return push_cut_line(out);
    }
    push_states(alloc, case, routers, fabric, out)?;
    push_row_count(fabric, out)
}

/// How the trace ends.
fn ending_of(fabric: &Fabric<AnyGuest>) -> Ending
    ensures { is_cut_ending result ≡ fabric.now.live.cut }
{
    if fabric.is_cut() {
        Ending::Cut
    } else {
        Ending::Whole
    }
}

/// Writes the trace that the fabric shows, and says how it ends.
pub(crate) fn write_driven_trace<K: Sink>(
    alloc: Global,
    case: &Case,
    header: &Header,
    fabric: &Fabric<AnyGuest>,
    sink: &mut K,
) -> Result<Ending, WriteError>
    requires of { IsFabricOf case.now fabric.now }
    requires same { case.now.header ≡ header.now }
    requires shows { ShowsCase case.now fabric.now }
    ensures whole { OnOk result (K.holds sink.new ≡ behind (K.holds sink.old) (trace_of case.now)) }
    ensures ending { IfOk result (λ ending. is_cut_case case.now ≡ is_cut_ending ending) }
    ensures front { PutsFront (K.holds sink.old) (K.holds sink.new) (trace_of case.now) }
    ensures fault { IsErrOf result WriteError.Fault → Rose (K.faults sink.old) (K.faults sink.new) }
    ensures later { K.faults sink.old ≤ K.faults sink.new }
{
    dn_io::laws::fronts();
    let mut ends = Bytes::new(alloc);
    let Ok(()) = push_ends(alloc, case, header.routers.as_slice(), fabric, &mut ends) else {
        return Err(WriteError::NoMemory);
    };
    write_shown(alloc, header, fabric.rows_from(0), &ends, sink)?;
    Ok(ending_of(fabric))
}

/// Writes the recording, the trace that the fabric shows, and the journal of its steps.
pub(crate) fn write_with_journal<K: Sink>(
    alloc: Global,
    case: &Case,
    header: &Header,
    fabric: &Fabric<AnyGuest>,
    sink: &mut K,
) -> Status
    requires of { IsFabricOf case.now fabric.now }
    requires same { case.now.header ≡ header.now }
    requires shows { ShowsCase case.now fabric.now }
    ensures answers { Writes case.now (shaken case.now fabric.now.journal) result (K.holds sink.old)
        (K.holds sink.new) }
    ensures fault { result ≡ Status.WriteFault → Rose (K.faults sink.old) (K.faults sink.new) }
    ensures later { K.faults sink.old ≤ K.faults sink.new }
{
    let mut journal = Bytes::new(alloc);
    match push_journal(header, fabric, &mut journal) {
        Ok(()) => write_run(alloc, case, Shown::Driven(fabric), &journal, sink),
        Err(_) => Status::NoMemory,
    }
}

/// Appends the journal.
fn push_journal(header: &Header, fabric: &Fabric<AnyGuest>, out: &mut Bytes) -> Result<(), NoMemory>
    requires { IsNetworkOf (network_of header.now) any fabric.now.live.header fabric.now.live.openings }
    ensures { OnOk result (out.new ≡ out.old ++ journal_text header.now fabric.now.journal) }
{
    let _groups = header.groups;
    dn_journal::laws::legal_steps_may_stand_in_a_journal::<AnyGuest>();
    write_journal(header, fabric.journal(), out)
}
