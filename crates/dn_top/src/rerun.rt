//! `rerun`: the steps of a journal are taken one by one.

ghost use Rattle.std.specs.Prelude.{◌≡◌, ◌+◌, ◌<◌, ◌≤◌, ◌^◌, true, length, take, IfOk, IfErr};
ghost use Rattle.dn_io.specs.Streams.{Rose};
ghost use Rattle.dn_model.specs.Cases.{IsRecording};
ghost use Rattle.dn_text.specs.Lines.{lines};
ghost use Rattle.dn_journal.specs.Reading.{IsJournal};
ghost use Rattle.dn_fabric.specs.Driven.{IsOpening};
ghost use Rattle.dn_drive.specs.Endings.{StandsAt};
ghost use Rattle.dn_top.specs.Promises.{AnswersRerun, HasCase, network_of, outcome_of, written, journal_place, journal_lines, input_limit, is_of_case};
ghost use Rattle.dn_top.specs.Drives.{IsFabricOf, Drives, IsJournalRefusal, HasOneJournal};

use crate::checking::behind;
use crate::ends::ends;
use crate::input::one_reading;
use crate::shown::fabric_of;
use crate::status::Status;
use crate::written::{Shown, write_run};
use dn_case::{CaseError, CaseFault, split_trace};
use dn_drive::{Ended, replay};
use dn_fabric::Fabric;
use dn_guest::{Bytes, NoMemory};
use dn_io::Sink;
use dn_journal::{Step, read_journal};
use dn_model::{Case, External, Header};
use dn_text::first_line;
use guest_any::AnyGuest;
use std::alloc::Global;

/// Takes the steps of the journal behind the case, which has the first `size` bytes.
pub(crate) fn rerun_case<K: Sink>(
    alloc: Global,
    input: &[u8],
    case: &Case,
    size: u64,
    sink: &mut K,
) -> Status
    requires has { HasCase input.now case.now size }
    requires within { size ≤ length input.now }
    ensures answers { AnswersRerun result input.now (K.holds sink.old) (K.holds sink.new) }
    ensures one { HasOneJournal input.now }
    ensures only { is_of_case result ≡ true }
    ensures fault { result ≡ Status.WriteFault → Rose (K.faults sink.old) (K.faults sink.new) }
    ensures later { K.faults sink.old ≤ K.faults sink.new }
{
    ends();
    one_reading();
    match steps_behind(alloc, input, &case.header, size) {
        Ok(steps) => rerun_steps(alloc, case, steps.as_slice(), sink),
        Err(status) => status,
    }
}

/// Where the journal begins: behind the first `size` bytes, and behind the trace section there, if any.
fn journal_place(input: &[u8], size: u64) -> u64
    requires within { size ≤ length input.now }
    requires small { length input.now ≤ input_limit }
    ensures place { result ≡ journal_place input.now size }
    ensures within { result ≤ length input.now }
{
    dn_journal::laws::lines_are_the_text();
    size + split_trace(behind(input, size))
}

/// The steps of the journal behind the first `size` bytes.
fn steps_behind(
    alloc: Global,
    input: &[u8],
    header: &Header,
    size: u64,
) -> Result<Vec<Step>, Status>
    requires within { size ≤ length input.now }
    requires small { length input.now ≤ input_limit }
    ensures found { IfOk result (λ steps. IsJournal header.now (journal_lines input.now size) steps.items) }
    ensures refusal { IfErr result (λ status. IsJournalRefusal header.now input.now size status) }
{
    let place = journal_place(input, size);
    match read_journal(alloc, header, behind(input, place)) {
        Ok(steps) => Ok(steps),
        Err(CaseError::Fault(fault)) => {
            Err(Status::BadCase(in_the_input(front(input, place), fault)))
        }
        Err(CaseError::NoMemory) => Err(Status::NoMemory),
    }
}

/// The first `size` bytes.
fn front(input: &[u8], size: u64) -> &[u8]
    requires { size ≤ length input.now }
    ensures { result.now ≡ take size input.now }
{
    &input[..size as usize]
}

/// The fault with its line counted from the front of the input on.
fn in_the_input(front: &[u8], fault: CaseFault) -> CaseFault
    requires { length front.now + fault.line < 2 ^ 64 }
    ensures line { result.line ≡ length (lines front.now) + fault.line }
    ensures cause { result.cause ≡ fault.cause }
{
    CaseFault {
        line: count_lines(front) + fault.line,
        cause: fault.cause,
    }
}

/// How many lines a text has. A last one may have no newline.
fn count_lines(text: &[u8]) -> u64
    ensures count { result ≡ length (lines text.now) }
    ensures few { result ≤ length text.now }
{
    let mut count = 0;
    let mut left = text;
    'lines: while !left.is_empty() {
        let (_, behind) = first_line(left);
        count += 1;
        left = behind;
    }
    count
}

/// Takes the steps on the case's fabric, as it is before the first one.
fn replayed(
    alloc: Global,
    case: &Case,
    feed: &[External],
    steps: &[Step],
    fabric: &mut Fabric<AnyGuest>,
) -> Result<Ended, NoMemory>
    requires opening { IsOpening fabric.old }
    requires of { IsFabricOf case.now fabric.old }
    requires rules { IsRecording case.now }
    requires same { case.now.feed ≡ feed.now }
    ensures comes { IfOk result (λ ended. ended ≡ outcome_of case.now steps.now) }
    ensures stands { IfOk result (λ ended. StandsAt (network_of case.now.header) case.now.feed ended fabric.new) }
    ensures of { IsFabricOf case.now fabric.new }
{
    replay(alloc, fabric, feed, steps)
}

/// Takes the steps, and writes what they come to.
fn rerun_steps<K: Sink>(alloc: Global, case: &Case, steps: &[Step], sink: &mut K) -> Status
    ensures answers { Drives case.now (outcome_of case.now steps.now) (written case.now) result (K.holds sink.old)
        (K.holds sink.new) }
    ensures fault { result ≡ Status.WriteFault → Rose (K.faults sink.old) (K.faults sink.new) }
    ensures later { K.faults sink.old ≤ K.faults sink.new }
{
    let Ok(mut fabric) = fabric_of(alloc, case) else {
        return Status::NoMemory;
    };
    let feed = case.feed.as_slice();
    match replayed(alloc, case, feed, steps, &mut fabric) {
        Ok(ended) => write_rerun(alloc, case, &fabric, ended, sink),
        Err(_) => Status::NoMemory,
    }
}

/// Writes the recording and the trace, where there is one to show.
fn write_rerun<K: Sink>(
    alloc: Global,
    case: &Case,
    fabric: &Fabric<AnyGuest>,
    ended: Ended,
    sink: &mut K,
) -> Status
    requires of { IsFabricOf case.now fabric.now }
    requires stands { StandsAt (network_of case.now.header) case.now.feed ended fabric.now }
    ensures answers { Drives case.now ended (written case.now) result (K.holds sink.old) (K.holds sink.new) }
    ensures fault { result ≡ Status.WriteFault → Rose (K.faults sink.old) (K.faults sink.new) }
    ensures later { K.faults sink.old ≤ K.faults sink.new }
{
    match ended {
        Ended::Whole | Ended::Cut => {
            let nothing = Bytes::new(alloc);
            write_run(alloc, case, Shown::Driven(fabric), &nothing, sink)
        }
        Ended::Illegal(number) => Status::Illegal(number),
        Ended::Open => Status::Open,
    }
}
