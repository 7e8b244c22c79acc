//! Reading the input: all of it, and the case at its front.

ghost use Rattle.std.specs.Prelude.{◌≡◌, ◌<◌, ◌≤◌, ℕ, List, [], true, length, IfOk, IfErr, IfSome, OnOk, ◌≢◌};
ghost use Rattle.dn_io.specs.Streams.{Rose, Gives};
ghost use Rattle.dn_case.specs.Reading.{IsCaseFront};
ghost use Rattle.dn_top.specs.Promises.{HasCase, input_limit, IsCaseRefusal, is_of_reading};
ghost use Rattle.dn_top.specs.Commands.{GaveAll, Refuses};
ghost use Rattle.dn_top.specs.Completeness.{HasOneReading};

use crate::status::Status;
use dn_case::{CaseError, read_case};
use dn_io::{ReadError, Source, read_all};
use dn_model::Case;
use std::alloc::Global;

/// The most bytes of an input.
pub(crate) const MOST_INPUT: u64 = 16_777_216;

/// An input with a case at its front.
#[derive(Drop)]
pub(crate) struct Given {
    /// All of the input.
    pub(crate) input: Vec<u8>,
    pub(crate) case: Case,
    /// How many bytes the case has.
    pub(crate) size: u64,
}

/// Reads the source to its end, and the case at the front of what it gave. What it refuses is the
/// answer of every command.
pub(crate) fn read_given<S: Source>(alloc: Global, source: &mut S) -> Result<Given, Status>
    ensures case { IfOk result (λ given. HasCase given.input.items given.case given.size) }
    ensures within { IfOk result (λ given. given.size ≤ length given.input.items) }
    ensures all { IfOk result (λ given. GaveAll given.input.items (S.left source.old) (S.left source.new)) }
    ensures one { IfOk result (λ given. HasOneReading given.input.items) }
    ensures refusal { IfErr result (λ status. Refuses status (S.left source.old) (S.left source.new)
        (S.faults source.old) (S.faults source.new)) }
{
    one_reading();
    let input = read_input(alloc, source)?;
    match first_case(alloc, input.as_slice()) {
        Ok((case, size)) => Ok(Given { input, case, size }),
        Err(status) => Err(status),
    }
}

/// Each input is read in one way.
pub(crate) fn one_reading()
    ensures { (input : List ℕ) → HasOneReading input }
{
    dn_case::a_text_has_one_case();
    dn_case::a_text_has_one_first_bad_line();
    dn_journal::laws::a_text_has_one_first_bad_line();
}

/// All that the source gives, at most the limit.
fn read_input<S: Source>(alloc: Global, source: &mut S) -> Result<Vec<u8>, Status>
    ensures all { IfOk result (λ all. IfSome (S.left source.old) (λ left. left ≡ all.items)) }
    ensures few { OnOk result (Gives (S.left source.old) (S.left source.new) (λ came. length came ≤ input_limit)) }
    ensures none_left { OnOk result (IfSome (S.left source.new) (λ left. left ≡ [])) }
    ensures small { IfOk result (λ all. length all.items ≤ input_limit) }
    ensures refusal { IfErr result (λ status. is_of_reading status ≡ true) }
    ensures fault { IfErr result (λ status. status ≡ Status.ReadFault →
        Rose (S.faults source.old) (S.faults source.new)) }
    ensures too_big { IfErr result (λ status. status ≡ Status.TooBig →
        Gives (S.left source.old) (S.left source.new) (λ came. input_limit < length came)) }
    ensures too_long { IfErr result (λ status. status ≡ Status.TooBig →
        IfSome (S.left source.old) (λ left. input_limit < length left)) }
    ensures not_too_big { IfErr result (λ status. status ≢ Status.TooBig →
        Gives (S.left source.old) (S.left source.new) (λ came. length came ≤ input_limit)) }
{
    match read_all(alloc, source, MOST_INPUT) {
        Ok(input) => Ok(input),
        Err(ReadError::Fault) => Err(Status::ReadFault),
        Err(ReadError::TooBig) => Err(Status::TooBig),
        Err(ReadError::NoMemory) => Err(Status::NoMemory),
    }
}

/// The case at the front of the input, and how many bytes it has.
fn first_case(alloc: Global, input: &[u8]) -> Result<(Case, u64), Status>
    requires { length input.now ≤ input_limit }
    ensures found { IfOk result (λ found. IsCaseFront input.now found.0 found.1) }
    ensures within { IfOk result (λ found. found.1 ≤ length input.now) }
    ensures refusal { IfErr result (λ status. IsCaseRefusal input.now status) }
{
    match read_case(alloc, input) {
        Ok(found) => Ok(found),
        Err(CaseError::Fault(fault)) => Err(Status::BadCase(fault)),
        Err(CaseError::NoMemory) => Err(Status::NoMemory),
    }
}
