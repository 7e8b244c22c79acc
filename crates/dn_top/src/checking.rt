//! `check`: whether the trace behind a case is the case's.

ghost use Rattle.std.specs.Prelude.{◌≡◌, ◌≤◌, ℕ, true, false, length, drop};
ghost use Rattle.dn_top.specs.Promises.{IsOtherTrace, trace_of, is_cut_case, input_limit, is_of_comparing};

use crate::status::Status;
use crate::written::guests_of;
use dn_model::Case;
use dn_trace::{Checked, check};
use std::alloc::Global;

/// What stands behind the first `size` bytes.
pub(crate) fn behind(input: &[u8], size: u64) -> &[u8]
    requires { size ≤ length input.now }
    ensures { result.now ≡ drop size input.now }
{
    &input[size as usize..]
}

/// Compares what stands behind the case, which has the first `size` bytes, with its trace.
pub(crate) fn check_case(alloc: Global, input: &[u8], case: &Case, size: u64) -> Status
    requires within { size ≤ length input.now }
    requires small { length input.now ≤ input_limit }
    ensures same { result ≡ Status.Ok → drop size input.now ≡ trace_of case.now }
    ensures whole { result ≡ Status.Ok → is_cut_case case.now ≡ false }
    ensures same_cut { result ≡ Status.Cut → drop size input.now ≡ trace_of case.now }
    ensures cut { result ≡ Status.Cut → is_cut_case case.now ≡ true }
    ensures differs { (place : ℕ) → result ≡ Status.Differs place → IsOtherTrace input.now case.now size place }
    ensures only { is_of_comparing result ≡ true }
{
    let Ok(guests) = guests_of(alloc, case) else {
        return Status::NoMemory;
    };
    match check(alloc, case, guests, behind(input, size)) {
        Ok(Checked::Equal) => Status::Ok,
        Ok(Checked::Cut) => Status::Cut,
        Ok(Checked::Differs(place)) => Status::Differs(size + place),
        Err(_) => Status::NoMemory,
    }
}
