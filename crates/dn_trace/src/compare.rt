//! Comparing a text with the trace of a lockstep run.

ghost use Rattle.std.specs.Prelude.{◌≡◌, ◌≢◌, ◌<◌, ◌≤◌, ℕ, true, false, length, take, drop, slice_get, Ok};
ghost use Rattle.dn_model.specs.Network.{Network};
ghost use Rattle.dn_model.specs.Settled.{is_cut};
ghost use Rattle.dn_trace.specs.Trace.{trace_text};
ghost use Rattle.dn_trace.specs.Streaming.{IsRunOf, end_of};
ghost use Rattle.dn_trace.specs.Differing.{DiffersAt};

use crate::stream::{Ending, TraceText};
use dn_guest::{Bytes, Guest, NoMemory};
use dn_model::Case;
use std::alloc::Global;

/// What a comparison found.
#[derive(Clone, Copy, Debug, PartialEq, Eq)]
pub enum Checked {
    /// The text is the trace, and the trace is whole.
    Equal,
    /// The first place, from 0, where a byte differs or where one of the two texts ends.
    Differs(u64),
    /// The text is the trace, and the trace is cut.
    Cut,
}

/// Compares the text with the trace of the case's lockstep run with these guests at routers 0, 1, ..
pub fn check<G: Guest>(
    alloc: Global,
    case: &Case,
    guests: Vec<G>,
    section: &[u8],
) -> Result<Checked, NoMemory>
    requires { length guests.items ≡ length case.now.header.routers }
    ensures equal { (net : Network G) → IsRunOf net G.meaning case.now.header guests.items →
        result ≡ Ok Checked.Equal → (section.now ≡ trace_text net case.now.feed) ×
        (is_cut net case.now.feed ≡ false) }
    ensures cut { (net : Network G) → IsRunOf net G.meaning case.now.header guests.items → result ≡ Ok Checked.Cut →
        (section.now ≡ trace_text net case.now.feed) × (is_cut net case.now.feed ≡ true) }
    ensures differs { (net : Network G) → IsRunOf net G.meaning case.now.header guests.items → (place : ℕ) →
        result ≡ Ok (Checked.Differs place) → DiffersAt section.now (trace_text net case.now.feed) place }
{
    let mut trace = TraceText::new(alloc, case, guests)?;
    let routers = case.header.routers.as_slice();
    let mut piece = Bytes::new(alloc);
    let mut at = 0usize;
    'pieces: loop {
        if let Some(ending) = trace.ended() {
            return Ok(end_of(section, at, ending));
        }
        piece.clear();
        trace.push_next(alloc, routers, &mut piece)?;
        let rest = behind(section, at);
        let same = same_front(rest, piece.as_slice());
        if same < piece.len() {
            return Ok(Checked::Differs((at + same) as u64));
        }
        at += same;
    }
}

/// What is found where the trace ended after `at` bytes that were the same.
fn end_of(section: &[u8], at: usize, ending: Ending) -> Checked
    ensures { result ≡ end_of section.now at ending }
{
    if at < section.len() {
        return Checked::Differs(at as u64);
    }
    match ending {
        Ending::Whole => Checked::Equal,
        Ending::Cut => Checked::Cut,
    }
}

/// What stands behind the first bytes.
fn behind(section: &[u8], at: usize) -> &[u8]
    requires { at ≤ length section.now }
    ensures { result.now ≡ drop at section.now }
{
    &section[at..]
}

/// How many bytes at the front of both are the same.
fn same_front(one: &[u8], other: &[u8]) -> usize
    ensures within { (result ≤ length one.now) × (result ≤ length other.now) }
    ensures same { take result one.now ≡ take result other.now }
    ensures apart { result < length other.now → slice_get one.now result ≢ slice_get other.now result }
{
    for (place, byte) in other.iter().enumerate() {
        if one.get(place) != Some(byte) {
            return place;
        }
    }
    other.len()
}
