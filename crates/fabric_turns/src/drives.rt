//! A fabric before its first step, after a journal, and after a schedule.

ghost use Rattle.std.specs.Prelude.{◌≡◌, IfOk};
ghost use Rattle.dn_fabric.specs.Driven.{IsOpening};

use dn_drive::{Ended, replay, shake};
use dn_fabric::Fabric;
use dn_guest::{Flood, NoMemory};
use dn_journal::Step;
use dn_model::Case;
use std::alloc::Global;
use table_program::flooding_guests;

/// The fabric of the case before its first step. All of its routers flood.
pub(crate) fn opening(alloc: Global, case: &Case) -> Result<Fabric<Flood>, NoMemory>
    ensures opening { IfOk result IsOpening }
    ensures header { IfOk result (λ made. made.live.header ≡ case.now.header) }
{
    let header = case.header.copy(alloc)?;
    let guests = flooding_guests(alloc, header.routers.as_slice().len())?;
    Fabric::new(alloc, header, guests)
}

/// The fabric after these steps of the case, and what they came to.
pub(crate) fn replayed(
    alloc: Global,
    case: &Case,
    steps: &[Step],
) -> Result<(Fabric<Flood>, Ended), NoMemory> {
    let feed = case.feed.as_slice();
    let mut fabric = opening(alloc, case)?;
    let ended = replay(alloc, &mut fabric, feed, steps)?;
    Ok((fabric, ended))
}

/// The fabric after so many turns of the number's schedule, and what they came to.
pub(crate) fn shaken(
    alloc: Global,
    case: &Case,
    number: u64,
    turns: u64,
) -> Result<(Fabric<Flood>, Ended), NoMemory> {
    let feed = case.feed.as_slice();
    let mut fabric = opening(alloc, case)?;
    let ended = shake(alloc, &mut fabric, feed, number, turns)?;
    Ok((fabric, ended))
}
