//! The probes of a session: attaching and dropping them, and showing them rows.

ghost use Rattle.std.specs.Prelude.{◌≡◌, ◌<◌, [], length, map, IsTrue, ◌↔◌, IfOk, IfSome, OnOk};
ghost use Rattle.dn_probe.specs.Meaning.{says, told};
ghost use Rattle.dn_debug.specs.Watching.{place_of, all_told, first_yes, name_if, watched, HasAttached, HasDropped};

use dn_guest::{Bytes, NoMemory};
use dn_model::{Header, Row};
use dn_probe::Probe;
use std::alloc::Global;
use std::marker::Model;

/// The probes of a session.
#[derive(Drop)]
pub(crate) struct Watching<P: Probe> {
    /// Those that are attached, in the order in which they were.
    attached: Vec<P>,
    /// Those that are still there to be attached.
    there: Vec<P>,
}

impl<P: Probe> Model for Watching<P> {
    ghost use Rattle.dn_debug.specs.Watching.{Kept};

    ghost Value = { Kept P };

    ghost view = { λ w. record { attached = w.attached.items; there = w.there.items } };
}

impl<P: Probe> Watching<P> {
    /// No probe is attached, and these are there.
    pub(crate) fn new(alloc: Global, probes: Vec<P>) -> Watching<P>
        ensures { result ≡ record { attached = []; there = probes.items } }
    {
        Watching {
            attached: Vec::new(alloc),
            there: probes,
        }
    }

    /// Whether no probe is attached.
    pub(crate) fn is_idle(&self) -> bool
        ensures { IsTrue result ↔ (self.now.attached ≡ []) }
    {
        self.attached.is_empty()
    }

    /// Attaches the first probe of the name that is there, and says whether there was one. After `NoMemory` the
    /// session is to be dropped.
    pub(crate) fn attach(
        &mut self,
        alloc: Global,
        header: &Header,
        name: &[u8],
    ) -> Result<bool, NoMemory>
        ensures { IfOk result (λ found. HasAttached header.now name.now (watched P.watcher self.old) found (watched P.watcher self.new)) }
    {
        let Some(place) = place_of(self.there.as_slice(), name) else {
            return Ok(false);
        };
        let mut probe = self.there.remove(place);
        probe.begin(alloc, header)?;
        self.attached.push(probe)?;
        Ok(true)
    }

    /// Drops the first attached probe of the name after it has appended its report, and says whether there was one.
    pub(crate) fn unwatch(&mut self, name: &[u8], out: &mut Bytes) -> Result<bool, NoMemory>
        ensures { IfOk result (λ found. HasDropped name.now (watched P.watcher self.old) found (watched P.watcher self.new) out.old out.new) }
    {
        let Some(place) = place_of(self.attached.as_slice(), name) else {
            return Ok(false);
        };
        let probe = self.attached.remove(place);
        probe.report(out)?;
        Ok(true)
    }

    /// Shows a row to each attached probe, with the show of its router after it, and gives the name of the first that
    /// says yes.
    pub(crate) fn show(
        &mut self,
        alloc: Global,
        row: &Row,
        show: &[u8],
    ) -> Result<Option<Bytes>, NoMemory>
        ensures told { OnOk result (watched P.watcher self.new ≡ record (watched P.watcher self.old) { attached = all_told row.now show.now (map P.watcher self.old.attached) }) }
        ensures first { IfOk result (λ first. first ≡ first_yes row.now show.now (map P.watcher self.old.attached)) }
    {
        show_all(alloc, self.attached.as_mut_slice(), row, show)
    }
}

/// Shows a row to each of the probes, and gives the name of the first that says yes.
#[tactic(auto, unfolding(crate::specs::Watching::first_yes))]
fn show_all<P: Probe>(
    alloc: Global,
    probes: &mut [P],
    row: &Row,
    show: &[u8],
) -> Result<Option<Bytes>, NoMemory>
    ensures told { OnOk result (map P.watcher probes.new ≡ all_told row.now show.now (map P.watcher probes.old)) }
    ensures first { IfOk result (λ first. first ≡ first_yes row.now show.now (map P.watcher probes.old)) }
{
    let Some((probe, rest)) = probes.split_first_mut() else {
        return Ok(None);
    };
    let yes = show_one(alloc, probe, row, show)?;
    let further = show_all(alloc, rest, row, show)?;
    match yes {
        Some(name) => Ok(Some(name)),
        None => Ok(further),
    }
}

/// Shows a row to the probe, and gives its name if it says yes.
fn show_one<P: Probe>(
    alloc: Global,
    probe: &mut P,
    row: &Row,
    show: &[u8],
) -> Result<Option<Bytes>, NoMemory>
    ensures told { OnOk result (P.watcher probe.new ≡ told (P.watcher probe.old) row.now show.now) }
    ensures name { IfOk result (λ name. name ≡ name_if (says (P.watcher probe.old) row.now show.now) (P.watcher probe.old)) }
{
    if probe.seen(alloc, row, show)? {
        Ok(Some(Bytes::from_slice(alloc, probe.name())?))
    } else {
        Ok(None)
    }
}

/// The place of the first probe of the name.
fn place_of<P: Probe>(probes: &[P], name: &[u8]) -> Option<usize>
    ensures place { result ≡ place_of name.now (map P.watcher probes.now) }
    ensures within { IfSome result (λ place. place < length probes.now) }
{
    let mut place = 0usize;
    let mut left = probes;
    'probes: while let Some((probe, rest)) = left.split_first() {
        if probe.name() == name {
            return Some(place);
        }
        place += 1;
        left = rest;
    }
    None
}
