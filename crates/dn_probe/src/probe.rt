//! What a probe is.

ghost use Rattle.std.specs.Prelude.{◌≡◌, ◌++◌, IfOk, OnOk};
ghost use Rattle.dn_guest.specs.KeepsFront.{KeepsFront};
ghost use Rattle.dn_probe.specs.Meaning.{Watch, begun, says, told, report_of};

use dn_guest::{Bytes, NoMemory};
use dn_model::{Header, Row};
use std::alloc::Global;

/// A watcher of rows. It is shown each row with the show of the row's router after it, and says whether this
/// is a row at which to stop.
///
/// In a clause a probe is a `Watch` of `specs/Meaning.antt`: its rules, what it remembers, and how many rows were
/// shown to it. Its name, its opening, its rule and its report are the rules, which no call changes. After `NoMemory`
/// of `begin` or `seen` nothing else is said of the probe, and the caller drops it.
pub trait Probe: Drop {
    ghost watcher: { Self → Watch };

    /// The name by which it is attached.
    fn name(&self) -> &[u8]
        ensures { result.now ≡ (watcher self.now).rules.name };

    /// Begins anew in a network of this header, with no row shown.
    fn begin(&mut self, alloc: Global, header: &Header) -> Result<(), NoMemory>
        ensures rules { (watcher self.new).rules ≡ (watcher self.old).rules }
        ensures ok { OnOk result (watcher self.new ≡ begun (watcher self.old) header.now) };

    /// Whether it says yes at this row, which counts as shown then. The show is that of the row's router after
    /// the row.
    fn seen(&mut self, alloc: Global, row: &Row, show: &[u8]) -> Result<bool, NoMemory>
        ensures rules { (watcher self.new).rules ≡ (watcher self.old).rules }
        ensures says { IfOk result (λ yes. yes ≡ says (watcher self.old) row.now show.now) }
        ensures told { OnOk result (watcher self.new ≡ told (watcher self.old) row.now show.now) };

    /// How many rows were shown since it began.
    fn shown(&self) -> u64
        ensures { result ≡ (watcher self.now).shown };

    /// Appends its report. After `NoMemory` what was in `out` before still stands at its front.
    fn report(&self, out: &mut Bytes) -> Result<(), NoMemory>
        ensures ok { OnOk result (out.new ≡ out.old ++ report_of (watcher self.now)) }
        ensures kept { KeepsFront out.old out.new };
}
