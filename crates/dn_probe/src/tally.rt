//! Counts of a probe, and its report.

ghost use Rattle.std.specs.Prelude.{◌≡◌, ◌<◌, ◌^◌, ◌+◌, ◌++◌, IfOk, OnOk};
ghost use Rattle.dn_guest.specs.KeepsFront.{KeepsFront};
ghost use Rattle.dn_probe.specs.Reports.{one_if, report_text};

use dn_guest::{Bytes, NoMemory};
use dn_text::{Piece, append_all};

/// How many rows were shown to a probe, and for how many of them it said yes.
#[derive(Clone, Copy, Debug)]
pub(crate) struct Tally {
    pub(crate) shown: u64,
    pub(crate) yes: u64,
}

impl Tally {
    /// Before any row.
    pub(crate) fn new() -> Tally
        ensures { result ≡ record { shown = 0; yes = 0 } }
    {
        Tally { shown: 0, yes: 0 }
    }

    /// The counts with a further row, for which the probe says yes or not. A count that would exceed u64 is want of
    /// memory too.
    pub(crate) fn with(self, yes: bool) -> Result<Tally, NoMemory>
        ensures made { IfOk result (λ made. made ≡ record { shown = self.shown + 1; yes = self.yes + one_if yes }) }
        ensures few { self.yes < 2 ^ 64 }
    {
        let times = self.yes;
        let shown = one_more(self.shown)?;
        let yes = if yes { one_more(times)? } else { times };
        Ok(Tally { shown, yes })
    }

    #[tactic(auto, unfolding(crate::specs::Reports::report_text))]
    /// Appends the line `report NAME shown N yes M`.
    pub(crate) fn push_report(self, name: &[u8], out: &mut Bytes) -> Result<(), NoMemory>
        ensures ok { OnOk result (out.new ≡ out.old ++ report_text name.now self.shown self.yes) }
        ensures kept { KeepsFront out.old out.new }
        ensures few { self.yes < 2 ^ 64 }
    {
        let pieces = [
            Piece::Text(b"report "),
            Piece::Text(name),
            Piece::Text(b" shown "),
            Piece::Decimal(self.shown),
            Piece::Text(b" yes "),
            Piece::Decimal(self.yes),
            Piece::Text(b"\n"),
        ];
        append_all(out, &pieces)
    }
}

/// The next count.
pub(crate) fn one_more(count: u64) -> Result<u64, NoMemory>
    ensures { IfOk result (λ next. next ≡ count + 1) }
{
    count.checked_add(1).ok_or(NoMemory)
}
