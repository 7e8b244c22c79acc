//! Why a run stops.

use dn_guest::Bytes;

/// Why a run stops, in the order in which the reasons are looked at.
#[derive(Drop)]
pub(crate) enum Reason {
    /// The break of this number matches the last row, and none of a lower number does.
    Break(u64),
    /// The probe of this name is the first that says yes to the last row.
    Probe(Bytes),
    /// The next row is of the group that was asked for, or of a later one.
    Group,
    /// As many rows as were asked for were handled.
    Step,
    /// There is no further row.
    End,
    /// As many rows as a trace shows were handled, and there are more.
    Cut,
}
