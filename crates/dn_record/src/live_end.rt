//! Why a live feed has closed.

use dn_case::CaseFault;

/// Why a live feed has closed.
#[derive(Clone, Copy, Debug)]
pub enum LiveEnd {
    /// The line `end` came, or the source ended behind a whole line.
    Closed,
    /// The source failed, and what it had given by then has no further whole line.
    Failed,
    /// More bytes came than are allowed, and within those there is no further whole line.
    TooBig,
    /// A line has no reading: its number, and the cause. A last line without a newline is one.
    Bad(CaseFault),
}
