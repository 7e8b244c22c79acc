//! How far a command may run.

/// How far a command may run if nothing stops it before, and which of its rows it writes.
#[derive(Clone, Copy)]
pub(crate) struct Extent {
    /// At most so many rows.
    pub(crate) most: u64,
    /// Before the first row of this group or a later one.
    pub(crate) group: Option<u32>,
    /// Each row is written, and not only the last one.
    pub(crate) each: bool,
}
