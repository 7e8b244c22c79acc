//! What calls of a fabric answer.

/// What `Fabric::commit` did.
#[derive(Clone, Copy, Debug)]
pub enum Moved {
    /// So many rows were added.
    Moved(u64),
    /// A row stands below the horizon beyond the last that a trace shows.
    Cut,
}

/// What `Fabric::finish` did.
#[derive(Clone, Copy, Debug)]
pub enum Finished {
    /// The event was handled, and what it emitted flies.
    Applied,
    /// The router has moved on since the order was given, and nothing has changed.
    Stale,
}
