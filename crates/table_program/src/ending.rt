//! How a table ends.

/// How a table ended; a line is counted from 1.
#[derive(Clone, Copy)]
pub(crate) enum Ending {
    /// All lines were played.
    Played,
    /// This line can't be read.
    Unreadable(u64),
    /// Out of memory at this line; at 0 the table wasn't read yet.
    NoMemory(u64),
    /// The input or the output failed.
    Fault,
}

impl Ending {
    /// The exit status.
    pub(crate) fn status(self) -> u8 {
        match self {
            Ending::Played => 0,
            Ending::Unreadable(_) => 1,
            Ending::Fault => 2,
            Ending::NoMemory(_) => 3,
        }
    }
}
