//! What a line asks for.

use crate::Break;
use dn_guest::Bytes;

/// What a line asks for. Routers are said by their numbers.
#[derive(Drop)]
pub enum Command {
    /// To handle so many rows, 1 to 200,000.
    Step(u64),
    /// To go on to the end.
    Run,
    /// To go on to the first row whose group is at least this one, and stop before it.
    Until(u32),
    /// To stop from now on at the rows of this break.
    Break(Break),
    /// To attach a probe of this name.
    Watch(Bytes),
    /// To drop the probe of this name, after its report.
    Unwatch(Bytes),
    /// To show the router of this number.
    Show(u16),
    /// To list what waits at the router of this number.
    Queue(u16),
    /// To tell how many rows were handled.
    Where,
    /// To list the last rows that were handled.
    Last,
    /// To end the session.
    Quit,
}
