//! Plays tables (`table_program`) of the turns of a fabric.
//!
//! | Lines | What is done |
//! |---|---|
//! | `defined 1` and on, up to `end` | a run of this case begins; all of its routers flood |
//! | `beacon`, `inject EXTERNAL`, `close`, `deliver PLACE`, `handle NAME`, `rollback NAME`, `commit` | the step of a journal (docs/FORMATS.md); `inject` asks for what the router takes, and not for the next of the feed |
//! | `lease NAME` | the router's order is given out and computed, and its outcome set aside |
//! | `finish NAME` | the outcome that was set aside first for this router comes back |
//! | `stop` | the fabric is stopped |
//! | `work` | the next work is done, again and again, until there is none |
//! | `journal` and on, up to `end journal COUNT` | the case begins anew, and these steps are replayed in it |
//! | `shake NUMBER TURNS` | the case begins anew, so many turns of the number's schedule are taken, and its journal is replayed beside it |
//! | `state NAME`, `rows`, `steps`, `header`, `accepted` | nothing, and that is told |
//!
//! A line of outcome has, after a step: what the call answered, if anything; how many steps the journal has; how
//! many packets fly; which routers are behind, ready and leased; the floor; how many messages each router has sent;
//! the horizon and the boundary; how many rows are committed; and the next work. A key is GROUP SUM CLASS TIE ORIGIN
//! SEQ. `not now` is told where the call asks for something that doesn't hold.
//!
//! | File | What it has |
//! |---|---|
//! | `words.rt` | what a line says |
//! | `runs.rt` | a run: its case, its fabric, and the outcomes that were set aside |
//! | `drives.rt` | a fabric before its first step, after a journal, and after a schedule |
//! | `acts.rt` | steps, each with what its call asks |
//! | `shown.rt` | what is told |
//!
//! To add to it: write a table into `tests/fabric_turns/` with the outcomes worked out by hand, above each run
//! a comment that says what it shows.
#![tactic(auto)]

mod acts;
mod drives;
mod runs;
mod shown;
mod words;

use runs::Runs;
use std::process::ExitCode;

fn main(rt: HostRuntime) -> ExitCode {
    table_program::run(&rt, "fabric_turns", &mut Runs::new())
}
