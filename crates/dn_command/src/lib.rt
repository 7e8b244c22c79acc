//! The debugger's commands: what a line asks for, and at which rows a break stops the run.
//!
//! A person debugs a run by lines. Each line asks for one thing: to go on for some rows, to stop at certain rows from
//! now on, to attach a probe, to show a router. `docs/DEBUGGER.md` has the table of all lines. A line that is none of
//! them is no command, and so is one that names a router that the header hasn't, or a number out of its range.
//!
//! | File | What it has |
//! |---|---|
//! | `breaks.rt` | `Break`: the rows at which a run stops |
//! | `command.rt` | `Command`: what a line asks for |
//! | `fields.rt` | the fields of a line: words, numbers in their ranges, names of routers and of probes |
//! | `read.rt` | `read_command` |
//! | `laws.rt` | laws over all lines |
//! | `specs/Breaks.antt` | when a break matches a row |
//! | `specs/Commands.antt` | which command a line is, and how a command is spelled |
//!
//! The one contract upwards: `read_command` answers `command_of` of the routers and the line, and `Break::matches` is
//! `matches` of the break and the row. `laws.rt` has that each command that can be asked for is read of its spelling,
//! and of no other line but that `step` is `step 1`. The commands are this project's own.
#![tactic(auto)]

mod breaks;
mod command;
mod fields;
pub mod laws;
mod read;

pub use breaks::Break;
pub use command::Command;
pub use read::read_command;
