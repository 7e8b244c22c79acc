//! The engine as the definition says it, and a program that plays tables (`table_program`) with it beside
//! `dn_lockstep::Engine`.
//!
//! `PlainEngine` keeps all that waits in one list, and looks for the least each time. It has the clauses of
//! `Engine`, so it is the definition as a program; it is plain and slow, and stays so.
//!
//! | Lines | What is done |
//! |---|---|
//! | `defined 1` and on, up to `end` | this case (docs/FORMATS.md) is the one that the next lines speak of; all of its routers flood |
//! | `beside` | both engines run the case; they have to answer the same, with the same last row, next row and messages on their way after each row, and the same nodes at the end |
//! | `rows` | the rows of `Engine` are told |
//! | `after COUNT` | it is told how `Engine` is after so many rows: the last one and the next one, how many messages each router has sent, and the messages on their way |
//!
//! | File | What it has |
//! |---|---|
//! | `plain.rt` | `PlainEngine` |
//! | `engines.rt` | both engines of a case, and what the others ask of `Engine` |
//! | `beside.rt` | both engines beside each other |
//! | `shown.rt` | what is told of `Engine` |
//! | `cases.rt` | what each line does with the case that came last |
//!
//! To add to it: write a table into `tests/dn_plain/`, above each case a comment that says what it shows.
#![tactic(auto)]

mod beside;
mod cases;
mod engines;
mod plain;
mod shown;

use cases::Cases;
use std::process::ExitCode;

fn main(rt: HostRuntime) -> ExitCode {
    table_program::run(&rt, "dn_plain", &mut Cases::new())
}
