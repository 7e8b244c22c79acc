//! The steps of a run as text, both ways: the journal that says in which order a run delivered, handled,
//! took back and committed, so that the run can be repeated step by step.
//!
//! A journal is written line by line, one line a step, between a first line and a last one with the number
//! of steps (docs/FORMATS.md). It is read and written beside a header, since a line says a router by its
//! name and injects what a case of that header may have in its feed. Reading goes over the bytes once.
//!
//! | File | What it has |
//! |---|---|
//! | `step_lines.rt` | the step of one line |
//! | `read.rt` | `read_journal` |
//! | `write.rt` | `write_journal` |
//! | `laws.rt` | laws over all journals |
//!
//! The one contract upwards: `journal_text` of `specs/Spelling.antt` is the one spelling of a list of
//! steps. `write_journal` writes it, and `read_journal` answers those steps exactly where a text is that
//! spelling, and else the first bad line (`IsFirstBad` of `specs/Reading.antt`).
#![tactic(auto)]

pub mod laws;
mod read;
mod step_lines;
mod write;

pub use dn_world::{Entry, Kept, Step};
pub use read::read_journal;
pub use write::write_journal;
