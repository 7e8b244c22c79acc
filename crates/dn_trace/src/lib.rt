//! The trace of a run: the text of its rows and last states, written to a sink or compared with a text.
//!
//! A trace begins with the line `trace`, has a line for each row, and ends with the routers' states and
//! the number of rows; or, where the run has more rows than a trace shows, with the line `cut 200000`.
//! It is made piece by piece as the engine handles the rows, and never stands whole in memory.
//!
//! | File | What it has |
//! |---|---|
//! | `rows.rt` | the line of a row and the line of a state |
//! | `ends.rt` | how a trace begins and ends |
//! | `stream.rt` | the text of a trace, piece by piece |
//! | `lockstep.rt` | `write_trace`: writing the trace of a lockstep run |
//! | `compare.rt` | `check`: comparing a text with that trace |
//! | `write.rt` | writing single rows and states, and the trace of rows that are there |
//! | `writer.rt` | writing rows that come in pieces |
//!
//! The one contract upwards: `write_trace` at Ok has written `trace_text` of `specs/Trace.antt`, which is
//! made of the model's lockstep rows and states and knows no engine; at an error it has written a front
//! of it.
#![tactic(auto)]

mod compare;
mod ends;
mod lockstep;
mod rows;
mod stream;
mod write;
mod writer;

pub use compare::{Checked, check};
pub use ends::{push_cut_line, push_end_line};
pub use lockstep::write_trace;
pub use rows::{push_row, push_state};
pub use stream::Ending;
pub use write::{WriteError, put_text, write_row, write_shown, write_state};
pub use writer::TraceWriter;
