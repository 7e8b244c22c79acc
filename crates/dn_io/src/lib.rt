//! The outside of the program: where bytes come from, where they go, and how both may fail.
//!
//! A `Source` gives bytes and a `Sink` takes them. What a source has left and what a sink holds are
//! their meanings, where they tell them: those in memory do, standard input and output don't. Each
//! counts its faults, and that count never falls; a call fails only where it rose. So a caller can
//! state for every source and sink what was read, what was written and whose fault a failure is.
//!
//! | File | What it has |
//! |---|---|
//! | `source.rt` | the trait `Source`, and `Took`, the answer of a read |
//! | `sink.rt` | the trait `Sink`, and `Put`, the answer of a write |
//! | `read.rt` | `read_all`, reading to the end within a limit |
//! | `line_reader.rt` | `LineReader`, which gives lines one after another, within a limit |
//! | `metronome.rt` | the trait `Metronome`, which tells how many beats have passed; `MemBeats`, which tells all its answers; `ClockBeats`, over std's clock |
//! | `write.rt` | `put_all`, writing all of some bytes |
//! | `laws.rt` | laws of what is written piece by piece |
//! | `memory.rt` | `MemSource` and `MemSink`, which tell all and fail at the calls that they are told |
//! | `standard.rt` | `StdSource` and `StdSink`, over std's readers and writers |
//!
//! The one contract upwards is that of the two traits, in the words of `specs/Streams.antt`: bytes
//! come and go in order, none is lost or made up, and a failure has its cause in a count. Callers that
//! write one piece after another call the laws about those words. A `LineReader` passes this on line by line
//! (`specs/LineReading.antt`): what it holds and what its source has left are the lines that are ahead.
//!
//! The answers are those of `read()` and `write()` in POSIX.1-2017: a number of bytes, which may be
//! fewer than were asked for, the end of the input, or a failure.
#![tactic(auto)]

pub mod laws;
mod line_reader;
mod memory;
mod metronome;
mod read;
mod sink;
mod source;
mod standard;
mod write;

pub use line_reader::{Line, LineReader};
pub use memory::{MemSink, MemSource};
pub use metronome::{ClockBeats, MemBeats, Metronome};
pub use read::{ReadError, read_all};
pub use sink::{Put, Sink};
pub use source::{Source, Took};
pub use standard::{StdSink, StdSource};
pub use std::alloc::AllocError as NoMemory;
pub use write::{WriteFault, put_all};
