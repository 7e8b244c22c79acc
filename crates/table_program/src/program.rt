//! All that a program does.

use crate::ending::Ending;
use crate::out::Out;
use crate::play::{Bench, play};
use dn_io::{ReadError, Sink, Source, StdSink, StdSource, put_all, read_all};
use std::alloc::Global;
use std::io;
use std::process::ExitCode;

/// How many bytes a table may have.
const MOST_BYTES: u64 = 16_777_216;

/// Plays the table of standard input on the bench. Exit status: 0, or 1 for a line that can't be read, 2 for a fault
/// of the input or the output, 3 if it is out of memory; then standard error says so, and names the line.
pub fn run<B: Bench>(
    rt: &(impl Input + Print + Eprint + AllocGlobal),
    name: &str,
    bench: &mut B,
) -> ExitCode {
    let mut source = StdSource::new(rt.reader());
    let mut sink = StdSink::new(io::writer(rt));
    let ending = play_between(rt.alloc(), bench, &mut source, &mut sink);
    let _ = match ending {
        Ending::Played => Ok(()),
        Ending::Unreadable(line) => eprintln!(rt; "{name}: line {line} can't be read"),
        Ending::NoMemory(line) => eprintln!(rt; "{name}: line {line}: out of memory"),
        Ending::Fault => eprintln!(rt; "{name}: the input or the output failed"),
    };
    ExitCode::from(ending.status())
}

/// Reads the table, plays it, and writes it with what happened.
fn play_between<B: Bench, S: Source, K: Sink>(
    alloc: Global,
    bench: &mut B,
    source: &mut S,
    sink: &mut K,
) -> Ending {
    let table = match read_all(alloc, source, MOST_BYTES) {
        Ok(table) => table,
        Err(ReadError::NoMemory) => return Ending::NoMemory(0),
        Err(_) => return Ending::Fault,
    };
    let mut out = Out::new(alloc);
    let ending = play(alloc, bench, table.as_slice(), &mut out);
    if put_all(sink, out.as_slice()).is_err() {
        return Ending::Fault;
    }
    ending
}
