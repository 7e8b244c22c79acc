//! The program `defined`: it makes the real source, sink and metronome, calls `defined_top` with its words and a gate that
//! holds up no worker, writes the status's line to standard error, and ends with the status's number.
#![tactic(auto)]

mod telling;

use crate::telling::tell;
use dn_io::{ClockBeats, StdSink, StdSource};
use dn_top::{OpenGate, Status, defined_top, status_number};
use std::alloc::AllocError;
use std::env;
use std::io::ErrorKind;
use std::process::ExitCode;
use std::rt::Env;

/// The words without the program's name; None where one of them isn't text.
fn words_of(rt: &(impl Env + AllocGlobal)) -> Result<Option<Vec<String>>, AllocError> {
    let all = match env::args(rt) {
        Ok(all) => all,
        Err(error) => {
            return if error.kind() == ErrorKind::OutOfMemory {
                Err(AllocError)
            } else {
                Ok(None)
            };
        }
    };
    let mut words = Vec::new(rt.alloc());
    for word in all.skip(1) {
        words.push(word)?;
    }
    Ok(Some(words))
}

/// Where there is no memory for the words, nothing is read or written: the line would take memory too.
fn main(rt: HostRuntime) -> ExitCode {
    let Ok(words) = words_of(&rt) else {
        return ExitCode::from(status_number(&Status::NoMemory));
    };
    let status = match words {
        Some(words) => {
            let mut source = StdSource::new(rt.stdin());
            let mut sink = StdSink::new(rt.stdout());
            let words = words.as_slice();
            let mut beats = ClockBeats::new(&rt);
            defined_top(
                &rt,
                rt.alloc(),
                words,
                &mut source,
                &mut sink,
                &mut beats,
                &OpenGate,
            )
        }
        None => Status::Usage,
    };
    let _ = tell(rt.alloc(), &status, &mut StdSink::new(rt.stderr()));
    ExitCode::from(status_number(&status))
}
