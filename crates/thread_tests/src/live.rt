//! `run --live`: what is heard, how it is stamped, and what is written at each ending.

use crate::waiting::{count_one, waits_for};
use dn_guest::NoMemory;
use dn_io::{MemBeats, MemSink, MemSource, Source, Took};
use dn_top::{Gate, OpenGate, Status, defined_plain, defined_top, status_line};
use std::alloc::Global;
use std::sync::Wait;
use std::sync::atomic::{AtomicU64, Ordering};
use std::thread::Threads;

/// Two flooding routers, and five groups.
const HEAD: &str =
    "defined 1\nperiod 100\ngroups 5\nseed 0\nrouter a flood\nrouter b flood\nlink a b 10 1\nfeed\n";

/// Five live lines.
const LINES: &str = "a cmd 41\nb cmd 42\na cmd 43\nb cmd 44\na cmd 45\n";

/// The same as externals, each in the group of its stamp.
const EXTERNALS: &str = "@0 a cmd 41\n@0 b cmd 42\n@3 a cmd 43\n@3 b cmd 44\n@4 a cmd 45\n";

/// The first three lines and externals.
const THREE_LINES: &str = "a cmd 41\nb cmd 42\na cmd 43\n";

const THREE_EXTERNALS: &str = "@0 a cmd 41\n@0 b cmd 42\n@3 a cmd 43\n";

/// The beats at which the lines come.
const BEATS: [u64; 5] = [0, 0, 3, 2, 9];

/// What was answered, and what was written.
#[derive(Drop)]
struct Answer {
    status: Status,
    written: MemSink,
}

/// A sink that holds nothing yet.
fn sink(alloc: Global) -> Result<MemSink, NoMemory> {
    MemSink::new(alloc, Vec::new(alloc), 1_000, 100_000)
}

/// `run --live` on a source, through a gate.
fn live<S: Source + Send, Y: Gate + Sync, R: Threads + Wait + Sync>(
    rt: &R,
    alloc: Global,
    source: &mut S,
    gate: &Y,
) -> Result<Answer, NoMemory> {
    let mut words = Vec::new(alloc);
    words.push(String::from_str(alloc, "run")?)?;
    words.push(String::from_str(alloc, "--live")?)?;
    let mut written = sink(alloc)?;
    let mut beats = MemBeats::new(Vec::from_slice(alloc, &BEATS)?);
    let words = words.as_slice();
    let status = defined_top(rt, alloc, words, source, &mut written, &mut beats, gate);
    Ok(Answer { status, written })
}

/// What `lockstep` writes of a case with the head's header and these externals.
fn lockstep(alloc: Global, externals: &str) -> Result<MemSink, NoMemory> {
    let mut words = Vec::new(alloc);
    words.push(String::from_str(alloc, "lockstep")?)?;
    let case = format!(in alloc; "{HEAD}{externals}end\n")?;
    let case = Vec::from_slice(alloc, case.as_str().as_bytes())?;
    let mut source = MemSource::new(case, Vec::new(alloc), 1_000);
    let mut written = sink(alloc)?;
    let _ = defined_plain(alloc, words.as_slice(), &mut source, &mut written);
    Ok(written)
}

/// `run --live` on this text behind the head.
fn heard<R: Threads + Wait + Sync>(rt: &R, alloc: Global, lines: &str) -> Result<Answer, NoMemory> {
    let input = format!(in alloc; "{HEAD}{lines}")?;
    let input = Vec::from_slice(alloc, input.as_str().as_bytes())?;
    let mut source = MemSource::new(input, Vec::new(alloc), 1_000);
    live(rt, alloc, &mut source, &OpenGate)
}

#[test]
fn live_lines_are_recorded_and_run(rt: HostRuntime) -> Result<(), NoMemory> {
    let lines = format!(in rt.alloc(); "{LINES}end\n")?;
    let answer = heard(&rt, rt.alloc(), lines.as_str())?;
    assert!(rt; matches!(answer.status, Status::Ok));
    let wanted = lockstep(rt.alloc(), EXTERNALS)?;
    assert!(rt; answer.written.as_slice() == wanted.as_slice());
    Ok(())
}

#[test]
fn a_bad_line_is_told_behind_what_was_heard(rt: HostRuntime) -> Result<(), NoMemory> {
    let lines = format!(in rt.alloc(); "{THREE_LINES}z cmd 44\na cmd 45\nend\n")?;
    let answer = heard(&rt, rt.alloc(), lines.as_str())?;
    let line = status_line(rt.alloc(), &answer.status)?;
    assert!(rt; line.as_slice() == b"defined: line 12: name\n".as_slice());
    let wanted = lockstep(rt.alloc(), THREE_EXTERNALS)?;
    assert!(rt; answer.written.as_slice() == wanted.as_slice());
    Ok(())
}

/// The head and three lines have 113 bytes, so the read of number 120 is within the fourth line.
#[test]
fn a_read_fault_is_told_behind_what_was_heard(rt: HostRuntime) -> Result<(), NoMemory> {
    let input = format!(in rt.alloc(); "{HEAD}{LINES}end\n")?;
    let input = Vec::from_slice(rt.alloc(), input.as_str().as_bytes())?;
    let fails = Vec::from_slice(rt.alloc(), &[120])?;
    let mut source = MemSource::new(input, fails, 1);
    let answer = live(&rt, rt.alloc(), &mut source, &OpenGate)?;
    assert!(rt; matches!(answer.status, Status::ReadFault));
    let wanted = lockstep(rt.alloc(), THREE_EXTERNALS)?;
    assert!(rt; answer.written.as_slice() == wanted.as_slice());
    Ok(())
}

/// A gate that counts its calls.
#[derive(Drop)]
struct Counting<'a> {
    entered: &'a AtomicU64,
}

impl Gate for Counting<'_> {
    fn enter(&self, _router: u16, _place: u64) {
        count_one(self.entered);
    }
}

/// A source that gives the head in its first read, one live line in each further read, and waits from the third on
/// until the gate was entered. It tells nothing of its bytes.
#[derive(Drop)]
struct Paced<'a> {
    input: MemSource,
    reads: u64,
    entered: &'a AtomicU64,
    misses: &'a AtomicU64,
}

impl Source for Paced<'_> {
    ghost use Rattle.std.specs.Prelude.{None};

    ghost left = { λ p. None };

    ghost faults = { λ p. p.input.failed };

    fn read(&mut self, into: &mut [u8]) -> Took {
        if self.reads >= 2 && !waits_for(self.entered, 1) {
            count_one(self.misses);
        }
        let most = if self.reads == 0 { HEAD.len() } else { 9 };
        self.reads = self.reads.saturating_add(1);
        let most = most.min(into.len());
        self.input.read(&mut into[..most])
    }
}

/// A run that asks for all of its input first makes the source wait in vain.
#[test]
fn a_run_goes_on_while_its_lines_come(rt: HostRuntime) -> Result<(), NoMemory> {
    let entered = AtomicU64::new(0);
    let misses = AtomicU64::new(0);
    let input = format!(in rt.alloc(); "{HEAD}{LINES}")?;
    let input = Vec::from_slice(rt.alloc(), input.as_str().as_bytes())?;
    let mut source = Paced {
        input: MemSource::new(input, Vec::new(rt.alloc()), 1_000),
        reads: 0,
        entered: &entered,
        misses: &misses,
    };
    let gate = Counting { entered: &entered };
    let answer = live(&rt, rt.alloc(), &mut source, &gate)?;
    assert!(rt; matches!(answer.status, Status::Ok));
    assert!(rt; misses.load(Ordering::SeqCst) == 0);
    let wanted = lockstep(rt.alloc(), EXTERNALS)?;
    assert!(rt; answer.written.as_slice() == wanted.as_slice());
    Ok(())
}
