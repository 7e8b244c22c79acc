//! The top calls: all that the program does.

ghost use Rattle.std.specs.Prelude.{◌≡◌, ◌≤◌, None, Some, length, map};
ghost use Rattle.std.specs.String.{string_bytes};
ghost use Rattle.dn_top.specs.declared.words.RunOptions.{RunOptions};
ghost use Rattle.dn_top.specs.Words.{command_of, plain_of, live_of};
ghost use Rattle.dn_top.specs.Promises.{HasCase};
ghost use Rattle.dn_top.specs.Commands.{Promise, Fulfils, streams};
ghost use Rattle.dn_top.specs.LiveRuns.{LivePromise};

use crate::checking::check_case;
use crate::ends::ends;
use crate::input::{Given, read_given};
use crate::live::run_live;
use crate::rerun::rerun_case;
use crate::shake::shake_case;
use crate::status::Status;
use crate::threads::run_case;
use crate::words::{Command, RunOptions, command_of, live_of, plain_of, run_options};
use crate::written::lockstep_case;
use dn_io::{Metronome, Sink, Source};
use dn_workers::Gate;
use std::alloc::Global;
use std::sync::Wait;
use std::thread::Threads;

/// Does what the words ask: reads the source, writes the sink, and answers how it ended.
///
/// For the words of `run --live` the promise is the record `LivePromise` of `specs/LiveRuns.antt`: what was heard, line
/// by line and beat by beat, and what was written then, for each status. For all others it is the record `Promise` of
/// `specs/Commands.antt`. Its field `answers` is the table
/// `Answers` of `specs/Promises.antt`: for each command and each status, what the input was and what was
/// written. The recording is the one spelling of the case at the front of the input; the trace is that
/// of the lockstep run of the model. A fault comes only where a count of faults rose in this call.
///
/// `run` starts threads and waits for them, and may never return. Each of its workers enters the gate before it
/// computes an order. `beats` is asked by `run --live` alone, once for each line. All other commands are those of
/// `defined_plain`.
pub fn defined_top<
    S: Source + Send,
    K: Sink,
    M: Metronome + Send,
    Y: Gate + Sync,
    R: Threads + Wait + Sync,
>(
    rt: &R,
    alloc: Global,
    words: &[String],
    source: &mut S,
    sink: &mut K,
    beats: &mut M,
    gate: &Y,
) -> Status
    ensures live { (o : RunOptions) → live_of (map string_bytes words.now) ≡ Some o → LivePromise o result
        (streams (S.left source.old) (S.faults source.old) (K.holds sink.old) (K.faults sink.old))
        (streams (S.left source.new) (S.faults source.new) (K.holds sink.new) (K.faults sink.new))
        (M.beats beats.old) (M.beats beats.new) }
    ensures other { live_of (map string_bytes words.now) ≡ None → Promise (command_of (map string_bytes words.now))
        result (streams (S.left source.old) (S.faults source.old) (K.holds sink.old) (K.faults sink.old))
        (streams (S.left source.new) (S.faults source.new) (K.holds sink.new) (K.faults sink.new)) }
{
    match live_of(words) {
        Some(options) => run_live(rt, alloc, options, source, sink, beats, gate),
        None => on_whole_input(rt, alloc, words, source, sink, gate),
    }
}

/// Does what words ask whose input is read whole: all but `run --live`.
fn on_whole_input<S: Source, K: Sink, Y: Gate + Sync, R: Threads + Wait + Sync>(
    rt: &R,
    alloc: Global,
    words: &[String],
    source: &mut S,
    sink: &mut K,
    gate: &Y,
) -> Status
    ensures { Promise (command_of (map string_bytes words.now)) result
        (streams (S.left source.old) (S.faults source.old) (K.holds sink.old) (K.faults sink.old))
        (streams (S.left source.new) (S.faults source.new) (K.holds sink.new) (K.faults sink.new)) }
{
    match run_options(command_of(words)) {
        Some(options) => run(rt, alloc, options, source, sink, gate),
        None => defined_plain(alloc, words, source, sink),
    }
}

/// The commands that wait for nobody: all but `run`, whose words are no command here. The promise is
/// that of `defined_top`. The call always returns.
pub fn defined_plain<S: Source, K: Sink>(
    alloc: Global,
    words: &[String],
    source: &mut S,
    sink: &mut K,
) -> Status
    ensures { Promise (plain_of (command_of (map string_bytes words.now))) result
        (streams (S.left source.old) (S.faults source.old) (K.holds sink.old) (K.faults sink.old))
        (streams (S.left source.new) (S.faults source.new) (K.holds sink.new) (K.faults sink.new)) }
{
    match plain_of(command_of(words)) {
        Some(plain) => obey(alloc, plain, source, sink),
        None => Status::Usage,
    }
}

/// Reads the input and the case at its front, and runs that on threads.
fn run<S: Source, K: Sink, Y: Gate + Sync, R: Threads + Wait + Sync>(
    rt: &R,
    alloc: Global,
    options: RunOptions,
    source: &mut S,
    sink: &mut K,
    gate: &Y,
) -> Status
    requires some { 1 ≤ options.workers }
    requires few { options.workers ≤ 16 }
    ensures { Promise (Some (Command.Run options)) result (streams (S.left source.old) (S.faults source.old)
        (K.holds sink.old) (K.faults sink.old)) (streams (S.left source.new) (S.faults source.new) (K.holds sink.new)
        (K.faults sink.new)) }
{
    match read_given(alloc, source) {
        Ok(given) => run_case(rt, alloc, options, &given, sink, gate),
        Err(status) => status,
    }
}

/// Does what a command asks that waits for nobody: reads the input and the case at its front, and lets the
/// command go on from there.
fn obey<S: Source, K: Sink>(alloc: Global, command: Command, source: &mut S, sink: &mut K) -> Status
    requires plain { plain_of (Some command) ≡ Some command }
    ensures { Promise (Some command) result (streams (S.left source.old) (S.faults source.old) (K.holds sink.old)
        (K.faults sink.old)) (streams (S.left source.new) (S.faults source.new) (K.holds sink.new)
        (K.faults sink.new)) }
{
    match read_given(alloc, source) {
        Ok(given) => answer(alloc, command, &given, sink),
        Err(status) => status,
    }
}

/// Hands the case, and what else of the input it needs, to the command's driver.
fn answer<K: Sink>(alloc: Global, command: Command, given: &Given, sink: &mut K) -> Status
    requires plain { plain_of (Some command) ≡ Some command }
    requires has { HasCase given.now.input.items given.now.case given.now.size }
    requires within { given.now.size ≤ length given.now.input.items }
    ensures { Fulfils command given.now.input.items result (K.holds sink.old) (K.holds sink.new) (K.faults sink.old)
        (K.faults sink.new) }
{
    ends();
    let input = given.input.as_slice();
    let case = &given.case;
    match command {
        Command::Run(_) => unreachable!(),
        Command::Lockstep => lockstep_case(alloc, case, sink),
        Command::Check => check_case(alloc, input, case, given.size),
        Command::Rerun => rerun_case(alloc, input, case, given.size, sink),
        Command::Shake(schedule) => shake_case(alloc, schedule, case, sink),
    }
}
