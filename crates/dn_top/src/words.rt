//! The words of a command.

ghost use Rattle.std.specs.Prelude.{◌≡◌, ◌≤◌, Some, None, codes, map};
ghost use Rattle.std.specs.String.{string_bytes};
ghost use Rattle.dn_top.specs.declared.words.RunOptions.{RunOptions};
ghost use Rattle.dn_text.specs.Decimals.{decimal_of};
ghost use Rattle.dn_top.specs.Words.{is, plain_command, command_of, run_by, run_of, shake_of, scheduled, plain_of, live_of, live_run, options_of};

use dn_text::decimal;

/// How many workers a run has where the words name no number.
const USUAL_WORKERS: u64 = 4;

/// The most workers of a run.
const MOST_WORKERS: u64 = 16;

/// The most steps of a schedule.
const MOST_STEPS: u64 = 1_000_000;

/// A command of the program.
#[derive(Clone, Copy, Debug, PartialEq, Eq)]
pub enum Command {
    /// Runs a case on threads, and writes its recording and its trace, and perhaps the journal.
    Run(RunOptions),
    /// Runs a case in lockstep on one thread, and writes its recording and its trace.
    Lockstep,
    /// Says whether the trace behind a case is the case's.
    Check,
    /// Takes the steps of the journal behind a case, and writes the recording and the trace.
    Rerun,
    /// Takes the steps of a schedule, and writes the recording, the trace and the journal.
    Shake(Schedule),
}

/// How `run` runs a case: with how many workers, from 1 to 16, each on a thread of its own, and whether it writes
/// the journal of the steps that the threads took.
#[derive(Clone, Copy, Debug, PartialEq, Eq)]
pub struct RunOptions {
    pub workers: u16,
    pub journal: bool,
}

/// A schedule: the number from which each step is drawn, and how many steps it has at most.
#[derive(Clone, Copy, Debug, PartialEq, Eq)]
pub struct Schedule {
    pub number: u64,
    pub steps: u64,
}

/// The command that the words name; None where they name none.
#[tactic(auto, unfolding(crate::specs::Words::command_of))]
pub fn command_of(words: &[String]) -> Option<Command>
    ensures is { result ≡ command_of (map string_bytes words.now) }
    ensures some { (o : RunOptions) → result ≡ Some (Command.Run o) → 1 ≤ o.workers }
    ensures few { (o : RunOptions) → result ≡ Some (Command.Run o) → o.workers ≤ 16 }
{
    match words {
        [] => None,
        [word, more @ ..] => {
            if word.as_str() == "run" {
                run_of(more)
            } else if word.as_str() == "shake" {
                shake_of(more)
            } else {
                plain_command(word.as_str(), more)
            }
        }
    }
}

/// The same without `run`, which alone may wait.
pub(crate) fn plain_of(command: Option<Command>) -> Option<Command>
    ensures { result ≡ plain_of command }
{
    match command {
        Some(Command::Run(_)) => None,
        other => other,
    }
}

/// How `run` is to run its case, if that is the command; all others are plain.
pub(crate) fn run_options(command: Option<Command>) -> Option<RunOptions>
    ensures run { (o : RunOptions) → result ≡ Some o → command ≡ Some (Command.Run o) }
    ensures other { result ≡ None → plain_of command ≡ command }
{
    match command {
        Some(Command::Run(options)) => Some(options),
        _ => None,
    }
}

/// How `run --live` is to run what it hears, if the words name that.
#[tactic(auto, unfolding(crate::specs::Words::live_of))]
pub(crate) fn live_of(words: &[String]) -> Option<RunOptions>
    ensures is { result ≡ live_of (map string_bytes words.now) }
    ensures some { (o : RunOptions) → result ≡ Some o → 1 ≤ o.workers }
    ensures few { (o : RunOptions) → result ≡ Some o → o.workers ≤ 16 }
{
    match words {
        [] => None,
        [word, more @ ..] => {
            if word.as_str() == "run" {
                options_of(live_run(more))
            } else {
                None
            }
        }
    }
}

/// The options of `run`, if that is the command.
fn options_of(command: Option<Command>) -> Option<RunOptions>
    ensures is { result ≡ options_of command }
    ensures run { (o : RunOptions) → result ≡ Some o → command ≡ Some (Command.Run o) }
{
    match command {
        Some(Command::Run(options)) => Some(options),
        _ => None,
    }
}

/// `run` with the options behind it, of which one is `--live`.
fn live_run(options: &[String]) -> Option<Command>
    ensures is { result ≡ live_run (map string_bytes options.now) }
    ensures some { (o : RunOptions) → result ≡ Some (Command.Run o) → 1 ≤ o.workers }
    ensures few { (o : RunOptions) → result ≡ Some (Command.Run o) → o.workers ≤ 16 }
{
    match options {
        [a, more @ ..] if is_live(a) => run_of(more),
        [a, b] if is_live(b) => run_of(&options[..1]),
        [a, b, c] if is_live(c) => run_of(&options[..2]),
        [a, b, c, d] if is_live(d) => run_of(&options[..3]),
        [a, b, c, d] if is_journal(a) && is_live(b) && is_workers(c) => run_by(number(d), true),
        [a, b, c, d] if is_workers(a) && is_live(c) && is_journal(d) => run_by(number(b), true),
        _ => None,
    }
}

/// Whether the word is `--live`.
fn is_live(word: &String) -> bool
    ensures { result ≡ is (string_bytes word.now) (codes "--live") }
{
    word.as_str() == "--live"
}

/// The commands of one word that have no options.
fn plain_command(word: &str, more: &[String]) -> Option<Command>
    ensures { result ≡ plain_command word.now (map string_bytes more.now) }
{
    if !more.is_empty() {
        None
    } else if word == "lockstep" {
        Some(Command::Lockstep)
    } else if word == "check" {
        Some(Command::Check)
    } else if word == "rerun" {
        Some(Command::Rerun)
    } else {
        None
    }
}

/// `run` with the options behind it.
fn run_of(options: &[String]) -> Option<Command>
    ensures is { result ≡ run_of (map string_bytes options.now) }
    ensures some { (o : RunOptions) → result ≡ Some (Command.Run o) → 1 ≤ o.workers }
    ensures few { (o : RunOptions) → result ≡ Some (Command.Run o) → o.workers ≤ 16 }
{
    match options {
        [] => run_by(Some(USUAL_WORKERS), false),
        [a] if is_journal(a) => run_by(Some(USUAL_WORKERS), true),
        [a, b] if is_workers(a) => run_by(number(b), false),
        [a, b, c] if is_workers(a) && is_journal(c) => run_by(number(b), true),
        [a, b, c] if is_journal(a) && is_workers(b) => run_by(number(c), true),
        _ => None,
    }
}

/// Whether the word is `--workers`.
fn is_workers(word: &String) -> bool
    ensures { result ≡ is (string_bytes word.now) (codes "--workers") }
{
    word.as_str() == "--workers"
}

/// Whether the word is `--journal`.
fn is_journal(word: &String) -> bool
    ensures { result ≡ is (string_bytes word.now) (codes "--journal") }
{
    word.as_str() == "--journal"
}

/// The number that the word is a decimal of; None where it is none below 2^64.
fn number(word: &String) -> Option<u64>
    ensures { result ≡ decimal_of (string_bytes word.now) }
{
    decimal(word.as_str().as_bytes())
}

/// `run` with 1 to 16 workers.
fn run_by(workers: Option<u64>, journal: bool) -> Option<Command>
    ensures is { result ≡ run_by workers journal }
    ensures some { (o : RunOptions) → result ≡ Some (Command.Run o) → 1 ≤ o.workers }
    ensures few { (o : RunOptions) → result ≡ Some (Command.Run o) → o.workers ≤ 16 }
{
    match workers {
        Some(workers) => {
            if 1 <= workers && workers <= MOST_WORKERS {
                let workers = workers as u16;
                Some(Command::Run(RunOptions { workers, journal }))
            } else {
                None
            }
        }
        None => None,
    }
}

/// `shake` with the number and the option behind it.
fn shake_of(more: &[String]) -> Option<Command>
    ensures { result ≡ shake_of (map string_bytes more.now) }
{
    match more {
        [a, b, c] if is_steps(b) => scheduled(number(a), number(c)),
        _ => None,
    }
}

/// Whether the word is `--steps`.
fn is_steps(word: &String) -> bool
    ensures { result ≡ is (string_bytes word.now) (codes "--steps") }
{
    word.as_str() == "--steps"
}

/// `shake` by this number, of 1 to 1,000,000 steps.
fn scheduled(number: Option<u64>, steps: Option<u64>) -> Option<Command>
    ensures { result ≡ scheduled number steps }
{
    match (number, steps) {
        (Some(number), Some(steps)) => {
            if 1 <= steps && steps <= MOST_STEPS {
                Some(Command::Shake(Schedule { number, steps }))
            } else {
                None
            }
        }
        _ => None,
    }
}
