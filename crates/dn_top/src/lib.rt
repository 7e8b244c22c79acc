//! The commands: what each reads, writes and answers.
//!
//! A command is given a source and a sink, and `run` also a handle that starts threads, and with `--live` a metronome.
//! `defined_top` is the whole program but for the real ones of these, so its contract is the program's promise.
//!
//! | File | What it has |
//! |---|---|
//! | `words.rt` | the commands and their words |
//! | `status.rt` | how a command ended: the exit status and the line on standard error |
//! | `input.rt` | reading the input and the case at its front |
//! | `top.rt` | the top calls, and the one way through all commands |
//! | `written.rt` | `lockstep`; writing a case and the trace of its run, for all commands that do |
//! | `checking.rt` | `check` |
//! | `shown.rt` | the fabric of a case, and writing the trace that it shows and its journal, whoever drove it |
//! | `rerun.rt` | `rerun` |
//! | `ends.rt` | what the steps are that come to an end |
//! | `shake.rt` | `shake` |
//! | `threads.rt` | `run` |
//! | `live_head.rt` | reading the head of a live input, line by line |
//! | `live.rt` | `run --live` |
//! | `laws.rt` | what is written with a journal is read again |
//!
//! The one contract upwards: the record `Promise` of `specs/Commands.antt`, what a command says of its
//! source, its sink and its status. It stands on the table `Answers` of `specs/Promises.antt`: for each
//! command and each status it says what the input was and what was written, over the definitions of the
//! case text (`dn_case`), the lockstep run (`dn_model`) and the trace text (`dn_trace`). `run --live` doesn't read its
//! input whole, so it is no `Command`: its words have the record `LivePromise` of `specs/LiveRuns.antt` in its place.
//!
//! All commands go one way:
//!
//! ```text
//! words     command_of          None: Usage
//! source    read_given          a refusal keeps the promise of every command
//!             |  Given: the input, the case at its front, how many bytes that has
//!             |
//!             |-- run_case      run              (options, case; a handle that starts threads, a gate)
//!           answer              the others: one arm for each, and none waits
//!             |-- lockstep_case lockstep         (case)
//!             |-- check_case    check            (input, case, size)
//!             |-- rerun_case    rerun            (input, case, size)
//!             |-- shake_case    shake            (schedule, case)
//!             |-- ..            a further command is one more driver
//! sink      Status
//!
//! words     live_of             `run --live` alone
//! source    read_head           Head: the header, and the reader of the lines behind it; a refusal writes nothing
//!             |-- hear          runs what comes on threads until the feed closes: what was heard, and why no more
//! sink      write_threaded      as for `run`; then a refusal that has closed the feed goes before Ok and Cut
//! ```
//!
//! A driver is a function from the input, the case and its size, and the sink, to a status. A further one
//! has its file, its arm in `answer` (one that waits: its arm in `defined_top`), its rows in the tables
//! `Answers` and `Owes`, and the lemma that its answer is in them. What holds of reading, of faults and
//! of the words comes from `Promise` and isn't said again.
#![tactic(auto)]

mod checking;
mod ends;
mod input;
pub mod laws;
mod live;
mod live_head;
mod rerun;
mod shake;
mod shown;
mod status;
mod threads;
mod top;
mod words;
mod written;

pub use dn_workers::{Gate, OpenGate};
pub use status::{Status, status_line, status_number};
pub use top::{defined_plain, defined_top};
pub use words::{Command, RunOptions, Schedule, command_of};
