//! The session of the debugger: what each line of a person writes, and what it leaves.
//!
//! A person debugs the lockstep run of a case by lines (`docs/DEBUGGER.md`). A session is the run as far as it has come,
//! with what the person has set up: breaks and probes, each of which can stop the run at a row. It is given one line
//! after another, does what the line asks for, and writes an answer.
//!
//! | File | What it has |
//! |---|---|
//! | `session.rt` | `Session`, and `Told`: whether it goes on |
//! | `dialogue.rt` | `converse`: a whole session, line by line |
//! | `answer.rt` | the answer to a line |
//! | `commands.rt` | what each command does |
//! | `running.rt` | going on until something stops the run |
//! | `walk.rt` | handling one row: it is noted, shown to the probes, and looked at |
//! | `watching.rt` | the probes of a session |
//! | `latest.rt` | the last rows |
//! | `extent.rt`, `reason.rt` | how far a command may run, and why a run stops |
//! | `lines.rt` | the lines that a session writes |
//! | `boxed.rt` | `Boxed`, a probe of any kind |
//! | `specs/Transcript.antt` | the answer to a line: its text, and what it leaves |
//! | `specs/Courses.antt` | how far a command runs, and why it stops |
//! | `specs/Situations.antt` | what answers hang on, and what it means that a session stands in a run |
//! | `specs/Watching.antt`, `specs/Lines.antt` | attaching and dropping probes; the texts of the lines |
//! | `specs/Replying.antt` | what a session does with a line, at Ok and at each error |
//! | `specs/Conversing.antt` | a whole session: the lines that are read, and what is written for them |
//!
//! The one contract upwards: a session that `Session::new` made stands in the lockstep run of its case. `Session::command`
//! keeps it there, and at Ok the sink has got just the answer to the line. That answer is said by the place, the breaks,
//! the probes with what they remember, the probes that are still there, the case and its lockstep rows; the definition
//! knows no engine. Whoever goes on after a fault of the sink has the session after that line. `converse` does this line
//! after line, and at Done has written the transcript of the lines up to `quit` or the end of the input.
#![tactic(auto)]

mod answer;
mod boxed;
mod commands;
mod dialogue;
mod extent;
mod latest;
mod lines;
mod reason;
mod running;
mod session;
mod walk;
mod watching;

pub use boxed::Boxed;
pub use dialogue::{Conversed, converse};
pub use session::{Session, Told};
