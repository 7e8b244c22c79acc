//! What the programs that play tables have in common.
//!
//! A table is text that a person can read and edit. It says line by line what is done, and under that what has to
//! come of it. A program reads it from standard input and writes it to standard output, with what really happened
//! in the place of the outcome. So a table holds if the output equals the input.
//!
//! | Line | What is done |
//! |---|---|
//! | it begins with `#`, or is empty | nothing; it is kept |
//! | it begins with `=`, `>`, `\|` or `-` | nothing; it is an outcome, and the program writes its own |
//! | `defined` or `journal` | it is taken with all lines up to the next one that begins with `end` |
//! | any other | the program does what it says |
//!
//! | File | What it has |
//! |---|---|
//! | `play.rt` | `Bench`, what a program does with a line, and the lines of a table one after another |
//! | `program.rt` | `run`, all that a program does |
//! | `ending.rt` | how a table ends: the exit status, and the words on standard error |
//! | `fields.rt` | the words of a line |
//! | `out.rt` | the text that is written |
//! | `runs.rt` | flooding guests and the text of a key, for programs that run cases |
//!
//! Nothing is promised but that it ends and doesn't fail at run time: the tables test.
#![tactic(auto)]

mod ending;
mod fields;
mod out;
mod play;
mod program;
mod runs;

pub use fields::Fields;
pub use out::Out;
pub use play::Bench;
pub use program::run;
pub use runs::{flooding_guests, push_key};
