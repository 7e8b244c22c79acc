//! Tests of `run` on worker threads: what no clause can say, namely that workers compute at once, that they handle
//! what has come before it is known to be right, and how many they are.
//!
//! A gate holds up calls until others have come; a call that has waited too long gives up, which counts as a miss.
//! The tests ask for no miss.
//!
//! | File | What it tests |
//! |---|---|
//! | `gates.rt` | two calls that wait for each other, one of them past the horizon; four calls in the gate at once, and never five |
//! | `live.rt` | `run --live`: stamps, what is written at each ending, and that the run goes on while lines come |
//! | `waiting.rt` | a bounded wait for other threads |
#![tactic(auto)]

#[cfg(test)]
mod gates;
#[cfg(test)]
mod live;
#[cfg(test)]
mod waiting;
