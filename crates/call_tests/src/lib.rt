//! Tests of public calls: what no clause says, and neither a command nor a table shows.
//!
//! A clause holds for all inputs, so no test repeats one. A command on an input is a case of the folder
//! `tests/commands` beside the crates, and what a part of a router, a fabric or an engine does turn by turn is a
//! line of a table there. Here are the calls that no program makes, each once with ample memory; the words of
//! errors; tables too long for a text; and each law of networks at a concrete guest.
//!
//! | File | What it tests |
//! |---|---|
//! | `calls.rt` | calls of the model, of one router, of its kept nodes, of lists and tables |
//! | `commands.rt` | `defined_plain` on a source and a sink that fail at a numbered call or move single bytes |
//! | `commands_of_debug.rt` | lines of the debugger that are commands, and lines that are none |
//! | `full.rt` | a full link-state database, a full RIP routing table |
//! | `laws.rt` | each law of networks at the flooding guest |
//! | `live.rt` | lines of a source in pieces and at its faults, beats of a clock, live lines |
//! | `ospf.rt` | each law of OSPF routers |
//! | `probes.rt` | the probes, on tables of small shows |
//! | `rip.rt` | each law of RIP routers |
//! | `sessions.rt` | a session of the debugger: a whole transcript, and when it drops its probes |
//! | `streams.rt` | the words of errors, and what may go to another thread |
//! | `traces.rt` | single rows and states, rows that come in pieces |
//!
//! A test is proved before it runs. Most of that time goes into the first call of each crate, whose definitions are
//! then loaded, and into long constants. So these tests stand in one crate, and a text that can be a file is one.
#![tactic(auto)]

#[cfg(test)]
mod calls;
#[cfg(test)]
mod commands;
#[cfg(test)]
mod commands_of_debug;
#[cfg(test)]
mod full;
#[cfg(test)]
mod laws;
#[cfg(test)]
mod live;
#[cfg(test)]
mod ospf;
#[cfg(test)]
mod probes;
#[cfg(test)]
mod rip;
#[cfg(test)]
mod sessions;
#[cfg(test)]
mod streams;
#[cfg(test)]
mod traces;
