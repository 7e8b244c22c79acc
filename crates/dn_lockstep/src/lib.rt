//! The engine that runs a network in lockstep: one event at a time, always the least of the whole
//! network.
//!
//! `Engine::new` takes a case and a guest for each router. Each `next` handles one row of the lockstep
//! run of `dn_model` (its definition knows no engine), until there is none (`End`) or as many were
//! handled as a trace shows (`Cut`). Between two rows everything can be looked at: the row handled last,
//! the next one, each node, and the messages that are on their way.
//!
//! | File | What it has |
//! |---|---|
//! | `engine.rt` | `Engine` and `Next` |
//! | `step.rt` | one step: a node takes the least event, and what it emits waits too |
//! | `agenda.rt` | all that waits: a queue, and the ticks of the groups that have not begun |
//! | `queue.rt` | the queue: the events of the first moment in order, and the later ones |
//! | `later.rt` | the later events, by their moments and unsorted |
//! | `queued.rt` | an event in the reversed order |
//! | `wiring.rt` | the far ends of each router's ports |
//! | `opening.rt` | the nodes before the first event |
//!
//! `dn_plain` has the same run from one plain list of what waits, and runs it beside this engine. For it
//! `opening_nodes` is public.
//!
//! The definitions that the contracts cite: `specs/Running.antt` (what an engine is as plain data, and
//! what it means that it stands after the first rows of a network and a feed) and `specs/Answers.antt`
//! (what `next` answers, and where the engine stands then).
//!
//! The one contract upwards: an engine that `new` made stands in the lockstep run of its case, for every
//! guest, and `next` keeps it so: after n answers `Row` it stands after the first n lockstep rows, each
//! node is the replay of its router's rows, and at `End` the rows of each router are its lockstep list: a
//! settled family, and no other is.
#![tactic(auto)]

mod agenda;
mod engine;
mod later;
mod opening;
mod queue;
mod queued;
mod step;
mod wiring;

pub use engine::{Engine, Next};
pub use opening::opening_nodes;
