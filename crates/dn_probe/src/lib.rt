//! Probes: what watches the rows of a run, and says where to stop.
//!
//! A probe is shown each row with the show of the row's router after it: the lines that tell a reader of neighbours
//! and routes. It says yes at a row where a person who debugs a network wants to stop, it remembers what it needs for
//! that, and it reports how many rows were shown and for how many of them it said yes.
//!
//! | File | What it has |
//! |---|---|
//! | `probe.rt` | the trait `Probe` |
//! | `loop_probe.rt` | `LoopProbe`: a packet that follows the routes comes back to where it began |
//! | `storm.rt` | `StormProbe`: more than 1,000 messages in one group |
//! | `lost.rt` | `LostProbe`: a router has lost its route to a prefix |
//! | `routes.rt` | the routes that a show tells |
//! | `stations.rt` | what `lost` and `loop` remember of each router |
//! | `tally.rt` | the counts, and the line of the report |
//! | `specs/Meaning.antt` | what a probe is, as plain data |
//! | `specs/Loop.antt`, `specs/Storm.antt`, `specs/Lost.antt` | when each of the three says yes |
//!
//! The one contract upwards: the trait `Probe`. What a probe says of a row, and what it remembers then, is a function
//! of what it remembered, of the row and of the show, and no call changes its name and that function. A probe of
//! another kind is a type that implements the trait: it gives that function as its `ghost watcher`. Whoever attaches
//! probes of several kinds keeps them as `Box<dyn Probe>`, and the boxes are made in `main`.
//!
//! A show is a text of `Guest::show`, whose lines `docs/OSPF.md` and `docs/RIP.md` have; the probes read of it the lines
//! `route PREFIX COST via WHERE`. That and the probes are this project's own.
#![tactic(auto)]

mod loop_probe;
mod lost;
mod probe;
mod routes;
mod stations;
mod storm;
mod tally;

pub use loop_probe::LoopProbe;
pub use lost::LostProbe;
pub use probe::Probe;
pub use storm::StormProbe;
