//! The fabric: a whole network of routers that handle what has come, at once, and take back what they
//! handled too early.
//!
//! A `Fabric` has all routers (`dn_router`), what flies between them, the rows that were committed, and the
//! journal of the steps that it took. Whoever drives it chooses the order: which packet is delivered next,
//! which router handles or rolls back, when to commit. Handling takes three calls, so that the guest can run
//! apart from the fabric: `lease` gives a router's order out, `Order::compute` runs the guest, `finish` brings
//! the outcome back, or says that the router has moved on in between (`Finished::Stale`). `next_work` says what
//! there is to do.
//!
//! | File | What it has |
//! |---|---|
//! | `fabric.rt` | `Fabric`: its parts, the fabric before the first step, what can be read of it |
//! | `steps.rt` | the calls that are steps: beacon, inject, close, deliver, roll back, commit |
//! | `leases.rt` | handling in three parts: lease and finish |
//! | `promises.rt` | the committed rows, the cut, the quiet end, a router's node, and what is promised of them |
//! | `work.rt` | what there is to do |
//! | `answer.rt` | what commit and finish answer |
//! | `world.rt` | the layer below: routers and flight, without journal and leases |
//! | `roster.rt`, `asking.rt` | the routers; what there is to do at each, and what they ask for first |
//! | `coming.rt`, `handling.rt`, `committing.rt` | its steps: what comes to routers, what routers do, the horizon and committing |
//! | `flight.rt` | the packets between routers |
//! | `laws.rt` | a network of each header exists; what a stop leaves of the log; what every fabric promises, and what a step of it may count on |
//!
//! The definitions: `specs/Fabrics.antt` (a fabric as plain data, and what each call makes of it),
//! `specs/Promises.antt` (what is promised of its rows and of its end), `specs/Driven.antt` (where every drive
//! begins, and what a fabric shows at its end), `specs/Answers.antt`, `specs/Work.antt`. They stand on those of
//! `dn_world`: worlds, steps, legal runs.
//!
//! The one contract upwards: each call that is a step is that step of a world, and stands last in the journal
//! (`HasStepped`; what of that names no network, `HasNoted`), and the journal is a legal run that leads to the
//! fabric's world (`IsReached`). So whatever holds of every legal run holds of every fabric, in whatever order
//! its calls came: what it has committed is final, no unsent message stands in it, and a quiet fabric has done
//! the lockstep run. A fabric keeps a log (`dn_world::Kept`): its journal, and behind it the mark of a stop.
//!
//! After want of memory of a call that changes a fabric it is stopped: it has the header and the journal from
//! before, and nothing else is said of it. Horizon, journal, leases and the order of work are this project's own.
#![tactic(auto)]

mod answer;
mod asking;
mod coming;
mod committing;
mod fabric;
mod flight;
mod handling;
pub mod laws;
mod leases;
mod promises;
mod roster;
mod steps;
mod work;
mod world;

pub use answer::{Finished, Moved};
pub use fabric::Fabric;
pub use work::Work;
