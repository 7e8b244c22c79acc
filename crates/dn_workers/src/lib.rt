//! Threads that share one fabric under a turn: workers that handle what routers have, and a feeder.
//!
//! A worker tries for the turn. While it has the fabric it brings back what it has computed, delivers and rolls back
//! what there is, and leases one order; it computes that order when it doesn't have the fabric, so that several
//! workers compute at once. It goes on until the network is at its end, or somebody has stopped the fabric.
//!
//! The feeder's thread asks its feeder for one input after another. While it has the fabric it begins groups up to
//! the one with which the input is stamped, and injects it there; when the feeder has closed it begins the last
//! group and closes the feed.
//!
//! | File | What it has |
//! |---|---|
//! | `worker.rt` | `work`, what a worker does until all is done |
//! | `holding.rt` | what a worker does while it has the fabric |
//! | `gate.rt` | `Gate`, which a worker enters before it computes an order |
//! | `feeder.rt` | `feed`, what the feeder's thread does until its feeder has closed |
//! | `feeding.rt` | what a feeder does with a fabric that it has: beacons up to a group, an input, the end |
//! | `threads.rt` | `run_threads`, a whole run: a feeder and some workers, each on a thread of its own |
//! | `seats.rt` | the workers' seats: split off the first one, and joined into it again |
//! | `laws.rt` | what the seats of a run tell of the fabric at its end |
//! | `specs/Work.antt` | what a worker has done when it answers |
//! | `specs/Holds.antt` | what a thread may do while it has the fabric |
//! | `specs/Feed.antt` | what a feeder's call adds to the fabric's journal, and to the log that its seat has seen |
//! | `specs/Joined.antt` | the seats of a run: what workers and the feeder have left of them |
//! | `specs/Runs.antt` | what a whole run is |
//!
//! The one contract upwards: the fabric that `run_threads` gives at Ok wasn't stopped, has accepted just what the
//! feeder gave, in order, is closed, and is cut, or quiet with all committed; its journal is a legal run that injects
//! just these inputs. That rests on `work`, which at Ok has seen a stop, or a log that is a legal run to the end of
//! the network, and which never adds what feeds the case; and on `feed`, which has injected just what its feeder gave,
//! in order and with its stamps, but for the last one where a stop came before it.
#![tactic(auto)]

mod feeder;
mod feeding;
mod gate;
mod holding;
mod laws;
mod seats;
mod threads;
mod worker;

pub use feeder::feed;
pub use feeding::{close_at_the_end, give, reach};
pub use gate::{Gate, OpenGate};
pub use threads::run_threads;
pub use worker::work;
