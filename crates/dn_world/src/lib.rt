//! Worlds and steps: what a network does whose routers handle what has come, in whatever order it comes,
//! and take back what they handled too early.
//!
//! In a lockstep run one event at a time is handled, always the least of the whole network. Here each router
//! handles what it has, at once. When an earlier event comes late, the router takes back what it handled
//! after it (a rollback), sends what takes back its own messages (an unsend: a packet with a minus), and
//! handles them again in order. A world is such a network at one moment, as plain data: for each router what
//! it has handled (`done`), what it has still to handle (`todo`) and which unsends wait for their message
//! (`voids`); what flies; and how far the feed has come. A step changes it. Which steps are enabled, and what
//! each does, are functions (`specs/Steps.antt`), and a legal run is a list of steps, each enabled where it
//! comes. The horizon is the least key of all that waits, flies or may still come from outside; a Commit sets
//! the boundary there, and the events that were handled below the boundary are the committed rows.
//!
//! | File | What it has |
//! |---|---|
//! | `specs/World.antt` | one router's part, the world, cancelling, behind and ready, the horizon, quiet |
//! | `specs/Steps.antt` | where each step is enabled, and what it does |
//! | `specs/Runs.antt` | legal runs, the cases that they can be runs of, committed rows, and what holds |
//! | `specs/Logs.antt` | logs: the steps that were taken, behind which one mark Stop may stand; and the steps that feed a case |
//! | `step.rt`, `packet.rt`, `entry.rt` | `Step`, `Packet` and `Entry`, as code and definitions both have them |
//! | `kept.rt` | the trait of values that keep a log |
//! | `laws.rt` | the laws, for all networks and all legal runs |
//!
//! The one contract upwards: the laws of legal runs, before all `laws::prefix` and `laws::unsent`. Whatever
//! takes a world by these steps alone, in any order and by any number of workers, has at each moment committed
//! a prefix of the lockstep rows, and no message of a committed row is ever unsent.
//!
//! `proofs/Computes.antt` has runs with rollbacks and unsends that the definitions alone compute, step by
//! step. The crate has no code but its types, so no edit of its code turns a meaning, and it has no
//! must-fail edits: what is wrong in a definition shows in the laws, which then aren't proved.
#![tactic(auto)]

mod entry;
mod kept;
pub mod laws;
mod packet;
mod step;

pub use entry::Entry;
pub use kept::Kept;
pub use packet::Packet;
pub use step::Step;
