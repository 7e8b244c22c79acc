//! The model of a network of routers: what a case is, in which order events stand, what a step emits,
//! and what the lockstep run is.
//!
//! Time is counted in groups of `period` moments. Each router has a tick at the begin of each group;
//! what comes from outside is stamped with a group; a message comes a link's delay after its cause.
//! Every event has a key, and the lockstep run handles all events of the network in the order of their
//! keys: one event at a time, always the least. Its definition (`specs/Settled.antt`) knows no engine:
//! it says, moment by moment, which events are due at which router.
//!
//! | File | What it has |
//! |---|---|
//! | `key.rt`, `event.rt` | keys, events, and their orders |
//! | `ties.rt`, `timing.rt` | the tie of messages that come at one moment; the key of a message |
//! | `name.rt`, `router.rt`, `link.rt`, `header.rt` | the header of a case |
//! | `feed.rt`, `case.rt` | what comes from outside; the whole case |
//! | `emission.rt` | the messages that a step's outputs become |
//! | `start.rt` | the node before the first event; the row limit |
//! | `optional.rt` | a list to which an item is added, where there is one |
//! | `laws.rt` | the laws of the model, for all networks and all runs |
//!
//! The one contract upwards: the order of events, `emitted`, and `laws::one_settled_family`: the
//! lockstep lists are a settled family and no other is. Whatever handles events so that each router's
//! history is sorted and holds just what is due has therefore done the lockstep run.
//!
//! `proofs/Computes.antt` has runs of small networks, with all their rows and states, that the definitions
//! alone compute.
#![tactic(auto)]

mod case;
mod emission;
mod event;
mod feed;
mod header;
mod key;
pub mod laws;
mod link;
mod name;
mod optional;
mod router;
mod start;
mod ties;
mod timing;

pub use case::Case;
pub use emission::{emitted, emitted_by, ends, message};
pub use event::{Event, Row};
pub use feed::{External, Feed};
pub use header::Header;
pub use key::Key;
pub use link::{End, Link, Links};
pub use name::{Name, is_name};
pub use router::{Kind, Prefix, Prefixes, RouterDef, Routers};
pub use start::{opening, row_limit};
pub use ties::{fin, tie};
pub use timing::Timing;
