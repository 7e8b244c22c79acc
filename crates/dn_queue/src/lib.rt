//! What waits at one router: the events that it has still to handle, and those that it is to take out.
//!
//! Messages reach a router in any order, and a sending may be taken back (an unsend) before or after its
//! message has come. The queue holds both kinds and cancels at once: an event and its unsend leave together,
//! once each, where key, router and input are the same.
//!
//! | File | What it has |
//! |---|---|
//! | `queue.rt` | `InQueue` |
//! | `todo.rt` | the events to handle: a set, and beside it what stands there more than once |
//! | `ordered.rt` | a few events, in order |
//! | `place.rt` | places in a list of events that is in order |
//!
//! The one contract upwards: in a clause an `InQueue` is the `Part` of `dn_world` that has handled nothing,
//! with its two lists `todo` and `voids` in the order of events, and each call is the function of that part
//! that the steps of a world use: `put` and `take_back` are `with_todo`, `void` is `with_void`.
//!
//! Where they find no memory, `put` and `void` leave the queue as it was. `take_back` leaves one to which a front
//! of the events has come (`specs/Comings.antt`); the rest is lost, so its caller drops the queue.
//!
//! `find`, `place_before` and `place_after` say where an event stands, or would stand, in any list of events that
//! is in order (`specs/Places.antt`).
#![tactic(auto)]

mod ordered;
mod place;
mod queue;
mod todo;

pub use place::{find, place_after, place_before};
pub use queue::InQueue;
