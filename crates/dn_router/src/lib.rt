//! One router's speculation: it handles what has come, at once, and takes back what it handled too early.
//!
//! A router has a list of events that it has handled (`done`), a queue of what waits (`InQueue`), and the
//! nodes that it kept on the way (`Shelf`). Handling an event takes three calls: `order` gives what the step
//! needs, the kept node among it, of which the order is one more owner; `compute` runs the guest on a copy of
//! that node, without the router; and `apply` brings the outcome back, unless the router has moved on in between
//! (`Stale`). When an earlier event has come, or one that was handled was unsent, the router is behind:
//! `roll_back` takes the entries from the first wrong one on off its list, puts their events back into the queue,
//! and answers what they had emitted, which is to be unsent. `commit_below` answers the entries that nothing can
//! change any more, and lets go the nodes that no rollback can reach.
//!
//! | File | What it has |
//! |---|---|
//! | `router.rt` | `Router` |
//! | `order.rt` | `Order`, `Outcome`, `Applied`; running the guest over inputs |
//! | `history.rt` | searches in the list of handled events |
//! | `replay.rt` | what a replay emits |
//! | `laws.rt` | the law that ties a router to a network: its replays and sendings are the network's |
//!
//! The definitions: `specs/Routers.antt` (a router as plain data, and what each call makes of it),
//! `specs/Replays.antt` (a node after a history, and what the history emits), `specs/Orders.antt`. They stand on
//! those of `dn_world`: a router's part is a `Part`, and each call that changes it is that part of a step:
//! `arrive` is `arrived`, `apply` is what Handle does to the part, `roll_back` is what RollBack does.
//!
//! The one contract upwards: each call of `Router` is that change of its plain data and no other, with the
//! events that fly; a node that it gives is the replay of `done`.
//!
//! There is a kept node for each number of entries of `done` that isn't below the number of those committed. So
//! an order has one input. Nothing takes a committed entry off, so `commit_below` lets go the nodes that led to
//! fewer. What entries had emitted isn't kept: `roll_back` replays them from the node that is kept at the first
//! of them.
//!
//! After a call that answered want of memory a router is dropped by its caller. Such a call leaves it as it
//! was, but `roll_back`, after which events may be lost.
#![tactic(auto)]

mod history;
pub mod laws;
mod order;
mod replay;
mod router;

pub use order::{Applied, Order, Outcome};
pub use router::Router;
