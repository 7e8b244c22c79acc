//! The routing table of a RIP router (RFC 2453 sections 3.5 to 3.10): a finite map from a network (its
//! address and the length of its mask) to what is held of the route there.
//!
//! | File | What it has |
//! |---|---|
//! | `held.rt` | `Held`, a route with its metric, its source and its timer |
//! | `table.rt` | `Table`: looking up, the keys, equality, the marks of changed routes |
//! | `validation.rt` | which entries of a response are taken, and of which network each tells |
//! | `response.rt` | what an entry of a response does to the table |
//! | `own.rt` | the router's own networks |
//! | `timers.rt` | timeout and garbage collection, and a port that went down |
//! | `updates.rt` | the entries of an update, with split horizon |
//! | `laws.rt` | laws of the definitions |
//!
//! The one contract upwards: in a clause a `Table` is the list of its routes in ascending order of the
//! networks, and each call is the call of that name on the finite map, as `specs/` says it.
#![tactic(auto)]

mod held;
mod laws;
mod own;
mod response;
mod table;
mod timers;
mod updates;
mod validation;

pub use dn_net::{is_network, mask_len, mask_of};
pub use held::Held;
pub use laws::{a_change_is_at_one_network, one_own_network_more, sound_tables};
pub use rip_wire::{INFINITY, MOST_ROUTES};
pub use std::alloc::AllocError as NoMemory;
pub use table::Table;
