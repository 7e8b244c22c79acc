//! What a RIP router always does, whatever comes to it: laws above the definition of its step.
//!
//! The definition of the step goes by cases on the input, as RFC 2453 does, and the code goes the same way: a mistake
//! made in both would stay proved. So here is what an engineer expects of every run of a router, in the RFC's words.
//! Each law is the contract of a public function that does nothing. It is stated over the definitions that the
//! contracts of `rip_guest` cite, so it holds of the program.
//!
//! | File | What always holds of |
//! |---|---|
//! | `tables.rt` | the table: its order, own networks, marks and timers |
//! | `taken.rt` | what a step takes: where routes come from, which messages change nothing, ports that are down |
//! | `lost.rt` | what a step gives up: own networks stay, and timers never fire early |
//! | `sent.rt` | what a step sends: split horizon |
//!
//! The one contract upwards: each law holds of every state that a router reaches (`IsReached`), so of every run.
#![tactic(auto)]

mod lost;
mod sent;
mod tables;
mod taken;

pub use lost::{own_networks_stay, timers_never_fire_early};
pub use sent::updates_have_split_horizon;
pub use tables::{
    few_own_networks, no_mark_between_steps, reached_states, tables_are_in_order, timers_are_kept,
};
pub use taken::{messages_that_change_nothing, no_route_by_a_down_port, routes_come_from_messages};
