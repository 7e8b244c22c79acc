//! What an OSPF router always does, whatever comes to it: laws above the definition of its step.
//!
//! The definition of the step goes by cases on the input, as RFC 2328 does, and the code goes the same way: a mistake
//! made in both would stay proved. So here is what an engineer expects of every run of a router, in the RFC's words.
//! Each law is the contract of a public function that does nothing. It is stated over the definitions that the
//! contracts of `ospf_router` cite, so it holds of the program.
//!
//! | File | What always holds of |
//! |---|---|
//! | `states.rt` | the states that a router reaches: each is sound |
//! | `database.rt` | the database: LSAs that have reached MaxAge |
//! | `lists.rt` | the retransmission lists: which ports have one that isn't empty |
//! | `own.rt` | the router's own LSA: when it is originated, and what it says |
//! | `sent.rt` | what is put out: Hellos |
//!
//! The one contract upwards: each law holds of every state that a router reaches (`IsReached`), so of every run.
#![tactic(auto)]

mod database;
mod lists;
mod own;
mod sent;
mod states;

pub use database::lsas_of_max_age_leave;
pub use lists::{lists_are_of_full_neighbours, lists_are_of_up_ports};
pub use own::{originations_are_spaced, own_lsa_is_current};
pub use sent::hellos_go_out;
pub use states::reached_states;
