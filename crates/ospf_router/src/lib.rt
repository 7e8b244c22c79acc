//! A router that runs OSPF version 2 (RFC 2328) over unnumbered point-to-point links in one area: its
//! state, and its step on plain data. The parts of the protocol that it stands on are crates of their
//! own: packets (`ospf_wire`), the database (`ospf_lsdb`), the receive table (`ospf_flood`).
//!
//! | File | What it has |
//! |---|---|
//! | `settings.rt` | `OspfSettings`, what a router begins with |
//! | `neighbour.rt` | `Neighbour`: Down, Init or Full |
//! | `interfaces.rt` | costs, neighbours and retransmission lists, port by port |
//! | `prefixes.rt` | the router's own networks |
//! | `router.rt` | `Router`, a router in the middle of a step: its state, and what it has put out |
//! | `build_updates.rt` | Link State Updates as they are sent: one LSA, or as many as go into 1,400 bytes |
//! | `flooding.rt` | what is flooded, and what is sent to one neighbour |
//! | `hello.rt` | Hellos, sent and received |
//! | `receive_update.rt` | an Update that comes |
//! | `receive_acknowledgement.rt` | an Acknowledgement that comes |
//! | `tick.rt` | a tick: silent neighbours, aging, Hellos, retransmission |
//! | `origination.rt` | the end of a step: the router's own LSA, and LSAs that are gone |
//! | `command.rt` | commands, which set and take away own networks |
//! | `step.rt` | the step by cases on the input |
//! | `laws.rt` | what holds of every state that a router reaches |
//!
//! The one contract upwards: `Router::step` is `next` of `specs/Step.antt`, for every input of any port and
//! any bytes. What it puts out stands in the router's `out`.
#![tactic(auto)]

mod build_updates;
mod command;
mod flooding;
mod hello;
mod interfaces;
mod laws;
mod neighbour;
mod origination;
mod prefixes;
mod receive_acknowledgement;
mod receive_update;
mod router;
mod settings;
mod step;
mod tick;

pub use dn_net::{Costs, PrefixList};
pub use interfaces::{Interfaces, Port};
pub use laws::{sound_parts, sound_states, sound_states_are_plain};
pub use neighbour::{Heard, Neighbour};
pub use prefixes::Prefixes;
pub use router::Router;
pub use settings::OspfSettings;
pub use std::alloc::AllocError as NoMemory;
