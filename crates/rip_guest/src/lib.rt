//! The RIP guest: a router that runs RIP version 2 (RFC 2453 sections 3.6 to 3.10 and 4).
//!
//! | File | What it has |
//! |---|---|
//! | `settings.rt` | `RipSettings`, what a router begins with |
//! | `rip.rt` | `Rip`, the guest, and its step by cases on the input |
//! | `updates.rt` | regular and triggered updates, and the request for the whole table |
//! | `requests.rt` | what a request is answered |
//! | `responses.rt` | the entries of a response |
//! | `commands.rt` | commands, which set and withdraw own networks |
//! | `image.rt` | the bytes that tell the state |
//! | `show.rt` | the lines that tell the routes |
//! | `laws.rt` | what holds of every state that a router reaches |
//!
//! The one contract upwards: `Rip` is a `Guest` of sort 2 whose meaning is the definition of
//! `specs/Step.antt`, on plain data.
#![tactic(auto)]

mod commands;
mod image;
mod laws;
mod requests;
mod responses;
mod rip;
mod settings;
mod show;
mod updates;

pub use dn_net::{Costs, PrefixList};
pub use laws::{
    no_mark_is_left, sound_states, sound_states_are_told_plainly, sound_states_send_messages,
};
pub use rip::Rip;
pub use settings::RipSettings;
pub use std::alloc::AllocError as NoMemory;
