//! The OSPF guest: a router that runs OSPF version 2 (RFC 2328), as a guest of the network. Its step is
//! that of `ospf_router`; here are the bytes and the lines that tell its state.
//!
//! | File | What it has |
//! |---|---|
//! | `ospf.rt` | `Ospf`, the guest |
//! | `image.rt` | the bytes that tell the state |
//! | `ports_image.rt`, `database_image.rt` | their parts for the ports and for the database |
//! | `show.rt` | the lines that tell neighbours and routes |
//! | `laws.rt` | the plain image of each state that a router reaches, and that image and show leave nothing of it out |
//!
//! The one contract upwards: `Ospf` is a `Guest` of sort 1 whose meaning is `ospf` of `specs/Ospf.antt`, on
//! plain data: the step of `ospf_router`, the image and the show of `specs/`. `specs/PlainImage.antt` has the image
//! of every state that a router reaches.
#![tactic(auto)]

mod database_image;
mod image;
mod laws;
mod ospf;
mod ports_image;
mod show;

pub use laws::{sound_states_are_told_plainly, sound_states_have_the_plain_image};
pub use ospf::Ospf;
pub use ospf_router::{Costs, OspfSettings, PrefixList};
pub use std::alloc::AllocError as NoMemory;
