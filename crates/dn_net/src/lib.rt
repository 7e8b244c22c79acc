//! IPv4 networks, and what a router's settings are made of: what routers of all protocols share.
//!
//! A network is an address and the length of its mask, from 0 to 32. It has no host bits: no bits of the
//! address are past the length.
//!
//! | File | What it has |
//! |---|---|
//! | `networks.rt` | masks and their lengths, and host bits |
//! | `texts.rt` | a network as `A.B.C.D/LEN` |
//! | `settings.rt` | `Costs` and `PrefixList`, of which a router's settings are made |
//!
//! The one contract upwards: `mask_len` answers a length exactly if the mask is contiguous, and it is the
//! length whose mask `mask_of` gives; `is_network` is whether there are no host bits (`specs/Networks.antt`).
#![tactic(auto)]

mod networks;
mod settings;
mod texts;

pub use networks::{is_network, mask_len, mask_of};
pub use settings::{Costs, PrefixList};
pub use std::alloc::AllocError as NoMemory;
pub use texts::push_network;
