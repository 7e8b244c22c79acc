//! RIP version 2 messages (RFC 2453 section 4).
//!
//! | File | What it has |
//! |---|---|
//! | `message.rt` | `Message`; `decode` and `encode` |
//! | `constants.rt` | the constants of RFC 2453, and those of this project's profile |
//! | `entry.rt` | `Entry`, one route in a message, both ways |
//! | `entries.rt` | `Entries`, the list in a message, both ways |
//! | `laws.rt` | laws of the definitions |
//!
//! The one contract upwards: `decode` gives the message exactly if the bytes are one of the grammar
//! of `specs/Messages.antt`, and what `encode` writes is such bytes of its message.
#![tactic(auto)]

mod constants;
mod entries;
mod entry;
mod laws;
mod message;

pub use constants::{
    AUTHENTICATION_FAMILY, GARBAGE_COLLECTION, GREATEST_OWN_METRIC, INFINITY, IP_FAMILY,
    LAST_TICK_TAKEN, MOST_ENTRIES, MOST_OWN_NETWORKS, MOST_ROUTES, REQUEST, RESPONSE, TIMEOUT,
    UPDATE_INTERVAL, WHOLE_TABLE_FAMILY,
};
pub use entries::Entries;
pub use entry::Entry;
pub use laws::{
    messages_are_read, one_message, read_messages_are_written, read_messages_fit,
    written_messages_are_read,
};
pub use message::{Message, decode, encode};
pub use std::alloc::AllocError as NoMemory;
