//! What a router runs: guests, what they are given and put out, and the node around a guest.
//!
//! A guest is a pure step. It is given one input at a time (a tick, a command, a port that went down
//! or up, a message), is told which ports are up, changes its state and puts out messages on ports.
//! It reads no clock, draws no random number and keeps no handle, so its state after a list of inputs
//! is a function of that list: this is what makes a run repeatable.
//!
//! | File | What it has |
//! |---|---|
//! | `bytes.rt` | `Bytes`, a list of bytes |
//! | `input.rt` | `Input`, what a guest is given, and the order of inputs |
//! | `outbox.rt` | `Output` and `Outbox`, what a step puts out |
//! | `guest.rt` | the trait `Guest` |
//! | `ports.rt` | the mask of up ports |
//! | `node.rt` | `Node`, a guest with its mask of up ports and its count of sends, and `Sent` |
//! | `flood.rt` | `Flood`, the flooding guest |
//! | `body_set.rt` | `BodySet`, the bodies that a flooding guest has seen, which its copies share |
//! | `hex.rt` | hexadecimal digits |
//!
//! The one contract upwards: `Node::take` is the node step of `specs/Node.antt`, for every guest that
//! meets the trait `Guest`, whose meaning (`specs/Meaning.antt`) is plain functions of plain data.
#![tactic(auto)]

mod body_set;
mod bytes;
mod flood;
mod guest;
mod hex;
mod input;
mod node;
mod outbox;
mod ports;

pub use bytes::Bytes;
pub use flood::Flood;
pub use guest::Guest;
pub use hex::push_hex;
pub use input::Input;
pub use node::{Node, Sent};
pub use outbox::{Outbox, Output};
pub use ports::is_up;
pub use std::alloc::AllocError as NoMemory;
