//! The guests of all kinds in one type, and the guest with which a router of a header begins.
//!
//! A network's routers may be of several kinds. `AnyGuest` is a guest of any of them: its step, its image
//! and its show are those of the guest inside, and so is its sort. `make` gives the guest of a router
//! before the first event: it fills the settings from the header, that is the router's number, the costs
//! of its ports from the links, and its prefixes.
//!
//! | File | What it has |
//! |---|---|
//! | `any.rt` | `AnyGuest`, the guest of any kind |
//! | `making.rt` | `make`, the guest before the first event |
//!
//! The one contract upwards: `make` answers `opening_guest` of `specs/Openings.antt`, and `AnyGuest` is a
//! `Guest` whose meaning is `any` of `specs/Any.antt`, by cases on the guest inside.
#![tactic(auto)]

mod any;
mod making;

pub use any::AnyGuest;
pub use dn_guest::NoMemory;
pub use making::make;
