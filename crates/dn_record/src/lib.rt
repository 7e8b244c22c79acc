//! What a run is fed with: the inputs from outside, each with the group with which it is stamped.
//!
//! Where they come from is open: from the list of a case, or from outside while the run goes on. A run asks its
//! feeder for the next input, brings the network to that group, and injects it; when the feeder closes, nothing
//! more comes from outside. What a feeder has given is what `lockstep` must be given to repeat the run.
//!
//! | File | What it has |
//! |---|---|
//! | `feeder.rt` | `Feeder`, and what it answers |
//! | `list_feed.rt` | `ListFeed`, the feeder of a case's list |
//! | `recorder.rt` | `Recorder`, which stamps what comes with the group of the beat |
//! | `live_log.rt` | what a live feed keeps, and how it listens |
//! | `live_feed.rt` | `LiveFeed`, the feeder of lines that come while the run goes on |
//! | `live_end.rt` | `LiveEnd`, why a live feed has closed |
//! | `live_feeds.rt` | tests: live lines in single bytes, a bad one, a source that fails |
//! | `specs/Feeding.antt` | what an answer adds to what was given |
//! | `specs/Stamps.antt` | the stamp at a beat |
//! | `specs/Live.antt` | which lines a live feed accepts, how they are stamped, and why it closes |
//! | `specs/Following.antt` | that states of a live feed follow one another: the trait's laws |
//! | `specs/Listening.antt` | what a live feed does with an answer of its reader |
//!
//! The one contract upwards: the trait `Feeder`. Each input that a feeder gives may come from outside, and is
//! stamped with a group of the run that isn't before the last one. For a live feed its relation between two states is
//! `Follows` of `specs/Live.antt`: what it has given are the lines of its source, in order and all of them, up to the
//! first that is `end`, has no reading or isn't there.
//!
//! A live line is a line of an external without its group (`docs/FORMATS.md`); its stamp is the number of whole
//! seconds since the run began, but not below the stamp before and not past the last group.
#![tactic(auto)]

mod feeder;
mod list_feed;
mod live_end;
mod live_feed;
#[cfg(test)]
mod live_feeds;
mod live_log;
mod recorder;

pub use feeder::{Fed, Feeder};
pub use list_feed::ListFeed;
pub use live_end::LiveEnd;
pub use live_feed::LiveFeed;
pub use recorder::Recorder;
