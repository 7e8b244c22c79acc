//! Checkpoints: the nodes that a router keeps, by how many events of its list led to them.
//!
//! A router that takes back what it handled too early goes on from a node that it kept, in place of
//! beginning anew. Place n is the node after the first n events. A kept node has several owners: the shelf, and
//! whoever has asked for it to go on from it elsewhere.
//!
//! | File | What it has |
//! |---|---|
//! | `shelf.rt` | `Shelf` |
//! | `shared.rt` | `SharedNode`, a node with several owners |
//! | `ends.rt` | taking kept nodes off at either end |
//!
//! The one contract upwards: in a clause a `Shelf` is a finite map from places to node states, as the list of
//! its entries in ascending order of the places, and `specs/Shelves.antt` says what each call does to it. It is
//! never empty.
//!
//! `keep` leaves the shelf as it was where it finds no memory, and no other call changes a shelf and takes
//! memory. `least_place` says beside its place that every place from it on has a base, which is what `base_for`,
//! `cut` and `trim` ask of their caller.
#![tactic(auto)]

mod ends;
mod shared;
mod shelf;

pub use shared::SharedNode;
pub use shelf::Shelf;
