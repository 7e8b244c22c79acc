//! The entries of logs.

use crate::Step;

/// One entry of a log: what was done with a network.
#[derive(Drop)]
pub enum Entry {
    /// The step was taken.
    Did(Step),
    /// Nothing more is done. It may stand last alone.
    Stop,
}
