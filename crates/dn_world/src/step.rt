//! The steps of a world.

use dn_model::External;

/// One step of a world. Where it is enabled and what it does say `is_enabled` and `after` of
/// `specs/Steps.antt`.
#[derive(Drop)]
pub enum Step {
    /// The next group begins, and its tick comes to every router.
    Beacon,
    /// An external is accepted, and comes to its router.
    Inject(External),
    /// Nothing more comes from outside.
    Close,
    /// The packet at this place of the flight, from 0, arrives.
    Deliver(u64),
    /// The router handles the first event that it has to handle.
    Handle(u16),
    /// The router takes back what it handled too early or ought not to have handled.
    RollBack(u16),
    /// What is below the horizon is committed.
    Commit,
}
