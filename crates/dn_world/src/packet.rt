//! What flies between routers.

use dn_model::Event;

/// An event in flight.
#[derive(Drop)]
pub struct Packet {
    /// Whether the event was sent (plus); otherwise its sending is taken back (minus).
    pub plus: bool,
    pub event: Event,
}
