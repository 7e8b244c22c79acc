//! What a worker passes before it computes.

/// A worker enters the gate before it computes an order, when it doesn't have the fabric. Nothing is known of what
/// a gate does; it may hold up the worker.
pub trait Gate {
    /// A worker is about to compute an order of this router, from this place of the router's list.
    fn enter(&self, router: u16, place: u64);
}

/// The gate that holds up nobody.
pub struct OpenGate;

impl Gate for OpenGate {
    fn enter(&self, _router: u16, _place: u64) {}
}
