//! Routes.

/// A route to a network (RFC 2328 section 11).
#[derive(Clone, Copy, Debug, PartialEq, Eq)]
pub struct Route {
    /// The network's address; its bits past `len` are 0.
    pub prefix: u32,
    /// The length of the network's mask, at most 32.
    pub len: u8,
    /// The least cost.
    pub cost: u32,
    /// Whether the router itself has the network at that cost.
    pub own: bool,
    /// The ports by which a way of that cost begins; bit q stands for port q.
    pub via: u16,
}
