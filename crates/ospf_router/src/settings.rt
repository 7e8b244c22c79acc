//! What an OSPF router begins with. That is this project's own.

use dn_net::{Costs, PrefixList};

/// What a router begins with.
#[derive(Drop)]
pub struct OspfSettings {
    /// The router's number. Its router id is one more.
    pub number: u16,
    /// One cost for each port, at most 16 ports.
    pub costs: Costs,
    /// The networks of the router's own with their costs, at most 32. One that is no network, costs 0 or
    /// would be the 33rd is passed over.
    pub prefixes: PrefixList,
}
