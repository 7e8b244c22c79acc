//! What a RIP router begins with.

use dn_net::{Costs, PrefixList};

/// What a router begins with.
#[derive(Drop)]
pub struct RipSettings {
    /// The router's number. It sends its regular update in the ticks that are equal to it modulo 30.
    pub number: u16,
    /// One cost for each port, at most 16 ports. A cost above 16 is taken as 16.
    pub costs: Costs,
    /// The networks of the router's own, with metrics of 1 to 15.
    pub prefixes: PrefixList,
}
