//! The constants of RFC 2453, and those of this project's profile. One tick is one second.

/// The command of a request for routes (RFC 2453 section 3.9.1).
pub const REQUEST: u8 = 1;

/// The command of a response, which tells routes (RFC 2453 section 3.9.2).
pub const RESPONSE: u8 = 2;

/// The version of RIP (RFC 2453 section 4).
pub const VERSION: u8 = 2;

/// The bytes before the entries: command, version, and two that are zero (RFC 2453 section 4).
pub const HEADER_BYTES: usize = 4;

/// The bytes of an entry (RFC 2453 section 4).
pub const BYTES_PER_ENTRY: usize = 20;

/// The greatest number of entries in a message (RFC 2453 section 3.6).
pub const MOST_ENTRIES: usize = 25;

/// The address family of IP (RFC 2453 section 3.6).
pub const IP_FAMILY: u16 = 2;

/// The family of the one entry that asks for the whole table (RFC 2453 section 3.9.1).
pub const WHOLE_TABLE_FAMILY: u16 = 0;

/// The family of an entry of authentication (RFC 2453 section 4.1).
pub const AUTHENTICATION_FAMILY: u16 = 0xffff;

/// The metric of a network that can't be reached (RFC 2453 sections 3.4 and 3.6).
pub const INFINITY: u8 = 16;

/// The ticks between two regular updates (RFC 2453 section 3.8).
pub const UPDATE_INTERVAL: u32 = 30;

/// The ticks that a route lasts without being heard again (RFC 2453 section 3.8).
pub const TIMEOUT: u32 = 180;

/// The ticks that an unreachable route is still told of before it is removed (RFC 2453 section 3.8).
pub const GARBAGE_COLLECTION: u32 = 120;

/// The greatest number of routes in a table. If there are so many, nothing is added. That is this project's own.
pub const MOST_ROUTES: usize = 65_535;

/// The greatest number of own networks that can be reached, as far as commands set them. That is this project's
/// own.
pub const MOST_OWN_NETWORKS: u64 = 32;

/// The greatest metric that a command sets. That is this project's own.
pub const GREATEST_OWN_METRIC: u16 = 15;

/// The last tick that is taken. That is this project's own.
pub const LAST_TICK_TAKEN: u32 = 65_535;
