//! The constants of OSPF by their names in RFC 2328 (appendices B and C.3, sections 12.1.6, A.2 and A.4). Times and
//! ages are in seconds, and a tick is one second. MinLSArrival of 1 second is "in this tick", and has no
//! number here.

/// The age at which an LSA is no longer used (RFC 2328 appendix B, MaxAge).
pub const MAX_AGE: u16 = 3_600;

/// Ages that differ by more than this are of two instances (RFC 2328 appendix B, MaxAgeDiff).
pub const MAX_AGE_DIFF: u16 = 900;

/// The age at which the own LSA is originated anew (RFC 2328 appendix B, LSRefreshTime).
pub const LS_REFRESH_TIME: u16 = 1_800;

/// The least time between two originations of one LSA (RFC 2328 appendix B, MinLSInterval).
pub const MIN_LS_INTERVAL: u16 = 5;

/// The first sequence number of an LSA (RFC 2328 section 12.1.6).
pub const INITIAL_SEQUENCE_NUMBER: u32 = 0x8000_0001;

/// The greatest sequence number (RFC 2328 section 12.1.6).
pub const MAX_SEQUENCE_NUMBER: u32 = 0x7fff_ffff;

/// The time between two Hellos (RFC 2328 appendix C.3, HelloInterval).
pub const HELLO_INTERVAL: u16 = 10;

/// The time after which a silent neighbour is Down (RFC 2328 appendix C.3, RouterDeadInterval).
pub const ROUTER_DEAD_INTERVAL: u16 = 40;

/// The time after which an LSA that wasn't acknowledged is sent again (RFC 2328 appendix C.3, RxmtInterval).
pub const RXMT_INTERVAL: u32 = 5;

/// What an LSA's age grows by on its way over a link (RFC 2328 appendix C.3, InfTransDelay).
pub const INF_TRANS_DELAY: u16 = 1;

/// The place of the E bit in the options (RFC 2328 appendix A.2).
pub const E_BIT: u8 = 1;

/// The options in what a router sends: the E bit alone, which is this project's own.
pub const OWN_OPTIONS: u8 = 2;

/// The LS type of a router-LSA (RFC 2328 appendix A.4.1).
pub const ROUTER_LSA_TYPE: u8 = 1;

/// The type of a router-LSA's link to a neighbour (RFC 2328 appendix A.4.2).
pub const POINT_TO_POINT: u8 = 1;

/// The type of a router-LSA's link to a stub network (RFC 2328 appendix A.4.2).
pub const STUB_NETWORK: u8 = 3;

/// The only area, the backbone, which is this project's own.
pub const BACKBONE: u32 = 0;
