//! OSPFv2 packets (RFC 2328 appendix A), the two checksums that stand in them, and which of two
//! instances of an LSA is the newer.
//!
//! | File | What it has |
//! |---|---|
//! | `constants.rt` | the constants of RFC 2328 by their names; `specs/Constants.antt` has them for the contracts |
//! | `packet.rt` | `Packet` and `Body`; `decode` and `encode` |
//! | `hello.rt` | the body of a Hello |
//! | `link_state_update.rt` | the body of a Link State Update |
//! | `acknowledgement.rt` | the body of a Link State Acknowledgement |
//! | `lsa.rt` | `LsaHeader` and `Lsa` |
//! | `lsa_body.rt` | `LsaBody`, what stands behind a header; copies share it |
//! | `router_lsa.rt` | `RouterLink`, and the body of a router-LSA: its links, read and written |
//! | `packet_lists.rt` | `Ids`, `Lsas`, `LsaHeaders` and `RouterLinks`, the lists in packets |
//! | `packet_sum.rt` | the checksum of a packet |
//! | `fletcher.rt` | the LS checksum of an LSA |
//! | `instances.rt` | which instance of an LSA is the newer |
//! | `fields.rt` | numbers in bytes, the highest byte first |
//! | `laws.rt` | laws of the definitions |
//!
//! The one contract upwards: `decode` gives the packet exactly where the bytes are one of the grammar
//! of `specs/Packets.antt`, what `encode` writes is such bytes of its packet, and each packet that can be
//! written is read from them (`written_packets_are_read`). So it is of the body of a router-LSA,
//! `router_links`, `router_body` and `specs/RouterLsas.antt`.
#![tactic(auto)]

mod acknowledgement;
mod constants;
mod fields;
mod fletcher;
mod hello;
mod instances;
mod laws;
mod link_state_update;
mod lsa;
mod lsa_body;
mod packet;
mod packet_lists;
mod packet_sum;
mod router_lsa;

pub use constants::{
    BACKBONE, E_BIT, HELLO_INTERVAL, INF_TRANS_DELAY, INITIAL_SEQUENCE_NUMBER, LS_REFRESH_TIME,
    MAX_AGE, MAX_AGE_DIFF, MAX_SEQUENCE_NUMBER, MIN_LS_INTERVAL, OWN_OPTIONS, POINT_TO_POINT,
    ROUTER_DEAD_INTERVAL, ROUTER_LSA_TYPE, RXMT_INTERVAL, STUB_NETWORK,
};
pub use fletcher::{fletcher_ok, fletcher_set};
pub use hello::Hello;
pub use instances::newer;
pub use laws::{
    ls_checksum_is_right, ls_checksum_is_the_only_one, newer_turns_round, one_packet,
    packets_are_read, router_links_are_read, written_checksum_is_right, written_packets_are_read,
    written_router_links_are_read,
};
pub use lsa::{Lsa, LsaHeader};
pub use lsa_body::LsaBody;
pub use packet::{Body, Packet, decode, encode};
pub use packet_lists::{Ids, LsaHeaders, Lsas, RouterLinks};
pub use packet_sum::ip_sum;
pub use router_lsa::{RouterLink, is_well_formed, router_body, router_links};
pub use std::alloc::AllocError as NoMemory;
