//! Plays tables (`table_program`) of calls of the protocols' parts: packets and messages, the receive table of OSPF,
//! its routes, and the routes of RIP.
//!
//! The stored run is such a table, and `tests/protocol_tables/` has the others. What a table wants was made outside
//! the program: by hand from the RFCs. A line is a word that says what is done, perhaps a value, and fields, each a
//! name and a value behind it. `start` empties what the lines work on. To add a case, write its lines; a new word is
//! an arm of `Parts::turn`.
//!
//! | File | What it has |
//! |---|---|
//! | `parts.rt` | what the lines work on |
//! | `named.rt` | values behind their names |
//! | `packets.rt` | `packet`, `body` and `message`: bytes that are read and written again |
//! | `lsas.rt` | LSAs that a line describes, and the text of a database |
//! | `flooding.rt` | `copy` and `receive`: the receive table |
//! | `ospf_routes.rt` | `router`, `lsa` and `routes` |
//! | `rip_routes.rt` | `connect`, `response` and the others: the RIP routing table |
#![tactic(auto)]

mod flooding;
mod lsas;
mod named;
mod ospf_routes;
mod packets;
mod parts;
mod rip_routes;

use parts::Parts;
use std::process::ExitCode;

fn main(rt: HostRuntime) -> ExitCode {
    table_program::run(&rt, "protocol_tables", &mut Parts::new(rt.alloc()))
}
