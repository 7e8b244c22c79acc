//! The routing table of an OSPF router (RFC 2328 section 16.1): for each network that the link-state
//! database shows a way to, the least cost and all ports by which a way of that cost begins.
//!
//! | File | What it has |
//! |---|---|
//! | `table.rt` | `routes`, the whole calculation |
//! | `vertices.rt` | the routers of a database, with their links |
//! | `hops.rt` | the links that lead from one of them to another that links back |
//! | `search.rt` | least costs: the nearest vertex that waits is settled next |
//! | `ports.rt` | the ports by which ways of least cost begin |
//! | `offers.rt` | what stub links offer |
//! | `gather.rt` | the best offer of each network, in order |
//! | `graph.rt`, `route.rt` | `Vertex`, `Hop`, `Route` |
//! | `laws.rt` | that the definition fixes the table |
//!
//! The one contract upwards: what `routes` answers are the routes of `specs/Routes.antt`, which speaks of
//! walks and of no algorithm, over the vertices of `specs/Graph.antt`. There is one such table.
#![tactic(auto)]

mod gather;
mod graph;
mod hops;
mod laws;
mod offers;
mod ports;
mod route;
mod search;
mod table;
mod vertices;

pub use graph::Vertex;
pub use laws::one_table;
pub use route::Route;
pub use std::alloc::AllocError as NoMemory;
pub use table::routes;
