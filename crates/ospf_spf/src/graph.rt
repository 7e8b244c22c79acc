//! Vertices and the steps between them.

use ospf_wire::RouterLinks;

/// A router that the database shows, and the links of its router-LSA.
#[derive(Drop)]
pub struct Vertex {
    /// The router id.
    pub id: u32,
    pub links: RouterLinks,
}

/// A step from one vertex to the vertex at the place `to`.
#[derive(Clone, Copy)]
pub struct Hop {
    pub to: usize,
    /// The data of the link that leads there.
    pub port: u32,
    pub metric: u16,
}
