//! Links, and the ports that they make.

ghost use Rattle.std.specs.Prelude.{◌≡◌, ◌++◌, ◌∷◌, [], IfOk, OnOk, OnErr};
ghost use Rattle.dn_model.specs.Links.{link_end, ends};

use crate::optional::push_some;
use dn_guest::NoMemory;
use std::alloc::Global;
use std::marker::Model;

/// A link between two routers' ports. The delay is in the unit of moments, the cost is OSPF's and RIP's.
#[derive(Clone, Copy, Debug)]
pub struct Link {
    pub a: u16,
    pub a_port: u8,
    pub b: u16,
    pub b_port: u8,
    pub delay: u32,
    pub cost: u16,
}

/// The far end of a port, with the link's delay and cost.
#[derive(Clone, Copy, Debug)]
pub struct End {
    pub router: u16,
    pub port: u8,
    pub delay: u32,
    pub cost: u16,
}

/// The links of a header. A router's ports are numbered from 0 in the order of the links that name it.
#[derive(Drop)]
pub struct Links {
    items: Vec<Link>,
}

impl Model for Links {
    ghost use Rattle.std.specs.Prelude.{List};
    ghost use Rattle.dn_model.specs.declared.link.Link.{Link};

    ghost Value = { List Link };

    ghost view = { λ l. l.items.items };
}

impl Links {
    /// The same links, with no memory taken.
    pub fn from_vec(items: Vec<Link>) -> Self
        ensures { result ≡ items.items }
    {
        Links { items }
    }

    /// The links as a slice.
    pub fn as_slice(&self) -> &[Link]
        ensures { result.now ≡ self.now }
    {
        self.items.as_slice()
    }

    /// One link at the end.
    pub fn push(&mut self, link: Link) -> Result<(), NoMemory>
        ensures ok { OnOk result (self.new ≡ self.old ++ link ∷ []) }
        ensures err { OnErr result (self.new ≡ self.old) }
    {
        self.items.push(link)?;
        Ok(())
    }

    /// A copy.
    pub fn copy(&self, alloc: Global) -> Result<Links, NoMemory>
        ensures { IfOk result (λ made. made ≡ self.now) }
    {
        Ok(Links {
            items: self.items.as_slice().to_vec(alloc)?,
        })
    }
}

/// The far end of a link that names the router.
#[tactic(auto, unfolding(crate::specs::Links::link_end))]
fn link_end(router: u16, link: &Link) -> Option<End>
    ensures { result ≡ link_end router link.now }
{
    if link.a == router {
        Some(End {
            router: link.b,
            port: link.b_port,
            delay: link.delay,
            cost: link.cost,
        })
    } else if link.b == router {
        Some(End {
            router: link.a,
            port: link.a_port,
            delay: link.delay,
            cost: link.cost,
        })
    } else {
        None
    }
}

/// The far ends of a router's ports, in the order of the ports.
#[tactic(auto, unfolding(crate::specs::Links::ends))]
pub(crate) fn ends_of(alloc: Global, links: &[Link], router: u16) -> Result<Vec<End>, NoMemory>
    ensures { IfOk result (λ made. made.items ≡ ends links.now router) }
{
    let mut made = Vec::new(alloc);
    for link in links {
        push_some(&mut made, link_end(router, link))?;
    }
    Ok(made)
}
