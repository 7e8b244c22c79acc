//! The links so far, with each router's count of ports.

ghost use Rattle.std.specs.Prelude.{◌≡◌, ◌≢◌, ◌<◌, ◌++◌, ◌∷◌, [], length, replicate, OnOk, OnErr};
ghost use Rattle.dn_model.specs.Links.{ports_of};

use dn_guest::NoMemory;
use dn_model::{Link, Links};
use std::alloc::Global;
use std::marker::Model;

/// Links of at most 64 routers. Contracts see the list of links; beside it stands how many ports each
/// router has.
#[derive(Drop)]
pub struct CountedLinks {
    links: Links,
    ports: [u8; 64],
}

impl Model for CountedLinks {
    ghost use Rattle.std.specs.Prelude.{◌≡◌, ◌<◌, ℕ, List, slice_index};
    ghost use Rattle.dn_model.specs.declared.link.Link.{Link};
    ghost use Rattle.dn_model.specs.Links.{ports_of};

    ghost Value = { List Link };

    ghost view = { λ c. c.links };

    ghost invariant = { λ c. (r : ℕ) → r < 64 → slice_index c.ports r ≡ ports_of c.links r };
}

impl CountedLinks {
    /// No link. It takes no memory.
    #[tactic(auto, using(crate::proofs::LinkLaws::none_counted))]
    pub fn new(alloc: Global) -> CountedLinks
        ensures { result ≡ [] }
    {
        CountedLinks {
            links: Links::from_vec(Vec::new(alloc)),
            ports: no_ports(),
        }
    }

    /// How many links there are.
    pub fn len(&self) -> usize
        ensures { result ≡ length self.now }
    {
        self.links.as_slice().len()
    }

    /// How many ports a router has.
    pub fn ports_of(&self, router: usize) -> u8
        requires { router < 64 }
        ensures { result ≡ ports_of self.now router }
    {
        self.ports[router]
    }

    /// One link at the end.
    pub fn push(&mut self, link: Link) -> Result<(), NoMemory>
        requires a { link.a < 64 }
        requires b { link.b < 64 }
        requires differ { link.a ≢ link.b }
        requires a_port { ports_of self.old link.a < 16 }
        requires b_port { ports_of self.old link.b < 16 }
        ensures ok { OnOk result (self.new ≡ self.old ++ link ∷ []) }
        ensures err { OnErr result (self.new ≡ self.old) }
    {
        self.links.push(link)?;
        self.ports[usize::from(link.a)] += 1;
        self.ports[usize::from(link.b)] += 1;
        Ok(())
    }

    /// The links alone, with no memory taken.
    pub fn into_links(self) -> Links
        ensures { result ≡ self }
    {
        self.links
    }
}

fn no_ports() -> [u8; 64]
    ensures { result ≡ replicate 64 0 }
{
    [0; 64]
}
