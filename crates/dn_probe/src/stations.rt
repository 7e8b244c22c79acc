//! What `lost` and `loop` remember of each router.

ghost use Rattle.std.specs.Prelude.{◌≡◌, ◌<◌, ◌+◌, [], ℕ, length, map, IfOk, OnOk, slice_get};
ghost use Rattle.std.specs.Option.{option_copied, option_map};
ghost use Rattle.dn_model.specs.Links.{ends};
ghost use Rattle.dn_probe.specs.Routes.{routes, loses};
ghost use Rattle.dn_probe.specs.Stations.{Standing, routes_at, is_rip, opened, opened_of, shown_at};
ghost use Rattle.dn_probe.specs.Lost.{is_lost};

use crate::routes::{Route, loses, read_routes};
use dn_guest::{Bytes, NoMemory};
use dn_model::{End, Header, Kind, RouterDef, ends};
use std::alloc::Global;
use std::marker::Model;

/// A router, with its show as last shown.
#[derive(Drop)]
pub struct Station {
    /// Whether it runs RIP.
    rip: bool,
    /// The routers at the far ends of its ports, in the order of the ports.
    far: Vec<u16>,
    show: Bytes,
    /// The routes that the show tells.
    known: Vec<Route>,
}

impl Model for Station {
    ghost use Rattle.std.specs.Prelude.{◌≡◌};
    ghost use Rattle.dn_probe.specs.Routes.{routes};
    ghost use Rattle.dn_probe.specs.Stations.{Standing};

    ghost Value = { Standing };

    ghost view = { λ s. record { rip = s.rip; far = s.far.items; show = s.show } };

    ghost invariant = { λ s. s.known.items ≡ routes s.rip s.show };
}

impl Station {
    /// A router of which nothing was shown.
    #[tactic(auto, using(crate::proofs::Shows::nothing_told))]
    fn new(alloc: Global, rip: bool, far: Vec<u16>) -> Station
        ensures { result ≡ record { rip = rip; far = far.items; show = [] } }
    {
        Station {
            rip,
            far,
            show: Bytes::new(alloc),
            known: Vec::new(alloc),
        }
    }

    /// The routes that it had as last shown.
    pub(crate) fn routes(&self) -> &[Route]
        ensures { result.now ≡ routes_at self.now }
    {
        self.known.as_slice()
    }

    /// The routers at the far ends of its ports, in the order of the ports.
    pub(crate) fn far(&self) -> &[u16]
        ensures { result.now ≡ self.now.far }
    {
        self.far.as_slice()
    }

    /// Its show is this one now. Says whether it had a route to a prefix to which it has none now.
    #[tactic(auto, using(crate::proofs::Shows::nothing_lost))]
    fn tell(&mut self, alloc: Global, show: &[u8]) -> Result<bool, NoMemory>
        ensures lost { IfOk result (λ lost. lost ≡ loses (routes_at self.old) (routes self.old.rip show.now)) }
        ensures after { OnOk result (self.new ≡ record { rip = self.old.rip; far = self.old.far; show = show.now }) }
    {
        if self.show.as_slice() == show {
            return Ok(false);
        }
        let now = read_routes(alloc, self.rip, show)?;
        let lost = loses(&self.known, &now);
        self.show = Bytes::from_slice(alloc, show)?;
        self.known = now;
        Ok(lost)
    }
}

/// The routers of a network, by number.
#[derive(Drop)]
pub struct Stations {
    items: Vec<Station>,
}

impl Model for Stations {
    ghost use Rattle.std.specs.Prelude.{List};
    ghost use Rattle.dn_probe.specs.Stations.{Standing};

    ghost Value = { List Standing };

    ghost view = { λ s. s.items.items };
}

impl Stations {
    /// No router. It takes no memory.
    pub(crate) fn new(alloc: Global) -> Stations
        ensures { result ≡ [] }
    {
        Stations {
            items: Vec::new(alloc),
        }
    }

    /// The routers of a header, of which nothing was shown.
    #[tactic(auto, unfolding(crate::specs::Stations::opened))]
    pub(crate) fn open(alloc: Global, header: &Header) -> Result<Stations, NoMemory>
        ensures { IfOk result (λ made. made ≡ opened_of header.now) }
    {
        let mut items = Vec::new(alloc);
        let mut number: u16 = 0;
        let mut left = header.routers.as_slice();
        'routers: while let Some((router, rest)) = left.split_first() {
            let far = far_routers(alloc, header, number)?;
            items.push(Station::new(alloc, is_rip(router.kind), far))?;
            number += 1;
            left = rest;
        }
        Ok(Stations { items })
    }

    /// The router of this number.
    pub(crate) fn get(&self, router: u16) -> Option<&Station>
        ensures { option_copied result ≡ slice_get self.now router }
    {
        self.items.as_slice().get(usize::from(router))
    }

    /// The router's show is this one now; nothing changes if there is no such router. Says whether it had a route to
    /// a prefix to which it has none now.
    #[tactic(auto, unfolding(crate::specs::Stations::shown_at))]
    pub(crate) fn tell(&mut self, alloc: Global, router: u16, show: &[u8]) -> Result<bool, NoMemory>
        ensures lost { IfOk result (λ lost. lost ≡ is_lost self.old router show.now) }
        ensures after { OnOk result (self.new ≡ shown_at self.old router show.now) }
    {
        let place = usize::from(router);
        if place >= self.items.len() {
            return Ok(false);
        }
        self.items[place].tell(alloc, show)
    }
}

fn is_rip(kind: Kind) -> bool
    ensures { result ≡ is_rip kind }
{
    match kind {
        Kind::Rip => true,
        Kind::Flood | Kind::Ospf => false,
    }
}

/// The routers at the far ends of a router's ports, in the order of the ports.
fn far_routers(alloc: Global, header: &Header, router: u16) -> Result<Vec<u16>, NoMemory>
    requires { router < length header.now.routers }
    ensures { IfOk result (λ made. made.items ≡ map (λ e. e.router) (ends header.now.links router)) }
{
    let ends = ends(alloc, header, router)?;
    let mut made = Vec::new(alloc);
    let mut left = ends.as_slice();
    'ends: while let Some((end, rest)) = left.split_first() {
        made.push(end.router)?;
        left = rest;
    }
    Ok(made)
}
