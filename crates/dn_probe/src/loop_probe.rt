//! The probe `loop`: a packet that follows the routes comes back to the router at which it began.

ghost use Rattle.std.specs.Prelude.{◌≡◌, []};
ghost use Rattle.std.specs.Fmt.{decimal};
ghost use Rattle.std.specs.List.{list_any};
ghost use Rattle.dn_probe.specs.Loop.{loop_rules, far_end, sends_to, hop, comes_back, loops};
ghost use Rattle.dn_probe.specs.Stations.{Standing, memory_of};

use crate::Probe;
use crate::routes::{Route, route_to};
use crate::stations::{Station, Stations};
use crate::tally::Tally;
use dn_guest::{Bytes, NoMemory};
use dn_model::{Header, Row};
use std::alloc::Global;
use std::marker::Model;

/// The most hops that are followed.
const MOST_HOPS: u8 = 64;

/// Says yes at a row if for some prefix a packet that begins at the row's router, and goes on by the least port of
/// each router's route as last shown, comes back to it after 1 to 64 hops. Its way ends at a router of which nothing
/// was shown or that has no route to the prefix, at a route that begins with `own`, and at a port without a link. At a
/// router that runs RIP a route of metric 16 is none.
#[derive(Drop)]
pub struct LoopProbe {
    tally: Tally,
    stations: Stations,
}

impl Model for LoopProbe {
    ghost use Rattle.std.specs.Fmt.{decimal};
    ghost use Rattle.dn_probe.specs.Meaning.{Remembering};
    ghost use Rattle.dn_probe.specs.Stations.{memory_of};

    ghost Value = { Remembering };

    ghost view = { λ p. record { memory = memory_of (decimal p.tally.yes) p.stations; shown = p.tally.shown } };
}

impl LoopProbe {
    /// The probe `loop`, which knows no network yet. It takes no memory.
    pub fn new(alloc: Global) -> LoopProbe
        ensures { result ≡ record { memory = memory_of (decimal 0) []; shown = 0 } }
    {
        LoopProbe {
            tally: Tally::new(),
            stations: Stations::new(alloc),
        }
    }
}

/// The router at the far end of the port by which a route goes on.
fn far_end(station: &Station, route: &Route) -> Option<u16>
    ensures { result ≡ far_end station.now route.now }
{
    let port = route.port?;
    station.far().get(port as usize).copied()
}

/// Where a router sends a packet to the prefix.
fn sends_to(prefix: &[u8], station: &Station) -> Option<u16>
    ensures { result ≡ sends_to prefix.now station.now }
{
    far_end(station, route_to(station.routes(), prefix)?)
}

/// One hop of a packet to the prefix.
#[tactic(auto, unfolding(crate::specs::Loop::hop))]
fn hop(stations: &Stations, prefix: &[u8], router: u16) -> Option<u16>
    ensures { result ≡ hop stations.now prefix.now router }
{
    sends_to(prefix, stations.get(router)?)
}

/// Whether a packet to the prefix that begins at this router is back after 1 to 64 hops.
#[tactic(auto, using(crate::proofs::Hops::not_back))]
fn comes_back(stations: &Stations, prefix: &[u8], router: u16) -> bool
    ensures { result ≡ comes_back stations.now prefix.now router }
{
    let mut at = router;
    let mut hops: u8 = 0;
    'hops: while hops < MOST_HOPS {
        let Some(next) = hop(stations, prefix, at) else {
            return false;
        };
        if next == router {
            return true;
        }
        at = next;
        hops += 1;
    }
    false
}

/// Whether a packet that begins at this router comes back to it, for the prefix of one of the routes.
fn any_comes_back(stations: &Stations, routes: &[Route], router: u16) -> bool
    ensures { result ≡ list_any (λ route. comes_back stations.now route.prefix router) routes.now }
{
    routes.iter().any(|route| comes_back(stations, route.prefix.as_slice(), router))
}

/// Whether a packet that begins at this router comes back to it, for some prefix.
#[tactic(auto, unfolding(crate::specs::Loop::loops))]
fn loops(stations: &Stations, router: u16) -> bool
    ensures { result ≡ loops stations.now router }
{
    match stations.get(router) {
        None => false,
        Some(station) => any_comes_back(stations, station.routes(), router),
    }
}

impl Probe for LoopProbe {
    ghost watcher = { λ p. record { rules = loop_rules; memory = p.memory; shown = p.shown } };

    fn name(&self) -> &[u8] {
        b"loop"
    }

    fn begin(&mut self, alloc: Global, header: &Header) -> Result<(), NoMemory> {
        self.stations = Stations::open(alloc, header)?;
        self.tally = Tally::new();
        Ok(())
    }

    fn seen(&mut self, alloc: Global, row: &Row, show: &[u8]) -> Result<bool, NoMemory> {
        self.stations.tell(alloc, row.router, show)?;
        let yes = loops(&self.stations, row.router);
        self.tally = self.tally.with(yes)?;
        Ok(yes)
    }

    fn shown(&self) -> u64 {
        self.tally.shown
    }

    fn report(&self, out: &mut Bytes) -> Result<(), NoMemory> {
        self.tally.push_report(b"loop", out)
    }
}
