//! The probe `lost`: a router has lost its route to a prefix.

ghost use Rattle.std.specs.Prelude.{◌≡◌, []};
ghost use Rattle.std.specs.Fmt.{decimal};
ghost use Rattle.dn_probe.specs.Lost.{lost_rules};
ghost use Rattle.dn_probe.specs.Stations.{memory_of};

use crate::Probe;
use crate::stations::Stations;
use crate::tally::Tally;
use dn_guest::{Bytes, NoMemory};
use dn_model::{Header, Row};
use std::alloc::Global;
use std::marker::Model;

/// Says yes at a row if the router's show before it, as last shown to this probe, had a route to a prefix to which
/// its show now has none. Routes are told apart by their prefix alone. At a router that runs RIP a route of metric 16
/// is none.
#[derive(Drop)]
pub struct LostProbe {
    tally: Tally,
    stations: Stations,
}

impl Model for LostProbe {
    ghost use Rattle.std.specs.Fmt.{decimal};
    ghost use Rattle.dn_probe.specs.Meaning.{Remembering};
    ghost use Rattle.dn_probe.specs.Stations.{memory_of};

    ghost Value = { Remembering };

    ghost view = { λ p. record { memory = memory_of (decimal p.tally.yes) p.stations; shown = p.tally.shown } };
}

impl LostProbe {
    /// The probe `lost`, which knows no network yet. It takes no memory.
    pub fn new(alloc: Global) -> LostProbe
        ensures { result ≡ record { memory = memory_of (decimal 0) []; shown = 0 } }
    {
        LostProbe {
            tally: Tally::new(),
            stations: Stations::new(alloc),
        }
    }
}

impl Probe for LostProbe {
    ghost watcher = { λ p. record { rules = lost_rules; memory = p.memory; shown = p.shown } };

    fn name(&self) -> &[u8] {
        b"lost"
    }

    fn begin(&mut self, alloc: Global, header: &Header) -> Result<(), NoMemory> {
        self.stations = Stations::open(alloc, header)?;
        self.tally = Tally::new();
        Ok(())
    }

    fn seen(&mut self, alloc: Global, row: &Row, show: &[u8]) -> Result<bool, NoMemory> {
        let yes = self.stations.tell(alloc, row.router, show)?;
        self.tally = self.tally.with(yes)?;
        Ok(yes)
    }

    fn shown(&self) -> u64 {
        self.tally.shown
    }

    fn report(&self, out: &mut Bytes) -> Result<(), NoMemory> {
        self.tally.push_report(b"lost", out)
    }
}
