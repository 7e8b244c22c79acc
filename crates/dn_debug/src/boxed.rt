//! A probe of any kind, in a box.

ghost use Rattle.dn_probe.specs.Meaning.{Watch};

use dn_guest::{Bytes, NoMemory};
use dn_model::{Header, Row};
use dn_probe::Probe;
use std::alloc::Global;

/// A probe of any kind. The box is made in `main`.
#[derive(Drop)]
pub struct Boxed {
    pub probe: Box<dyn Probe>,
}

impl Probe for Boxed {
    ghost watcher = { λ b. (Probe-box b.probe).watcher b.probe.value };

    fn name(&self) -> &[u8] {
        self.probe.name()
    }

    fn begin(&mut self, alloc: Global, header: &Header) -> Result<(), NoMemory> {
        self.probe.begin(alloc, header)
    }

    fn seen(&mut self, alloc: Global, row: &Row, show: &[u8]) -> Result<bool, NoMemory> {
        self.probe.seen(alloc, row, show)
    }

    fn shown(&self) -> u64 {
        self.probe.shown()
    }

    fn report(&self, out: &mut Bytes) -> Result<(), NoMemory> {
        self.probe.report(out)
    }
}
