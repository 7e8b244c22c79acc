//! A guest of any kind.

ghost use Rattle.guest_any.specs.Any.{any, sort_kept};
ghost use Rattle.guest_any.specs.ImageTells.{same_by_image};

use dn_guest::{Bytes, Flood, Guest, Input, NoMemory, Outbox};
use ospf_guest::Ospf;
use rip_guest::Rip;
use std::alloc::Global;

/// A guest of any kind.
#[derive(Drop)]
pub enum AnyGuest {
    Flood(Flood),
    Ospf(Ospf),
    Rip(Rip),
}

impl Guest for AnyGuest {
    ghost meaning = { any };

    ghost sort_stays = { sort_kept };

    ghost image_tells = { same_by_image };

    fn step(
        &mut self,
        alloc: Global,
        ports: u16,
        input: &Input,
        out: &mut Outbox,
    ) -> Result<(), NoMemory> {
        match self {
            AnyGuest::Flood(guest) => guest.step(alloc, ports, input, out),
            AnyGuest::Ospf(guest) => guest.step(alloc, ports, input, out),
            AnyGuest::Rip(guest) => guest.step(alloc, ports, input, out),
        }
    }

    fn fork(&self, alloc: Global) -> Result<Self, NoMemory> {
        match self {
            AnyGuest::Flood(guest) => Ok(AnyGuest::Flood(guest.fork(alloc)?)),
            AnyGuest::Ospf(guest) => Ok(AnyGuest::Ospf(guest.fork(alloc)?)),
            AnyGuest::Rip(guest) => Ok(AnyGuest::Rip(guest.fork(alloc)?)),
        }
    }

    fn same(&self, other: &Self) -> bool {
        match (self, other) {
            (AnyGuest::Flood(one), AnyGuest::Flood(two)) => one.same(two),
            (AnyGuest::Ospf(one), AnyGuest::Ospf(two)) => one.same(two),
            (AnyGuest::Rip(one), AnyGuest::Rip(two)) => one.same(two),
            (AnyGuest::Flood(_), AnyGuest::Ospf(_)) => false,
            (AnyGuest::Flood(_), AnyGuest::Rip(_)) => false,
            (AnyGuest::Ospf(_), AnyGuest::Flood(_)) => false,
            (AnyGuest::Ospf(_), AnyGuest::Rip(_)) => false,
            (AnyGuest::Rip(_), AnyGuest::Flood(_)) => false,
            (AnyGuest::Rip(_), AnyGuest::Ospf(_)) => false,
        }
    }

    fn sort(&self) -> u8 {
        match self {
            AnyGuest::Flood(guest) => guest.sort(),
            AnyGuest::Ospf(guest) => guest.sort(),
            AnyGuest::Rip(guest) => guest.sort(),
        }
    }

    fn image(&self, alloc: Global, out: &mut Bytes) -> Result<(), NoMemory> {
        match self {
            AnyGuest::Flood(guest) => guest.image(alloc, out),
            AnyGuest::Ospf(guest) => guest.image(alloc, out),
            AnyGuest::Rip(guest) => guest.image(alloc, out),
        }
    }

    fn show(&self, alloc: Global, out: &mut Bytes) -> Result<(), NoMemory> {
        match self {
            AnyGuest::Flood(guest) => guest.show(alloc, out),
            AnyGuest::Ospf(guest) => guest.show(alloc, out),
            AnyGuest::Rip(guest) => guest.show(alloc, out),
        }
    }
}
