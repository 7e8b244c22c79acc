//! What flies between routers.

ghost use Rattle.std.specs.Prelude.{◌≡◌, ◌<◌, ◌++◌, ◌∷◌, [], Some, length, slice_get, is_ok, IfOk, OnOk, OnErr, IfSome};
ghost use Rattle.std.specs.List.{remove};
ghost use Rattle.dn_world.specs.World.{flying, least_key};
ghost use Rattle.dn_world.specs.Steps.{signed};
ghost use Rattle.dn_fabric.specs.Signs.{is_plus};

use dn_guest::NoMemory;
use dn_model::{Event, Key};
use dn_world::Packet;
use std::alloc::Global;
use std::collections::VecDeque;
use std::marker::Model;

/// As what events fly.
#[derive(Clone, Copy, Debug)]
pub(crate) enum Sign {
    /// As messages.
    Plus,
    /// As the unsends of messages.
    Minus,
}

impl Sign {
    fn is_plus(self) -> bool
        ensures { result ≡ is_plus self }
    {
        match self {
            Sign::Plus => true,
            Sign::Minus => false,
        }
    }
}

/// The packets between routers, in the order of sending.
#[derive(Drop)]
pub(crate) struct Flight {
    packets: VecDeque<Packet>,
}

impl Model for Flight {
    ghost use Rattle.std.specs.Prelude.{List};
    ghost use Rattle.dn_world.specs.declared.packet.Packet.{Packet};

    ghost Value = { List Packet };

    ghost view = { λ f. f.packets.items };
}

impl Flight {
    /// No packet.
    pub(crate) fn new(alloc: Global) -> Flight
        ensures { result ≡ [] }
    {
        Flight {
            packets: VecDeque::new(alloc),
        }
    }

    #[tactic(auto, unfolding(dn_world::specs::Steps::signed))]
    /// The events fly last, in order, with this sign. After `NoMemory` some of them may fly.
    pub(crate) fn send(&mut self, sign: Sign, events: Vec<Event>) -> Result<(), NoMemory>
        ensures { OnOk result (self.new ≡ self.old ++ signed (is_plus sign) events.items) }
    {
        let plus = sign.is_plus();
        self.packets.reserve(events.len())?;
        for event in events {
            push(&mut self.packets, Packet { plus, event })?;
        }
        Ok(())
    }

    /// Takes the packet at the place out.
    pub(crate) fn take(&mut self, place: u64) -> Packet
        requires { place < length self.old }
        ensures packet { slice_get self.old place ≡ Some result }
        ensures rest { self.new ≡ remove self.old place }
    {
        match self.packets.remove(place as usize) {
            Some(packet) => packet,
            None => unreachable!(),
        }
    }

    /// How many packets fly.
    pub(crate) fn len(&self) -> u64
        ensures { result ≡ length self.now }
    {
        self.packets.len() as u64
    }

    #[tactic(auto, unfolding(dn_world::specs::World::least_key, dn_world::specs::World::flying))]
    /// The least of the key and those of all packets, of either sign.
    pub(crate) fn least_key(&self, key: Key) -> Key
        ensures { result ≡ least_key key (flying self.now) }
    {
        let mut least = key;
        for packet in &self.packets {
            if packet.event.key < least {
                least = packet.event.key;
            }
        }
        least
    }
}

/// One packet more.
fn push(packets: &mut VecDeque<Packet>, packet: Packet) -> Result<(), NoMemory>
    ensures ok { OnOk result (packets.new.items ≡ packets.old.items ++ packet ∷ []) }
{
    packets.push_back(packet)?;
    Ok(())
}
