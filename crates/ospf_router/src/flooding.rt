//! What a router sends (RFC 2328 section 13.3).

ghost use Rattle.std.specs.Prelude.{◌≡◌, ◌+◌, ◌<◌, OnOk, fold, length};
ghost use Rattle.ospf_wire.specs.Packets.{IsEncodable};
ghost use Rattle.ospf_router.specs.Flooding.{flood_next_lsa, flood_lsa, list_as_sent, send_lsas, send_packet, putting};
ghost use Rattle.ospf_router.specs.BuildUpdates.{update_on, updates_on};

use crate::build_updates::{copy_of, packet_of, send_update, send_updates};
use crate::router::Router;
use ospf_lsdb::LsaKey;
use ospf_wire::{Body, Lsa};
use std::alloc::{AllocError, Global};

impl Router {
    /// Puts out a packet on a port.
    #[tactic(auto, unfolding(crate::specs::Flooding::send_packet))]
    pub fn send_packet(&mut self, alloc: Global, port: u8, body: Body) -> Result<(), AllocError>
        requires { IsEncodable (record { router = self.old.number + 1; area = 0; body = body }) }
        ensures state { OnOk result (self.new ≡ send_packet port body self.old) }
        ensures count { OnOk result (length self.new.interfaces.ports ≡ length self.old.interfaces.ports) }
    {
        let bytes = packet_of(alloc, self.number, body)?;
        self.out.put(port, bytes)
    }

    /// Puts out an Update with this LSA alone on each port of the mask.
    pub fn send_update(
        &mut self,
        alloc: Global,
        mask: u16,
        lsa: Option<Lsa>,
    ) -> Result<(), AllocError>
        ensures { OnOk result (self.new ≡ putting (update_on mask self.old.number lsa) self.old) }
    {
        send_update(alloc, mask, self.number, lsa, &mut self.out)
    }

    /// Floods an LSA of the database on the ports of the mask (RFC 2328 section 13.3).
    #[tactic(auto, unfolding(crate::specs::Flooding::flood_lsa))]
    pub fn flood_lsa(&mut self, alloc: Global, mask: u16, key: &LsaKey) -> Result<(), AllocError>
        ensures { OnOk result (self.new ≡ flood_lsa mask key.now self.old) }
    {
        let now = self.now();
        let copy = copy_of(&self.db, key, now)?;
        // RFC 2328 section 13.3, steps (1)(d) and (5).
        self.interfaces.flood(&mut self.db, mask, *key, now)?;
        self.send_update(alloc, mask, copy)
    }

    /// Floods these LSAs in order on the ports of the mask.
    pub fn flood_each(
        &mut self,
        alloc: Global,
        mask: u16,
        keys: &[LsaKey],
    ) -> Result<(), AllocError>
        ensures { OnOk result (self.new ≡ fold (flood_next_lsa mask) self.old keys.now) }
    {
        for key in keys {
            self.flood_lsa(alloc, mask, key)?;
        }
        Ok(())
    }

    /// Puts an LSA on a port's list and notes it as sent, both at this tick.
    #[tactic(auto, unfolding(crate::specs::Flooding::list_as_sent))]
    fn list_as_sent(&mut self, port: u8, key: &LsaKey) -> Result<(), AllocError>
        requires { port < length self.old.interfaces.ports }
        ensures state { OnOk result (self.new ≡ list_as_sent port self.old key.now) }
        ensures count { OnOk result (length self.new.interfaces.ports ≡ length self.old.interfaces.ports) }
    {
        let now = self.now();
        self.interfaces.list(port, *key, now)?;
        self.db.note_sent(key, now);
        Ok(())
    }

    /// Sends these LSAs on a port (RFC 2328 section 13.6, and the whole database to a new neighbour,
    /// which is this project's own in the place of section 10.8): they are on its list, are noted as
    /// sent, and go out packed into Updates.
    #[tactic(auto, unfolding(crate::specs::Flooding::send_lsas))]
    pub fn send_lsas(&mut self, alloc: Global, port: u8, keys: &[LsaKey]) -> Result<(), AllocError>
        requires { port < length self.old.interfaces.ports }
        ensures state { OnOk result (self.new ≡ send_lsas port keys.now self.old) }
        ensures count { OnOk result (length self.new.interfaces.ports ≡ length self.old.interfaces.ports) }
    {
        let now = self.now();
        send_updates(alloc, port, self.number, &self.db, keys, now, &mut self.out)?;
        for key in keys {
            self.list_as_sent(port, key)?;
        }
        Ok(())
    }
}
