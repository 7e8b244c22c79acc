//! A Link State Update that comes (RFC 2328 section 13).

ghost use Rattle.std.specs.Prelude.{◌≡◌, ◌+◌, ◌*◌, ◌<◌, ◌≤◌, ◌++◌, All, IfOk, OnOk, length, fold, []};
ghost use Rattle.ospf_router.specs.ReceiveUpdate.{send_acknowledgement, acks_by, answered, verdict_on, kept_by, flood_received_outputs, taken_of, receive_lsa, receive_update};
ghost use Rattle.ospf_router.specs.Flooding.{putting};

use crate::build_updates::{copy_of, of_age, sent_age};
use crate::router::Router;
use ospf_flood::{Step, Verdict, only_port, without_port};
use ospf_lsdb::key_of;
use ospf_wire::{Body, Lsa, LsaHeader, LsaHeaders, MAX_AGE};
use std::alloc::{AllocError, Global};

impl Router {
    /// What the table says of an LSA on a port, and the database and the lists after it (RFC 2328 section
    /// 13).
    #[tactic(auto, unfolding(crate::specs::ReceiveUpdate::verdict_on, crate::specs::ReceiveUpdate::kept_by))]
    fn verdict_on(&mut self, full: u16, port: u8, lsa: &Lsa) -> Result<Step, AllocError>
        requires port { port < length self.old.interfaces.ports }
        requires length { lsa.now.head.length ≡ 20 + length lsa.now.body }
        ensures step { IfOk result (λ step. step ≡ verdict_on port self.old lsa.now) }
        ensures count { OnOk result (length self.new.interfaces.ports ≡ length self.old.interfaces.ports) }
        ensures kept { OnOk result (self.new ≡ kept_by full port lsa.now self.old) }
    {
        let (own, now) = (self.id(), self.now());
        self.interfaces
            .receive(&mut self.db, full, port, lsa, own, now)
    }

    /// An LSA that was installed goes to the other ports (RFC 2328 section 13, step (5)(b)), and if it
    /// was flushed to all ports (sections 13.4 and 14.1).
    fn flood_received(
        &mut self,
        alloc: Global,
        full: u16,
        port: u8,
        flush: bool,
        lsa: &Lsa,
    ) -> Result<(), AllocError>
        ensures { OnOk result (self.new ≡
            putting (flood_received_outputs full port self.old.number flush lsa.now) self.old) }
    {
        // RFC 2328 section 13.3, step (5): InfTransDelay is added.
        let age = sent_age(lsa.head.age.min(MAX_AGE));
        self.send_update(
            alloc,
            without_port(full, port),
            Some(of_age(lsa.clone()?, age)),
        )?;
        // Section 14.1: it goes out with MaxAge.
        if flush {
            self.send_update(alloc, full, Some(of_age(lsa.clone()?, MAX_AGE)))?;
        }
        Ok(())
    }

    /// Puts out what is answered to an LSA (RFC 2328 section 13, steps (5) to (8)).
    #[tactic(auto, unfolding(crate::specs::ReceiveUpdate::answered))]
    fn answer(
        &mut self,
        alloc: Global,
        full: u16,
        port: u8,
        lsa: &Lsa,
        step: Step,
    ) -> Result<(), AllocError>
        ensures state { OnOk result (self.new ≡ answered full port lsa.now step self.old) }
        ensures count { OnOk result (length self.new.interfaces.ports ≡ length self.old.interfaces.ports) }
    {
        match step.verdict {
            // RFC 2328 section 13, step (5)(b).
            Verdict::Installed => self.flood_received(alloc, full, port, step.flush, lsa),
            // Section 13, step (8): the copy goes back, in an Update alone.
            Verdict::SentBack => {
                let copy = copy_of(&self.db, &key_of(&lsa.head), self.now())?;
                self.send_update(alloc, only_port(port), copy)
            }
            // Section 13, steps (1), (2), (4), (7) and (8): nothing but an acknowledgement is sent.
            Verdict::Discarded | Verdict::Acked | Verdict::Implied => Ok(()),
        }
    }

    /// One LSA of an Update on a port (RFC 2328 section 13), which is acknowledged if the table says so.
    #[tactic(auto, unfolding(crate::specs::ReceiveUpdate::receive_lsa))]
    fn receive_lsa(
        &mut self,
        alloc: Global,
        full: u16,
        port: u8,
        lsa: &Lsa,
        acks: &mut Vec<LsaHeader>,
    ) -> Result<(), AllocError>
        requires port { port < length self.old.interfaces.ports }
        requires length { lsa.now.head.length ≡ 20 + length lsa.now.body }
        ensures state { OnOk result (taken_of self.new acks.new.items
            ≡ receive_lsa full port (taken_of self.old acks.old.items) lsa.now) }
        ensures count { OnOk result (length self.new.interfaces.ports ≡ length self.old.interfaces.ports) }
        ensures few { OnOk result (length acks.new.items ≤ length acks.old.items + 1) }
    {
        let step = self.verdict_on(full, port, lsa)?;
        self.answer(alloc, full, port, lsa, step)?;
        push_acknowledgement(acks, step.verdict, lsa)
    }

    /// Puts out one Acknowledgement with these headers, if there are any (RFC 2328 section 13.5; this
    /// profile: none is delayed).
    #[tactic(auto, unfolding(crate::specs::ReceiveUpdate::send_acknowledgement))]
    fn send_acknowledgement(
        &mut self,
        alloc: Global,
        port: u8,
        acks: Vec<LsaHeader>,
    ) -> Result<(), AllocError>
        requires { 24 + 20 * length acks.items ≤ 65535 }
        ensures { OnOk result (self.new ≡ send_acknowledgement port acks.items self.old) }
    {
        if acks.is_empty() {
            return Ok(());
        }
        self.send_packet(alloc, port, Body::Ack(LsaHeaders::from_vec(acks)))
    }

    /// The LSAs of an Update that comes on a port from a Full neighbour, in order (RFC 2328 section 13);
    /// `full` is the mask of the up ports with a Full neighbour.
    #[tactic(auto, unfolding(crate::specs::ReceiveUpdate::receive_update))]
    pub fn receive_update(
        &mut self,
        alloc: Global,
        full: u16,
        port: u8,
        lsas: &[Lsa],
    ) -> Result<(), AllocError>
        requires port { port < length self.old.interfaces.ports }
        requires lengths { All (λ l. l.head.length ≡ 20 + length l.body) lsas.now }
        requires few { 24 + 20 * length lsas.now ≤ 65535 }
        ensures { OnOk result (self.new ≡ receive_update full port lsas.now self.old) }
    {
        let mut acks = Vec::new(alloc);
        for lsa in lsas {
            self.receive_lsa(alloc, full, port, lsa, &mut acks)?;
        }
        self.send_acknowledgement(alloc, port, acks)
    }
}

/// Notes the header for the acknowledgement, if the verdict says so (RFC 2328 section 13.5).
fn push_acknowledgement(
    acks: &mut Vec<LsaHeader>,
    verdict: Verdict,
    lsa: &Lsa,
) -> Result<(), AllocError>
    ensures { OnOk result (acks.new.items ≡ acks.old.items ++ acks_by lsa.now verdict) }
{
    // RFC 2328 section 13, steps (4), (5)(e) and (7)(b).
    if verdict == Verdict::Acked || verdict == Verdict::Installed {
        acks.push(lsa.head)?;
    }
    Ok(())
}
