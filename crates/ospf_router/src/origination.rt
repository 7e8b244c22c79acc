//! The end of a step: the router's own LSA, and LSAs that are gone (RFC 2328 sections 12.4 and 14).

ghost use Rattle.std.specs.Prelude.{◌≡◌, ◌+◌, ◌<◌, ◌≤◌, ◌++◌, IfOk, OnOk, length, map, fold, option_copied};
ghost use Rattle.ospf_lsdb.specs.Database.{max_age_lsas};
ghost use Rattle.ospf_lsdb.specs.Keys.{own_key};
ghost use Rattle.ospf_router.specs.Interfaces.{full_mask};
ghost use Rattle.ospf_router.specs.Origination.{originate_if_needed, finish_step, has_next_sequence_number, is_outdated, link_to, links_from, may_originate, remove_max_age_lsas, remove_max_age_lsa, originate_own_lsa, stub_of, wanted_body, wanted_links};

use crate::interfaces::{Interfaces, Port};
use crate::neighbour::Neighbour;
use crate::router::Router;
use dn_guest::{Bytes, is_up};
use dn_net::mask_of;
use ospf_lsdb::{Kept, LsaKey, Lsdb, own_key};
use ospf_wire::{
    LS_REFRESH_TIME, MAX_SEQUENCE_NUMBER, MIN_LS_INTERVAL, POINT_TO_POINT, RouterLink,
    STUB_NETWORK, router_body,
};
use std::alloc::{AllocError, Global};

/// Appends the link to a Full neighbour (RFC 2328 section 12.4.1.1; this profile: unnumbered, so the data
/// is the port's number plus 1).
fn push_link(links: &mut Vec<RouterLink>, number: u8, port: Port) -> Result<(), AllocError>
    ensures { OnOk result (links.new.items ≡ links.old.items ++ link_to number port.cost port.neighbour) }
{
    if let Neighbour::Full(heard) = port.neighbour {
        links.push(RouterLink {
            id: heard.id,
            data: u32::from(number) + 1,
            kind: POINT_TO_POINT,
            metric: port.cost,
        })?;
    }
    Ok(())
}

/// Appends the links to the Full neighbours of the up ports. The first of these ports has this number.
fn push_links(
    links: &mut Vec<RouterLink>,
    number: u8,
    up: u16,
    ports: &[Port],
) -> Result<(), AllocError>
    requires { number + length ports.now ≤ 255 }
    ensures { OnOk result (links.new.items ≡ links.old.items ++ links_from number up ports.now) }
{
    let Some((first, rest)) = ports.split_first() else {
        return Ok(());
    };
    if is_up(up, number) {
        push_link(links, number, *first)?;
    }
    push_links(links, number + 1, up, rest)
}

/// Appends the stub links of the networks (RFC 2328 section 12.4.1; this profile: they are the router's
/// and no interface's).
fn push_stubs(links: &mut Vec<RouterLink>, networks: &[((u32, u8), u16)]) -> Result<(), AllocError>
    ensures { OnOk result (links.new.items ≡ links.old.items ++ map stub_of networks.now) }
{
    for ((address, len), cost) in networks {
        links.push(RouterLink {
            id: *address,
            data: mask_of(*len),
            kind: STUB_NETWORK,
            metric: *cost,
        })?;
    }
    Ok(())
}

/// Whether MinLSInterval passed since the last origination (RFC 2328 section 12.4).
fn may_originate(now: u16, last: Option<u16>) -> bool
    ensures { result ≡ may_originate now last }
{
    match last {
        None => true,
        Some(tick) => u32::from(tick) + u32::from(MIN_LS_INTERVAL) <= u32::from(now),
    }
}

/// Whether the own LSA is missing, a received instance (RFC 2328 section 13.4), LSRefreshTime or older, or of
/// another body (section 12.4).
fn is_outdated(now: u32, wanted: &Bytes, own: Option<&Kept>) -> bool
    ensures { result ≡ is_outdated now wanted.now (option_copied own.entry) }
{
    match own {
        None => true,
        Some(kept) => {
            kept.foreign
                || LS_REFRESH_TIME <= kept.age(now)
                || kept.lsa.body.as_slice() != wanted.as_slice()
        }
    }
}

/// Whether there is a sequence number behind that of the own LSA (RFC 2328 section 12.1.6; this profile: at
/// MaxSequenceNumber it ages out).
fn has_next_sequence_number(own: Option<&Kept>) -> bool
    ensures { result ≡ has_next_sequence_number (option_copied own.entry) }
{
    match own {
        None => true,
        Some(kept) => kept.lsa.head.seq != MAX_SEQUENCE_NUMBER,
    }
}

/// Removes an LSA that is on no list (RFC 2328 section 14).
fn remove_max_age_lsa(interfaces: &Interfaces, db: &mut Lsdb, key: &LsaKey)
    ensures { db.new ≡ remove_max_age_lsa interfaces.now db.old key.now }
{
    // RFC 2328 section 14; this profile looks at no neighbour's state.
    if !interfaces.is_listed(key) {
        db.drop_gone(key);
    }
}

/// Removes those of these LSAs that stand on no list.
fn remove_each(interfaces: &Interfaces, db: &mut Lsdb, keys: &[LsaKey])
    ensures { db.new ≡ fold (remove_max_age_lsa interfaces.now) db.old keys.now }
{
    for key in keys {
        remove_max_age_lsa(interfaces, db, key);
    }
}

impl Router {
    /// The links of the own LSA (RFC 2328 section 12.4.1).
    #[tactic(auto, unfolding(crate::specs::Origination::wanted_links))]
    fn wanted_links(&self, alloc: Global, ports: u16) -> Result<Vec<RouterLink>, AllocError>
        ensures links { IfOk result (λ links. links.items ≡ wanted_links ports self.now) }
        ensures few { IfOk result (λ links. length links.items ≤ 48) }
    {
        let mut links = Vec::new(alloc);
        push_links(&mut links, 0, ports, self.interfaces.ports())?;
        push_stubs(&mut links, &self.prefixes.entries(alloc)?)?;
        Ok(links)
    }

    /// The body that the own LSA is to have (RFC 2328 section 12.4.1).
    #[tactic(auto, unfolding(crate::specs::Origination::wanted_body))]
    fn wanted_body(&self, alloc: Global, ports: u16) -> Result<Bytes, AllocError>
        ensures body { IfOk result (λ body. body ≡ wanted_body ports self.now) }
        ensures few { IfOk result (λ body. length body ≤ 1380) }
    {
        router_body(alloc, &self.wanted_links(alloc, ports)?)
    }

    /// Originates the own LSA anew (RFC 2328 sections 12.4 and 13.3).
    #[tactic(auto, unfolding(crate::specs::Origination::originate_own_lsa))]
    fn originate_own_lsa(
        &mut self,
        alloc: Global,
        full: u16,
        wanted: Bytes,
    ) -> Result<(), AllocError>
        requires { length wanted ≤ 1380 }
        ensures { OnOk result (self.new ≡ originate_own_lsa full wanted self.old) }
    {
        let (id, now) = (self.id(), self.now());
        let key = own_key(id);
        // RFC 2328 section 13, step (5)(c): the old instance leaves all lists.
        self.interfaces.unlist_all(&key);
        let _made = self.db.originate(id, wanted, now)?;
        self.originated = Some(self.tick);
        // Sections 12.4 and 13.3: it is flooded on all ports.
        self.flood_lsa(alloc, full, &key)
    }

    /// Originates the own LSA anew if it has to be (RFC 2328 section 12.4; this profile: at the end of
    /// any step).
    #[tactic(auto, unfolding(crate::specs::Origination::originate_if_needed))]
    fn originate_if_needed(&mut self, alloc: Global, ports: u16) -> Result<(), AllocError>
        ensures { OnOk result (self.new ≡ originate_if_needed ports self.old) }
    {
        // RFC 2328 section 12.4: not within MinLSInterval; it waits for a later step.
        if !may_originate(self.tick, self.originated) {
            return Ok(());
        }
        let wanted = self.wanted_body(alloc, ports)?;
        let own = self.db.get(&own_key(self.id()));
        // Section 12.4, events (1), (2) and (4), and section 13.4. This profile: nothing behind
        // MaxSequenceNumber.
        if !is_outdated(self.now(), &wanted, own) || !has_next_sequence_number(own) {
            return Ok(());
        }
        let full = self.interfaces.full_mask(ports);
        self.originate_own_lsa(alloc, full, wanted)
    }

    /// Removes the LSAs of MaxAge that are on no list (RFC 2328 section 14).
    #[tactic(auto, unfolding(crate::specs::Origination::remove_max_age_lsas))]
    fn remove_max_age_lsas(&mut self) -> Result<(), AllocError>
        ensures { OnOk result (self.new ≡ remove_max_age_lsas self.old) }
    {
        let keys = self.db.max_age_lsas(self.now())?;
        remove_each(&self.interfaces, &mut self.db, &keys);
        Ok(())
    }

    /// The end of every step (RFC 2328 sections 12.4 and 14).
    #[tactic(auto, unfolding(crate::specs::Origination::finish_step))]
    pub fn finish_step(&mut self, alloc: Global, ports: u16) -> Result<(), AllocError>
        ensures { OnOk result (self.new ≡ finish_step ports self.old) }
    {
        self.originate_if_needed(alloc, ports)?;
        self.remove_max_age_lsas()
    }
}
