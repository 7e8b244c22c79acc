//! The retransmission lists of all ports (RFC 2328 sections 10 and 13.3).

ghost use Rattle.std.specs.Prelude.{◌≡◌, ◌↔◌, ◌<◌, ◌≤◌, [], IsTrue, IfOk, OnOk, OnErr, length, replicate, slice_set, true};
ghost use Rattle.std.specs.Map.{keys_of};
ghost use Rattle.std.specs.List.Sorted.{IsStrictlySortedBy};
ghost use Rattle.ospf_lsdb.specs.Keys.{key_cmp, key_of};
ghost use Rattle.ospf_lsdb.specs.Kept.{fresh};
ghost use Rattle.ospf_lsdb.specs.Database.{with_kept};
ghost use Rattle.ospf_flood.specs.Flooding.{put_on};
ghost use Rattle.ospf_flood.specs.Retransmission.{due, list_of, without_lsa, without_lsa_anywhere, last_sent, with_lsa};

use crate::flooding::{install_from, put_each};
use crate::retransmission_list::RetransmissionList;
use ospf_lsdb::{LsaKey, Lsdb};
use ospf_wire::Lsa;
use std::alloc::{AllocError, Global};
use std::marker::Model;

/// The lists: for each port a finite map from the name of an LSA to the tick at which it was last sent
/// there. Contracts see them as the list, port by port, of the entries in ascending order of the names.
#[derive(Drop)]
pub struct Lists {
    alloc: Global,
    ports: Vec<RetransmissionList>,
}

impl Model for Lists {
    ghost use Rattle.std.specs.Prelude.{◌≤◌, List, ℕ, length};
    ghost use Rattle.ospf_lsdb.specs.declared.key.LsaKey.{LsaKey};

    ghost Value = { List (List (LsaKey × ℕ)) };

    ghost view = { λ l. l.ports.items };

    ghost invariant = { λ l. length l.ports.items ≤ 255 };
}

impl Lists {
    /// Empty lists for the ports below this number.
    pub fn new(alloc: Global, ports: u8) -> Result<Lists, AllocError>
        ensures { IfOk result (λ made. made ≡ replicate ports []) }
    {
        let mut lists = Vec::new(alloc);
        for _port in 0..ports {
            lists.push(RetransmissionList::new(alloc))?;
        }
        Ok(Lists {
            alloc,
            ports: lists,
        })
    }

    /// Puts the LSA on the port's list, sent at this tick; where it stands there its tick is set.
    pub fn put(&mut self, port: u8, key: LsaKey, now: u32) -> Result<(), AllocError>
        requires { port < length self.old }
        ensures ok { OnOk result (self.new ≡ slice_set self.old port (with_lsa (list_of self.old port) key now)) }
        ensures err { OnErr result (self.new ≡ self.old) }
    {
        self.ports[usize::from(port)].put(key, now)?;
        Ok(())
    }

    /// Puts the LSA on the lists of the ports of this mask, sent at this tick. Bits of the mask past the
    /// last list are none of a port. Where memory is short nothing is changed.
    pub fn put_on(&mut self, ports: u16, key: LsaKey, now: u32) -> Result<(), AllocError>
        ensures ok { OnOk result (self.new ≡ put_on ports key now self.old) }
        ensures err { OnErr result (self.new ≡ self.old) }
        ensures count { length self.new ≡ length self.old }
    {
        put_each(self.ports.as_mut_slice(), 0, ports, key, now)
    }

    /// Takes the LSA off the port's list. Nothing happens where it isn't there.
    pub fn take(&mut self, port: u8, key: &LsaKey)
        requires { port < length self.old }
        ensures { self.new ≡ slice_set self.old port (without_lsa key.now (list_of self.old port)) }
    {
        self.ports[usize::from(port)].take(key);
    }

    /// Takes the LSA off every list.
    pub fn take_all(&mut self, key: &LsaKey)
        ensures lists { self.new ≡ without_lsa_anywhere key.now self.old }
        ensures count { length self.new ≡ length self.old }
    {
        take_each(self.ports.as_mut_slice(), key);
    }

    /// Takes the old instance of an LSA off all lists, installs the LSA as flooded, and puts it on the
    /// lists of the ports of this mask, sent at this tick. Where memory is short nothing is changed.
    pub(crate) fn install(
        &mut self,
        ports: u16,
        db: &mut Lsdb,
        lsa: Lsa,
        foreign: bool,
        now: u32,
    ) -> Result<(), AllocError>
        ensures lists { OnOk result (self.new
            ≡ put_on ports (key_of lsa.head) now (without_lsa_anywhere (key_of lsa.head) self.old)) }
        ensures database { OnOk result (db.new ≡ with_kept db.old (key_of lsa.head) (fresh lsa now true foreign)) }
        ensures lists_err { OnErr result (self.new ≡ self.old) }
        ensures database_err { OnErr result (db.new ≡ db.old) }
        ensures count { length self.new ≡ length self.old }
    {
        install_from(self.ports.as_mut_slice(), 0, ports, db, lsa, foreign, now)
    }

    /// Empties the port's list.
    pub fn empty(&mut self, port: u8)
        requires { port < length self.old }
        ensures { self.new ≡ slice_set self.old port [] }
    {
        self.ports[usize::from(port)].empty();
    }

    /// The tick at which the LSA was last sent on this port, and None where it isn't on the list.
    pub fn sent_at(&self, port: u8, key: &LsaKey) -> Option<u32>
        requires { port < length self.now }
        ensures { result ≡ last_sent (list_of self.now port) key.now }
    {
        self.ports[usize::from(port)].sent_at(key)
    }

    /// The names on the port's list, in ascending order.
    pub fn keys(&self, port: u8) -> Result<Vec<LsaKey>, AllocError>
        requires { port < length self.now }
        ensures keys { IfOk result (λ keys. keys.items ≡ keys_of (list_of self.now port)) }
        ensures ascending { IsStrictlySortedBy key_cmp (keys_of (list_of self.now port)) }
    {
        self.ports[usize::from(port)].keys(self.alloc)
    }

    /// The LSAs on the port's list with the ticks at which they were last sent there, in ascending order.
    pub fn entries(&self, port: u8) -> Result<Vec<(LsaKey, u32)>, AllocError>
        requires { port < length self.now }
        ensures { IfOk result (λ entries. entries.items ≡ list_of self.now port) }
    {
        self.ports[usize::from(port)].entries(self.alloc)
    }

    /// The names on the port's list that are to be sent again: those that were last sent RxmtInterval or
    /// more ticks ago (RFC 2328 section 13.6), in ascending order.
    pub fn due(&self, port: u8, now: u32) -> Result<Vec<LsaKey>, AllocError>
        requires { port < length self.now }
        ensures { IfOk result (λ keys. keys.items ≡ due now (list_of self.now port)) }
    {
        self.ports[usize::from(port)].due(self.alloc, now)
    }

    /// Equal lists.
    pub fn fork(&self, alloc: Global) -> Result<Lists, AllocError>
        ensures { IfOk result (λ made. made ≡ self.now) }
    {
        Ok(Lists {
            alloc,
            ports: self.ports.clone()?,
        })
    }

    /// Whether both have the same lists.
    pub fn same(&self, other: &Lists) -> bool
        ensures { IsTrue result ↔ (self.now ≡ other.now) }
    {
        same_each(self.ports.as_slice(), other.ports.as_slice())
    }
}

/// Takes the LSA off each of these lists.
fn take_each(lists: &mut [RetransmissionList], key: &LsaKey)
    ensures { lists.new ≡ without_lsa_anywhere key.now lists.old }
{
    for list in lists {
        list.take(key);
    }
}

/// Whether both are the same lists.
fn same_each(lists: &[RetransmissionList], others: &[RetransmissionList]) -> bool
    ensures { IsTrue result ↔ (lists.now ≡ others.now) }
{
    match (lists.split_first(), others.split_first()) {
        (None, None) => true,
        (Some((list, rest)), Some((other, more))) => list.same(other) && same_each(rest, more),
        _ => false,
    }
}
