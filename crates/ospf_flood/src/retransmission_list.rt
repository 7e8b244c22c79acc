//! The link state retransmission list of one port (RFC 2328 sections 10 and 13.3).

ghost use Rattle.std.specs.Prelude.{◌≡◌, ◌↔◌, [], IsTrue, IfOk, OnOk, OnErr};
ghost use Rattle.std.specs.BTreeMap.{is_at};
ghost use Rattle.std.specs.Map.{keys_of, set_value};
ghost use Rattle.std.specs.List.Sorted.{IsStrictlySortedBy};
ghost use Rattle.ospf_lsdb.specs.Keys.{key_cmp};
ghost use Rattle.ospf_flood.specs.Retransmission.{due, without_lsa, restored, last_sent, with_lsa};

use ospf_lsdb::LsaKey;
use ospf_wire::RXMT_INTERVAL;
use std::alloc::{AllocError, Global};
use std::collections::BTreeMap;
use std::marker::Model;

/// The list: a finite map from the name of an LSA to the tick at which it was last sent. Contracts see it
/// as the list of its entries in ascending order of the names.
#[derive(Drop)]
pub struct RetransmissionList {
    sent: BTreeMap<LsaKey, u32>,
}

impl Model for RetransmissionList {
    ghost use Rattle.std.specs.Prelude.{List, ℕ};
    ghost use Rattle.ospf_lsdb.specs.declared.key.LsaKey.{LsaKey};

    ghost Value = { List (LsaKey × ℕ) };

    ghost view = { λ l. l.sent.entries };
}

impl Clone for RetransmissionList {
    ghost is_clone = { λ one other. other ≡ one };

    fn clone(&self) -> Result<RetransmissionList, AllocError> {
        Ok(RetransmissionList {
            sent: self.sent.clone()?,
        })
    }
}

impl RetransmissionList {
    /// An empty list. It takes no memory.
    pub fn new(alloc: Global) -> RetransmissionList
        ensures { result ≡ [] }
    {
        RetransmissionList {
            sent: BTreeMap::new(alloc),
        }
    }

    /// Puts the LSA on the list, sent at this tick; where it stands there its tick is set.
    pub fn put(&mut self, key: LsaKey, tick: u32) -> Result<Option<u32>, AllocError>
        ensures ok { OnOk result (self.new ≡ with_lsa self.old key tick) }
        ensures err { OnErr result (self.new ≡ self.old) }
        ensures before { IfOk result (λ before. before ≡ last_sent self.old key) }
        ensures ascending { IsStrictlySortedBy key_cmp (keys_of self.old) }
    {
        Ok(self.sent.insert(key, tick)?)
    }

    /// Takes the LSA off the list. Nothing happens where it isn't there.
    pub fn take(&mut self, key: &LsaKey)
        ensures { self.new ≡ without_lsa key.now self.old }
    {
        let _gone = self.sent.remove(key);
    }

    /// Takes back that the LSA was put on the list: `before` is what `put` answered. It takes no memory.
    pub fn restore(&mut self, key: &LsaKey, before: Option<u32>)
        ensures { self.new ≡ restored self.old key.now before }
    {
        match before {
            Some(tick) => set_tick(&mut self.sent, key, tick),
            None => self.take(key),
        }
    }

    /// Empties the list.
    pub fn empty(&mut self)
        ensures { self.new ≡ [] }
    {
        self.sent.clear();
    }

    /// The tick at which the LSA was last sent, and None where it isn't on the list.
    pub fn sent_at(&self, key: &LsaKey) -> Option<u32>
        ensures { result ≡ last_sent self.now key.now }
    {
        self.sent.get(key).copied()
    }

    /// The names, in ascending order.
    pub fn keys(&self, alloc: Global) -> Result<Vec<LsaKey>, AllocError>
        ensures keys { IfOk result (λ keys. keys.items ≡ keys_of self.now) }
        ensures ascending { IsStrictlySortedBy key_cmp (keys_of self.now) }
    {
        self.sent.keys().copied().collect(alloc)
    }

    /// The LSAs with the ticks at which they were last sent, in ascending order of the names.
    pub fn entries(&self, alloc: Global) -> Result<Vec<(LsaKey, u32)>, AllocError>
        ensures { IfOk result (λ entries. entries.items ≡ self.now) }
    {
        all_entries(alloc, &self.sent)
    }

    /// The names of the LSAs that are to be sent again, in ascending order (RFC 2328 section 13.6).
    pub fn due(&self, alloc: Global, now: u32) -> Result<Vec<LsaKey>, AllocError>
        ensures { IfOk result (λ keys. keys.items ≡ due now self.now) }
    {
        let mut keys = Vec::new(alloc);
        for (key, tick) in &self.sent {
            // RFC 2328 section 13.6: it was last sent RxmtInterval ago or earlier.
            if u64::from(*tick) + u64::from(RXMT_INTERVAL) <= u64::from(now) {
                keys.push(*key)?;
            }
        }
        Ok(keys)
    }

    /// Whether both have the same LSAs with the same ticks.
    pub fn same(&self, other: &RetransmissionList) -> bool
        ensures { IsTrue result ↔ (self.now ≡ other.now) }
    {
        self.sent == other.sent
    }
}

/// Sets the LSA's tick, if it is there.
fn set_tick(sent: &mut BTreeMap<LsaKey, u32>, key: &LsaKey, tick: u32)
    ensures { sent.new.entries ≡ set_value (is_at (key_cmp key.now)) sent.old.entries tick }
{
    if let Some(last) = sent.get_mut(key) {
        *last = tick;
    }
}

/// The entries of a map.
fn all_entries(
    alloc: Global,
    sent: &BTreeMap<LsaKey, u32>,
) -> Result<Vec<(LsaKey, u32)>, AllocError>
    ensures { IfOk result (λ entries. entries.items ≡ sent.now.entries) }
{
    let mut entries = Vec::new(alloc);
    for (key, tick) in sent {
        entries.push((*key, *tick))?;
    }
    Ok(entries)
}
