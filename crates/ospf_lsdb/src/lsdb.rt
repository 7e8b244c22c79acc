//! The database.

ghost use Rattle.std.specs.Prelude.{◌≡◌, ◌↔◌, [], IsTrue, IfOk, IfSome, OnOk, OnErr, length, map, option_map, option_copied};
ghost use Rattle.std.specs.Map.{keys_of};
ghost use Rattle.std.specs.List.Sorted.{IsStrictlySortedBy};
ghost use Rattle.ospf_lsdb.specs.Keys.{key_cmp, key_of};
ghost use Rattle.ospf_lsdb.specs.Kept.{age_of, with_max_age, fresh, sent_at};
ghost use Rattle.ospf_lsdb.specs.Database.{AreNamed, aged, changed, reaching_max_age, max_age_lsas, kept_at, with_kept, without};

use crate::aging::{age_lsas, max_age_lsas, reaching_max_age};
use crate::key::key_of;
use crate::{Kept, LsaKey};
use ospf_wire::Lsa;
use std::alloc::{AllocError, Global};
use std::collections::BTreeMap;
use std::collections::btree_map::Iter;
use std::marker::Model;

/// The database: a finite map from the name of an LSA to the instance that is kept. Contracts see it as
/// the list of its entries in ascending order of the keys. Moments are ticks, one a second; where `now`
/// is before the tick at which an LSA was installed its age is the one at installation.
#[derive(Drop)]
pub struct Lsdb {
    alloc: Global,
    kept: BTreeMap<LsaKey, Kept>,
}

impl Model for Lsdb {
    ghost use Rattle.std.specs.Prelude.{List};
    ghost use Rattle.ospf_lsdb.specs.declared.key.LsaKey.{LsaKey};
    ghost use Rattle.ospf_lsdb.specs.declared.kept.Kept.{Kept};
    ghost use Rattle.ospf_lsdb.specs.Database.{AreNamed};

    ghost Value = { List (LsaKey × Kept) };

    ghost view = { λ d. d.kept.entries };

    ghost invariant = { λ d. AreNamed d.kept.entries };
}

impl Lsdb {
    /// No LSAs. It takes no memory.
    pub fn new(alloc: Global) -> Lsdb
        ensures { result ≡ [] }
    {
        Lsdb {
            alloc,
            kept: BTreeMap::new(alloc),
        }
    }

    /// What is kept at this key.
    pub fn get(&self, key: &LsaKey) -> Option<&Kept>
        ensures kept { option_copied result ≡ kept_at self.now key.now }
        ensures named { IfSome result (λ k. key_of k.now.lsa.head ≡ key.now) }
    {
        self.kept.get(key)
    }

    /// Installs an instance in the place of the one that was there, not sent yet (RFC 2328 section 13.2).
    pub fn install(
        &mut self,
        lsa: Lsa,
        now: u32,
        flooded: bool,
        foreign: bool,
    ) -> Result<(), AllocError>
        ensures ok { OnOk result (self.new ≡ with_kept self.old (key_of lsa.head) (fresh lsa now flooded foreign)) }
        ensures err { OnErr result (self.new ≡ self.old) }
    {
        let key = key_of(&lsa.head);
        self.kept
            .insert(key, Kept::new(lsa, now, flooded, foreign))?;
        Ok(())
    }

    /// Notes that the LSA was sent at this tick. Nothing happens where it isn't there.
    pub fn note_sent(&mut self, key: &LsaKey, now: u32)
        ensures { self.new ≡ changed key.now (sent_at now) self.old }
    {
        set_sent(&mut self.kept, key, now);
    }

    /// The age of the LSA at this tick.
    pub fn age(&self, key: &LsaKey, now: u32) -> Option<u16>
        ensures { result ≡ option_map (age_of now) (kept_at self.now key.now) }
    {
        match self.get(key) {
            Some(kept) => Some(kept.age(now)),
            None => None,
        }
    }

    /// Sets the LSAs that reach MaxAge at this tick to it, and lists them in ascending order (RFC 2328
    /// section 14).
    pub fn tick(&mut self, now: u32) -> Result<Vec<LsaKey>, AllocError>
        ensures keys { IfOk result (λ keys. keys.items ≡ reaching_max_age now self.old) }
        ensures database { OnOk result (self.new ≡ aged now self.old) }
        ensures err { OnErr result (self.new ≡ self.old) }
    {
        let keys = reaching_max_age(self.alloc, &self.kept, now)?;
        age_lsas(&mut self.kept, now);
        Ok(keys)
    }

    /// Sets the LSA to MaxAge from this tick on, as premature aging does (RFC 2328 section 14.1). Nothing
    /// happens if it isn't there.
    pub fn flush(&mut self, key: &LsaKey, now: u32)
        ensures { self.new ≡ changed key.now (with_max_age now) self.old }
    {
        set_max_age_at(&mut self.kept, key, now);
    }

    /// Removes the LSA. Nothing happens where it isn't there.
    pub fn drop_gone(&mut self, key: &LsaKey)
        ensures { self.new ≡ without self.old key.now }
    {
        let _gone = self.kept.remove(key);
    }

    /// The LSAs of MaxAge, in ascending order (RFC 2328 section 14). It takes memory for these alone.
    pub fn max_age_lsas(&self, now: u32) -> Result<Vec<LsaKey>, AllocError>
        ensures { IfOk result (λ keys. keys.items ≡ max_age_lsas now self.now) }
    {
        max_age_lsas(self.alloc, &self.kept, now)
    }

    /// How many LSAs there are.
    pub fn len(&self) -> u64
        ensures count { result ≡ length self.now }
        ensures ascending { IsStrictlySortedBy key_cmp (keys_of self.now) }
    {
        self.kept.len() as u64
    }

    /// Whether there is no LSA.
    pub fn is_empty(&self) -> bool
        ensures { IsTrue result ↔ (self.now ≡ []) }
    {
        self.kept.is_empty()
    }

    /// The keys, in ascending order.
    pub fn keys(&self) -> Result<Vec<LsaKey>, AllocError>
        ensures keys { IfOk result (λ keys. keys.items ≡ keys_of self.now) }
        ensures ascending { IsStrictlySortedBy key_cmp (keys_of self.now) }
    {
        all_keys(self.alloc, &self.kept)
    }

    /// The LSAs with their keys, in ascending order of the keys.
    pub fn iter(&self) -> Iter<'_, LsaKey, Kept>
        ensures { result ≡ self.now }
    {
        self.kept.iter()
    }

    /// An equal database.
    pub fn fork(&self, alloc: Global) -> Result<Lsdb, AllocError>
        ensures { IfOk result (λ made. made ≡ self.now) }
    {
        Ok(Lsdb {
            alloc,
            kept: self.kept.clone()?,
        })
    }

    /// Whether both have the same LSAs, kept in the same way.
    pub fn same(&self, other: &Lsdb) -> bool
        ensures { IsTrue result ↔ (self.now ≡ other.now) }
    {
        self.kept == other.kept
    }
}

/// The keys of a map, in ascending order.
fn all_keys(alloc: Global, kept: &BTreeMap<LsaKey, Kept>) -> Result<Vec<LsaKey>, AllocError>
    ensures keys { IfOk result (λ keys. keys.items ≡ keys_of kept.now.entries) }
    ensures ascending { IsStrictlySortedBy key_cmp (keys_of kept.now.entries) }
{
    kept.keys().copied().collect(alloc)
}

/// Notes that the LSA was sent, if it is there.
fn set_sent(kept: &mut BTreeMap<LsaKey, Kept>, key: &LsaKey, now: u32)
    ensures { kept.new.entries ≡ changed key.now (sent_at now) kept.old.entries }
{
    if let Some(one) = kept.get_mut(key) {
        one.sent = Some(now);
    }
}

/// Sets the LSA to MaxAge, if it is there.
fn set_max_age_at(kept: &mut BTreeMap<LsaKey, Kept>, key: &LsaKey, now: u32)
    ensures { kept.new.entries ≡ changed key.now (with_max_age now) kept.old.entries }
{
    if let Some(one) = kept.get_mut(key) {
        one.set_max_age(now);
    }
}
