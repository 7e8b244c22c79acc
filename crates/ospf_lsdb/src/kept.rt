//! An LSA in the database.

ghost use Rattle.std.specs.Prelude.{◌≡◌};
ghost use Rattle.ospf_lsdb.specs.Kept.{age_of, fresh, header_now, reaches_max_age, with_max_age};

use ospf_wire::{Lsa, LsaHeader, MAX_AGE};
use std::alloc::AllocError;

/// An LSA as it was installed, and what the database knows of it. Moments are ticks, one a second.
#[derive(Drop, PartialEq, Eq)]
pub struct Kept {
    /// The LSA. Its age is the one that it had when it was installed.
    pub lsa: Lsa,
    /// The tick at which it was installed.
    pub installed: u32,
    /// Whether it was installed by flooding.
    pub flooded: bool,
    /// The tick at which it was last sent.
    pub sent: Option<u32>,
    /// Whether it is a received instance of the router's own LSA.
    pub foreign: bool,
}

impl Clone for Kept {
    ghost is_clone = { λ one other. other ≡ one };

    fn clone(&self) -> Result<Kept, AllocError> {
        Ok(Kept {
            lsa: self.lsa.clone()?,
            installed: self.installed,
            flooded: self.flooded,
            sent: self.sent,
            foreign: self.foreign,
        })
    }
}

impl Kept {
    /// A fresh instance, not sent yet.
    pub fn new(lsa: Lsa, now: u32, flooded: bool, foreign: bool) -> Kept
        ensures { result ≡ fresh lsa now flooded foreign }
    {
        Kept {
            lsa,
            installed: now,
            flooded,
            sent: None,
            foreign,
        }
    }

    /// The age at this tick: the age at installation and the ticks since then, at most MaxAge (RFC 2328
    /// section 14).
    pub fn age(&self, now: u32) -> u16
        ensures { result ≡ age_of now self.now }
    {
        let age = u64::from(self.lsa.head.age) + u64::from(now.saturating_sub(self.installed));
        age.min(u64::from(MAX_AGE)) as u16
    }

    /// The header with the age at this tick.
    pub fn header_now(&self, now: u32) -> LsaHeader
        ensures { result ≡ header_now now self.now }
    {
        LsaHeader {
            age: self.age(now),
            ..self.lsa.head
        }
    }

    /// Whether it was below MaxAge and reaches it at this tick (RFC 2328 section 14).
    pub fn reaches_max_age(&self, now: u32) -> bool
        ensures { result ≡ reaches_max_age now self.now }
    {
        self.lsa.head.age < MAX_AGE && self.age(now) == MAX_AGE
    }

    /// Sets the age to MaxAge from this tick on (RFC 2328 section 14.1).
    pub fn set_max_age(&mut self, now: u32)
        ensures { self.new ≡ with_max_age now self.old }
    {
        self.lsa.head.age = MAX_AGE;
        self.installed = now;
    }
}
