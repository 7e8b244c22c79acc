//! The verdict on an LSA that comes in a Link State Update (RFC 2328 section 13).

ghost use Rattle.std.specs.Prelude.{◌≡◌, ◌+◌, ◌<◌, length, option_copied};
ghost use Rattle.ospf_wire.specs.Newer.{newer_of};
ghost use Rattle.ospf_lsdb.specs.Kept.{header_now};
ghost use Rattle.ospf_flood.specs.Retransmission.{list_of};
ghost use Rattle.ospf_flood.specs.Verdicts.{has_right_sum, is_wrapping, is_router_lsa, verdict_on_router_lsa, with_capped_age, verdict_of, verdict_by_copy};

use crate::Lists;
use ospf_lsdb::{Kept, Lsdb, key_of};
use ospf_wire::{
    Lsa, LsaHeader, MAX_AGE, MAX_SEQUENCE_NUMBER, ROUTER_LSA_TYPE, fletcher_ok, is_well_formed,
    newer,
};
use std::cmp::Ordering;

/// The number of LSAs from which on no further LSA is taken, so that there is always room for the
/// router's own.
const FULL: u64 = 65_534;

/// What is done with an LSA that comes (RFC 2328 sections 13 and 13.5).
#[derive(Clone, Copy, Debug, PartialEq, Eq)]
pub enum Verdict {
    /// Nothing.
    Discarded,
    /// It is acknowledged, and nothing else is done.
    Acked,
    /// It is flooded on the other ports, installed and acknowledged.
    Installed,
    /// The copy in the database goes back to the sender.
    SentBack,
    /// It is an acknowledgement of what was sent on its port, and is taken as one.
    Implied,
}

/// The header with an age above MaxAge taken as MaxAge, which is this project's own.
pub fn with_capped_age(head: LsaHeader) -> LsaHeader
    ensures { result ≡ with_capped_age head }
{
    LsaHeader {
        age: head.age.min(MAX_AGE),
        ..head
    }
}

/// Whether the LS checksum is right (RFC 2328 section 12.1.7).
fn has_right_sum(lsa: &Lsa) -> bool
    requires { lsa.now.head.length ≡ 20 + length lsa.now.body }
    ensures { result ≡ has_right_sum lsa.now }
{
    fletcher_ok(lsa)
}

/// Whether it is a router-LSA whose links fill it (RFC 2328 section 12.4.1 and appendix A.4.2).
fn is_router_lsa(lsa: &Lsa) -> bool
    ensures { result ≡ is_router_lsa lsa.now }
{
    lsa.head.kind == ROUTER_LSA_TYPE && is_well_formed(lsa.body.as_slice())
}

/// The verdict if there is a copy in the database (RFC 2328 section 13, steps (5), (7) and (8)): which of
/// both is the newer, section 13.1 says.
fn verdict_by_copy(head: LsaHeader, kept: &Kept, listed: bool, now: u32) -> Verdict
    ensures { result ≡ verdict_by_copy (newer_of head (header_now now kept.now)) now kept.now listed }
{
    match newer(&head, &kept.header_now(now)) {
        // RFC 2328 section 13, step (5)(a): the copy came by flooding within MinLSArrival, in this tick.
        Ordering::Greater if kept.flooded && kept.installed == now => Verdict::Discarded,
        // Section 13, step (5)(b) to (5)(f).
        Ordering::Greater => Verdict::Installed,
        // Section 13, step (7)(a): on the port's list, it is an implied acknowledgement.
        Ordering::Equal if listed => Verdict::Implied,
        // Section 13, step (7)(b).
        Ordering::Equal => Verdict::Acked,
        // Section 13, step (8): the copy's sequence number is wrapping, or it was sent within
        // MinLSArrival, in this tick.
        Ordering::Less if is_wrapping(kept, now) || kept.sent == Some(now) => Verdict::Discarded,
        // Section 13, step (8): the copy is the newer and goes back.
        Ordering::Less => Verdict::SentBack,
    }
}

/// Whether the copy has MaxAge and MaxSequenceNumber, so that its sequence number is wrapping (RFC 2328
/// section 13, step (8)).
fn is_wrapping(kept: &Kept, now: u32) -> bool
    ensures { result ≡ is_wrapping now kept.now }
{
    kept.age(now) == MAX_AGE && kept.lsa.head.seq == MAX_SEQUENCE_NUMBER
}

/// The verdict on a router-LSA with a right checksum (RFC 2328 section 13, from step (4) on).
fn verdict_on_router_lsa(
    head: LsaHeader,
    copy: Option<&Kept>,
    count: u64,
    listed: bool,
    now: u32,
) -> Verdict
    ensures { result ≡ verdict_on_router_lsa head now (option_copied copy.entry) count listed }
{
    let head = with_capped_age(head);
    match copy {
        Some(kept) => verdict_by_copy(head, kept, listed, now),
        // This profile: there is no room for one LSA more beside the router's own.
        None if FULL <= count => Verdict::Discarded,
        // RFC 2328 section 13, step (4); this profile looks at no neighbour's state.
        None if head.age == MAX_AGE => Verdict::Acked,
        // Section 13, step (5): there is no copy.
        None => Verdict::Installed,
    }
}

/// The verdict on an LSA that comes on this port at this tick (RFC 2328 section 13).
pub fn verdict_of(db: &Lsdb, lists: &Lists, from: u8, lsa: &Lsa, now: u32) -> Verdict
    requires length { lsa.now.head.length ≡ 20 + length lsa.now.body }
    requires port { from < length lists.now }
    ensures { result ≡ verdict_of db.now (list_of lists.now from) lsa.now now }
{
    // RFC 2328 section 13, steps (1) and (2): a wrong checksum, or an LSA of an unknown type. Step (3)
    // doesn't arise, since there are no stub areas. This profile: links that don't fill the LSA too.
    if !has_right_sum(lsa) || !is_router_lsa(lsa) {
        return Verdict::Discarded;
    }
    let key = key_of(&lsa.head);
    let listed = lists.sent_at(from, &key).is_some();
    verdict_on_router_lsa(lsa.head, db.get(&key), db.len(), listed, now)
}
