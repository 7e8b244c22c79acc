//! Which of two instances of an LSA is the newer (RFC 2328 section 13.1).

ghost use Rattle.std.specs.Prelude.{◌≡◌, ◌↔◌};
ghost use Rattle.std.specs.declared.cmp.Ordering.TheVariants.{Less, Equal, Greater};
ghost use Rattle.ospf_wire.specs.Newer.{age_order, newer_of, seq_rank, IsSameInstance};

use crate::LsaHeader;
use crate::constants::{MAX_AGE, MAX_AGE_DIFF};
use std::cmp::Ordering;

/// The sequence number's place in the order of signed numbers (RFC 2328 section 12.1.6).
fn seq_rank(seq: u32) -> u32
    ensures { result ≡ seq_rank seq }
{
    seq.wrapping_add(0x8000_0000)
}

/// What the ages say if sequence numbers and checksums are equal (RFC 2328 section 13.1).
fn age_order(a: u16, b: u16) -> Ordering
    ensures { result ≡ age_order a b }
{
    // RFC 2328 section 13.1, the third rule: only one of both has MaxAge, and is the newer.
    if a == MAX_AGE && b != MAX_AGE {
        Ordering::Greater
    } else if b == MAX_AGE && a != MAX_AGE {
        Ordering::Less
        // Section 13.1, the last rule: ages within MaxAgeDiff are of one instance.
    } else if b.abs_diff(a) <= MAX_AGE_DIFF {
        Ordering::Equal
        // Section 13.1, the fourth rule: the smaller age is the newer.
    } else {
        b.cmp(&a)
    }
}

/// `Greater` if `a` is the newer instance, `Less` if `b` is, and `Equal` if both are the same (RFC 2328
/// section 13.1: the sequence numbers, then the checksums, then the ages).
/// The two are headers of one LSA: type, id and advertising router aren't looked at. It takes no memory.
pub fn newer(a: &LsaHeader, b: &LsaHeader) -> Ordering
    ensures order { result ≡ newer_of a.now b.now }
    ensures same { (result ≡ Equal) ↔ IsSameInstance a.now b.now }
{
    seq_rank(a.seq)
        .cmp(&seq_rank(b.seq))
        .then(a.sum.cmp(&b.sum).then(age_order(a.age, b.age)))
}
