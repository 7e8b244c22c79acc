//! The LS checksum of an LSA (RFC 2328 section 12.1.7, RFC 905 annex B).

ghost use Rattle.std.specs.Prelude.{◌≡◌, ◌↔◌, ◌+◌, ◌*◌, ◌≤◌, ◌<◌, ◌^◌, ◌%◌, IsTrue, length, sum};
ghost use Rattle.ospf_wire.specs.Fletcher.{weighted, checked_bytes, IsChecked, AreCheckBytes, check_byte, ls_checksum, with_sum};

use crate::fields::bytes_from;
use crate::lsa::header_bytes;
use crate::{Lsa, LsaHeader};

/// The two sums of some bytes.
#[derive(Clone, Copy)]
struct Sums {
    /// b1 + .. + bN
    plain: u64,
    /// N * b1 + (N - 1) * b2 + .. + 1 * bN
    weighted: u64,
}

/// The sums with more bytes behind.
fn with_bytes(sums: Sums, bytes: &[u8]) -> Sums
    requires few { length bytes.now ≤ 2 ^ 16 }
    requires plain { sums.plain ≤ 2 ^ 24 }
    requires weighted { sums.weighted ≤ 2 ^ 40 }
    ensures plain { result.plain ≡ sums.plain + sum bytes.now }
    ensures weighted { result.weighted ≡ sums.weighted + length bytes.now * sums.plain + weighted bytes.now }
    ensures plain_small { result.plain ≤ sums.plain + 255 * length bytes.now }
    ensures weighted_small { result.weighted ≤ sums.weighted + 2 ^ 25 * length bytes.now }
{
    let mut all = sums;
    for byte in bytes {
        all.plain += u64::from(*byte);
        all.weighted += all.plain;
    }
    all
}

/// The sums of an LSA from its options on.
fn sums_of(head: LsaHeader, body: &[u8]) -> Sums
    requires { head.length ≡ 20 + length body.now }
    ensures few { length body.now < 2 ^ 16 }
    ensures plain { result.plain ≡ sum (checked_bytes head body.now) }
    ensures weighted { result.weighted ≡ weighted (checked_bytes head body.now) }
{
    let front = header_bytes(head);
    let none = Sums {
        plain: 0,
        weighted: 0,
    };
    let before = with_bytes(none, bytes_from(&front, 2));
    with_bytes(before, body)
}

/// Whether the LS checksum is right: both sums of the bytes from the options on are 0 modulo 255. It
/// takes no memory.
pub fn fletcher_ok(lsa: &Lsa) -> bool
    requires { lsa.now.head.length ≡ 20 + length lsa.now.body }
    ensures { IsTrue result ↔ IsChecked lsa.now }
{
    let sums = sums_of(lsa.head, lsa.body.as_slice());
    sums.plain % 255 == 0 && sums.weighted % 255 == 0
}

/// The number of 1 to 255 that is this one modulo 255.
fn check_byte(n: u64) -> u16
    ensures value { result ≡ check_byte n }
    ensures most { result ≤ 255 }
{
    let rest = (n % 255) as u16;
    if rest == 0 { 255 } else { rest }
}

/// The LS checksum that is right for the LSA.
fn ls_checksum(lsa: &Lsa) -> u16
    requires { lsa.now.head.length ≡ 20 + length lsa.now.body }
    ensures { result ≡ ls_checksum lsa.now }
{
    let unsummed = LsaHeader { sum: 0, ..lsa.head };
    let sums = sums_of(unsummed, lsa.body.as_slice());
    let plain = sums.plain % 255;
    let weighted = sums.weighted % 255;
    // The weight of the second check byte, as many bytes as there are from it on.
    let weight = lsa.body.len() as u64 + 3;
    let first = check_byte(weight * plain + 255 - weighted);
    256 * first + check_byte(510 - plain - u64::from(first))
}

/// Writes the LS checksum: the only pair of bytes from 1 to 255 with which both sums are 0 modulo 255.
/// All else stays. It takes no memory.
pub fn fletcher_set(lsa: &mut Lsa)
    requires { lsa.old.head.length ≡ 20 + length lsa.old.body }
    ensures written { lsa.new ≡ with_sum lsa.old (ls_checksum lsa.old) }
    ensures bytes { AreCheckBytes lsa.new.head.sum }
    ensures checked { IsChecked lsa.new }
{
    lsa.head.sum = ls_checksum(lsa);
}
