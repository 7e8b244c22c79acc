//! The checksum of a packet (RFC 2328 appendix D.4.1, RFC 1071).

ghost use Rattle.std.specs.Prelude.{◌≡◌, ℕ, ◌+◌, ◌-◌, ◌*◌, ◌++◌, sum, length};
ghost use Rattle.ospf_wire.specs.Sums.{carried, words, checksum, packet_checksum};

use crate::fields::{bytes_from, u16_at};

/// The sum with one word more, the carry added back in.
fn with_word(so_far: u16, word: u16) -> u16
    ensures { (total : ℕ) → so_far ≡ carried total → result ≡ carried (total + word) }
{
    let wide = u32::from(so_far) + u32::from(word);
    if wide > 65_535 {
        (wide - 65_535) as u16
    } else {
        wide as u16
    }
}

/// The sum with the words of these bytes, an odd last byte padded with zero.
fn with_bytes(so_far: u16, bytes: &[u8]) -> u16
    ensures { (total : ℕ) → so_far ≡ carried total → result ≡ carried (total + sum (words bytes.now)) }
{
    let mut all = so_far;
    let pairs = bytes.len() / 2;
    for place in 0..pairs {
        all = with_word(all, u16_at(bytes, 2 * place));
    }
    if bytes.len() % 2 == 1 {
        all = with_word(all, 256 * u16::from(bytes[2 * pairs]));
    }
    all
}

/// The checksum over the words of two pieces, the first of which has an even number of bytes.
pub fn checksum(first: &[u8], second: &[u8]) -> u16
    ensures { result ≡ checksum (sum (words first.now) + sum (words second.now)) }
{
    65_535 - with_bytes(with_bytes(0, first), second)
}

/// The checksum of a packet over all its words but the authentication, in bytes 16 to 23: what is
/// written into the packet's checksum field where that is zero. Where the field holds the right
/// checksum it is 0. It takes no memory.
pub fn ip_sum(bytes: &[u8]) -> u16
    ensures { result ≡ packet_checksum bytes.now }
{
    let length = bytes.len();
    let before = &bytes[..16usize.min(length)];
    checksum(before, bytes_from(bytes, 24usize.min(length)))
}
