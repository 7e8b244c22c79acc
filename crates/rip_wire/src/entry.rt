//! One entry of a message.

ghost use Rattle.std.specs.Prelude.{◌≡◌, ◌+◌, ◌≤◌, length, drop};
ghost use Rattle.byteorder.specs.Endian.{big_number};
ghost use Rattle.rip_wire.specs.Entries.{entry_bytes, FitsEntry};
ghost use Rattle.rip_wire.specs.Reading.{entry_at};

use byteorder::{BigEndian, ByteOrder};

/// A route entry, 20 bytes in a message (RFC 2453 section 4).
#[derive(Clone, Copy, Debug, PartialEq, Eq)]
pub struct Entry {
    /// The address family: 2 for IP, 0 in a request for the whole table, 0xffff for authentication.
    pub family: u16,
    /// The route tag (RFC 2453 section 4.2).
    pub tag: u16,
    /// The network's address.
    pub address: u32,
    /// The subnet mask (RFC 2453 section 4.3).
    pub mask: u32,
    /// The next hop; 0 is the sender of the message (RFC 2453 section 4.4).
    pub hop: u32,
    /// The metric, 1 to 16 in a valid entry; 16 is infinity (RFC 2453 section 3.6).
    pub metric: u32,
}

/// The bytes from this place on.
pub fn bytes_from(bytes: &[u8], at: usize) -> &[u8]
    requires { at ≤ length bytes.now }
    ensures { result.now ≡ drop at bytes.now }
{
    &bytes[at..]
}

/// The number of two bytes from this place on.
fn u16_at(bytes: &[u8], at: usize) -> u16
    requires { at + 2 ≤ length bytes.now }
    ensures { result ≡ big_number 2 (drop at bytes.now) }
{
    BigEndian::read_u16(&bytes[at..])
}

/// The number of four bytes from this place on.
fn u32_at(bytes: &[u8], at: usize) -> u32
    requires { at + 4 ≤ length bytes.now }
    ensures { result ≡ big_number 4 (drop at bytes.now) }
{
    BigEndian::read_u32(&bytes[at..])
}

/// The entry at the front of these bytes (RFC 2453 section 4).
#[tactic(auto, unfolding(crate::specs::Reading::entry_at))]
pub fn read_entry(bytes: &[u8]) -> Entry
    requires { 20 ≤ length bytes.now }
    ensures { result ≡ entry_at bytes.now }
{
    Entry {
        family: u16_at(bytes, 0),
        tag: u16_at(bytes, 2),
        address: u32_at(bytes, 4),
        mask: u32_at(bytes, 8),
        hop: u32_at(bytes, 12),
        metric: u32_at(bytes, 16),
    }
}

/// The 20 bytes of an entry (RFC 2453 section 4).
#[tactic(auto, unfolding(crate::specs::Entries::entry_bytes))]
pub fn entry_bytes(entry: Entry) -> [u8; 20]
    ensures bytes { result ≡ entry_bytes entry }
    ensures fits { FitsEntry entry }
{
    let mut bytes = [0; 20];
    BigEndian::write_u16(&mut bytes, entry.family);
    BigEndian::write_u16(&mut bytes[2..], entry.tag);
    BigEndian::write_u32(&mut bytes[4..], entry.address);
    BigEndian::write_u32(&mut bytes[8..], entry.mask);
    BigEndian::write_u32(&mut bytes[12..], entry.hop);
    BigEndian::write_u32(&mut bytes[16..], entry.metric);
    bytes
}
