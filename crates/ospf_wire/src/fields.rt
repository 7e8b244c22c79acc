//! Numbers in bytes, the highest byte first.

ghost use Rattle.std.specs.Prelude.{◌≡◌, ◌+◌, ◌≤◌, ◌<◌, ◌++◌, OnOk, length, drop};
ghost use Rattle.ospf_wire.specs.Fields.{field, number};

use byteorder::{BigEndian, ByteOrder};
use std::alloc::AllocError;

/// The byte at this place.
#[tactic(auto, unfolding(crate::specs::Fields::field))]
pub fn u8_at(bytes: &[u8], at: usize) -> u8
    requires { at < length bytes.now }
    ensures { result ≡ field at 1 bytes.now }
{
    bytes[at]
}

/// The number of two bytes from this place on.
#[tactic(auto, unfolding(crate::specs::Fields::field))]
pub fn u16_at(bytes: &[u8], at: usize) -> u16
    requires { at + 2 ≤ length bytes.now }
    ensures { result ≡ field at 2 bytes.now }
{
    BigEndian::read_u16(&bytes[at..])
}

/// The number of four bytes from this place on.
#[tactic(auto, unfolding(crate::specs::Fields::field))]
pub fn u32_at(bytes: &[u8], at: usize) -> u32
    requires { at + 4 ≤ length bytes.now }
    ensures { result ≡ field at 4 bytes.now }
{
    BigEndian::read_u32(&bytes[at..])
}

/// The bytes from this place on.
pub fn bytes_from(bytes: &[u8], at: usize) -> &[u8]
    requires { at ≤ length bytes.now }
    ensures { result.now ≡ drop at bytes.now }
{
    &bytes[at..]
}

/// Appends the four bytes of a number.
#[tactic(auto, unfolding(crate::specs::Fields::number))]
pub fn push_u32(n: u32, out: &mut Vec<u8>) -> Result<(), AllocError>
    ensures { OnOk result (out.new.items ≡ out.old.items ++ number 4 n) }
{
    let mut bytes = [0; 4];
    BigEndian::write_u32(&mut bytes, n);
    out.extend_from_slice(&bytes)?;
    Ok(())
}
