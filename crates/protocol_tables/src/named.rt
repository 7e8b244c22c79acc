//! Values behind their names, as in `age 3 port 1`, in any order. One that isn't there has the default.

ghost use Rattle.std.specs.Prelude.{◌≤◌, IfSome};

use dn_guest::{Bytes, NoMemory};
use std::alloc::Global;
use table_program::Fields;

/// The decimal number, of at most `most`; None if it isn't there.
pub(crate) fn some_number(fields: &mut Fields<'_>, name: &[u8], most: u64) -> Option<u64>
    ensures { IfSome result (λ n. n ≤ most) }
{
    let word = fields.behind(name)?;
    Some(fields.number_of(word, most))
}

/// The decimal number of 32 bits.
pub(crate) fn number(fields: &mut Fields<'_>, name: &[u8], default: u32) -> u32 {
    match some_number(fields, name, 0xffff_ffff) {
        Some(number) => number as u32,
        None => default,
    }
}

/// The decimal number of 16 bits.
pub(crate) fn short(fields: &mut Fields<'_>, name: &[u8], default: u16) -> u16 {
    match some_number(fields, name, 65_535) {
        Some(number) => number as u16,
        None => default,
    }
}

/// The decimal number of 8 bits.
pub(crate) fn byte(fields: &mut Fields<'_>, name: &[u8], default: u8) -> u8 {
    match some_number(fields, name, 255) {
        Some(number) => number as u8,
        None => default,
    }
}

/// The hexadecimal number of 32 bits.
pub(crate) fn hex(fields: &mut Fields<'_>, name: &[u8], default: u32) -> u32 {
    match fields.behind(name) {
        Some(word) => fields.hex_of(word, 0xffff_ffff) as u32,
        None => default,
    }
}

/// The address or mask: four decimal numbers with dots between.
pub(crate) fn address(fields: &mut Fields<'_>, name: &[u8], default: u32) -> u32 {
    match fields.behind(name) {
        Some(word) => fields.address_of(word),
        None => default,
    }
}

/// The mask of the ports, which have commas between, as `0,2`.
pub(crate) fn ports(fields: &mut Fields<'_>, name: &[u8]) -> u16 {
    let mut mask = 0u16;
    if let Some(word) = fields.behind(name) {
        for part in word.split(|byte| *byte == b',') {
            mask |= 1u16 << fields.number_of(part, 15);
        }
    }
    mask
}

/// The bytes in hexadecimal.
pub(crate) fn bytes(
    alloc: Global,
    fields: &mut Fields<'_>,
    name: &[u8],
    default: &[u8],
) -> Result<Bytes, NoMemory> {
    match fields.behind(name) {
        Some(word) => fields.bytes_of(alloc, word),
        None => Bytes::from_slice(alloc, default),
    }
}
