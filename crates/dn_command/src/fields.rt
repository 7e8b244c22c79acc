//! The fields of a line: words, numbers in their ranges, names of routers and of probes.

ghost use Rattle.std.specs.Prelude.{◌≡◌, ◌<◌, ◌≤◌, ◌^◌, length, IfOk, IfSome};
ghost use Rattle.dn_model.specs.Routers.{number_of};
ghost use Rattle.dn_case.specs.Shapes.{is_word};
ghost use Rattle.dn_command.specs.Commands.{number_in, from_to, probe_name};

use dn_case::number_of;
use dn_guest::{Bytes, NoMemory};
use dn_model::RouterDef;
use dn_text::decimal;
use std::alloc::Global;

/// Whether the text is this word.
pub fn is_word(text: &[u8], word: &[u8]) -> bool
    ensures { result ≡ is_word text.now word.now }
{
    text == word
}

/// The number of a decimal field, if it is from the least to the greatest.
pub fn number_in(least: u64, greatest: u64, field: &[u8]) -> Option<u64>
    ensures value { result ≡ number_in least greatest field.now }
    ensures within { IfSome result (λ n. n ≤ greatest) }
{
    from_to(least, greatest, decimal(field))
}

fn from_to(least: u64, greatest: u64, number: Option<u64>) -> Option<u64>
    ensures value { result ≡ from_to least greatest number }
    ensures within { IfSome result (λ n. n ≤ greatest) }
{
    match number {
        None => None,
        Some(n) => {
            if least <= n && n <= greatest {
                Some(n)
            } else {
                None
            }
        }
    }
}

/// The number of a decimal field of 32 bits: a group, or a sum.
pub fn number_32(field: &[u8]) -> Option<u32>
    ensures { result ≡ number_in 0 4294967295 field.now }
{
    Some(number_in(0, 4_294_967_295, field)? as u32)
}

/// The number of a port, at most 15.
pub fn port_of(field: &[u8]) -> Option<u8>
    ensures { result ≡ number_in 0 15 field.now }
{
    Some(number_in(0, 15, field)? as u8)
}

/// The number of the router of a name.
pub fn router_of(routers: &[RouterDef], name: &[u8]) -> Option<u16>
    requires { length routers.now < 2 ^ 16 }
    ensures { result ≡ number_of routers.now name.now }
{
    Some(number_of(routers, name)? as u16)
}

/// The name of a probe; None where the field is empty.
pub fn probe_name(alloc: Global, field: &[u8]) -> Result<Option<Bytes>, NoMemory>
    ensures { IfOk result (λ found. found ≡ probe_name field.now) }
{
    if field.is_empty() {
        return Ok(None);
    }
    Ok(Some(Bytes::from_slice(alloc, field)?))
}
