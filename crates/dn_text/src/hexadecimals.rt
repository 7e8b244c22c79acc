//! Hexadecimal fields: an even, positive number of lower-case digits, two a byte.

ghost use Rattle.std.specs.Prelude.{◌≡◌, ◌↔◌, ◌++◌, ◌<◌, ℕ, List, length, Some, IfOk, OnOk, IsTrue};
ghost use Rattle.std.specs.List.{list_all, AllByRecursion};
ghost use Rattle.dn_guest.specs.Hex.{hex};
ghost use Rattle.dn_guest.specs.KeepsFront.{KeepsFront};
ghost use Rattle.dn_text.specs.Hexadecimals.{is_hex, is_hex_digit, digit_value, byte_of, pairs, unhex, hex64};

use dn_guest::{Bytes, NoMemory};
use std::alloc::Global;

/// Whether the byte is one of 0 to 9 and a to f.
fn is_hex_digit(byte: u8) -> bool
    ensures { result ≡ is_hex_digit byte }
{
    (b'0' <= byte && byte <= b'9') || (b'a' <= byte && byte <= b'f')
}

fn digit_value(byte: u8) -> u8
    requires { IsTrue (is_hex_digit byte) }
    ensures { result ≡ digit_value byte }
{
    if byte < b'a' {
        byte - b'0'
    } else {
        byte - b'a' + 10
    }
}

/// The byte of two digits.
fn byte_of(high: u8, low: u8) -> Option<u8>
    ensures { result ≡ byte_of high low }
{
    if is_hex_digit(high) && is_hex_digit(low) {
        Some(16 * digit_value(high) + digit_value(low))
    } else {
        None
    }
}

fn pairs(alloc: Global, field: &[u8]) -> Result<Option<Bytes>, NoMemory>
    ensures { IfOk result (λ found. found ≡ pairs field.now) }
{
    let mut bytes = Bytes::new(alloc);
    let mut left = field;
    'pairs: while left.len() >= 2 {
        let Some(byte) = byte_of(left[0], left[1]) else {
            return Ok(None);
        };
        bytes.push(byte)?;
        left = &left[2..];
    }
    if left.is_empty() {
        Ok(Some(bytes))
    } else {
        Ok(None)
    }
}

/// The bytes of a hexadecimal field; None where the field isn't an even, positive number of lower-case
/// digits.
pub fn unhex(alloc: Global, field: &[u8]) -> Result<Option<Bytes>, NoMemory>
    ensures value { IfOk result (λ found. found ≡ unhex field.now) }
    // They are the bytes whose digits the field is.
    ensures spelled { IfOk result (λ found. (bytes : List ℕ) → 0 < length bytes →
        AllByRecursion (λ byte. byte < 256) bytes → ((found ≡ Some bytes) ↔ (field.now ≡ hex bytes))) }
{
    if field.is_empty() {
        return Ok(None);
    }
    pairs(alloc, field)
}

/// Whether the field is an even, positive number of lower-case digits.
pub fn is_hex(field: &[u8]) -> bool
    ensures { result ≡ is_hex field.now }
{
    !field.is_empty() && field.len() % 2 == 0 && all_hex_digits(field)
}

fn all_hex_digits(field: &[u8]) -> bool
    ensures { result ≡ list_all is_hex_digit field.now }
{
    field.iter().all(|byte| is_hex_digit(*byte))
}

/// Appends two digits a byte.
pub fn push_hex(out: &mut Bytes, bytes: &[u8]) -> Result<(), NoMemory>
    ensures ok { OnOk result (out.new ≡ out.old ++ hex bytes.now) }
    ensures kept { KeepsFront out.old out.new }
{
    dn_guest::push_hex(bytes, out)
}

/// Appends the 16 digits of the number, the highest first.
#[tactic(auto, unfolding(crate::specs::Hexadecimals::hex64))]
pub fn push_hex64(out: &mut Bytes, n: u64) -> Result<(), NoMemory>
    ensures ok { OnOk result (out.new ≡ out.old ++ hex64 n) }
    ensures kept { KeepsFront out.old out.new }
{
    push_hex(out, &n.to_be_bytes())
}
