//! Decimal fields: `0`, or digits of which the first isn't 0.

ghost use Rattle.std.specs.Prelude.{◌≡◌, ◌↔◌, ◌<◌, ◌^◌, ◌++◌, ℕ, Some, OnOk, OnErr};
ghost use Rattle.std.specs.Fmt.{decimal};
ghost use Rattle.std.specs.List.{list_all};
ghost use Rattle.dn_text.specs.Decimals.{is_digit, is_decimal, numeral_of, within, decimal_of};

use dn_guest::{Bytes, NoMemory};
use itoa::Buffer;
use std::str;

/// What a decimal field says.
#[derive(Clone, Copy, Debug)]
pub enum Number {
    Is(u64),
    /// A number that exceeds u64.
    Beyond,
}

/// Whether the byte is one of 0 to 9.
fn is_digit(byte: u8) -> bool
    ensures { result ≡ is_digit byte }
{
    b'0' <= byte && byte <= b'9'
}

fn all_digits(bytes: &[u8]) -> bool
    ensures { result ≡ list_all is_digit bytes.now }
{
    bytes.iter().all(|byte| is_digit(*byte))
}

/// Whether the field is `0`, or digits of which the first isn't 0.
fn is_decimal(field: &[u8]) -> bool
    ensures { result ≡ is_decimal field.now }
{
    match field.split_first() {
        None => false,
        Some((first, rest)) => {
            if *first == b'0' {
                rest.is_empty()
            } else {
                is_digit(*first) && all_digits(rest)
            }
        }
    }
}

/// The number that a decimal field says; None where the field is no decimal.
pub fn numeral(field: &[u8]) -> Option<Number>
    ensures { result ≡ numeral_of field.now }
{
    if !is_decimal(field) {
        return None;
    }
    let Ok(text) = str::from_utf8(field) else {
        return None;
    };
    match text.parse::<u64>() {
        Ok(n) => Some(Number::Is(n)),
        Err(_) => Some(Number::Beyond),
    }
}

/// The number of a decimal field; None where the field is no decimal or exceeds u64.
pub fn decimal(field: &[u8]) -> Option<u64>
    ensures value { result ≡ decimal_of field.now }
    // It is a number exactly where the field is that number's text.
    ensures spelled { (n : ℕ) → n < 2 ^ 64 → ((result ≡ Some n) ↔ (field.now ≡ decimal n)) }
{
    within(numeral(field))
}

fn within(number: Option<Number>) -> Option<u64>
    ensures { result ≡ within number }
{
    match number {
        Some(Number::Is(n)) => Some(n),
        Some(Number::Beyond) => None,
        None => None,
    }
}

/// Appends the number's digits.
pub fn push_decimal(out: &mut Bytes, n: u64) -> Result<(), NoMemory>
    ensures ok { OnOk result (out.new ≡ out.old ++ decimal n) }
    ensures err { OnErr result (out.new ≡ out.old) }
{
    let mut buffer = Buffer::new();
    out.append(buffer.format(n).as_bytes())
}
