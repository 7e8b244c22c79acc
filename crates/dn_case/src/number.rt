//! Numbers of fields within their ranges.

ghost use Rattle.std.specs.Prelude.{◌≡◌, ◌<◌, ◌^◌};
ghost use Rattle.dn_case.specs.Standings.{between, below, value};

use dn_text::Number;

/// Whether the number is one of low to high.
pub fn between(low: u64, high: u64, number: Number) -> bool
    ensures { result ≡ between low high number }
{
    match number {
        Number::Is(n) => low <= n && n <= high,
        Number::Beyond => false,
    }
}

/// Whether the number is below this one.
pub fn below(high: u64, number: Number) -> bool
    ensures { result ≡ below high number }
{
    match number {
        Number::Is(n) => n < high,
        Number::Beyond => false,
    }
}

/// The number, or 0 where it exceeds u64.
pub fn value(number: Number) -> u64
    ensures { result ≡ value number }
{
    match number {
        Number::Is(n) => n,
        Number::Beyond => 0,
    }
}

/// A number that was found to fit.
pub fn narrow_u32(number: Number) -> u32
    requires { value number < 2 ^ 32 }
    ensures { result ≡ value number }
{
    value(number) as u32
}

/// A number that was found to fit.
pub fn narrow_u16(number: Number) -> u16
    requires { value number < 2 ^ 16 }
    ensures { result ≡ value number }
{
    value(number) as u16
}

/// A number that was found to fit.
pub fn narrow_u8(number: Number) -> u8
    requires { value number < 2 ^ 8 }
    ensures { result ≡ value number }
{
    value(number) as u8
}
