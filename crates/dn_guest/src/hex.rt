//! Bytes as hexadecimal digits, two a byte, in lower case.

ghost use Rattle.std.specs.Prelude.{◌≡◌, ◌<◌, ◌++◌, OnOk};
ghost use Rattle.dn_guest.specs.Hex.{hex, digit};
ghost use Rattle.dn_guest.specs.KeepsFront.{KeepsFront};

use crate::Bytes;
use std::alloc::AllocError;

/// Appends the digits of the bytes. After `NoMemory` what was in `out` before still stands at its front.
pub fn push_hex(bytes: &[u8], out: &mut Bytes) -> Result<(), AllocError>
    ensures ok { OnOk result (out.new ≡ out.old ++ hex bytes.now) }
    ensures kept { KeepsFront out.old out.new }
{
    for byte in bytes {
        out.push(digit(*byte / 16))?;
        out.push(digit(*byte % 16))?;
    }
    Ok(())
}

/// The digit of a number below 16.
fn digit(n: u8) -> u8
    requires { n < 16 }
    ensures { result ≡ digit n }
{
    if n < 10 { b'0' + n } else { b'a' + (n - 10) }
}
