//! Several pieces at the end of a text.

ghost use Rattle.std.specs.Prelude.{◌≡◌, ◌++◌, OnOk};
ghost use Rattle.std.specs.List.{flat_map};
ghost use Rattle.dn_guest.specs.KeepsFront.{KeepsFront};
ghost use Rattle.dn_text.specs.Pieces.{piece_text};

use crate::decimals::push_decimal;
use crate::hexadecimals::{push_hex, push_hex64};
use dn_guest::{Bytes, NoMemory};

/// A piece of a line.
#[derive(Clone, Copy, Debug)]
pub enum Piece<'a> {
    /// These bytes.
    Text(&'a [u8]),
    /// The number's decimal digits.
    Decimal(u64),
    /// Two hexadecimal digits a byte.
    Hex(&'a [u8]),
    /// The number's 16 hexadecimal digits.
    Hex64(u64),
}

/// Appends the pieces one after the other.
pub fn append_all(out: &mut Bytes, pieces: &[Piece<'_>]) -> Result<(), NoMemory>
    ensures ok { OnOk result (out.new ≡ out.old ++ flat_map piece_text pieces.now) }
    ensures kept { KeepsFront out.old out.new }
{
    for piece in pieces {
        append(out, *piece)?;
    }
    Ok(())
}

fn append(out: &mut Bytes, piece: Piece<'_>) -> Result<(), NoMemory>
    ensures ok { OnOk result (out.new ≡ out.old ++ piece_text piece.entry) }
    ensures kept { KeepsFront out.old out.new }
{
    match piece {
        Piece::Text(bytes) => out.append(bytes),
        Piece::Decimal(n) => push_decimal(out, n),
        Piece::Hex(bytes) => push_hex(out, bytes),
        Piece::Hex64(n) => push_hex64(out, n),
    }
}
