//! Networks as text.

ghost use Rattle.std.specs.Prelude.{◌≡◌, ◌++◌, OnOk};
ghost use Rattle.dn_guest.specs.KeepsFront.{KeepsFront};
ghost use Rattle.dn_net.specs.Texts.{network_text};

use dn_guest::Bytes;
use dn_text::{Piece, append_all};
use std::alloc::AllocError;

/// Appends a network as `A.B.C.D/LEN`. After `NoMemory` what was in `out` before is still at its front.
#[tactic(auto, unfolding(crate::specs::Texts::network_text, crate::specs::Texts::address_text))]
pub fn push_network(address: u32, len: u8, out: &mut Bytes) -> Result<(), AllocError>
    ensures ok { OnOk result (out.new ≡ out.old ++ network_text address len) }
    ensures kept { KeepsFront out.old out.new }
{
    let pieces = [
        Piece::Decimal(u64::from(address / 0x100_0000)),
        Piece::Text(b"."),
        Piece::Decimal(u64::from(address / 0x1_0000 % 256)),
        Piece::Text(b"."),
        Piece::Decimal(u64::from(address / 256 % 256)),
        Piece::Text(b"."),
        Piece::Decimal(u64::from(address % 256)),
        Piece::Text(b"/"),
        Piece::Decimal(u64::from(len)),
    ];
    append_all(out, &pieces)
}
