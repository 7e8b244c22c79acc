//! Masks and their lengths, and host bits.

ghost use Rattle.std.specs.Prelude.{◌≡◌, ◌-◌, ◌≤◌, ◌^◌};
ghost use Rattle.dn_net.specs.Networks.{is_network, mask_len, mask_of};

/// How many addresses a network of this length has. 32 and more give one.
fn addresses_of(len: u8) -> u64
    ensures size { result ≡ 2 ^ (32 - len) }
    ensures most { result ≤ 2 ^ 32 }
{
    1u64 << u32::from(32u8.saturating_sub(len))
}

/// The mask of a length: so many ones from the highest bit on. 32 and more give all ones.
pub fn mask_of(len: u8) -> u32
    ensures { result ≡ mask_of len }
{
    (0x1_0000_0000 - addresses_of(len)) as u32
}

/// The length of a contiguous mask. `None` comes exactly if no length from 0 to 32 has this mask.
pub fn mask_len(mask: u32) -> Option<u8>
    ensures { result ≡ mask_len mask }
{
    let len = mask.leading_ones() as u8;
    if mask_of(len) == mask {
        Some(len)
    } else {
        None
    }
}

/// Whether the address has no host bits, which are those past the length, and the length is at most 32.
pub fn is_network(address: u32, len: u8) -> bool
    ensures { result ≡ is_network address len }
{
    len <= 32 && u64::from(address) % addresses_of(len) == 0
}
