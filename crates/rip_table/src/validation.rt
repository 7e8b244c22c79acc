//! Which entries of a response are taken, and of which network each tells (RFC 2453 section 3.9.2).

ghost use Rattle.std.specs.Prelude.{◌≡◌};
ghost use Rattle.rip_table.specs.Validation.{destination_of, is_valid_destination};

use dn_net::{is_network, mask_len};
use rip_wire::{Entry, INFINITY, IP_FAMILY};

/// Whether a response may tell of this network: the default route, or one whose first byte isn't 0, 127, or 224
/// and above (RFC 2453 section 3.9.2).
fn is_valid_destination(address: u32, len: u8) -> bool
    ensures { result ≡ is_valid_destination address len }
{
    let first = address >> 24u32;
    // the default route (RFC 2453 section 3.7)
    (address == 0 && len == 0)
        // RFC 2453 section 3.9.2: unicast, not net 0 or 127
        || (first != 0 && first != 127 && first < 224)
}

/// The network that an entry of a response tells of, if the entry is valid (RFC 2453 sections 3.9.2 and 4.3).
/// This profile passes over an entry whose mask has a gap or whose address has host bits, and one with mask 0
/// that isn't the default route.
pub fn destination_of(entry: &Entry) -> Option<(u32, u8)>
    ensures { result ≡ destination_of entry.now }
{
    // RFC 2453 section 3.9.2: the metric is from 1 to 16; section 3.6: the family is IP
    if entry.family != IP_FAMILY || entry.metric < 1 || u32::from(INFINITY) < entry.metric {
        return None;
    }
    // this profile: a contiguous mask, and no host bits
    let len = mask_len(entry.mask)?;
    if is_network(entry.address, len) && is_valid_destination(entry.address, len) {
        Some((entry.address, len))
    } else {
        None
    }
}
