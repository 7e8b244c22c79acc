//! The entries of a response (RFC 2453 section 3.9.2).

ghost use Rattle.std.specs.Prelude.{◌≡◌, OnOk};
ghost use Rattle.rip_guest.specs.Responses.{response_taken};

use crate::requests::is_authenticated;
use rip_table::Table;
use rip_wire::Entry;
use std::alloc::AllocError;

/// Takes the entries of a response on a port of this cost, in order (RFC 2453 section 3.9.2). This profile tests
/// neither the UDP port nor the sender's address.
pub fn take_response(
    table: &mut Table,
    port: u8,
    cost: u8,
    now: u32,
    entries: &[Entry],
) -> Result<(), AllocError>
    ensures { OnOk result (table.new ≡ response_taken port cost now table.old entries.now) }
{
    // section 4.1; this profile has no authentication, and passes it over
    if is_authenticated(entries) {
        return Ok(());
    }
    for entry in entries {
        table.response(port, cost, entry, now)?;
    }
    Ok(())
}
