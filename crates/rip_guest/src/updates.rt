//! Updates and the request for the whole table (RFC 2453 sections 3.9.1 and 3.10).

ghost use Rattle.std.specs.Prelude.{◌≡◌, ◌≤◌, ◌<◌, ◌*◌, ◌++◌, ◌∷◌, [], OnOk, length};
ghost use Rattle.rip_wire.specs.Constants.{most_entries, response_command};
ghost use Rattle.rip_wire.specs.Messages.{IsEncodable};
ghost use Rattle.rip_guest.specs.Updates.{message_on, message_part, request_on, requests, responses_on};
ghost use Rattle.rip_guest.specs.Updates.{update_on, updates};

use dn_guest::{Bytes, Outbox, is_up};
use rip_table::Table;
use rip_wire::{
    Entries, Entry, INFINITY, MOST_ENTRIES, Message, REQUEST, RESPONSE, WHOLE_TABLE_FAMILY, encode,
};
use std::alloc::{AllocError, Global};

/// Puts out a message of 1 to 25 entries.
pub fn put_message(
    alloc: Global,
    port: u8,
    message: &Message,
    out: &mut Outbox,
) -> Result<(), AllocError>
    requires { IsEncodable message.now }
    ensures { OnOk result (out.new ≡ out.old ++ message_on port message.now.command message.now.entries ∷ []) }
{
    let mut body = Bytes::new(alloc);
    encode(message, &mut body)?;
    out.put(port, body)
}

/// Asks for the whole table on a port: one entry of family 0 and metric infinity (RFC 2453 section 3.9.1).
pub fn put_request(alloc: Global, port: u8, out: &mut Outbox) -> Result<(), AllocError>
    ensures { OnOk result (out.new ≡ out.old ++ request_on port ∷ []) }
{
    let entry = Entry {
        family: WHOLE_TABLE_FAMILY,
        tag: 0,
        address: 0,
        mask: 0,
        hop: 0,
        metric: u32::from(INFINITY),
    };
    let message = Message {
        command: REQUEST,
        entries: Entries::from_vec(Vec::from_slice(alloc, &[entry])?),
    };
    put_message(alloc, port, &message, out)
}

/// Asks for the whole table on each of the ports that is up (RFC 2453 section 3.9.1).
pub fn put_requests(
    alloc: Global,
    ports: u16,
    count: u8,
    out: &mut Outbox,
) -> Result<(), AllocError>
    ensures { OnOk result (out.new ≡ out.old ++ requests ports count) }
{
    for port in 0..count {
        if is_up(ports, port) {
            put_request(alloc, port, out)?;
        }
    }
    Ok(())
}

/// The entries from the place 25 * k on, 25 at most.
fn message_part(entries: &[Entry], k: usize) -> &[Entry]
    requires { most_entries * k < length entries.now }
    ensures entries { result.now ≡ message_part entries.now k }
    ensures some { 1 ≤ length result.now }
    ensures few { length result.now ≤ most_entries }
{
    let rest = &entries[MOST_ENTRIES * k..];
    &rest[..rest.len().min(MOST_ENTRIES)]
}

/// Puts out a response with the entries from the place 25 * k on.
fn put_part(
    alloc: Global,
    port: u8,
    entries: &[Entry],
    k: usize,
    out: &mut Outbox,
) -> Result<(), AllocError>
    requires { most_entries * k < length entries.now }
    ensures { OnOk result (out.new ≡ out.old ++ message_on port response_command (message_part entries.now k) ∷ []) }
{
    let message = Message {
        command: RESPONSE,
        entries: Entries::from_vec(Vec::from_slice(alloc, message_part(entries, k))?),
    };
    put_message(alloc, port, &message, out)
}

/// Puts out responses with these entries, 25 in each and the rest in the last (RFC 2453 section 3.6).
fn put_responses(
    alloc: Global,
    port: u8,
    entries: &[Entry],
    out: &mut Outbox,
) -> Result<(), AllocError>
    ensures { OnOk result (out.new ≡ out.old ++ responses_on port entries.now) }
{
    let count = entries.len().div_ceil(MOST_ENTRIES);
    for k in 0..count {
        put_part(alloc, port, entries, k, out)?;
    }
    Ok(())
}

/// Puts out an update on a port, with split horizon: of all routes in a regular update (RFC 2453 section 3.10), or
/// of those alone that changed in a triggered one (section 3.10.1).
pub fn put_update(
    alloc: Global,
    port: u8,
    table: &Table,
    only_changed: bool,
    out: &mut Outbox,
) -> Result<(), AllocError>
    ensures { OnOk result (out.new ≡ out.old ++ update_on only_changed table.now port) }
{
    let entries = table.reply(Some(port), only_changed)?;
    put_responses(alloc, port, &entries, out)
}

/// Puts out an update on each of the ports that is up.
pub fn put_updates(
    alloc: Global,
    ports: u16,
    count: u8,
    table: &Table,
    only_changed: bool,
    out: &mut Outbox,
) -> Result<(), AllocError>
    ensures { OnOk result (out.new ≡ out.old ++ updates only_changed table.now ports count) }
{
    for port in 0..count {
        if is_up(ports, port) {
            put_update(alloc, port, table, only_changed, out)?;
        }
    }
    Ok(())
}
