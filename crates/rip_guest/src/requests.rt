//! What a request is answered (RFC 2453 section 3.9.1).

ghost use Rattle.std.specs.Prelude.{◌≡◌, ◌≤◌, ◌++◌, OnOk, IfOk, map, length};
ghost use Rattle.rip_wire.specs.Constants.{most_entries};
ghost use Rattle.rip_guest.specs.Requests.{answered_entry, request_answers, asks_for_all, is_authenticated, metric_at};

use crate::updates::{put_message, put_update};
use dn_guest::Outbox;
use dn_net::{is_network, mask_len};
use rip_table::Table;
use rip_wire::{
    AUTHENTICATION_FAMILY, Entries, Entry, INFINITY, Message, RESPONSE, WHOLE_TABLE_FAMILY,
};
use std::alloc::{AllocError, Global};

/// Whether the first entry is one of authentication (RFC 2453 section 4.1).
pub fn is_authenticated(entries: &[Entry]) -> bool
    ensures { result ≡ is_authenticated entries.now }
{
    match entries {
        [first, ..] => first.family == AUTHENTICATION_FAMILY,
        [] => false,
    }
}

/// Whether the entries ask for the whole table: exactly one, of family 0 and metric infinity (RFC 2453 section
/// 3.9.1).
fn asks_for_all(entries: &[Entry]) -> bool
    ensures { result ≡ asks_for_all entries.now }
{
    match entries {
        [only] => only.family == WHOLE_TABLE_FAMILY && only.metric == u32::from(INFINITY),
        _ => false,
    }
}

/// The metric of the route to this address and length, and infinity if there is none (RFC 2453 section 3.9.1).
fn metric_at(table: &Table, address: u32, len: Option<u8>) -> u8
    ensures { result ≡ metric_at table.now address len }
{
    match len {
        Some(len) if is_network(address, len) => match table.get(address, len) {
            Some(held) => held.metric,
            None => INFINITY,
        },
        _ => INFINITY,
    }
}

/// The entry with the table's metric, and all else as it was asked (RFC 2453 section 3.9.1). In this profile a mask
/// with a gap and an address with host bits have infinity.
fn answered_entry(table: &Table, entry: Entry) -> Entry
    ensures { result ≡ answered_entry table.now entry }
{
    let metric = metric_at(table, entry.address, mask_len(entry.mask));
    Entry {
        metric: u32::from(metric),
        ..entry
    }
}

/// The entries with the table's metrics.
fn answered_entries(
    alloc: Global,
    table: &Table,
    entries: &[Entry],
) -> Result<Vec<Entry>, AllocError>
    ensures { IfOk result (λ made. made.items ≡ map (answered_entry table.now) entries.now) }
{
    let mut made = Vec::with_capacity(alloc, entries.len())?;
    for entry in entries {
        made.push(answered_entry(table, *entry))?;
    }
    Ok(made)
}

/// Puts out what a request on a port is answered (RFC 2453 section 3.9.1).
pub fn answer_request(
    alloc: Global,
    table: &Table,
    port: u8,
    entries: &[Entry],
    out: &mut Outbox,
) -> Result<(), AllocError>
    requires { (1 ≤ length entries.now) × (length entries.now ≤ most_entries) }
    ensures { OnOk result (out.new ≡ out.old ++ request_answers table.now port entries.now) }
{
    // section 4.1; this profile has no authentication, and passes it over
    if is_authenticated(entries) {
        return Ok(());
    }
    // section 3.9.1: the whole table, as a regular update, with split horizon
    if asks_for_all(entries) {
        return put_update(alloc, port, table, false, out);
    }
    // section 3.9.1: entry by entry, without split horizon
    let message = Message {
        command: RESPONSE,
        entries: Entries::from_vec(answered_entries(alloc, table, entries)?),
    };
    put_message(alloc, port, &message, out)
}
