//! The RIP routing table (RFC 2453 sections 3.5 to 3.10): what each call does to it.

use crate::named::{address, byte, number, short, some_number};
use dn_guest::NoMemory;
use rip_table::{Held, Table};
use rip_wire::Entry;
use table_program::{Fields, Out};

/// The network of the lines that say no other: 10.9.0.0/16.
const ADDRESS: u32 = 0x0a09_0000;

/// Does what the word and the fields behind it say. `table` tells the routes, `update` the entries of an update.
pub(crate) fn turn(
    table: &mut Table,
    word: &[u8],
    fields: &mut Fields<'_>,
    out: &mut Out,
) -> Result<(), NoMemory> {
    match word {
        b"connect" => connect(table, fields),
        b"response" => response(table, fields),
        b"table" => show(table, out),
        b"update" => update(table, fields, out),
        _ => {
            change(table, word, fields);
            Ok(())
        }
    }
}

/// The changes that take no memory.
fn change(table: &mut Table, word: &[u8], fields: &mut Fields<'_>) {
    let now = number(fields, b"now", 50);
    match word {
        b"lose" => {
            let network = address(fields, b"address", ADDRESS);
            table.lose(network, byte(fields, b"length", 16), now);
        }
        b"down" => table.lose_port(byte(fields, b"port", 1), now),
        b"settle" => table.settle(),
        b"tick" => table.tick(fields.long()),
        _ => fields.refuse(),
    }
}

/// `connect`: an own network.
fn connect(table: &mut Table, fields: &mut Fields<'_>) -> Result<(), NoMemory> {
    let network = address(fields, b"address", ADDRESS);
    let length = byte(fields, b"length", 16);
    let metric = byte(fields, b"metric", 3);
    table.connect(network, length, metric, number(fields, b"now", 50))
}

/// `response`: an entry of a response that comes on a port of this cost.
fn response(table: &mut Table, fields: &mut Fields<'_>) -> Result<(), NoMemory> {
    let told = entry_of(fields);
    let port = byte(fields, b"port", 1);
    let cost = byte(fields, b"cost", 1);
    table.response(port, cost, &told, number(fields, b"now", 50))
}

/// The entry of the fields.
fn entry_of(fields: &mut Fields<'_>) -> Entry {
    Entry {
        family: short(fields, b"family", 2),
        tag: short(fields, b"tag", 8),
        address: address(fields, b"address", ADDRESS),
        mask: address(fields, b"mask", 0xffff_0000),
        hop: 0,
        metric: number(fields, b"metric", 1),
    }
}

/// `table`: the routes, how many own networks can be reached, and whether a route is marked as changed.
fn show(table: &Table, out: &mut Out) -> Result<(), NoMemory> {
    out.flag(table.is_empty(), "-> no routes\n");
    for ((network, len), held) in table.entries()?.as_slice() {
        out.address("-> ", *network);
        out.number("/", u64::from(*len));
        push_held(*held, out);
    }
    out.number("-> own ", table.own_count());
    out.text(if table.changed() {
        " changed\n"
    } else {
        " settled\n"
    });
    Ok(())
}

/// Appends a route.
fn push_held(held: Held, out: &mut Out) {
    out.number(" metric ", u64::from(held.metric));
    out.number(" tag ", u64::from(held.tag));
    match held.via {
        Some(port) => out.number(" port ", u64::from(port)),
        None => out.text(" own"),
    }
    out.number(" since ", u64::from(held.time));
    out.flag(held.changed, " changed");
    out.text("\n");
}

/// `update`: the entries of an update, to a port or to one that asks for the whole table.
fn update(table: &Table, fields: &mut Fields<'_>, out: &mut Out) -> Result<(), NoMemory> {
    let to = match some_number(fields, b"port", 255) {
        Some(port) => Some(port as u8),
        None => None,
    };
    let entries = table.reply(to, fields.has(b"changed"))?;
    out.flag(entries.is_empty(), "-> no entries\n");
    for entry in entries.as_slice() {
        push_entry(*entry, out);
    }
    Ok(())
}

/// Appends an entry.
fn push_entry(entry: Entry, out: &mut Out) {
    out.address("-> ", entry.address);
    out.address(" mask ", entry.mask);
    out.number(" metric ", u64::from(entry.metric));
    out.number(" tag ", u64::from(entry.tag));
    out.number(" family ", u64::from(entry.family));
    out.number(" hop ", u64::from(entry.hop));
    out.text("\n");
}
