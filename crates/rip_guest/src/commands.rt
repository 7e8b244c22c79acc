//! Commands, which set and withdraw networks of the router's own. They are this project's own.

ghost use Rattle.std.specs.Prelude.{◌≡◌, OnOk};
ghost use Rattle.rip_guest.specs.Commands.{commanded, has_room_for_own, is_setting, is_withdrawal, set, withdraw};

use byteorder::{BigEndian, ByteOrder};
use dn_net::is_network;
use rip_table::Table;
use rip_wire::{GREATEST_OWN_METRIC, MOST_OWN_NETWORKS};
use std::alloc::AllocError;

/// Whether the network is own, or one more own network may come.
fn has_room_for_own(table: &Table, address: u32, len: u8) -> bool
    ensures { result ≡ has_room_for_own table.now address len }
{
    let is_own = match table.get(address, len) {
        Some(held) => held.is_current(),
        None => false,
    };
    is_own || table.own_count() < MOST_OWN_NETWORKS
}

/// Sets a network to a metric of 1 to 15.
fn set(table: &mut Table, address: u32, len: u8, metric: u16, now: u32) -> Result<(), AllocError>
    ensures { OnOk result (table.new ≡ set table.old address len metric now) }
{
    let is_valid = is_network(address, len) && 1 <= metric && metric <= GREATEST_OWN_METRIC;
    if is_valid && has_room_for_own(table, address, len) {
        table.connect(address, len, metric as u8, now)?;
    }
    Ok(())
}

/// Withdraws a network.
fn withdraw(table: &mut Table, address: u32, len: u8, now: u32)
    ensures { table.new ≡ withdraw table.old address len now }
{
    if is_network(address, len) {
        table.lose(address, len, now);
    }
}

/// Whether the body sets a network: 01, the address, the length, and the metric in two bytes.
fn is_setting(body: &[u8]) -> bool
    ensures { result ≡ is_setting body.now }
{
    body.len() == 8 && body[0] == 1
}

/// Whether the body withdraws a network: 02, the address and the length.
fn is_withdrawal(body: &[u8]) -> bool
    ensures { result ≡ is_withdrawal body.now }
{
    body.len() == 6 && body[0] == 2
}

/// Does what a command says. A body of another form does nothing.
#[tactic(auto, unfolding(crate::specs::Commands::commanded))]
pub fn command(table: &mut Table, now: u32, body: &[u8]) -> Result<(), AllocError>
    ensures { OnOk result (table.new ≡ commanded now body.now table.old) }
{
    if is_setting(body) {
        let address = BigEndian::read_u32(&body[1..]);
        let metric = BigEndian::read_u16(&body[6..]);
        return set(table, address, body[5], metric, now);
    }
    if is_withdrawal(body) {
        withdraw(table, BigEndian::read_u32(&body[1..]), body[5], now);
    }
    Ok(())
}
