//! Commands, which set and take away networks of the router's own. They are this project's own.

ghost use Rattle.std.specs.Prelude.{◌≡◌, OnOk};
ghost use Rattle.ospf_router.specs.Commands.{commanded, is_removal, is_setting};

use crate::prefixes::Prefixes;
use byteorder::{BigEndian, ByteOrder};
use std::alloc::AllocError;

/// Whether the body sets a network: 01, the address, the length, and the cost in two bytes.
fn is_setting(body: &[u8]) -> bool
    ensures { result ≡ is_setting body.now }
{
    body.len() == 8 && body[0] == 1
}

/// Whether the body takes a network away: 02, the address and the length.
fn is_removal(body: &[u8]) -> bool
    ensures { result ≡ is_removal body.now }
{
    body.len() == 6 && body[0] == 2
}

/// Does what a command says. A body of another form does nothing.
#[tactic(auto, unfolding(crate::specs::Commands::commanded))]
pub fn command(prefixes: &mut Prefixes, body: &[u8]) -> Result<(), AllocError>
    ensures { OnOk result (prefixes.new ≡ commanded body.now prefixes.old) }
{
    if is_setting(body) {
        let address = BigEndian::read_u32(&body[1..]);
        let cost = BigEndian::read_u16(&body[6..]);
        return prefixes.set(address, body[5], cost);
    }
    if is_removal(body) {
        prefixes.remove(BigEndian::read_u32(&body[1..]), body[5]);
    }
    Ok(())
}
