//! Lines of prefixes.

ghost use Rattle.std.specs.Prelude.{◌≡◌, ◌*◌, ◌+◌, ◌^◌, IsTrue};
ghost use Rattle.dn_case.specs.Shapes.{Prefix as PrefixLine};
ghost use Rattle.dn_case.specs.Standings.{cause_at, address, net_fits, is_rip, is_flood, has_net, has_host_bits, taken};
ghost use Rattle.dn_case.specs.Takings.{Reads, IsFew};

use crate::cause::{Cause, LineError};
use crate::number::{between, narrow_u8, narrow_u16, narrow_u32, value};
use crate::place::Place;
use crate::shape::Net;
use crate::standing::Standing;
use dn_model::{Kind, Prefix, RouterDef};
use dn_net::is_network;
use dn_text::Number;

impl Standing {
    pub fn take_prefix(&mut self, name: &[u8], net: Net, cost: Number) -> Result<(), LineError>
        requires { IsFew self.old }
        ensures read { Reads result self.new (taken self.old (PrefixLine name.now net cost)) }
        ensures few { IsFew self.new }
    {
        if !(net_fits(net) && between(1, 65_535, cost)) {
            return Err(LineError::Bad(Cause::Range));
        }
        let Some(i) = self.routers.number_of(name) else {
            return Err(LineError::Bad(Cause::Name));
        };
        if let Some(cause) = cause_at(self.routers.router(i), net, cost) {
            return Err(LineError::Bad(cause));
        }
        let prefix = Prefix {
            address: address(net),
            len: narrow_u8(net.len),
            cost: narrow_u16(cost),
        };
        self.routers.push_prefix(i, prefix)?;
        self.place = Place::Prefix;
        Ok(())
    }
}

fn net_fits(net: Net) -> bool
    ensures { result ≡ net_fits net }
{
    (between(0, 255, net.a) && between(0, 255, net.b))
        && ((between(0, 255, net.c) && between(0, 255, net.d)) && between(0, 32, net.len))
}

/// The address of a net whose numbers fit.
#[tactic(auto, unfolding(crate::specs::Standings::address))]
fn address(net: Net) -> u32
    requires { IsTrue (net_fits net) }
    ensures { result ≡ address net }
{
    ((narrow_u32(net.a) * 256 + narrow_u32(net.b)) * 256 + narrow_u32(net.c)) * 256
        + narrow_u32(net.d)
}

fn is_rip(kind: Kind) -> bool
    ensures { result ≡ is_rip kind }
{
    match kind {
        Kind::Flood => false,
        Kind::Ospf => false,
        Kind::Rip => true,
    }
}

fn is_flood(kind: Kind) -> bool
    ensures { result ≡ is_flood kind }
{
    match kind {
        Kind::Flood => true,
        Kind::Ospf => false,
        Kind::Rip => false,
    }
}

fn has_net(net: Net, prefixes: &[Prefix]) -> bool
    requires { IsTrue (net_fits net) }
    ensures { result ≡ has_net net prefixes.now }
{
    let whole = address(net);
    let len = value(net.len);
    prefixes
        .iter()
        .any(|p| p.address == whole && u64::from(p.len) == len)
}

#[tactic(auto, unfolding(crate::specs::Standings::has_host_bits))]
fn has_host_bits(net: Net) -> bool
    requires { IsTrue (net_fits net) }
    ensures { result ≡ has_host_bits net }
{
    !is_network(address(net), narrow_u8(net.len))
}

/// The first cause of a prefix that depends on its router, where its numbers fit.
fn cause_at(router: &RouterDef, net: Net, cost: Number) -> Option<Cause>
    requires { IsTrue (net_fits net) }
    ensures { result ≡ cause_at router.now net cost }
{
    if is_rip(router.kind) && !between(1, 15, cost) {
        Some(Cause::Range)
    } else if has_net(net, router.prefixes.as_slice()) {
        Some(Cause::Twice)
    } else if is_flood(router.kind) {
        Some(Cause::Kind)
    } else if has_host_bits(net) {
        Some(Cause::Host)
    } else if router.prefixes.as_slice().len() >= 32 {
        Some(Cause::Many)
    } else {
        None
    }
}
