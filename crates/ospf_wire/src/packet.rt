//! Whole packets (RFC 2328 appendix A.3.1).

ghost use Rattle.std.specs.Prelude.{◌≡◌, ◌+◌, ◌≤◌, ◌<◌, ◌^◌, ◌++◌, IsTrue, IfOk, IfSome, IfNone, OnOk, length};
ghost use Rattle.ospf_wire.specs.declared.packet.Packet.{Packet};
ghost use Rattle.ospf_wire.specs.Packets.{body_bytes, kind_of, header_text, summed_header, packet_bytes, HasFewLsas, IsEncodable, IsPacket, FitsBody};
ghost use Rattle.dn_guest.specs.KeepsFront.{KeepsFront};
ghost use Rattle.ospf_wire.specs.Reading.{has_header, body_at, packet_at};

use crate::acknowledgement::{push_headers, read_headers};
use crate::fields::{bytes_from, u8_at, u16_at, u32_at};
use crate::hello::{Hello, push_hello, read_hello};
use crate::link_state_update::{push_update, read_update};
use crate::packet_sum::{checksum, ip_sum};
use crate::{LsaHeaders, Lsas};
use byteorder::{BigEndian, ByteOrder};
use dn_guest::Bytes;
use std::alloc::{AllocError, Global};

/// What a packet carries, by its type. Types 2 and 3, the exchange of databases, have no decoding yet.
#[derive(Drop)]
pub enum Body {
    /// Type 1, Hello.
    Hello(Hello),
    /// Type 4, Link State Update.
    Update(Lsas),
    /// Type 5, Link State Acknowledgement.
    Ack(LsaHeaders),
}

/// A packet without what is the same in all: version 2, null authentication, the length and the sum.
#[derive(Drop)]
pub struct Packet {
    /// The router id of the sender.
    pub router: u32,
    /// The area id.
    pub area: u32,
    pub body: Body,
}

/// Whether the header is one of OSPFv2 with null authentication, the input's length and the right sum.
#[tactic(auto, unfolding(crate::specs::Reading::has_header))]
fn has_header(bytes: &[u8]) -> bool
    ensures test { result ≡ has_header bytes.now }
    ensures long { IsTrue result → 24 ≤ length bytes.now }
{
    // RFC 2328 section 8.2 and appendix A.3.1; this profile: null authentication alone, and no bytes
    // behind the packet's length.
    bytes.len() >= 24
        && u8_at(bytes, 0) == 2
        && usize::from(u16_at(bytes, 2)) == bytes.len()
        && u16_at(bytes, 14) == 0
        && ip_sum(bytes) == 0
}

/// The body of a packet of this type.
#[tactic(auto, unfolding(crate::specs::Reading::body_at))]
fn read_body(alloc: Global, kind: u8, bytes: &[u8]) -> Result<Option<Body>, AllocError>
    ensures { IfOk result (λ found. found ≡ body_at kind bytes.now) }
{
    // RFC 2328 appendix A.3.1, the types. This profile: 2 and 3 are no packets.
    match kind {
        1 => Ok(read_hello(alloc, bytes)?.map(|hello| Body::Hello(hello))),
        4 => Ok(read_update(alloc, bytes)?.map(|lsas| Body::Update(lsas))),
        5 => Ok(read_headers(alloc, bytes)?.map(|headers| Body::Ack(headers))),
        _ => Ok(None),
    }
}

/// The packet, if the bytes are one.
#[tactic(auto, unfolding(crate::specs::Reading::packet_at))]
fn read_packet(alloc: Global, bytes: &[u8]) -> Result<Option<Packet>, AllocError>
    ensures { IfOk result (λ found. found ≡ packet_at bytes.now) }
{
    if !has_header(bytes) {
        return Ok(None);
    }
    let Some(body) = read_body(alloc, u8_at(bytes, 1), bytes_from(bytes, 24))? else {
        return Ok(None);
    };
    Ok(Some(Packet {
        router: u32_at(bytes, 4),
        area: u32_at(bytes, 8),
        body,
    }))
}

/// The packet that these bytes are, the whole of them. `None` comes exactly where they are none.
///
/// The authentication's bytes are not looked at. It takes memory for what the packet holds, and none in
/// proportion to a number that the packet only claims.
pub fn decode(alloc: Global, bytes: &[u8]) -> Result<Option<Packet>, AllocError>
    ensures exact { IfOk result (λ found. found ≡ packet_at bytes.now) }
    ensures found { IfOk result (λ found. IfSome found (λ p. IsPacket bytes.now p)) }
    ensures none { IfOk result (λ found. IfNone found ((p : Packet) → ¬ IsPacket bytes.now p)) }
    ensures read { IfOk result (λ found. (p : Packet) → IsPacket bytes.now p → found ≡ Some p) }
    ensures encodable { IfOk result (λ found. IfSome found IsEncodable) }
{
    read_packet(alloc, bytes)
}

/// The type of a packet with this body.
fn kind_of(body: &Body) -> u8
    ensures { result ≡ kind_of body.now }
{
    match body {
        Body::Hello(_) => 1,
        Body::Update(_) => 4,
        Body::Ack(_) => 5,
    }
}

/// Appends the bytes of a body.
fn push_body(body: &Body, out: &mut Vec<u8>) -> Result<(), AllocError>
    requires { HasFewLsas body.now }
    ensures bytes { OnOk result (out.new.items ≡ out.old.items ++ body_bytes body.now) }
    ensures fits { OnOk result (FitsBody body.now) }
{
    match body {
        Body::Hello(hello) => push_hello(hello, out),
        Body::Update(lsas) => push_update(lsas.as_slice(), out),
        Body::Ack(headers) => push_headers(headers.as_slice(), out),
    }
}

/// The header of a packet with this length and checksum.
#[tactic(auto, unfolding(crate::specs::Packets::header_text, crate::specs::Fields::number))]
fn header_text(packet: &Packet, length: u16, sum: u16) -> [u8; 24]
    ensures bytes { result ≡ header_text packet.now length sum }
    ensures router_fits { packet.now.router < 2 ^ 32 }
    ensures area_fits { packet.now.area < 2 ^ 32 }
{
    let (router, area) = (packet.router, packet.area);
    let mut bytes = [0; 24];
    bytes[0] = 2;
    bytes[1] = kind_of(&packet.body);
    BigEndian::write_u16(&mut bytes[2..], length);
    BigEndian::write_u32(&mut bytes[4..], router);
    BigEndian::write_u32(&mut bytes[8..], area);
    BigEndian::write_u16(&mut bytes[12..], sum);
    bytes
}

/// The header of a packet with these bytes as its body.
fn summed_header(packet: &Packet, body: &[u8]) -> [u8; 24]
    requires { 24 + length body.now ≤ 65535 }
    ensures bytes { result ≡ summed_header packet.now body.now }
    ensures router_fits { packet.now.router < 2 ^ 32 }
    ensures area_fits { packet.now.area < 2 ^ 32 }
{
    let length = (24 + body.len()) as u16;
    let unsummed = header_text(packet, length, 0);
    let sum = checksum(&unsummed[..16], body);
    header_text(packet, length, sum)
}

/// Appends the bytes of a packet: zeros as authentication, and the complement of the sum as checksum.
/// After `NoMemory` what was in `out` before still stands at its front.
pub fn encode(alloc: Global, packet: &Packet, out: &mut Bytes) -> Result<(), AllocError>
    requires { IsEncodable packet.now }
    ensures ok { OnOk result (out.new ≡ out.old ++ packet_bytes packet.now) }
    ensures back { OnOk result (IsPacket (packet_bytes packet.now) packet.now) }
    ensures kept { KeepsFront out.old out.new }
{
    let mut body = Vec::new(alloc);
    push_body(&packet.body, &mut body)?;
    out.append(&summed_header(packet, &body))?;
    out.append(&body)
}
