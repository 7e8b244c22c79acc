//! Bytes that are read and written again: OSPF packets, bodies of router-LSAs, RIP messages.

ghost use Rattle.ospf_wire.specs.Packets.{IsEncodable};
ghost use Rattle.rip_wire.specs.Messages.{IsEncodable as CanWrite};

use dn_guest::{Bytes, NoMemory};
use ospf_wire::{Packet, RouterLink, is_well_formed, router_links};
use rip_wire::Message;
use std::alloc::Global;
use table_program::{Fields, Out};

/// `packet`: an OSPF packet is read and written again. Its checksum is told if it isn't zero.
pub(crate) fn packet(
    alloc: Global,
    fields: &mut Fields<'_>,
    out: &mut Out,
) -> Result<(), NoMemory> {
    let came = fields.bytes(alloc)?;
    push_packet(alloc, came.as_slice(), out)
}

fn push_packet(alloc: Global, came: &[u8], out: &mut Out) -> Result<(), NoMemory> {
    match ospf_wire::decode(alloc, came)? {
        None => {
            out.text("-> no packet\n");
            Ok(())
        }
        Some(packet) => push_packet_again(alloc, &packet, ospf_wire::ip_sum(came), out),
    }
}

fn push_packet_again(
    alloc: Global,
    packet: &Packet,
    sum: u16,
    out: &mut Out,
) -> Result<(), NoMemory>
    requires { IsEncodable packet.now }
{
    let mut again = Bytes::new(alloc);
    ospf_wire::encode(alloc, packet, &mut again)?;
    out.hex("-> ", again.as_slice());
    out.text("\n");
    push_sum(sum, out);
    Ok(())
}

/// Appends the checksum of a packet if it isn't zero.
fn push_sum(sum: u16, out: &mut Out) {
    if sum != 0 {
        out.number("-> sum ", u64::from(sum));
        out.text("\n");
    }
}

/// `message`: a RIP message is read and written again.
pub(crate) fn message(
    alloc: Global,
    fields: &mut Fields<'_>,
    out: &mut Out,
) -> Result<(), NoMemory> {
    let came = fields.bytes(alloc)?;
    push_message(alloc, came.as_slice(), out)
}

fn push_message(alloc: Global, came: &[u8], out: &mut Out) -> Result<(), NoMemory> {
    match rip_wire::decode(alloc, came)? {
        None => {
            out.text("-> no message\n");
            Ok(())
        }
        Some(message) => push_message_again(alloc, &message, out),
    }
}

fn push_message_again(alloc: Global, message: &Message, out: &mut Out) -> Result<(), NoMemory>
    requires { CanWrite message.now }
{
    let mut again = Bytes::new(alloc);
    rip_wire::encode(message, &mut again)?;
    out.hex("-> ", again.as_slice());
    out.text("\n");
    Ok(())
}

/// `body`: the links of the body of a router-LSA.
pub(crate) fn body(alloc: Global, fields: &mut Fields<'_>, out: &mut Out) -> Result<(), NoMemory> {
    let came = fields.bytes(alloc)?;
    push_body(alloc, came.as_slice(), out)
}

fn push_body(alloc: Global, came: &[u8], out: &mut Out) -> Result<(), NoMemory> {
    let formed = is_well_formed(came);
    match router_links(alloc, came)? {
        None => out.text(if formed {
            "-> refused and formed\n"
        } else {
            "-> no body\n"
        }),
        Some(links) => {
            out.flag(!formed, "-> read and refused\n");
            push_links(links.as_slice(), out);
        }
    }
    Ok(())
}

/// Appends how many links there are, and each.
fn push_links(links: &[RouterLink], out: &mut Out) {
    out.number("-> links ", links.len() as u64);
    out.text("\n");
    for link in links {
        push_link(*link, out);
    }
}

fn push_link(link: RouterLink, out: &mut Out) {
    out.number("-> type ", u64::from(link.kind));
    out.hex(" id ", &link.id.to_be_bytes());
    out.hex(" data ", &link.data.to_be_bytes());
    out.number(" metric ", u64::from(link.metric));
    out.text("\n");
}
