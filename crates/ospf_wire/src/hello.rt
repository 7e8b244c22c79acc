//! The body of a Hello (RFC 2328 appendix A.3.2).

ghost use Rattle.std.specs.Prelude.{◌≡◌, ◌≤◌, ◌++◌, All, IfOk, OnOk, length};
ghost use Rattle.ospf_wire.specs.Fields.{field, number};
ghost use Rattle.ospf_wire.specs.Hellos.{fixed_bytes, hello_bytes, ids_bytes, FitsHello, FitsWord};
ghost use Rattle.ospf_wire.specs.Reading.{all_pieces, hello_at};

use crate::Ids;
use crate::fields::{bytes_from, push_u32, u8_at, u16_at, u32_at};
use byteorder::{BigEndian, ByteOrder};
use std::alloc::{AllocError, Global};

/// The body of a Hello.
#[derive(Drop)]
pub struct Hello {
    /// The network mask.
    pub mask: u32,
    /// Seconds between two Hellos.
    pub interval: u16,
    pub options: u8,
    pub priority: u8,
    /// Seconds until a silent neighbour is down.
    pub dead: u32,
    /// The designated router.
    pub dr: u32,
    /// The backup designated router.
    pub bdr: u32,
    /// The ids of the routers that were heard lately.
    pub neighbours: Ids,
}

/// The ids that fill these bytes, if their number is a multiple of four.
#[tactic(auto, unfolding(crate::specs::Reading::all_pieces))]
fn read_ids(alloc: Global, bytes: &[u8]) -> Result<Option<Ids>, AllocError>
    ensures { IfOk result (λ found. found ≡ all_pieces 4 (field 0 4) bytes.now) }
{
    if bytes.len() % 4 != 0 {
        return Ok(None);
    }
    let count = bytes.len() / 4;
    let mut ids = Vec::with_capacity(alloc, count)?;
    for place in 0..count {
        ids.push(u32_at(bytes_from(bytes, 4 * place), 0))?;
    }
    Ok(Some(Ids::from_vec(ids)))
}

/// The Hello that these bytes are.
#[tactic(auto, unfolding(crate::specs::Reading::hello_at))]
pub fn read_hello(alloc: Global, body: &[u8]) -> Result<Option<Hello>, AllocError>
    ensures { IfOk result (λ found. found ≡ hello_at body.now) }
{
    // RFC 2328 appendix A.3.2: 20 bytes, and behind them 4 for each neighbour.
    if body.len() < 20 {
        return Ok(None);
    }
    let Some(neighbours) = read_ids(alloc, bytes_from(body, 20))? else {
        return Ok(None);
    };
    Ok(Some(Hello {
        mask: u32_at(body, 0),
        interval: u16_at(body, 4),
        options: u8_at(body, 6),
        priority: u8_at(body, 7),
        dead: u32_at(body, 8),
        dr: u32_at(body, 12),
        bdr: u32_at(body, 16),
        neighbours,
    }))
}

/// The bytes before the neighbours.
#[tactic(auto, unfolding(crate::specs::Hellos::fixed_bytes, crate::specs::Fields::number))]
fn fixed_bytes(hello: &Hello) -> [u8; 20]
    ensures bytes { result ≡ fixed_bytes hello.now }
    ensures fits { FitsHello hello.now }
{
    let (mask, interval, dead) = (hello.mask, hello.interval, hello.dead);
    let (options, priority) = (hello.options, hello.priority);
    let (dr, bdr) = (hello.dr, hello.bdr);
    let mut bytes = [0; 20];
    BigEndian::write_u32(&mut bytes, mask);
    BigEndian::write_u16(&mut bytes[4..], interval);
    bytes[6] = options;
    bytes[7] = priority;
    BigEndian::write_u32(&mut bytes[8..], dead);
    BigEndian::write_u32(&mut bytes[12..], dr);
    BigEndian::write_u32(&mut bytes[16..], bdr);
    bytes
}

/// Appends ids.
fn push_ids(ids: &[u32], out: &mut Vec<u8>) -> Result<(), AllocError>
    ensures bytes { OnOk result (out.new.items ≡ out.old.items ++ ids_bytes ids.now) }
    ensures fits { All FitsWord ids.now }
{
    for id in ids {
        push_u32(*id, out)?;
    }
    Ok(())
}

/// Appends the bytes of a Hello.
#[tactic(auto, unfolding(crate::specs::Hellos::hello_bytes))]
pub fn push_hello(hello: &Hello, out: &mut Vec<u8>) -> Result<(), AllocError>
    ensures bytes { OnOk result (out.new.items ≡ out.old.items ++ hello_bytes hello.now) }
    ensures fits { OnOk result (FitsHello hello.now) }
    ensures ids_fit { OnOk result (All FitsWord hello.now.neighbours) }
{
    out.extend_from_slice(&fixed_bytes(hello))?;
    push_ids(hello.neighbours.as_slice(), out)
}
