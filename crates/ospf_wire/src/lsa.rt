//! Link state advertisements (RFC 2328 section 12.1 and appendix A.4).

ghost use Rattle.std.specs.Prelude.{◌≡◌, ◌≤◌, ◌++◌, length, IfOk, IfSome, OnOk};
ghost use Rattle.ospf_wire.specs.Lsas.{header_of, header_bytes, lsa_bytes, FitsHeader};
ghost use Rattle.ospf_wire.specs.Reading.{lsa_at};

use crate::LsaBody;
use crate::fields::{u8_at, u16_at, u32_at};
use byteorder::{BigEndian, ByteOrder};
use std::alloc::{AllocError, Global};

/// The header of an LSA, 20 bytes in a packet (RFC 2328 appendix A.4.1).
#[derive(Clone, Copy, Debug, PartialEq, Eq)]
pub struct LsaHeader {
    /// The age in seconds.
    pub age: u16,
    pub options: u8,
    /// The LS type; 1 is a router-LSA.
    pub kind: u8,
    /// The link state id.
    pub id: u32,
    /// The advertising router.
    pub router: u32,
    /// The sequence number, a signed number in two's complement.
    pub seq: u32,
    /// The LS checksum.
    pub sum: u16,
    /// How many bytes the LSA has, its header with them.
    pub length: u16,
}

/// A whole LSA: its header and the bytes behind it, which its copies share.
#[derive(Drop, PartialEq, Eq)]
pub struct Lsa {
    pub head: LsaHeader,
    pub body: LsaBody,
}

impl Clone for Lsa {
    ghost is_clone = { λ one other. other ≡ one };

    fn clone(&self) -> Result<Lsa, AllocError> {
        Ok(Lsa {
            head: self.head,
            body: self.body.clone()?,
        })
    }
}

/// The header that stands at the front of these bytes.
#[tactic(auto, unfolding(crate::specs::Lsas::header_of))]
pub fn read_header(bytes: &[u8]) -> LsaHeader
    requires { 20 ≤ length bytes.now }
    ensures { result ≡ header_of bytes.now }
{
    LsaHeader {
        age: u16_at(bytes, 0),
        options: u8_at(bytes, 2),
        kind: u8_at(bytes, 3),
        id: u32_at(bytes, 4),
        router: u32_at(bytes, 8),
        seq: u32_at(bytes, 12),
        sum: u16_at(bytes, 16),
        length: u16_at(bytes, 18),
    }
}

/// The 20 bytes of a header.
#[tactic(auto, unfolding(crate::specs::Lsas::header_bytes, crate::specs::Fields::number))]
pub fn header_bytes(head: LsaHeader) -> [u8; 20]
    ensures bytes { result ≡ header_bytes head }
    ensures fits { FitsHeader head }
{
    let mut bytes = [0; 20];
    BigEndian::write_u16(&mut bytes, head.age);
    bytes[2] = head.options;
    bytes[3] = head.kind;
    BigEndian::write_u32(&mut bytes[4..], head.id);
    BigEndian::write_u32(&mut bytes[8..], head.router);
    BigEndian::write_u32(&mut bytes[12..], head.seq);
    BigEndian::write_u16(&mut bytes[16..], head.sum);
    BigEndian::write_u16(&mut bytes[18..], head.length);
    bytes
}

/// The LSA that stands at the front of these bytes, if its length is 20 or more and fits.
#[tactic(auto, unfolding(crate::specs::Reading::lsa_at, crate::specs::Lsas::header_of))]
pub fn read_lsa(alloc: Global, bytes: &[u8]) -> Result<Option<Lsa>, AllocError>
    ensures found { IfOk result (λ found. found ≡ lsa_at bytes.now) }
    ensures fits { IfOk result (λ found. IfSome found (λ l. l.head.length ≤ length bytes.now)) }
{
    if bytes.len() < 20 {
        return Ok(None);
    }
    let head = read_header(bytes);
    let length = usize::from(head.length);
    if length < 20 || bytes.len() < length {
        return Ok(None);
    }
    let body = LsaBody::from_slice(alloc, &bytes[20..length])?;
    Ok(Some(Lsa { head, body }))
}

/// Appends the LSA's bytes.
#[tactic(auto, unfolding(crate::specs::Lsas::lsa_bytes))]
pub fn push_lsa(lsa: &Lsa, out: &mut Vec<u8>) -> Result<(), AllocError>
    ensures bytes { OnOk result (out.new.items ≡ out.old.items ++ lsa_bytes lsa.now) }
    ensures fits { OnOk result (FitsHeader lsa.now.head) }
{
    out.extend_from_slice(&header_bytes(lsa.head))?;
    out.extend_from_slice(lsa.body.as_slice())?;
    Ok(())
}
