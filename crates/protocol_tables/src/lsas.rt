//! LSAs that a line describes, and the text of a database and of retransmission lists.

ghost use Rattle.std.specs.Prelude.{◌≡◌, ◌+◌, ◌≤◌, IfOk, length};

use crate::named::{byte, bytes, hex, number, short};
use dn_guest::{Bytes, NoMemory};
use ospf_lsdb::{Kept, LsaKey};
use ospf_wire::{INITIAL_SEQUENCE_NUMBER, Lsa, LsaBody, LsaHeader, fletcher_set};
use std::alloc::Global;
use table_program::{Fields, Out};

/// The LSA of the fields: type, link state id and advertising router (1, 5 and 5 if nothing is said), age,
/// sequence number, body, and the checksum if it is said, else the right one.
pub(crate) fn lsa_of(alloc: Global, fields: &mut Fields<'_>) -> Result<Lsa, NoMemory>
    ensures { IfOk result (λ lsa. lsa.head.length ≡ 20 + length lsa.body) }
{
    let body = body_of(alloc, fields)?;
    let head = header_of(fields, 20 + body.len() as u16);
    let mut lsa = Lsa {
        head,
        body: LsaBody::new(body)?,
    };
    fletcher_set(&mut lsa);
    if let Some(sum) = fields.behind(b"sum") {
        lsa.head.sum = fields.hex_of(sum, 0xffff) as u16;
    }
    Ok(lsa)
}

/// The body of an LSA, at most 1,000 bytes; four zeros if it isn't said.
fn body_of(alloc: Global, fields: &mut Fields<'_>) -> Result<Bytes, NoMemory>
    ensures { IfOk result (λ body. length body ≤ 1000) }
{
    let body = bytes(alloc, fields, b"body", &[0, 0, 0, 0])?;
    if body.len() > 1_000 {
        fields.refuse();
        return Ok(Bytes::new(alloc));
    }
    Ok(body)
}

/// The header of an LSA of so many bytes; its checksum is 0.
fn header_of(fields: &mut Fields<'_>, length: u16) -> LsaHeader
    ensures { result.length ≡ length }
{
    LsaHeader {
        age: short(fields, b"age", 0),
        options: 2,
        kind: byte(fields, b"type", 1),
        id: number(fields, b"id", 5),
        router: number(fields, b"adv", 5),
        seq: hex(fields, b"seq", INITIAL_SEQUENCE_NUMBER),
        sum: 0,
        length,
    }
}

/// Appends an LSA of the database.
pub(crate) fn push_kept(key: &LsaKey, kept: &Kept, out: &mut Out) {
    push_key("-> lsa ", *key, out);
    out.number(" age ", u64::from(kept.lsa.head.age));
    out.hex(" seq ", &kept.lsa.head.seq.to_be_bytes());
    out.number(" installed ", u64::from(kept.installed));
    out.flag(kept.flooded, " flooded");
    if let Some(sent) = kept.sent {
        out.number(" sent ", u64::from(sent));
    }
    out.flag(kept.foreign, " foreign");
    out.text("\n");
}

/// Appends the text, and the name of an LSA: type, link state id and advertising router.
pub(crate) fn push_key(text: &str, key: LsaKey, out: &mut Out) {
    out.number(text, u64::from(key.kind));
    out.number("/", u64::from(key.id));
    out.number("/", u64::from(key.router));
}
