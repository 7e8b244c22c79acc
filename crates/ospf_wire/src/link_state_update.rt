//! The body of a Link State Update (RFC 2328 appendix A.3.5).

ghost use Rattle.std.specs.Prelude.{◌≡◌, ◌<◌, ◌^◌, ◌++◌, All, IfOk, OnOk, length};
ghost use Rattle.ospf_wire.specs.Lsas.{lsas_bytes, update_bytes, FitsHeader};
ghost use Rattle.ospf_wire.specs.Reading.{lsas_at, update_at};

use crate::fields::{bytes_from, push_u32, u32_at};
use crate::lsa::{push_lsa, read_lsa};
use crate::{Lsa, Lsas};
use std::alloc::{AllocError, Global};

/// The LSAs that fill these bytes, if there are just so many. It stops at the first that isn't there,
/// whatever the count claims.
#[tactic(auto, unfolding(crate::specs::Reading::lsas_at))]
fn read_lsas(alloc: Global, count: u32, bytes: &[u8]) -> Result<Option<Lsas>, AllocError>
    ensures { IfOk result (λ found. found ≡ lsas_at count bytes.now) }
{
    let mut lsas = Vec::new(alloc);
    let mut rest = bytes;
    for place in 0..count {
        let Some(lsa) = read_lsa(alloc, rest)? else {
            return Ok(None);
        };
        rest = bytes_from(rest, usize::from(lsa.head.length));
        lsas.push(lsa)?;
    }
    if !rest.is_empty() {
        return Ok(None);
    }
    Ok(Some(Lsas::from_vec(lsas)))
}

/// The LSAs of the Update that these bytes are.
#[tactic(auto, unfolding(crate::specs::Reading::update_at))]
pub fn read_update(alloc: Global, body: &[u8]) -> Result<Option<Lsas>, AllocError>
    ensures { IfOk result (λ found. found ≡ update_at body.now) }
{
    if body.len() < 4 {
        return Ok(None);
    }
    read_lsas(alloc, u32_at(body, 0), bytes_from(body, 4))
}

/// Appends LSAs.
fn push_lsas(lsas: &[Lsa], out: &mut Vec<u8>) -> Result<(), AllocError>
    ensures bytes { OnOk result (out.new.items ≡ out.old.items ++ lsas_bytes lsas.now) }
    ensures fits { OnOk result (All (λ l. FitsHeader l.head) lsas.now) }
{
    for lsa in lsas {
        push_lsa(lsa, out)?;
    }
    Ok(())
}

/// Appends the bytes of an Update with these LSAs.
#[tactic(auto, unfolding(crate::specs::Lsas::update_bytes))]
pub fn push_update(lsas: &[Lsa], out: &mut Vec<u8>) -> Result<(), AllocError>
    requires { length lsas.now < 2 ^ 32 }
    ensures bytes { OnOk result (out.new.items ≡ out.old.items ++ update_bytes lsas.now) }
    ensures fits { OnOk result (All (λ l. FitsHeader l.head) lsas.now) }
{
    push_u32(lsas.len() as u32, out)?;
    push_lsas(lsas, out)
}
