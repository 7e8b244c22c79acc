//! Aging (RFC 2328 section 14).

ghost use Rattle.std.specs.Prelude.{◌≡◌, IfOk};
ghost use Rattle.ospf_lsdb.specs.Database.{aged, reaching_max_age, max_age_lsas};

use crate::{Kept, LsaKey};
use ospf_wire::MAX_AGE;
use std::alloc::{AllocError, Global};
use std::collections::BTreeMap;

/// The LSAs that reach MaxAge at this tick, in ascending order (RFC 2328 section 14).
pub fn reaching_max_age(
    alloc: Global,
    kept: &BTreeMap<LsaKey, Kept>,
    now: u32,
) -> Result<Vec<LsaKey>, AllocError>
    ensures { IfOk result (λ keys. keys.items ≡ reaching_max_age now kept.now.entries) }
{
    let mut keys = Vec::new(alloc);
    for (key, one) in kept {
        if one.reaches_max_age(now) {
            keys.push(*key)?;
        }
    }
    Ok(keys)
}

/// The LSAs of MaxAge, in ascending order (RFC 2328 section 14).
pub fn max_age_lsas(
    alloc: Global,
    kept: &BTreeMap<LsaKey, Kept>,
    now: u32,
) -> Result<Vec<LsaKey>, AllocError>
    ensures { IfOk result (λ keys. keys.items ≡ max_age_lsas now kept.now.entries) }
{
    let mut keys = Vec::new(alloc);
    for (key, one) in kept {
        if one.age(now) == MAX_AGE {
            keys.push(*key)?;
        }
    }
    Ok(keys)
}

/// Sets the LSAs that reach MaxAge at this tick to that age (RFC 2328 section 14).
pub fn age_lsas(kept: &mut BTreeMap<LsaKey, Kept>, now: u32)
    ensures { kept.new.entries ≡ aged now kept.old.entries }
{
    kept.retain(|_key, one| {
        if one.reaches_max_age(now) {
            one.set_max_age(now);
        }
        true
    });
}
