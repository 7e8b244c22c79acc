//! What the programs that run cases have in common.

ghost use Rattle.std.specs.Prelude.{◌≡◌, length, IfOk};

use crate::out::Out;
use dn_guest::{Flood, NoMemory};
use dn_model::Key;
use std::alloc::Global;

/// So many flooding guests that have seen nothing.
pub fn flooding_guests(alloc: Global, count: usize) -> Result<Vec<Flood>, NoMemory>
    ensures { IfOk result (λ made. length made.items ≡ count) }
{
    let mut made = Vec::new(alloc);
    for _guest in 0..count {
        made.push(Flood::new(alloc))?;
    }
    Ok(made)
}

/// Appends a word and a key: GROUP SUM CLASS TIE ORIGIN SEQ.
pub fn push_key(word: &str, key: &Key, out: &mut Out) {
    out.number(word, u64::from(key.group));
    out.number(" ", u64::from(key.sum));
    out.text(match key.class {
        0 => " t",
        1 => " x",
        _ => " m",
    });
    out.number(" ", key.tie);
    out.number(" ", u64::from(key.origin));
    out.number(" ", key.seq);
}
