//! The entries of a message.

ghost use Rattle.std.specs.Prelude.{◌≡◌, ◌*◌, ◌++◌, length, All, IfOk, OnOk};
ghost use Rattle.dn_guest.specs.KeepsFront.{KeepsFront};
ghost use Rattle.rip_wire.specs.Entries.{entries_bytes, FitsEntry};
ghost use Rattle.rip_wire.specs.Reading.{entries_at};

use crate::Entry;
use crate::entry::{bytes_from, entry_bytes, read_entry};
use dn_guest::Bytes;
use std::alloc::{AllocError, Global};
use std::marker::Model;

/// Entries, in order.
#[derive(Drop)]
pub struct Entries {
    items: Vec<Entry>,
}

impl Model for Entries {
    ghost use Rattle.std.specs.Prelude.{List};
    ghost use Rattle.rip_wire.specs.declared.entry.Entry.{Entry};

    ghost Value = { List Entry };

    ghost view = { λ l. l.items.items };
}

impl Entries {
    /// The same entries, with no memory taken.
    pub fn from_vec(items: Vec<Entry>) -> Entries
        ensures { result ≡ items.items }
    {
        Entries { items }
    }

    /// The entries.
    pub fn as_slice(&self) -> &[Entry]
        ensures { result.now ≡ self.now }
    {
        self.items.as_slice()
    }

    /// The same entries, with no memory taken.
    pub fn into_vec(self) -> Vec<Entry>
        ensures { result.items ≡ self }
    {
        self.items
    }
}

/// The first so many entries of these bytes.
pub fn read_entries(alloc: Global, count: usize, bytes: &[u8]) -> Result<Entries, AllocError>
    requires { length bytes.now ≡ 20 * count }
    ensures { IfOk result (λ found. found ≡ entries_at count bytes.now) }
{
    let mut entries = Vec::with_capacity(alloc, count)?;
    for place in 0..count {
        entries.push(read_entry(bytes_from(bytes, 20 * place)))?;
    }
    Ok(Entries::from_vec(entries))
}

/// Appends the bytes of entries. After `NoMemory` what was in `out` before is still at its front.
pub fn push_entries(entries: &[Entry], out: &mut Bytes) -> Result<(), AllocError>
    ensures bytes { OnOk result (out.new ≡ out.old ++ entries_bytes entries.now) }
    ensures fits { OnOk result (All FitsEntry entries.now) }
    ensures kept { KeepsFront out.old out.new }
{
    for entry in entries {
        out.append(&entry_bytes(*entry))?;
    }
    Ok(())
}
