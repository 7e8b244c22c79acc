//! The last rows.

ghost use Rattle.std.specs.Prelude.{◌≡◌, [], ◌∷◌, ◌++◌, IfOk, OnOk};
ghost use Rattle.circular_buffer.specs.Buffer.{keep_last};
ghost use Rattle.dn_trace.specs.Rows.{row_lines};

use circular_buffer::HeapCircularBuffer;
use dn_guest::{Bytes, NoMemory};
use dn_model::{RouterDef, Row};
use dn_trace::push_row;
use std::alloc::Global;
use std::marker::Model;

/// So many rows are kept.
const MOST_KEPT: usize = 16;

/// The last rows that were handled, at most 16, the oldest first.
#[derive(Drop)]
pub(crate) struct Latest {
    rows: HeapCircularBuffer<Row>,
}

impl Model for Latest {
    ghost use Rattle.std.specs.Prelude.{◌≡◌, List};
    ghost use Rattle.dn_model.specs.declared.event.Event.{Event};

    ghost Value = { List Event };

    ghost view = { λ l. l.rows.items };

    ghost invariant = { λ l. l.rows.capacity ≡ 16 };
}

impl Latest {
    /// No rows.
    pub(crate) fn new(alloc: Global) -> Result<Latest, NoMemory>
        ensures { IfOk result (λ made. made ≡ []) }
    {
        Ok(Latest {
            rows: HeapCircularBuffer::with_capacity(alloc, MOST_KEPT)?,
        })
    }

    /// A further row.
    pub(crate) fn note(&mut self, row: Row)
        ensures { self.new ≡ keep_last 16 (self.old ++ row ∷ []) }
    {
        self.rows.push_back(row);
    }

    /// Appends the lines of the rows.
    pub(crate) fn push_lines(&self, routers: &[RouterDef], out: &mut Bytes) -> Result<(), NoMemory>
        ensures { OnOk result (out.new ≡ out.old ++ row_lines routers.now self.now) }
    {
        let (first, second) = self.rows.as_slices();
        push_rows(first, routers, out)?;
        push_rows(second, routers, out)
    }
}

/// Appends the lines of rows.
pub(crate) fn push_rows(
    rows: &[Row],
    routers: &[RouterDef],
    out: &mut Bytes,
) -> Result<(), NoMemory>
    ensures { OnOk result (out.new ≡ out.old ++ row_lines routers.now rows.now) }
{
    for row in rows {
        push_row(out, routers, row)?;
    }
    Ok(())
}
