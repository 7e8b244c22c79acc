//! Writing rows that come in pieces.

ghost use Rattle.std.specs.Prelude.{◌≡◌, ◌≤◌, ◌++◌, OnOk, OnErr, IsErrOf};
ghost use Rattle.dn_io.specs.Streams.{Rose, behind, PutsFront, PutsOrKeeps};
ghost use Rattle.dn_trace.specs.Rows.{row_lines};
ghost use Rattle.dn_trace.specs.Writing.{opening_line, more_rows, counted};

use crate::ends::push_first_line;
use crate::rows::push_row;
use crate::write::{WriteError, put_text};
use dn_guest::{Bytes, NoMemory};
use dn_io::Sink;
use dn_model::{Header, RouterDef, Row};
use std::alloc::Global;
use std::marker::Model;

/// How many bytes are gathered before they are handed to the sink.
const ROOM: usize = 65_536;

/// Writes the rows of a trace as they come, with the line `trace` before the first one, and counts them.
/// Contracts see it as the count. After an error it is to be dropped.
#[derive(Drop)]
pub struct TraceWriter {
    text: Bytes,
    rows: u64,
}

impl Model for TraceWriter {
    ghost use Rattle.std.specs.Prelude.{ℕ};

    ghost Value = { ℕ };

    ghost view = { λ w. w.rows };
}

impl TraceWriter {
    /// A writer that has written nothing. It takes no memory.
    pub fn new(alloc: Global) -> TraceWriter
        ensures { result ≡ 0 }
    {
        TraceWriter {
            text: Bytes::new(alloc),
            rows: 0,
        }
    }

    /// How many rows were written.
    pub fn count(&self) -> u64
        ensures { result ≡ self.now }
    {
        self.rows
    }

    /// Writes further rows. At an error a front of their text was written, and the writer is to be
    /// dropped.
    #[tactic(auto, unfolding(crate::specs::Writing::more_rows))]
    pub fn rows<K: Sink>(
        &mut self,
        header: &Header,
        rows: &[Row],
        sink: &mut K,
    ) -> Result<(), WriteError>
        ensures all { OnOk result (K.holds sink.new ≡
            behind (K.holds sink.old) (more_rows header.now.routers self.old rows.now)) }
        ensures count { OnOk result (self.new ≡ counted self.old rows.now) }
        ensures front { PutsFront (K.holds sink.old) (K.holds sink.new)
            (more_rows header.now.routers self.old rows.now) }
        ensures fault { IsErrOf result WriteError.Fault → Rose (K.faults sink.old) (K.faults sink.new) }
        ensures later { K.faults sink.old ≤ K.faults sink.new }
    {
        self.text.clear();
        if push_opening(&mut self.text, self.rows, rows).is_err() {
            return Err(WriteError::NoMemory);
        }
        put_rows(&mut self.text, header.routers.as_slice(), rows, sink)?;
        self.rows = self.rows.saturating_add(rows.len() as u64);
        Ok(())
    }
}

/// The line `trace`, where these are the first rows.
#[tactic(auto, unfolding(crate::specs::Writing::opening_line))]
fn push_opening(text: &mut Bytes, before: u64, rows: &[Row]) -> Result<(), NoMemory>
    ensures { OnOk result (text.new ≡ text.old ++ opening_line before rows.now) }
{
    if before == 0 && !rows.is_empty() {
        push_first_line(text)?;
    }
    Ok(())
}

/// Writes what is gathered and then the rows.
pub(crate) fn put_rows<K: Sink>(
    text: &mut Bytes,
    routers: &[RouterDef],
    rows: &[Row],
    sink: &mut K,
) -> Result<(), WriteError>
    ensures all { OnOk result (K.holds sink.new ≡ behind (K.holds sink.old) (text.old ++
        row_lines routers.now rows.now)) }
    ensures front { PutsFront (K.holds sink.old) (K.holds sink.new) (text.old ++ row_lines routers.now rows.now) }
    ensures fault { IsErrOf result WriteError.Fault → Rose (K.faults sink.old) (K.faults sink.new) }
    ensures later { K.faults sink.old ≤ K.faults sink.new }
{
    for row in rows {
        put_if_full(text, sink)?;
        if push_row(text, routers, row).is_err() {
            return Err(WriteError::NoMemory);
        }
    }
    put_text(sink, text)
}

/// Writes what is gathered where that is much.
pub(crate) fn put_if_full<K: Sink>(text: &mut Bytes, sink: &mut K) -> Result<(), WriteError>
    ensures all { OnOk result (PutsOrKeeps (K.holds sink.old) (K.holds sink.new) text.new text.old) }
    ensures front { OnErr result (PutsFront (K.holds sink.old) (K.holds sink.new) text.old) }
    ensures fault { IsErrOf result WriteError.Fault → Rose (K.faults sink.old) (K.faults sink.new) }
    ensures later { K.faults sink.old ≤ K.faults sink.new }
{
    if text.len() >= ROOM {
        put_text(sink, text)?;
        text.clear();
    }
    Ok(())
}
