//! Writing rows and states to a sink, and the trace of rows that are there.

ghost use Rattle.std.specs.Prelude.{◌≡◌, ◌≤◌, ◌++◌, codes, OnOk, IfErr, IsErrOf};
ghost use Rattle.dn_io.specs.Streams.{Rose, behind, PutsFront};
ghost use Rattle.dn_trace.specs.Rows.{row_line, row_lines, state_line};
ghost use Rattle.dn_trace.specs.Trace.{shown_text};

use crate::ends::push_first_line;
use crate::rows::{push_row, push_state};
use crate::writer::put_rows;
use dn_guest::{Bytes, Guest, Node};
use dn_io::{Sink, WriteFault, put_all};
use dn_model::{Header, Row};
use std::alloc::Global;
use thiserror::Error;

/// Why writing stopped.
#[derive(Clone, Copy, Debug, PartialEq, Eq, Error)]
pub enum WriteError {
    /// The sink failed.
    #[error("the sink failed")]
    Fault,
    /// There was no memory for the text.
    #[error("out of memory")]
    NoMemory,
}

/// Writes a text; at an error a front of it was written. It takes no memory.
pub fn put_text<K: Sink>(sink: &mut K, text: &Bytes) -> Result<(), WriteError>
    ensures all { OnOk result (K.holds sink.new ≡ behind (K.holds sink.old) text.now) }
    ensures front { PutsFront (K.holds sink.old) (K.holds sink.new) text.now }
    ensures cause { IfErr result (λ error. error ≡ WriteError.Fault) }
    ensures fault { IsErrOf result WriteError.Fault → Rose (K.faults sink.old) (K.faults sink.new) }
    ensures later { K.faults sink.old ≤ K.faults sink.new }
{
    match put_all(sink, text.as_slice()) {
        Ok(()) => Ok(()),
        Err(WriteFault) => Err(WriteError::Fault),
    }
}

/// Writes the line of a row. At an error a front of it was written.
pub fn write_row<K: Sink>(
    alloc: Global,
    header: &Header,
    row: &Row,
    sink: &mut K,
) -> Result<(), WriteError>
    ensures all { OnOk result (K.holds sink.new ≡ behind (K.holds sink.old) (row_line header.now.routers row.now)) }
    ensures front { PutsFront (K.holds sink.old) (K.holds sink.new) (row_line header.now.routers row.now) }
    ensures fault { IsErrOf result WriteError.Fault → Rose (K.faults sink.old) (K.faults sink.new) }
    ensures later { K.faults sink.old ≤ K.faults sink.new }
{
    let mut text = Bytes::new(alloc);
    if push_row(&mut text, header.routers.as_slice(), row).is_err() {
        return Err(WriteError::NoMemory);
    }
    put_text(sink, &text)
}

/// Writes the line `trace`, the lines of the rows, and then what ends them. At an error a front of that was
/// written.
pub fn write_shown<K: Sink>(
    alloc: Global,
    header: &Header,
    rows: &[Row],
    ends: &Bytes,
    sink: &mut K,
) -> Result<(), WriteError>
    ensures all { OnOk result (K.holds sink.new ≡
        behind (K.holds sink.old) (shown_text header.now.routers rows.now ends.now)) }
    ensures front { PutsFront (K.holds sink.old) (K.holds sink.new) (shown_text header.now.routers rows.now ends.now) }
    ensures fault { IsErrOf result WriteError.Fault → Rose (K.faults sink.old) (K.faults sink.new) }
    ensures later { K.faults sink.old ≤ K.faults sink.new }
{
    write_rows(alloc, header, rows, sink)?;
    put_text(sink, ends)
}

/// Writes the line `trace` and the lines of the rows. At an error a front of that was written.
fn write_rows<K: Sink>(
    alloc: Global,
    header: &Header,
    rows: &[Row],
    sink: &mut K,
) -> Result<(), WriteError>
    ensures all { OnOk result (K.holds sink.new ≡ behind (K.holds sink.old) (codes "trace\n" ++
        row_lines header.now.routers rows.now)) }
    ensures front { PutsFront (K.holds sink.old) (K.holds sink.new) (codes "trace\n" ++
        row_lines header.now.routers rows.now) }
    ensures fault { IsErrOf result WriteError.Fault → Rose (K.faults sink.old) (K.faults sink.new) }
    ensures later { K.faults sink.old ≤ K.faults sink.new }
{
    let mut text = Bytes::new(alloc);
    if push_first_line(&mut text).is_err() {
        return Err(WriteError::NoMemory);
    }
    put_rows(&mut text, header.routers.as_slice(), rows, sink)
}

/// Writes the line of a router's state. At an error a front of it was written.
pub fn write_state<K: Sink, G: Guest>(
    alloc: Global,
    header: &Header,
    router: u16,
    node: &Node<G>,
    sink: &mut K,
) -> Result<(), WriteError>
    ensures all { OnOk result (K.holds sink.new ≡
        behind (K.holds sink.old) (state_line G.meaning header.now.routers router node.now)) }
    ensures front { PutsFront (K.holds sink.old) (K.holds sink.new)
        (state_line G.meaning header.now.routers router node.now) }
    ensures fault { IsErrOf result WriteError.Fault → Rose (K.faults sink.old) (K.faults sink.new) }
    ensures later { K.faults sink.old ≤ K.faults sink.new }
{
    let mut text = Bytes::new(alloc);
    if push_state(alloc, &mut text, header.routers.as_slice(), router, node).is_err() {
        return Err(WriteError::NoMemory);
    }
    put_text(sink, &text)
}
