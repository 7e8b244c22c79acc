//! Single rows and states, and rows that come in pieces: the commands write their traces otherwise.

use crate::calls::{node, smallest};
use crate::commands::sink;
use dn_guest::NoMemory;
use dn_io::MemSink;
use dn_model::{Event, Header};
use dn_trace::{TraceWriter, WriteError, write_row, write_state};
use std::alloc::Global;

/// Writes a row and a state by themselves. Whether both were written.
fn writes_both(alloc: Global, header: &Header, sink: &mut MemSink) -> bool {
    write_row(alloc, header, &Event::tick(0, 0), sink).is_ok()
        && write_state(alloc, header, 0, &node(alloc, 12), sink).is_ok()
}

/// Writes a row that comes in a piece.
fn write_piece(alloc: Global, header: &Header, sink: &mut MemSink) -> Result<(), WriteError> {
    let mut rows = Vec::new(alloc);
    if rows.push(Event::tick(0, 0)).is_err() {
        return Err(WriteError::NoMemory);
    }
    TraceWriter::new(alloc).rows(header, rows.as_slice(), sink)
}

/// What both write.
const WRITTEN: &[u8] =
    b"0 0 t 0000000000000000 0 0 a tick\nstate a 12 0001 0000\ntrace\n0 0 t 0000000000000000 0 0 a tick\n";

#[test]
fn rows_and_states(rt: HostRuntime) -> Result<(), NoMemory> {
    let case = smallest(rt.alloc())?;
    let mut sink = sink(rt.alloc(), 9, 99)?;
    assert!(rt; writes_both(rt.alloc(), &case.header, &mut sink));
    assert!(rt; write_piece(rt.alloc(), &case.header, &mut sink).is_ok());
    assert!(rt; sink.as_slice() == WRITTEN);
    Ok(())
}
