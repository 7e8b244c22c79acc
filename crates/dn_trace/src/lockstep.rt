//! Writing the trace of a lockstep run.

ghost use Rattle.std.specs.Prelude.{◌≡◌, ◌≤◌, length, IfOk, OnOk, IsErrOf};
ghost use Rattle.dn_io.specs.Streams.{Rose, behind, PutsFront};
ghost use Rattle.dn_model.specs.Network.{Network};
ghost use Rattle.dn_trace.specs.Trace.{trace_text};
ghost use Rattle.dn_trace.specs.Streaming.{IsRunOf, EndsAs};

use crate::stream::{Ending, TraceText};
use crate::write::{WriteError, put_text};
use crate::writer::put_if_full;
use dn_guest::{Bytes, Guest};
use dn_io::Sink;
use dn_model::Case;
use std::alloc::Global;

/// Writes the trace of the case's lockstep run with these guests at routers 0, 1, .. It holds the queue
/// and the nodes of the run and some 64 KiB of text, and never the whole trace. At an error a front of
/// the trace was written.
pub fn write_trace<G: Guest, K: Sink>(
    alloc: Global,
    case: &Case,
    guests: Vec<G>,
    sink: &mut K,
) -> Result<Ending, WriteError>
    requires { length guests.items ≡ length case.now.header.routers }
    ensures whole { (net : Network G) → IsRunOf net G.meaning case.now.header guests.items →
        OnOk result (K.holds sink.new ≡ behind (K.holds sink.old) (trace_text net case.now.feed)) }
    ensures ending { (net : Network G) → IsRunOf net G.meaning case.now.header guests.items →
        IfOk result (EndsAs net case.now.feed) }
    ensures front { (net : Network G) → IsRunOf net G.meaning case.now.header guests.items →
        PutsFront (K.holds sink.old) (K.holds sink.new) (trace_text net case.now.feed) }
    ensures fault { IsErrOf result WriteError.Fault → Rose (K.faults sink.old) (K.faults sink.new) }
    ensures later { K.faults sink.old ≤ K.faults sink.new }
{
    let Ok(mut trace) = TraceText::new(alloc, case, guests) else {
        return Err(WriteError::NoMemory);
    };
    let routers = case.header.routers.as_slice();
    let mut text = Bytes::new(alloc);
    'pieces: loop {
        if let Some(ending) = trace.ended() {
            put_text(sink, &text)?;
            return Ok(ending);
        }
        put_if_full(&mut text, sink)?;
        let Ok(()) = trace.push_next(alloc, routers, &mut text) else {
            return Err(WriteError::NoMemory);
        };
    }
}
