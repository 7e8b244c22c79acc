//! The line of a status.

ghost use Rattle.std.specs.Prelude.{◌≡◌, OnOk, IsErrOf};
ghost use Rattle.defined.specs.declared.telling.Untold.TheVariants.{Fault, NoMemory};
ghost use Rattle.dn_io.specs.Streams.{Rose, behind, PutsFront};
ghost use Rattle.dn_top.specs.Lines.{status_line};

use dn_guest::Bytes;
use dn_io::{Sink, put_all};
use dn_top::{Status, status_line};
use std::alloc::Global;

/// Why the line wasn't written whole.
#[derive(Clone, Copy, Debug)]
pub(crate) enum Untold {
    /// The sink failed; a front of the line was written.
    Fault,
    /// There was no memory for the line; nothing was written.
    NoMemory,
}

/// Writes the status's line whole, in as many writes as the sink needs.
pub(crate) fn tell<K: Sink>(alloc: Global, status: &Status, sink: &mut K) -> Result<(), Untold>
    ensures all { OnOk result (K.holds sink.new ≡ behind (K.holds sink.old) (status_line status.now)) }
    ensures front { IsErrOf result Untold.Fault
        → PutsFront (K.holds sink.old) (K.holds sink.new) (status_line status.now) }
    ensures fault { IsErrOf result Untold.Fault → Rose (K.faults sink.old) (K.faults sink.new) }
    ensures none { IsErrOf result Untold.NoMemory → K.holds sink.new ≡ K.holds sink.old }
{
    let Ok(line) = status_line(alloc, status) else {
        return Err(Untold::NoMemory);
    };
    match put_all(sink, line.as_slice()) {
        Ok(()) => Ok(()),
        Err(_) => Err(Untold::Fault),
    }
}
