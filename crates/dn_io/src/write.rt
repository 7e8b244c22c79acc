// Writing all of some bytes.
ghost use Rattle.std.specs.Prelude.{◌≡◌, ◌<◌, ◌≤◌, OnOk, OnErr, length, take};
ghost use Rattle.dn_io.specs.Streams.{Rose, behind, PutsFront};

use crate::{Put, Sink};
use thiserror::Error;

/// The sink failed.
#[derive(Clone, Copy, Debug, PartialEq, Eq, Error)]
#[error("the sink failed")]
pub struct WriteFault;

/// Writes all of the bytes. At a fault a front of them was written. It takes no memory.
pub fn put_all<K: Sink>(sink: &mut K, bytes: &[u8]) -> Result<(), WriteFault>
    ensures all { OnOk result (K.holds sink.new ≡ behind (K.holds sink.old) bytes.now) }
    ensures front { PutsFront (K.holds sink.old) (K.holds sink.new) bytes.now }
    ensures fault { OnErr result (Rose (K.faults sink.old) (K.faults sink.new)) }
    ensures later { K.faults sink.old ≤ K.faults sink.new }
{
    if put_front(sink, bytes) < bytes.len() {
        return Err(WriteFault);
    }
    Ok(())
}

/// Writes the bytes until the sink fails, and gives how many of them it took. Fewer than all of them
/// is a fault.
fn put_front<K: Sink>(sink: &mut K, bytes: &[u8]) -> usize
    ensures within { result ≤ length bytes.now }
    ensures put { K.holds sink.new ≡ behind (K.holds sink.old) (take result bytes.now) }
    ensures fault { result < length bytes.now → Rose (K.faults sink.old) (K.faults sink.new) }
    ensures later { K.faults sink.old ≤ K.faults sink.new }
{
    let mut done = 0usize;
    while done < bytes.len() {
        match sink.write(&bytes[done..]) {
            Put::Bytes(count) => done += count as usize,
            Put::Failed => return done,
        }
    }
    done
}
