// Reading to the end.
ghost use Rattle.std.specs.Prelude.{◌≡◌, ◌≢◌, ◌<◌, ◌≤◌, IfOk, OnOk, IfSome, IsErrOf, Err, [], length};
ghost use Rattle.dn_io.specs.Streams.{Rose, Gives};

use crate::{Source, Took};
use std::alloc::Global;
use thiserror::Error;

/// Why reading to the end stopped before it.
#[derive(Clone, Copy, Debug, PartialEq, Eq, Error)]
pub enum ReadError {
    /// The source failed.
    #[error("the source failed")]
    Fault,
    /// More bytes came than the limit allows.
    #[error("more bytes came than are allowed")]
    TooBig,
    /// There was no memory for the bytes that came.
    #[error("out of memory")]
    NoMemory,
}

/// How many bytes are asked for at once.
const PIECE: usize = 8192;

/// Reads to the end, at most `limit` bytes. Bytes that came before an error are gone from the source.
pub fn read_all<S: Source>(alloc: Global, source: &mut S, limit: u64) -> Result<Vec<u8>, ReadError>
    // All that was left.
    ensures all { IfOk result (λ all. IfSome (S.left source.old) (λ left. left ≡ all.items)) }
    ensures none_left { OnOk result (IfSome (S.left source.new) (λ left. left ≡ [])) }
    ensures small { IfOk result (λ all. length all.items ≤ limit) }

    // What came is a front of what was left. It is more than `limit` bytes exactly at TooBig.
    ensures over_limit { IsErrOf result ReadError.TooBig
        → Gives (S.left source.old) (S.left source.new) (λ came. limit < length came) }
    ensures within_limit { result ≢ Err ReadError.TooBig
        → Gives (S.left source.old) (S.left source.new) (λ came. length came ≤ limit) }
    ensures too_big { IsErrOf result ReadError.TooBig
        → IfSome (S.left source.old) (λ left. limit < length left) }

    ensures fault { IsErrOf result ReadError.Fault → Rose (S.faults source.old) (S.faults source.new) }
    ensures later { S.faults source.old ≤ S.faults source.new }
{
    let mut all: Vec<u8> = Vec::new(alloc);
    let mut buffer = [0u8; PIECE];
    loop {
        match source.read(&mut buffer) {
            Took::Bytes(count) => {
                if count > limit - all.len() as u64 {
                    return Err(ReadError::TooBig);
                }
                if all.extend_from_slice(&buffer[..count as usize]).is_err() {
                    return Err(ReadError::NoMemory);
                }
            }
            Took::End => return Ok(all),
            Took::Failed => return Err(ReadError::Fault),
        }
    }
}
