//! The body of a Link State Acknowledgement (RFC 2328 appendix A.3.6).

ghost use Rattle.std.specs.Prelude.{◌≡◌, ◌++◌, All, IfOk, OnOk};
ghost use Rattle.ospf_wire.specs.Lsas.{header_of, headers_bytes, FitsHeader};
ghost use Rattle.ospf_wire.specs.Reading.{all_pieces};

use crate::fields::bytes_from;
use crate::lsa::{header_bytes, read_header};
use crate::{LsaHeader, LsaHeaders};
use std::alloc::{AllocError, Global};

/// The headers that fill these bytes, if their number is a multiple of 20.
#[tactic(auto, unfolding(crate::specs::Reading::all_pieces))]
pub fn read_headers(alloc: Global, bytes: &[u8]) -> Result<Option<LsaHeaders>, AllocError>
    ensures { IfOk result (λ found. found ≡ all_pieces 20 header_of bytes.now) }
{
    if bytes.len() % 20 != 0 {
        return Ok(None);
    }
    let count = bytes.len() / 20;
    let mut headers = Vec::with_capacity(alloc, count)?;
    for place in 0..count {
        headers.push(read_header(bytes_from(bytes, 20 * place)))?;
    }
    Ok(Some(LsaHeaders::from_vec(headers)))
}

/// Appends headers.
pub fn push_headers(headers: &[LsaHeader], out: &mut Vec<u8>) -> Result<(), AllocError>
    ensures bytes { OnOk result (out.new.items ≡ out.old.items ++ headers_bytes headers.now) }
    ensures fits { OnOk result (All FitsHeader headers.now) }
{
    for head in headers {
        out.extend_from_slice(&header_bytes(*head))?;
    }
    Ok(())
}
