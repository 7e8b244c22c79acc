//! What stands behind the header of an LSA (RFC 2328 appendix A.4).

ghost use Rattle.std.specs.Prelude.{◌≡◌, length, IfOk, nat_eq};
ghost use Rattle.std.proofs.Common.{rules};
ghost use Rattle.std.specs.Cmp.Rules.{comparing};
ghost use Rattle.std.specs.Cmp.Lexicographic.{pointwise};

use bytes::Bytes as SharedBytes;
use dn_guest::Bytes;
use std::alloc::{AllocError, Global};
use std::marker::Model;

/// The bytes behind the header of an LSA. They never change, so copies share them: a copy takes no memory.
#[derive(Drop)]
pub struct LsaBody {
    shared: SharedBytes,
}

impl Model for LsaBody {
    ghost use Rattle.std.specs.Prelude.{List, ℕ};

    ghost Value = { List ℕ };

    ghost view = { λ b. b.shared };
}

impl LsaBody {
    /// These bytes. They aren't copied; what is taken is the memory to share them.
    pub fn new(bytes: Bytes) -> Result<LsaBody, AllocError>
        ensures { IfOk result (λ made. made ≡ bytes) }
    {
        Ok(LsaBody {
            shared: SharedBytes::from_vec(bytes.into_vec())?,
        })
    }

    /// A copy of the slice.
    pub fn from_slice(alloc: Global, of: &[u8]) -> Result<LsaBody, AllocError>
        ensures { IfOk result (λ made. made ≡ of.now) }
    {
        Ok(LsaBody {
            shared: SharedBytes::copy_from_slice(alloc, of)?,
        })
    }

    /// The bytes as a slice.
    pub fn as_slice(&self) -> &[u8]
        ensures { result.now ≡ self.now }
    {
        self.shared.as_slice()
    }

    /// How many bytes there are.
    pub fn len(&self) -> usize
        ensures { result ≡ length self.now }
    {
        self.shared.len()
    }
}

impl PartialEq for LsaBody {
    ghost eq = { pointwise nat_eq };

    ghost laws = { Prim.search (comparing, rules) };

    fn eq(&self, other: &LsaBody) -> bool {
        self.shared.as_slice() == other.shared.as_slice()
    }
}

impl Eq for LsaBody {
    ghost laws = { Prim.search (comparing, rules) };
}

impl Clone for LsaBody {
    ghost is_clone = { λ one other. other ≡ one };

    fn clone(&self) -> Result<LsaBody, AllocError> {
        Ok(LsaBody {
            shared: self.shared.clone()?,
        })
    }
}
