//! The router's own LSA (RFC 2328 sections 12.1.6 and 12.4).

ghost use Rattle.std.specs.Prelude.{◌≡◌, ◌↔◌, ◌≤◌, IsNone, IfOk, IfSome, OnOk, OnErr, IsSomeAnd, length, option_copied};
ghost use Rattle.ospf_lsdb.specs.Keys.{own_key};
ghost use Rattle.ospf_lsdb.specs.Database.{kept_at, originated, own_lsa, next_sequence_number};

use crate::key::own_key;
use crate::{Kept, LsaKey, Lsdb};
use dn_guest::Bytes;
use ospf_wire::{
    INITIAL_SEQUENCE_NUMBER, Lsa, LsaBody, LsaHeader, MAX_SEQUENCE_NUMBER, OWN_OPTIONS,
    ROUTER_LSA_TYPE, fletcher_set,
};
use std::alloc::AllocError;

/// The sequence number behind that of the own LSA, and the first if there is no own LSA (RFC 2328 section
/// 12.1.6).
fn next_sequence_number(own: Option<&Kept>) -> Option<u32>
    ensures { result ≡ next_sequence_number (option_copied own.entry) }
{
    match own {
        // RFC 2328 section 12.1.6: an LSA begins with InitialSequenceNumber.
        None => Some(INITIAL_SEQUENCE_NUMBER),
        // This profile: nothing comes behind MaxSequenceNumber until the LSA has aged out.
        Some(kept) if kept.lsa.head.seq == MAX_SEQUENCE_NUMBER => None,
        Some(kept) => Some(kept.lsa.head.seq.wrapping_add(1)),
    }
}

/// A router's own LSA with this sequence number and body.
fn own_lsa(router: u32, seq: u32, body: LsaBody) -> Lsa
    requires { length body ≤ 1380 }
    ensures { result ≡ own_lsa router seq body }
{
    let mut lsa = Lsa {
        head: LsaHeader {
            age: 0,
            options: OWN_OPTIONS,
            kind: ROUTER_LSA_TYPE,
            id: router,
            router,
            seq,
            sum: 0,
            length: (20 + body.len()) as u16,
        },
        body,
    };
    fletcher_set(&mut lsa);
    lsa
}

impl Lsdb {
    /// Originates the router's own LSA with this body at this tick (RFC 2328 section 12.4): the next sequence
    /// number, and the first if there is no own LSA. If it is at MaxSequenceNumber nothing happens.
    pub fn originate(
        &mut self,
        router: u32,
        body: Bytes,
        now: u32,
    ) -> Result<Option<LsaKey>, AllocError>
        requires { length body ≤ 1380 }
        ensures key { IfOk result (λ made. IfSome made (λ key. key ≡ own_key router)) }
        ensures none { IfOk result (λ made. IsNone made
            ↔ IsSomeAnd (kept_at self.old (own_key router)) (λ k. k.lsa.head.seq ≡ MAX_SEQUENCE_NUMBER)) }
        ensures database { OnOk result (self.new ≡ originated self.old router body now) }
        ensures err { OnErr result (self.new ≡ self.old) }
    {
        let key = own_key(router);
        let Some(seq) = next_sequence_number(self.get(&key)) else {
            return Ok(None);
        };
        let lsa = own_lsa(router, seq, LsaBody::new(body)?);
        self.install(lsa, now, false, false)?;
        Ok(Some(key))
    }
}
