//! A Link State Acknowledgement that comes (RFC 2328 section 13.7).

ghost use Rattle.std.specs.Prelude.{◌≡◌, ◌<◌, length, option_copied};
ghost use Rattle.ospf_router.specs.ReceiveAcknowledgement.{receive_acknowledgement, receive_header, is_copy};

use crate::router::Router;
use ospf_lsdb::{Kept, key_of};
use ospf_wire::{LsaHeader, newer};
use std::cmp::Ordering;

/// Whether the copy in the database is of the instance that is acknowledged (RFC 2328 sections 13.1 and
/// 13.7).
fn is_copy(now: u32, head: &LsaHeader, copy: Option<&Kept>) -> bool
    ensures { result ≡ is_copy now head.now (option_copied copy.entry) }
{
    match copy {
        // RFC 2328 section 13.7: no instance is on the list.
        None => false,
        // Section 13.7; this profile: the copy in the database stands for the instance on the list.
        Some(kept) => newer(head, &kept.header_now(now)) == Ordering::Equal,
    }
}

impl Router {
    /// One header: the LSA leaves the port's list if the copy is of its instance (RFC 2328 section 13.7).
    #[tactic(auto, unfolding(crate::specs::ReceiveAcknowledgement::receive_header))]
    fn receive_header(&mut self, port: u8, head: &LsaHeader)
        requires { port < length self.old.interfaces.ports }
        ensures state { self.new ≡ receive_header port self.old head.now }
        ensures count { length self.new.interfaces.ports ≡ length self.old.interfaces.ports }
    {
        let key = key_of(head);
        if is_copy(self.now(), head, self.db.get(&key)) {
            self.interfaces.unlist(port, &key);
        }
    }

    /// An Acknowledgement that comes on a port from a Full neighbour (RFC 2328 section 13.7).
    #[tactic(auto, unfolding(crate::specs::ReceiveAcknowledgement::receive_acknowledgement))]
    pub fn receive_acknowledgement(&mut self, port: u8, heads: &[LsaHeader])
        requires { port < length self.old.interfaces.ports }
        ensures { self.new ≡ receive_acknowledgement port heads.now self.old }
    {
        for head in heads {
            self.receive_header(port, head);
        }
    }
}
