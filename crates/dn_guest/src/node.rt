//! A node: a guest with its mask of up ports and the count of what it has sent.

ghost use Rattle.std.specs.Prelude.{◌≡◌, ◌↔◌, ◌+◌, ◌%◌, ◌^◌, length, IsTrue, IfOk, OnOk};
ghost use Rattle.dn_guest.specs.Node.{ports_after, is_taken, going, numbered, node_after, node_sent};

use crate::ports::{is_up, with_down, with_up};
use crate::{Bytes, Guest, Input, Outbox};
use std::alloc::{AllocError, Global};

/// An output with its number.
#[derive(Drop)]
pub struct Sent {
    /// The number among all that the node sends, from 0, wrapping at 64 bits.
    pub seq: u64,
    pub port: u8,
    pub body: Bytes,
}

/// A guest, the mask of its up ports and the count of its sends.
#[derive(Drop)]
pub struct Node<G> {
    pub guest: G,
    pub ports: u16,
    pub sends: u64,
}

impl<G: Guest> Node<G> {
    /// Takes an input, and gives what is sent, in order. A port change is noted before the guest is
    /// told; a message on a port that is down does nothing; an output on such a port takes no number.
    /// After `NoMemory` nothing is said of the node: the caller drops it.
    #[tactic(auto, unfolding(crate::specs::Node::node_after, crate::specs::Node::node_sent))]
    pub fn take(&mut self, alloc: Global, input: &Input) -> Result<Vec<Sent>, AllocError>
        ensures state { OnOk result (self.new ≡ node_after G.meaning self.old input.now) }
        ensures sent { IfOk result (λ sent. sent.items ≡ node_sent G.meaning self.old input.now) }
    {
        if !is_taken(self.ports, input) {
            return Ok(Vec::new(alloc));
        }
        self.ports = ports_after(self.ports, input);
        let mut out = Outbox::new(alloc);
        self.guest.step(alloc, self.ports, input, &mut out)?;
        numbered(alloc, self.ports, &mut self.sends, out)
    }

    /// An equal node.
    pub fn fork(&self, alloc: Global) -> Result<Node<G>, AllocError>
        ensures { IfOk result (λ made. made ≡ self.now) }
    {
        Ok(Node {
            guest: self.guest.fork(alloc)?,
            ports: self.ports,
            sends: self.sends,
        })
    }

    /// Whether guest, mask and count are equal.
    pub fn same(&self, other: &Node<G>) -> bool
        ensures { IsTrue result ↔ (self.now ≡ other.now) }
    {
        self.ports == other.ports && self.sends == other.sends && self.guest.same(&other.guest)
    }
}

/// Whether the guest is given the input.
fn is_taken(ports: u16, input: &Input) -> bool
    ensures { result ≡ is_taken ports input.now }
{
    match input {
        Input::Msg(port, _) => is_up(ports, *port),
        Input::Tick(_) | Input::Cmd(_) | Input::Down(_) | Input::Up(_) => true,
    }
}

/// The mask after the input.
fn ports_after(ports: u16, input: &Input) -> u16
    ensures { result ≡ ports_after ports input.now }
{
    match input {
        Input::Down(port) => with_down(ports, *port),
        Input::Up(port) => with_up(ports, *port),
        Input::Tick(_) | Input::Cmd(_) | Input::Msg(_, _) => ports,
    }
}

/// Numbers the outputs on up ports and drops the others.
fn numbered(
    alloc: Global,
    ports: u16,
    sends: &mut u64,
    out: Outbox,
) -> Result<Vec<Sent>, AllocError>
    ensures sends { OnOk result (sends.new ≡ (sends.old + length (going ports out)) % 2 ^ 64) }
    ensures sent { IfOk result (λ sent. sent.items ≡ numbered sends.old (going ports out)) }
{
    let mut sent = Vec::new(alloc);
    let mut seq = *sends;
    for output in out.into_vec() {
        if is_up(ports, output.port) {
            sent.push(Sent {
                seq,
                port: output.port,
                body: output.body,
            })?;
            seq = seq.wrapping_add(1);
        }
    }
    *sends = seq;
    Ok(sent)
}
